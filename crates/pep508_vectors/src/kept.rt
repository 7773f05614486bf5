//! Answers on a requirement that is restricted to an extra where memory runs out.

ghost use Rattle.pep508_tree.specs.Meaning.{IsTree};

use crate::meant::{environment, with_extra};
use crate::names;
use pep508_environment::MarkerEnvironment;
use pep508_name::ExtraName;
use pep508_requirement::Requirement;
use pep508_requirement_ref::RequirementRef;
use pep508_tree::Interner;
use pep508_tree_laws::earlier_trees_keep;
use pep508_url::VerbatimUrl;
use std::alloc::{AllocError, Global};

/// Returns whether a requirement applies and its print, and the print of it restricted to an extra. Where
/// that runs out of memory it is made again; it is `lost` if the requirement then applies otherwise or has
/// another print.
pub fn keeps(
    alloc: Global,
    interner: &mut Interner,
    read: &Requirement<VerbatimUrl>,
    extra: &str,
) -> Result<String, AllocError>
    requires { IsTree interner.old.nodes read.now.marker }
{
    match ExtraName::from_str(alloc, extra) {
        Ok(extra) => restricted(alloc, interner, read, &extra),
        Err(error) => names::refused(alloc, &error),
    }
}

fn restricted(
    alloc: Global,
    interner: &mut Interner,
    read: &Requirement<VerbatimUrl>,
    extra: &ExtraName,
) -> Result<String, AllocError>
    requires { IsTree interner.old.nodes read.now.marker }
{
    let environment = environment(alloc)?;
    restricted_in(alloc, interner, read, extra, &environment)
}

fn restricted_in(
    alloc: Global,
    interner: &mut Interner,
    read: &Requirement<VerbatimUrl>,
    extra: &ExtraName,
    environment: &MarkerEnvironment,
) -> Result<String, AllocError>
    requires { IsTree interner.old.nodes read.now.marker }
{
    let before = told(alloc, interner, read, environment)?;
    let asked = made_again(alloc, interner, read, extra, environment, &before)?;
    format!(in alloc; "{before} / {asked}")
}

/// Returns whether a requirement applies without extras, and its print.
fn told(
    alloc: Global,
    interner: &Interner,
    read: &Requirement<VerbatimUrl>,
    environment: &MarkerEnvironment,
) -> Result<String, AllocError>
    requires { IsTree interner.now.nodes read.now.marker }
{
    let applies = read.evaluate_markers(interner, environment, &[]);
    let shown = RequirementRef::new(alloc, interner, read);
    format!(in alloc; "{applies}: {shown}")
}

/// Returns the print of the restricted requirement, at the second attempt where the first runs out of memory.
fn made_again(
    alloc: Global,
    interner: &mut Interner,
    read: &Requirement<VerbatimUrl>,
    extra: &ExtraName,
    environment: &MarkerEnvironment,
    before: &str,
) -> Result<String, AllocError>
    requires { IsTree interner.old.nodes read.now.marker }
{
    earlier_trees_keep();
    match with_extra(alloc, interner, read, extra) {
        Ok(text) => Ok(text),
        Err(_) => after_refusal(alloc, interner, read, extra, environment, before),
    }
}

fn after_refusal(
    alloc: Global,
    interner: &mut Interner,
    read: &Requirement<VerbatimUrl>,
    extra: &ExtraName,
    environment: &MarkerEnvironment,
    before: &str,
) -> Result<String, AllocError>
    requires { IsTree interner.old.nodes read.now.marker }
{
    if is_as_before(alloc, interner, read, environment, before)? {
        with_extra(alloc, interner, read, extra)
    } else {
        String::from_str(alloc, "lost")
    }
}

fn is_as_before(
    alloc: Global,
    interner: &Interner,
    read: &Requirement<VerbatimUrl>,
    environment: &MarkerEnvironment,
    before: &str,
) -> Result<bool, AllocError>
    requires { IsTree interner.now.nodes read.now.marker }
{
    let after = told(alloc, interner, read, environment)?;
    Ok(after.as_str() == before)
}
