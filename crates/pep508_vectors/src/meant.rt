//! Answers on when requirements apply.

ghost use Rattle.pep508_tree.specs.Meaning.{IsTree, Extends};

use crate::names;
use pep508_environment::{MarkerEnvironment, MarkerEnvironmentBuilder};
use pep508_marker::MarkerWarningKind;
use pep508_name::ExtraName;
use pep508_requirement::{Requirement, UnnamedRequirement};
use pep508_requirement_ref::RequirementRef;
use pep508_tree::Interner;
use pep508_url::VerbatimUrl;
use std::alloc::{AllocError, Global};
use std::fmt::Write;

/// The environment for which requirements are evaluated.
const ENVIRONMENT: MarkerEnvironmentBuilder<'static> = MarkerEnvironmentBuilder {
    implementation_name: "cpython",
    implementation_version: "3.11.4",
    os_name: "posix",
    platform_machine: "x86_64",
    platform_python_implementation: "CPython",
    platform_release: "5.4",
    platform_system: "Linux",
    platform_version: "#1",
    python_full_version: "3.11.4",
    python_version: "3.11",
    sys_platform: "linux",
};

pub fn environment(alloc: Global) -> Result<MarkerEnvironment, AllocError> {
    match MarkerEnvironment::try_from(alloc, ENVIRONMENT) {
        Ok(environment) => Ok(environment),
        Err(_) => Err(AllocError),
    }
}

/// Returns whether a requirement applies with an extra in the environment, with the warnings of that, and
/// in any.
pub fn of_name(
    alloc: Global,
    interner: &Interner,
    read: &Requirement<VerbatimUrl>,
    extra: &str,
) -> Result<String, AllocError>
    requires { IsTree interner.now.nodes read.now.marker }
{
    match ExtraName::from_str(alloc, extra) {
        Ok(extra) => reported(alloc, interner, read, &[extra]),
        Err(error) => names::refused(alloc, &error),
    }
}

fn reported(
    alloc: Global,
    interner: &Interner,
    read: &Requirement<VerbatimUrl>,
    extras: &[ExtraName],
) -> Result<String, AllocError>
    requires { IsTree interner.now.nodes read.now.marker }
{
    let environment = environment(alloc)?;
    evaluated(alloc, interner, read, &environment, extras)
}

fn evaluated(
    alloc: Global,
    interner: &Interner,
    read: &Requirement<VerbatimUrl>,
    environment: &MarkerEnvironment,
    extras: &[ExtraName],
) -> Result<String, AllocError>
    requires { IsTree interner.now.nodes read.now.marker }
{
    let is_meant = read.evaluate_markers(interner, environment, extras);
    let is_anywhere = read.evaluate_extras_and_python_version(alloc, interner, extras, &[])?;
    let (holds, warnings) = read.evaluate_markers_and_report(alloc, interner, environment, extras)?;
    listed(alloc, (is_meant, holds), is_anywhere, &warnings)
}

fn listed(
    alloc: Global,
    (is_meant, holds): (bool, bool),
    is_anywhere: bool,
    warnings: &[(MarkerWarningKind, String)],
) -> Result<String, AllocError> {
    let mut text = told(alloc, is_meant, holds, is_anywhere)?;
    for (kind, warning) in warnings.iter() {
        push_warning(&mut text, *kind, warning)?;
    }
    Ok(text)
}

/// Returns the answer on which two calls agree, and that for any environment; `two answers` where they
/// disagree.
fn told(
    alloc: Global,
    is_meant: bool,
    holds: bool,
    is_anywhere: bool,
) -> Result<String, AllocError> {
    if is_meant == holds {
        format!(in alloc; "{holds}, anywhere {is_anywhere}")
    } else {
        String::from_str(alloc, "two answers")
    }
}

fn push_warning(
    text: &mut String,
    kind: MarkerWarningKind,
    warning: &str,
) -> Result<(), AllocError> {
    write!(text, " / {kind:?}: {warning}")
}

/// Returns whether a requirement without a name applies with an extra in the environment, and in any.
pub fn without_name(
    alloc: Global,
    interner: &Interner,
    read: &UnnamedRequirement<VerbatimUrl>,
    extra: &str,
) -> Result<String, AllocError>
    requires { IsTree interner.now.nodes read.now.marker }
{
    match ExtraName::from_str(alloc, extra) {
        Ok(extra) => unnamed_told(alloc, interner, read, &[extra]),
        Err(error) => names::refused(alloc, &error),
    }
}

fn unnamed_told(
    alloc: Global,
    interner: &Interner,
    read: &UnnamedRequirement<VerbatimUrl>,
    extras: &[ExtraName],
) -> Result<String, AllocError>
    requires { IsTree interner.now.nodes read.now.marker }
{
    let environment = environment(alloc)?;
    unnamed_evaluated(alloc, interner, read, &environment, extras)
}

fn unnamed_evaluated(
    alloc: Global,
    interner: &Interner,
    read: &UnnamedRequirement<VerbatimUrl>,
    environment: &MarkerEnvironment,
    extras: &[ExtraName],
) -> Result<String, AllocError>
    requires { IsTree interner.now.nodes read.now.marker }
{
    let holds = read.evaluate_markers(interner, environment, extras);
    let is_there = read.evaluate_optional_environment(alloc, interner, Some(environment), extras)?;
    let is_anywhere = read.evaluate_optional_environment(alloc, interner, None, extras)?;
    told(alloc, is_there, holds, is_anywhere)
}

/// Returns the print of a requirement that is restricted to an extra too, or what is wrong with the extra.
pub fn with_name(
    alloc: Global,
    interner: &mut Interner,
    read: &Requirement<VerbatimUrl>,
    extra: &str,
) -> Result<String, AllocError>
    requires { IsTree interner.old.nodes read.now.marker }
{
    match ExtraName::from_str(alloc, extra) {
        Ok(extra) => with_extra(alloc, interner, read, &extra),
        Err(error) => names::refused(alloc, &error),
    }
}

/// Returns the print of a requirement that is restricted to an extra too.
pub fn with_extra(
    alloc: Global,
    interner: &mut Interner,
    read: &Requirement<VerbatimUrl>,
    extra: &ExtraName,
) -> Result<String, AllocError>
    requires { IsTree interner.old.nodes read.now.marker }
    ensures keeps { Extends interner.old.nodes interner.new.nodes }
{
    let copy = read.try_clone(alloc)?;
    let asked = copy.with_extra_marker(alloc, interner, extra)?;
    printed(alloc, interner, &asked)
}

fn printed(
    alloc: Global,
    interner: &Interner,
    read: &Requirement<VerbatimUrl>,
) -> Result<String, AllocError>
    requires { IsTree interner.now.nodes read.now.marker }
{
    let shown = RequirementRef::new(alloc, interner, read);
    format!(in alloc; "{shown}")
}
