//! Answers on requirements without a name.

ghost use Rattle.std.specs.Prelude.{IfOk};
ghost use Rattle.pep508_tree.specs.Meaning.{IsTree};

use crate::answers::DIRECTORY;
use crate::meant;
use crate::requirements::{is_in_workspace, push_extras, refused, when};
use pep508_error::Pep508Error;
use pep508_marker::Silent;
use pep508_name::RequirementOrigin;
use pep508_requirement::UnnamedRequirement;
use pep508_requirement_ref::UnnamedRequirementRef;
use pep508_tree::Interner;
use pep508_url::{Vars, VerbatimUrl};
use serde_json::Value;
use std::alloc::{AllocError, Global};
use std::fmt::Write;

/// Returns the answer to a question on a requirement without a name; `no question` for another kind.
pub fn answer(
    alloc: Global,
    vars: &Vars,
    kind: &str,
    text: &str,
    other: &str,
) -> Result<String, AllocError> {
    match kind {
        "unnamed" | "unnamed-copy" | "unnamed-print" | "unnamed-meant" => {
            of_text(alloc, vars, kind, text, other)
        }
        _ => String::from_str(alloc, "no question"),
    }
}

fn of_text(
    alloc: Global,
    vars: &Vars,
    kind: &str,
    text: &str,
    other: &str,
) -> Result<String, AllocError> {
    let mut interner = Interner::new(alloc);
    match read(alloc, &mut interner, vars, kind, text) {
        Ok(read) => told(alloc, &interner, kind, &read, other),
        Err(error) => refused(alloc, kind, &error),
    }
}

/// Reads the requirement of a text, in the directory or in none.
fn read(
    alloc: Global,
    interner: &mut Interner,
    vars: &Vars,
    kind: &str,
    text: &str,
) -> Result<UnnamedRequirement<VerbatimUrl>, Pep508Error<VerbatimUrl>>
    ensures { IfOk result (λ read. IsTree interner.new.nodes read.marker) }
{
    match kind {
        "unnamed" | "unnamed-print" => {
            UnnamedRequirement::parse(alloc, interner, vars, text, Some(DIRECTORY), &mut Silent)
        }
        _ => UnnamedRequirement::from_str(alloc, interner, vars, text),
    }
}

fn told(
    alloc: Global,
    interner: &Interner,
    kind: &str,
    read: &UnnamedRequirement<VerbatimUrl>,
    other: &str,
) -> Result<String, AllocError>
    requires { IsTree interner.now.nodes read.now.marker }
{
    match kind {
        "unnamed" => parts(alloc, read),
        "unnamed-copy" => copied(alloc, read),
        "unnamed-print" => printed(alloc, interner, read),
        _ => meant::without_name(alloc, interner, read, other),
    }
}

fn parts(alloc: Global, read: &UnnamedRequirement<VerbatimUrl>) -> Result<String, AllocError> {
    let mut text = read.url.to_string(alloc)?;
    push_parts(&mut text, read)?;
    Ok(text)
}

fn push_parts(text: &mut String, read: &UnnamedRequirement<VerbatimUrl>) -> Result<(), AllocError> {
    push_extras(text, &read.extras)?;
    let (given, when) = (read.url.given().unwrap_or(""), when(read.marker));
    write!(text, " given {given}{when}")
}

/// Returns the contents of a requirement's copy, and whether it is equal.
fn copied(alloc: Global, read: &UnnamedRequirement<VerbatimUrl>) -> Result<String, AllocError> {
    let copy = read.try_clone(alloc)?;
    let is_same = copy == *read && copy.url.given() == read.url.given();
    placed(
        alloc,
        &copy.with_origin(RequirementOrigin::Workspace),
        is_same,
    )
}

fn placed(
    alloc: Global,
    read: &UnnamedRequirement<VerbatimUrl>,
    is_same: bool,
) -> Result<String, AllocError> {
    let (given, count) = (read.url.given().unwrap_or(""), read.extras.len());
    let is_placed = is_in_workspace(&read.origin);
    format!(in alloc; "given {given}, {count} extras, equal {is_same}, in a workspace {is_placed}")
}

/// Returns the print of a requirement, which is the text of its JSON value too.
fn printed(
    alloc: Global,
    interner: &Interner,
    read: &UnnamedRequirement<VerbatimUrl>,
) -> Result<String, AllocError>
    requires { IsTree interner.now.nodes read.now.marker }
{
    let shown = UnnamedRequirementRef::new(alloc, interner, read);
    let value = shown.to_value(alloc)?;
    let is_same = is_text(&value, &format!(in alloc; "{shown}")?);
    let other = if is_same { "" } else { " as another value" };
    format!(in alloc; "{shown}{other}")
}

fn is_text(value: &Value, text: &str) -> bool {
    match value.as_str() {
        Some(held) => held == text,
        None => false,
    }
}
