//! Answers on requirements.

ghost use Rattle.std.specs.Prelude.{IfOk};
ghost use Rattle.pep508_tree.specs.Meaning.{IsTree};

use crate::answers::DIRECTORY;
use crate::{kept, meant, normals, tables, unnamed, warnings};
use pep440_specifier_list::VersionSpecifiers;
use pep508_error::{Pep508Error, Pep508ErrorSource};
use pep508_name::{ExtraName, RequirementOrigin};
use pep508_requirement::{Extras, Requirement, VersionOrUrl, VersionOrUrlRef};
use pep508_requirement_ref::RequirementRef;
use pep508_tree::{Interner, MarkerTree};
use pep508_url::{Vars, VerbatimUrl};
use read_outcome::FromValueError;
use serde_json::Value;
use std::alloc::{AllocError, Global};
use std::fmt::Write;
use url::Url;

/// Returns the answer to a question on requirements, or to one of another kind.
pub fn answer(
    alloc: Global,
    vars: &Vars,
    kind: &str,
    text: &str,
    other: &str,
) -> Result<String, AllocError> {
    match kind {
        "requirement"
        | "picture"
        | "whole"
        | "nowhere"
        | "copy"
        | "print"
        | "meant"
        | "keeps"
        | "with-extra" => of_text(alloc, vars, kind, text, other),
        "keeps table" => tables::keeps(alloc, vars, text, other),
        "normal" => normals::normal_text(alloc, vars, text, other),
        "plain" => plain(alloc, vars, text),
        "extras" => extras(alloc, text),
        "warnings" => warnings::warnings(alloc, vars, text),
        "error of memory" => error_of_memory(alloc),
        _ => unnamed::answer(alloc, vars, kind, text, other),
    }
}

fn of_text(
    alloc: Global,
    vars: &Vars,
    kind: &str,
    text: &str,
    other: &str,
) -> Result<String, AllocError> {
    let mut interner = Interner::new(alloc);
    match read(alloc, &mut interner, vars, kind, text) {
        Ok(read) => told(alloc, vars, &mut interner, kind, &read, other),
        Err(error) => refused(alloc, kind, &error),
    }
}

/// Reads the requirement of a text, in the directory or in none.
fn read(
    alloc: Global,
    interner: &mut Interner,
    vars: &Vars,
    kind: &str,
    text: &str,
) -> Result<Requirement<VerbatimUrl>, Pep508Error<VerbatimUrl>>
    ensures { IfOk result (λ read. IsTree interner.new.nodes read.marker) }
{
    match kind {
        "requirement" | "picture" | "copy" | "print" => {
            Requirement::parse(alloc, interner, vars, text, Some(DIRECTORY))
        }
        _ => Requirement::from_str(alloc, interner, vars, text),
    }
}

/// Returns the answer where a text is not a requirement.
pub fn refused(
    alloc: Global,
    kind: &str,
    error: &Pep508Error<VerbatimUrl>,
) -> Result<String, AllocError> {
    match error.message() {
        Pep508ErrorSource::Memory => Err(AllocError),
        message => match kind {
            "requirement" | "unnamed" => spanned(alloc, error),
            "picture" => error.to_string(alloc),
            "whole" => String::from_str(alloc, error.input()),
            _ => format!(in alloc; "refused: {message}"),
        },
    }
}

/// Returns where and how long the part at fault is, and the message.
fn spanned(alloc: Global, error: &Pep508Error<VerbatimUrl>) -> Result<String, AllocError> {
    let (start, len, message) = (error.start(), error.len(), error.message());
    format!(in alloc; "refused at {start}, {len}: {message}")
}

fn told(
    alloc: Global,
    vars: &Vars,
    interner: &mut Interner,
    kind: &str,
    read: &Requirement<VerbatimUrl>,
    other: &str,
) -> Result<String, AllocError>
    requires { IsTree interner.old.nodes read.now.marker }
{
    match kind {
        "requirement" => parts(alloc, read),
        "picture" | "whole" => String::from_str(alloc, "read"),
        "nowhere" => read.name.to_string(alloc),
        "copy" => copied(alloc, read),
        "print" => printed(alloc, vars, interner, read),
        "meant" => meant::of_name(alloc, interner, read, other),
        "keeps" => kept::keeps(alloc, interner, read, other),
        _ => meant::with_name(alloc, interner, read, other),
    }
}

fn parts(alloc: Global, read: &Requirement<VerbatimUrl>) -> Result<String, AllocError> {
    let mut text = String::new(alloc);
    push_parts(&mut text, read)?;
    Ok(text)
}

fn push_parts(text: &mut String, read: &Requirement<VerbatimUrl>) -> Result<(), AllocError> {
    text.push_str(read.name.as_str())?;
    push_extras(text, &read.extras)?;
    push_wanted(text, &read.version_or_url)?;
    text.push_str(when(read.marker))
}

pub fn push_extras(text: &mut String, extras: &[ExtraName]) -> Result<(), AllocError> {
    let mut mark = "[";
    for extra in extras {
        text.push_str(mark)?;
        text.push_str(extra.as_str())?;
        mark = ",";
    }
    text.push_str(if extras.is_empty() { "" } else { "]" })
}

fn push_wanted(
    text: &mut String,
    wanted: &Option<VersionOrUrl<VerbatimUrl>>,
) -> Result<(), AllocError> {
    match wanted {
        None => Ok(()),
        Some(VersionOrUrl::VersionSpecifier(list)) => push_list(text, list),
        Some(VersionOrUrl::Url(url)) => push_url(text, url),
    }
}

fn push_list(text: &mut String, list: &VersionSpecifiers) -> Result<(), AllocError> {
    let list = list.bare_commas();
    write!(text, "{list}")
}

fn push_url(text: &mut String, url: &VerbatimUrl) -> Result<(), AllocError> {
    let given = url.given().unwrap_or("");
    write!(text, " @ {url} given {given}")
}

/// Returns when a requirement applies, where that isn't always.
pub fn when(marker: MarkerTree) -> &'static str {
    if marker.is_true() {
        ""
    } else if marker.is_false() {
        " ; never"
    } else {
        " ; sometimes"
    }
}

/// Returns the contents of a requirement's copy, and whether it is equal.
fn copied(alloc: Global, read: &Requirement<VerbatimUrl>) -> Result<String, AllocError> {
    let copy = read.try_clone(alloc)?;
    shown(alloc, &copy, copy == *read)
}

fn shown(
    alloc: Global,
    copy: &Requirement<VerbatimUrl>,
    is_same: bool,
) -> Result<String, AllocError> {
    let wanted = wanted(alloc, copy)?;
    let (name, count, is_always) = (&copy.name, copy.extras.len(), copy.marker.is_true());
    format!(in alloc; "{name}, {count} extras, {wanted}, always {is_always}, equal {is_same}")
}

/// Returns the print of the specifiers or the URL.
fn wanted(alloc: Global, read: &Requirement<VerbatimUrl>) -> Result<String, AllocError> {
    match &read.version_or_url {
        None => String::from_str(alloc, "any version"),
        Some(wanted) => VersionOrUrlRef::from_ref(wanted).to_string(alloc),
    }
}

/// Returns the print of a requirement, and whether its JSON value is read as an equal one.
fn printed(
    alloc: Global,
    vars: &Vars,
    interner: &Interner,
    read: &Requirement<VerbatimUrl>,
) -> Result<String, AllocError>
    requires { IsTree interner.now.nodes read.now.marker }
{
    let shown = RequirementRef::new(alloc, interner, read);
    let value = shown.to_value(alloc)?;
    let again = again(alloc, vars, &value, &shown)?;
    format!(in alloc; "{shown} reads back {again}")
}

/// Returns what a JSON value is read as, compared with a requirement.
fn again(
    alloc: Global,
    vars: &Vars,
    value: &Value,
    shown: &RequirementRef<VerbatimUrl>,
) -> Result<&'static str, AllocError> {
    let mut interner = Interner::new(alloc);
    match Requirement::from_value(alloc, &mut interner, vars, value) {
        Ok(read) => Ok(likened(alloc, &interner, &read, shown)),
        Err(error) => not_read(&error),
    }
}

fn likened(
    alloc: Global,
    interner: &Interner,
    read: &Requirement<VerbatimUrl>,
    shown: &RequirementRef<VerbatimUrl>,
) -> &'static str
    requires { IsTree interner.now.nodes read.now.marker }
{
    if RequirementRef::new(alloc, interner, read) == *shown {
        "equal"
    } else {
        "different"
    }
}

fn not_read(error: &FromValueError<Pep508Error<VerbatimUrl>>) -> Result<&'static str, AllocError> {
    match error {
        FromValueError::Shape => Ok("as no text"),
        FromValueError::Text(error) => match error.message() {
            Pep508ErrorSource::Memory => Err(AllocError),
            _ => Ok("refused"),
        },
    }
}

/// Returns the requirement of a JSON value, without its URL and in a workspace.
pub fn of_value(alloc: Global, vars: &Vars, value: &Value) -> Result<String, AllocError> {
    let mut interner = Interner::new(alloc);
    match Requirement::from_value(alloc, &mut interner, vars, value) {
        Ok(read) => placed(alloc, read),
        Err(error) => no_requirement(alloc, &error),
    }
}

fn no_requirement(
    alloc: Global,
    error: &FromValueError<Pep508Error<VerbatimUrl>>,
) -> Result<String, AllocError> {
    match error {
        FromValueError::Shape => String::from_str(alloc, "shape"),
        FromValueError::Text(error) => refused(alloc, "value", error),
    }
}

fn placed(alloc: Global, mut read: Requirement<VerbatimUrl>) -> Result<String, AllocError> {
    read.clear_url();
    placed_shown(alloc, &read.with_origin(RequirementOrigin::Workspace))
}

fn placed_shown(alloc: Global, read: &Requirement<VerbatimUrl>) -> Result<String, AllocError> {
    let wanted = wanted(alloc, read)?;
    let (name, is_placed) = (&read.name, is_in_workspace(&read.origin));
    format!(in alloc; "{name}, {wanted}, in a workspace {is_placed}")
}

pub fn is_in_workspace(origin: &Option<RequirementOrigin>) -> bool {
    matches!(origin, Some(RequirementOrigin::Workspace))
}

/// Returns the URL of a requirement whose URLs are those of the crate `url`.
fn plain(alloc: Global, vars: &Vars, text: &str) -> Result<String, AllocError> {
    let mut interner = Interner::new(alloc);
    match Requirement::<Url>::parse(alloc, &mut interner, vars, text, Some(DIRECTORY)) {
        Ok(read) => plain_url(alloc, &read),
        Err(error) => plain_refused(alloc, &error),
    }
}

fn plain_url(alloc: Global, read: &Requirement<Url>) -> Result<String, AllocError> {
    match &read.version_or_url {
        Some(VersionOrUrl::Url(url)) => String::from_str(alloc, url.as_str()),
        _ => String::from_str(alloc, "no URL"),
    }
}

fn plain_refused(alloc: Global, error: &Pep508Error<Url>) -> Result<String, AllocError> {
    match error.message() {
        Pep508ErrorSource::Memory => Err(AllocError),
        Pep508ErrorSource::UrlError(_) => String::from_str(alloc, "refused for its URL"),
        _ => String::from_str(alloc, "refused"),
    }
}

/// Returns the number of extras at the front, and whether their copy is equal.
fn extras(alloc: Global, text: &str) -> Result<String, AllocError> {
    match Extras::parse::<VerbatimUrl>(alloc, text) {
        Ok(extras) => extras_told(alloc, &extras),
        Err(error) => refused(alloc, "extras", &error),
    }
}

fn extras_told(alloc: Global, extras: &Extras) -> Result<String, AllocError> {
    let is_same = extras.try_clone(alloc)? == *extras;
    let count = extras.as_slice().len();
    format!(in alloc; "{count} extras, equal {is_same}")
}

/// Returns the print of the error of memory of a reader of requirements, and the text that it keeps.
fn error_of_memory(alloc: Global) -> Result<String, AllocError> {
    memory_shown(alloc, &Pep508Error::memory(alloc))
}

fn memory_shown(alloc: Global, error: &Pep508Error<VerbatimUrl>) -> Result<String, AllocError> {
    let (message, text) = (error.message(), error.input());
    format!(in alloc; "{message} for `{text}`")
}
