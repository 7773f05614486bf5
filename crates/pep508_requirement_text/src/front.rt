//! Reading the front of a requirement.
//!
//! The grammar is a relation on characters, and the reading a function on them; pieces become bytes where
//! another crate reads them. The laws need no UTF-8, since what is cut at commas in bytes is what is cut in
//! characters, encoded.

ghost use Rattle.std.specs.Prelude.{◌≡◌, false, IfOk, IfErr};
ghost use Rattle.pep508_url.specs.Vars.{Variables};
ghost use Rattle.pep508_error.specs.Cursors.{rest_of, IsBehind, behind};
ghost use Rattle.std.specs.Str.{skip_leading_whitespace};
ghost use Rattle.pep508_requirement_text.specs.UrlEnds.{url_split};
ghost use Rattle.pep508_requirement_text.specs.FrontReading.{front_reading, source_at, alone};
ghost use Rattle.pep508_requirement_text.specs.FrontReading.{begins_operator, if_url, run_of};
ghost use Rattle.pep508_requirement_text.specs.FrontReading.Refused.{Nameless};
ghost use Rattle.pep508_requirement_text.specs.FrontOutcome.{Fits};
ghost use Rattle.pep508_error.specs.Refusals.{StaysIn, IsOf};
ghost use Rattle.pep508_requirement_text.specs.FrontSpans.{Shows, IfTold, ShowsSource, ShowsFront};
ghost use Rattle.pep508_requirement_text.specs.FrontFound.{ReadsFront, ReadsAs, IsSource, IsUrlIn};

use crate::archive::is_archive;
use crate::list::{read_enclosed, read_open};
use crate::look::looks_unnamed;
use crate::message::{plain, unsupported};
use crate::name::{package_name, read_name};
use crate::reading_extras::read_extras;
use crate::specifiers_or_url::Source;
use crate::url_cut::cut_url;
use pep508_error::{Cursor, Refusal, Space};
use pep508_name::{ExtraName, PackageName};
use pep508_url::Vars;
use std::alloc::Global;

/// A requirement but for its marker.
#[derive(Drop)]
pub struct Front<'a> {
    pub name: PackageName,
    pub extras: Vec<ExtraName>,
    pub source: Source<'a>,
}

const PRECEDED_BY_URL: &str = "URL requirement must be preceded by a package name. \
     Add the name of the package before the URL (e.g., `package_name @ https://...`).";

/// Reads the front of a requirement at a place, and returns it with the place after it: a name, extras, and
/// specifiers or the text of a URL (PEP 508, "Grammar").
///
/// Linear in the text, but for sorting specifiers; takes memory for the name, the extras and the
/// specifiers.
///
/// # Errors
/// The part of the text at fault, or lack of memory.
#[tactic(auto, unfolding(crate::specs::FrontReading::front_reading))]
pub fn read_front<'a>(
    alloc: Global,
    start: Cursor<'a>,
    vars: &Vars,
) -> Result<(Front<'a>, Cursor<'a>), Refusal<'a>>
    ensures read { ReadsFront vars.now result (front_reading (rest_of start.entry)) }
    ensures stays { StaysIn start.entry result }
    ensures url { IfOk result (λ found. IsUrlIn start.entry found.0.source) }
    ensures shown { IfErr result (IfTold (ShowsFront start.entry)) }
{
    let (name, named) = read_name(alloc, start.after_whitespace(), vars)?;
    let (extras, asked) = read_extras(alloc, named.after_whitespace())?;
    let (source, later) = read_source(alloc, start, name, asked.after_whitespace(), vars)?;
    let name = package_name(alloc, name)?;
    Ok((
        Front {
            name,
            extras,
            source,
        },
        later,
    ))
}

/// Reads what follows a name and its extras, and returns it with the place after it; `whole` is where the
/// requirement begins.
fn read_source<'a>(
    alloc: Global,
    whole: Cursor<'a>,
    name: &str,
    start: Cursor<'a>,
    vars: &Vars,
) -> Result<(Source<'a>, Cursor<'a>), Refusal<'a>>
    requires { IsBehind whole start }
    ensures read { ReadsAs vars.now IsSource result
        (source_at (behind whole.entry) name.now (behind start.entry)) }
    ensures stays { StaysIn whole.entry result }
    ensures url { IfOk result (λ found. IsUrlIn whole.entry found.0) }
    ensures shown { IfErr result (IfTold (ShowsSource whole.entry start.entry)) }
{
    let Some((c, inner)) = start.split_first() else {
        return read_alone(alloc, whole, name, start);
    };
    if c == '@' {
        read_url(alloc, inner)
    } else if c == '(' {
        read_enclosed(alloc, start, inner)
    } else if begins_operator(c) {
        read_open(alloc, start)
    } else if c == ';' {
        read_alone(alloc, whole, name, start)
    } else {
        Err(refuse_other(alloc, whole, start, c, vars))
    }
}

/// Returns whether an operator begins with a character.
fn begins_operator(c: char) -> bool
    ensures { result ≡ begins_operator c }
{
    c == '<' || c == '=' || c == '>' || c == '~' || c == '!'
}

/// Reads a name without specifiers or a URL.
fn read_alone<'a>(
    alloc: Global,
    whole: Cursor<'a>,
    name: &str,
    start: Cursor<'a>,
) -> Result<(Source<'a>, Cursor<'a>), Refusal<'a>>
    requires { IsBehind whole start }
    ensures read { (vars : Variables) → ReadsAs vars IsSource result (alone name.now (behind start.entry)) }
    ensures stays { StaysIn whole.entry result }
    ensures url { IfOk result (λ found. IsUrlIn whole.entry found.0) }
    ensures shown { IfErr result (Shows whole.entry.input.now whole.entry.position 0) }
{
    if is_archive(name) {
        return Err(whole.refuse(0, unsupported(String::from_str(alloc, PRECEDED_BY_URL))));
    }
    Ok((Source::Any, start))
}

/// Reads the text of a URL after `@`.
fn read_url<'a>(alloc: Global, start: Cursor<'a>) -> Result<(Source<'a>, Cursor<'a>), Refusal<'a>>
    ensures read { (vars : Variables) → ReadsAs vars IsSource result
        (if_url (url_split false 0 (skip_leading_whitespace (behind start.entry)))) }
    ensures stays { StaysIn start.entry result }
    ensures url { IfOk result (λ found. IsUrlIn start.entry found.0) }
{
    let place = start.after_whitespace();
    let (piece, later) = cut_url(place, false);
    if piece.text.is_empty() {
        return Err(place.refuse_none(plain(String::from_str(alloc, "Expected URL"))));
    }
    Ok((Source::Url(piece), later))
}

/// Returns the refusal of a character that may not follow a name.
fn refuse_other<'a>(
    alloc: Global,
    whole: Cursor<'a>,
    place: Cursor<'a>,
    c: char,
    vars: &Vars,
) -> Refusal<'a>
    requires { IsBehind whole place }
    ensures fits { Fits vars.now result.kind (Nameless (run_of (behind whole.entry))) }
    ensures of { IsOf whole.entry result }
{
    let (run, end) = whole.cut(Space);
    match looks_unnamed(alloc, run, vars) {
        Ok(true) => {
            let kind = unsupported(String::from_str(alloc, PRECEDED_BY_URL));
            whole.refuse_to(end, kind)
        }
        Ok(false) => place.refuse_char(plain(format!(in alloc;
            "Expected one of `@`, `(`, `<`, `=`, `>`, `~`, `!`, `;`, found `{c}`"
        ))),
        Err(_) => Refusal::memory(),
    }
}
