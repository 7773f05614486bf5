//! Reading the name at the front of a requirement.

ghost use Rattle.std.specs.Prelude.{◌≡◌, [], IsTrue, IfOk, IsErrAnd, MatchResult};
ghost use Rattle.pep508_name.specs.Name.{is_name, is_alphanumeric_at, normal_name};
ghost use Rattle.pep508_error.specs.declared.refusal.RefusalKind.TheVariants.{Memory};
ghost use Rattle.pep508_requirement_text.specs.FrontReading.{name_at, run_of};
ghost use Rattle.pep508_requirement_text.specs.FrontReading.Refused.{Nameless};
ghost use Rattle.pep508_requirement_text.specs.FrontOutcome.{Fits, Reads};
ghost use Rattle.pep508_requirement_text.specs.FrontOutcome.{IsPlain};
ghost use Rattle.pep508_requirement_text.specs.FrontSpans.{IfTold, ShowsEmptyField};
ghost use Rattle.pep508_error.specs.Cursors.{behind};
ghost use Rattle.pep508_error.specs.Refusals.{StaysIn, IsOf};

use crate::look::looks_unnamed;
use crate::message::{plain, refuse_last, unsupported};
use crate::name_end::NameEnd;
use pep508_error::{Cursor, Refusal, Space};
use pep508_name::{PackageName, is_name};
use pep508_url::Vars;
use std::alloc::Global;

const PRECEDED_BY_PATH: &str = "URL requirement must be preceded by a package name. \
     Add the name of the package before the URL (e.g., `package_name @ /path/to/file`).";

/// Reads the name at a place as it is written, and returns it with the place after it.
#[tactic(auto, unfolding(crate::specs::FrontReading::name_at))]
pub(crate) fn read_name<'a>(
    alloc: Global,
    start: Cursor<'a>,
    vars: &Vars,
) -> Result<(&'a str, Cursor<'a>), Refusal<'a>>
    ensures read { Reads vars.now (λ found. (found.0.now, behind found.1)) result
        (name_at (behind start.entry)) }
    ensures stays { StaysIn start.entry result }
    ensures named { IfOk result (λ found. IsTrue (is_name found.0.now)) }
    ensures empty { behind start.entry ≡ []
        → IsErrAnd result (IfTold (ShowsEmptyField start.entry.input.now)) }
{
    let (name, later) = start.cut(NameEnd);
    if is_name(name) {
        return Ok((name, later));
    }
    if begins_alphanumeric(name) {
        Err(refuse_last(alloc, start, "Package"))
    } else {
        Err(refuse_nameless(alloc, start, vars))
    }
}

/// Returns whether a letter or digit is at the front.
fn begins_alphanumeric(text: &str) -> bool
    ensures { result ≡ is_alphanumeric_at text.now 0 }
{
    match text.as_bytes().first() {
        Some(first) => first.is_ascii_alphanumeric(),
        None => false,
    }
}

/// Returns the refusal of a text whose first character begins no name.
fn refuse_nameless<'a>(alloc: Global, start: Cursor<'a>, vars: &Vars) -> Refusal<'a>
    ensures fits { Fits vars.now result.kind (Nameless (run_of (behind start.entry))) }
    ensures of { IsOf start.entry result }
    ensures empty { behind start.entry ≡ [] → IfTold (ShowsEmptyField start.entry.input.now) result }
{
    let (run, end) = start.cut(Space);
    let looks = match looks_unnamed(alloc, run, vars) {
        Ok(looks) => looks,
        Err(_) => return Refusal::memory(),
    };
    if looks {
        let kind = unsupported(String::from_str(alloc, PRECEDED_BY_PATH));
        return start.refuse_to(end, kind);
    }
    match start.peek() {
        Some(c) => start.refuse_char(plain(format!(in alloc;
            "Expected package name starting with an alphanumeric character, found `{c}`"
        ))),
        None => refuse_empty(alloc, start),
    }
}

/// Returns the refusal of a text that is only white space, at its first character.
fn refuse_empty<'a>(alloc: Global, start: Cursor<'a>) -> Refusal<'a>
    ensures plain { IsPlain result.kind }
    ensures of { IsOf start.entry result }
    ensures shown { ShowsEmptyField start.entry.input.now result }
{
    Cursor::new(start.input()).refuse_char(plain(String::from_str(
        alloc,
        "Empty field is not allowed for PEP508",
    )))
}

/// Returns the name of a package, in normal form.
#[tactic(auto, unfolding(pep508_name::specs::Name::name_of))]
pub(crate) fn package_name<'a>(alloc: Global, name: &str) -> Result<PackageName, Refusal<'a>>
    requires { IsTrue (is_name name.now) }
    ensures { MatchResult result (λ normal. normal ≡ normal_name name.now)
        (λ refusal. refusal.kind ≡ Memory) }
{
    match PackageName::from_str(alloc, name) {
        Ok(name) => Ok(name),
        Err(_) => Err(Refusal::memory()),
    }
}
