//! Reading extras.
//!
//! The fault of extras is looked for only once they are refused, by a walk that shares no code with the
//! reading: values are proved, messages are that walk's. Faults in brackets come in reading order, the
//! missing bracket last.

ghost use Rattle.std.specs.Prelude.{◌≡◌, ◌==◌, false, IsOk, IfOk, IfErr, IfSome, option_map};
ghost use Rattle.std.specs.List.{slice_split};
ghost use Rattle.std.specs.Str.{trim};
ghost use Rattle.pep508_url.specs.Vars.{Variables};
ghost use Rattle.pep508_name.specs.Name.{name_of};
ghost use Rattle.pep508_error.specs.Cursors.{IsBehind, behind};
ghost use Rattle.pep508_error.specs.Cuts.{begins_by};
ghost use Rattle.pep508_requirement_text.specs.FrontReading.{extras_at, extras_of, names_of};
ghost use Rattle.pep508_requirement_text.specs.FrontOutcome.{Reads, IsPlain};
ghost use Rattle.pep508_error.specs.Refusals.{StaysIn, IsOf};

use crate::message::{plain, refuse_last};
use crate::name_end::NameEnd;
use pep508_error::{Cursor, Refusal};
use pep508_name::{ExtraName, InvalidNameError, is_name};
use std::alloc::{AllocError, Global};

/// Reads the extras at a place, as `[dev, test]`, and returns them in the order given with the place after
/// them; none where no `[` follows (PEP 508, "Extras").
///
/// Linear in the text up to the `]`. Takes memory for the names, and none where no `[` follows.
///
/// # Errors
/// The first fault in the order in which the text is read, or lack of memory.
pub fn read_extras<'a>(
    alloc: Global,
    start: Cursor<'a>,
) -> Result<(Vec<ExtraName>, Cursor<'a>), Refusal<'a>>
    ensures read { (vars : Variables) → Reads vars (λ found. (found.0.items, behind found.1)) result
        (extras_at (behind start.entry)) }
    ensures stays { StaysIn start.entry result }
    ensures none { begins_by (λ c. c == 91) (behind start.entry) ≡ false → IsOk result }
{
    let Some(inner) = start.strip('[') else {
        return Ok((Vec::new(alloc), start));
    };
    let Some((inside, later)) = inner.cut_around(']') else {
        return Err(refuse_extras(alloc, start));
    };
    match read_inside(alloc, inside) {
        Ok(Some(names)) => Ok((names, later)),
        Ok(None) => Err(refuse_extras(alloc, start)),
        Err(_) => Err(Refusal::memory()),
    }
}

/// Reads the names between brackets; `None` where they are not all names.
#[tactic(auto, unfolding(crate::specs::FrontReading::extras_of))]
pub(crate) fn read_inside(alloc: Global, inside: &str) -> Result<Option<Vec<ExtraName>>, AllocError>
    ensures { IfOk result (λ names. option_map (λ v. v.items) names ≡ extras_of inside.now) }
{
    if inside.trim().is_empty() {
        return Ok(Some(Vec::new(alloc)));
    }
    read_names(alloc, inside)
}

/// Reads the names with commas between them; `None` where they are not all names.
fn read_names(alloc: Global, inside: &str) -> Result<Option<Vec<ExtraName>>, AllocError>
    ensures { IfOk result (λ names. option_map (λ v. v.items) names
        ≡ names_of (slice_split (λ b. b == 44) inside.now)) }
{
    let mut names = Vec::new(alloc);
    for piece in inside.split(',') {
        match read_extra(alloc, piece)? {
            Some(name) => names.push(name)?,
            None => return Ok(None),
        }
    }
    Ok(Some(names))
}

/// Reads the name of a piece without the white space around it; `None` where it is not a name.
fn read_extra(alloc: Global, piece: &str) -> Result<Option<ExtraName>, AllocError>
    ensures { IfOk result (λ name. name ≡ name_of (trim piece.now)) }
{
    match ExtraName::from_str(alloc, piece.trim()) {
        Ok(name) => Ok(Some(name)),
        Err(InvalidNameError::Memory) => Err(AllocError),
        Err(InvalidNameError::InvalidName(_)) => Ok(None),
    }
}

/// Returns the refusal of extras: their first fault, or that no `]` follows.
pub(crate) fn refuse_extras<'a>(alloc: Global, opening: Cursor<'a>) -> Refusal<'a>
    ensures plain { IsPlain result.kind }
    ensures of { IsOf opening.entry result }
{
    let mut place = opening;
    let mut is_first = true;
    for _ in 0..opening.rest().len() {
        let Some((_, inner)) = place.split_first() else {
            break;
        };
        match skip_extra(alloc, inner, is_first) {
            Ok(Some(comma)) => place = comma,
            Ok(None) => break,
            Err(refusal) => return refusal,
        }
        is_first = false;
    }
    opening.refuse_char(plain(String::from_str(
        alloc,
        "Missing closing bracket (expected ']', found end of dependency specification)",
    )))
}

/// Returns the place of the comma after an extra, if there is one.
fn skip_extra<'a>(
    alloc: Global,
    start: Cursor<'a>,
    is_first: bool,
) -> Result<Option<Cursor<'a>>, Refusal<'a>>
    ensures comma { IfOk result (λ found. IfSome found (IsBehind start.entry)) }
    ensures plain { IfErr result (λ refusal. IsPlain refusal.kind) }
    ensures of { IfErr result (IsOf start.entry) }
{
    let begin = start.after_whitespace();
    let Some(c) = begin.peek() else {
        return Ok(None);
    };
    if !c.is_ascii_alphanumeric() {
        return Err(refuse_first(alloc, begin, c, is_first));
    }
    let (name, later) = begin.cut(NameEnd);
    match later.peek() {
        Some(c) if c != ',' && c != ']' && !c.is_whitespace() => {
            return Err(later.refuse_char(plain(format!(in alloc;
                "Invalid character in extras name, expected an alphanumeric character, \
                 `-`, `_`, `.`, `,` or `]`, found `{c}`"
            ))));
        }
        _ => {}
    }
    if !is_name(name) {
        return Err(refuse_last(alloc, begin, "Extra"));
    }
    let end = later.after_whitespace();
    match end.peek() {
        Some(',') => Ok(Some(end)),
        Some(']') | None => Ok(None),
        Some(c) => Err(end.refuse_char(plain(format!(in alloc;
            "Expected either `,` (separating extras) or `]` (ending the extras section), found `{c}`"
        )))),
    }
}

/// Returns the refusal of a character that begins no extra.
fn refuse_first<'a>(alloc: Global, place: Cursor<'a>, c: char, is_first: bool) -> Refusal<'a>
    ensures plain { IsPlain result.kind }
    ensures of { IsOf place.entry result }
{
    if is_first && c == ',' {
        return place.refuse_char(plain(String::from_str(
            alloc,
            "Expected either alphanumerical character (starting the extra name) \
             or `]` (ending the extras section), found `,`",
        )));
    }
    place.refuse_char(plain(format!(in alloc;
        "Expected an alphanumeric character starting the extra name, found `{c}`"
    )))
}
