//! Reading the specifiers of a requirement.

ghost use Rattle.std.specs.Prelude.{◌≡◌, ◌==◌, ◌+◌, ◌-◌, ℕ, List, Some, IfOk, IfErr};
ghost use Rattle.std.specs.Str.{trim_start};
ghost use Rattle.std.specs.String.{string_bytes};
ghost use Rattle.pep508_error.specs.Cursors.{IsBehind, behind, IsAt};
ghost use Rattle.pep508_requirement_text.specs.FrontReading.{specifiers_of_text, listed};
ghost use Rattle.pep508_error.specs.Cuts.{encoded_cut, cut_around};
ghost use Rattle.pep508_url.specs.Vars.{Variables};
ghost use Rattle.pep508_requirement_text.specs.FrontFound.{ReadsAs, IsSource, IsUrlIn, enclosed_at};
ghost use Rattle.pep508_requirement_text.specs.FrontOutcome.{ReadsSpecifiers, IsPlain};
ghost use Rattle.pep508_requirement_text.specs.FrontSpans.{Shows, IfTold, ShowsPiece, ShowsTrimmed};
ghost use Rattle.pep508_error.specs.Refusals.{StaysIn, IsOf};

use crate::message::plain;
use crate::specifiers_or_url::Source;
use crate::url_end::split_blanks;
use pep440_specifier::VersionSpecifierParseError;
use pep440_specifier_list::{RefusedPiece, VersionSpecifiers, VersionSpecifiersParseError};
use pep508_error::{Cursor, Refusal};
use std::alloc::Global;

/// Reads the list up to a `;` or the end, and returns it with the place after it.
pub(crate) fn read_open<'a>(
    alloc: Global,
    start: Cursor<'a>,
) -> Result<(Source<'a>, Cursor<'a>), Refusal<'a>>
    ensures read { (vars : Variables) → ReadsAs vars IsSource result
        (listed (encoded_cut (λ c. c == 59) (behind start.entry))) }
    ensures stays { StaysIn start.entry result }
    ensures url { IfOk result (λ found. IsUrlIn start.entry found.0) }
    ensures shown { IfErr result (IfTold (ShowsPiece start.entry.input.now start.entry.position
        (encoded_cut (λ c. c == 59) (behind start.entry)).0)) }
{
    let (text, later) = start.cut(';');
    let list = read_specifiers(alloc, start, text)?;
    Ok((Source::Specifiers(list), later))
}

/// Reads the list in brackets after the opening one, and returns it with the place after the closing one.
pub(crate) fn read_enclosed<'a>(
    alloc: Global,
    opening: Cursor<'a>,
    inner: Cursor<'a>,
) -> Result<(Source<'a>, Cursor<'a>), Refusal<'a>>
    requires { IsBehind opening inner }
    ensures read { (vars : Variables) → ReadsAs vars IsSource result (enclosed_at (behind inner.entry)) }
    ensures stays { StaysIn opening.entry result }
    ensures url { IfOk result (λ found. IsUrlIn opening.entry found.0) }
    ensures shown { (inside later : List ℕ) → cut_around 41 (behind inner.entry) ≡ Some (inside, later)
        → IfErr result (IfTold (ShowsTrimmed inner.entry.input.now inner.entry.position inside)) }
{
    match inner.cut_around(')') {
        Some((text, later)) => {
            let list = read_trimmed(alloc, inner, text)?;
            Ok((Source::Specifiers(list), later))
        }
        None => Err(refuse_unclosed(alloc, opening, inner)),
    }
}

/// Returns the refusal of a list whose bracket is not closed: the first fault before its last comma, or
/// that no `)` follows.
fn refuse_unclosed<'a>(alloc: Global, opening: Cursor<'a>, inner: Cursor<'a>) -> Refusal<'a>
    requires { IsBehind opening inner }
    ensures plain { IsPlain result.kind }
    ensures of { IsOf opening.entry result }
{
    if let Some((text, _)) = inner.rest().rsplit_once(',') {
        if let Err(refusal) = read_trimmed(alloc, inner, text) {
            return refusal;
        }
    }
    opening.refuse_char(plain(String::from_str(
        alloc,
        "Missing closing parenthesis (expected ')', found end of dependency specification)",
    )))
}

/// Reads the list of a text at a place, without the white space at its front.
fn read_trimmed<'a>(
    alloc: Global,
    start: Cursor<'a>,
    text: &str,
) -> Result<VersionSpecifiers, Refusal<'a>>
    requires { IsAt start text.now }
    ensures read { ReadsSpecifiers result (specifiers_of_text (trim_start text.now)) }
    ensures plain { IfErr result (λ refusal. IsPlain refusal.kind) }
    ensures of { IfErr result (IsOf start.entry) }
    ensures shown { IfErr result (IfTold (ShowsTrimmed start.entry.input.now start.entry.position text.now)) }
{
    let (blanks, list) = split_blanks(text);
    read_specifiers(alloc, start.pass(blanks), list)
}

/// Reads the list of a text at a place.
#[tactic(auto, unfolding(crate::specs::FrontReading::specifiers_of_text))]
fn read_specifiers<'a>(
    alloc: Global,
    start: Cursor<'a>,
    text: &str,
) -> Result<VersionSpecifiers, Refusal<'a>>
    requires { IsAt start text.now }
    ensures read { ReadsSpecifiers result (specifiers_of_text text.now) }
    ensures plain { IfErr result (λ refusal. IsPlain refusal.kind) }
    ensures of { IfErr result (IsOf start.entry) }
    ensures shown { IfErr result (IfTold (ShowsPiece start.entry.input.now start.entry.position text.now)) }
{
    if text.is_empty() {
        return Err(refuse_empty(alloc, start));
    }
    match VersionSpecifiers::from_str(alloc, text) {
        Ok(list) => Ok(list),
        Err(VersionSpecifiersParseError::Memory) => Err(Refusal::memory()),
        Err(VersionSpecifiersParseError::Specifier(piece)) => Err(refuse_piece(
            alloc, start, &piece,
        )),
    }
}

/// Returns the refusal of a list without specifiers.
fn refuse_empty<'a>(alloc: Global, start: Cursor<'a>) -> Refusal<'a>
    ensures plain { IsPlain result.kind }
    ensures of { IsOf start.entry result }
    ensures shown { Shows start.entry.input.now start.entry.position 0 result }
{
    let error = VersionSpecifierParseError::MissingOperator;
    start.refuse(0, plain(format!(in alloc; "{error}")))
}

/// Returns the refusal of a piece of the text at a place.
fn refuse_piece<'a>(alloc: Global, start: Cursor<'a>, piece: &RefusedPiece) -> Refusal<'a>
    requires { IsAt start (string_bytes piece.now.line) }
    ensures plain { IsPlain result.kind }
    ensures of { IsOf start.entry result }
    ensures shown { Shows start.entry.input.now (start.entry.position + piece.now.start)
        (piece.now.end - piece.now.start) result }
{
    let error = piece.error();
    let kind = plain(format!(in alloc; "{error}"));
    start
        .after(piece.start())
        .refuse(piece.end() - piece.start(), kind)
}
