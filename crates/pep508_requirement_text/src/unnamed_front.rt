//! Reading the front of a requirement that has no name.
//!
//! The grammar is a relation on characters, though this reader cuts bytes: brackets are ASCII, so both cut
//! at the same places. `IsExtrasSplit` serves both.

ghost use Rattle.std.specs.Prelude.{◌≡◌, ◌⊎◌, ◌∷◌, ◌++◌, ◌<◌, [], ℕ, List, length, encode_utf8_all};
ghost use Rattle.std.specs.Prelude.{Some, None, IsOk, IfOk, IfErr, IfSome, MatchOption, MatchResult};
ghost use Rattle.pep508_url.specs.Splits.{IsExtrasSplit};
ghost use Rattle.pep508_error.specs.declared.refusal.RefusalKind.TheVariants.{Memory};
ghost use Rattle.pep508_error.specs.Cursors.{rest_of, IsAt};
ghost use Rattle.pep508_requirement_text.specs.FrontOutcome.{IsPlain};
ghost use Rattle.pep508_error.specs.Refusals.{IsOf, StaysIn};
ghost use Rattle.pep508_requirement_text.specs.UnnamedReading.{HasExtras, url_at};
ghost use Rattle.pep508_requirement_text.specs.UnnamedFound.{ReadsUnnamed};

use crate::message::plain;
use crate::reading_extras::{read_inside, refuse_extras};
use crate::specifiers_or_url::UrlPiece;
use crate::url_cut::cut_url;
use pep508_error::{Cursor, Refusal};
use pep508_name::ExtraName;
use pep508_url::split_extras;
use std::alloc::Global;

/// A requirement without a name, but for its marker: a URL and the extras at its end.
#[derive(Drop)]
pub struct Unnamed<'a> {
    /// The URL with its extras.
    pub whole: UrlPiece<'a>,
    /// The URL without them.
    pub url: UrlPiece<'a>,
    /// The extras, in the order given.
    pub extras: Vec<ExtraName>,
}

/// Reads the front of a requirement without a name at a place, and returns it with the place after it: a
/// URL and, at its end, extras in brackets. Inside brackets only a line break ends the URL.
///
/// Linear in the text; takes memory for the extras and for a refusal's message, and none for a URL that
/// ends in no brackets.
///
/// # Errors
/// The part of the text at fault, or lack of memory.
pub fn read_unnamed<'a>(
    alloc: Global,
    start: Cursor<'a>,
) -> Result<(Unnamed<'a>, Cursor<'a>), Refusal<'a>>
    ensures read { ReadsUnnamed result (rest_of start.entry) }
    ensures stays { StaysIn start.entry result }
    ensures placed { IfOk result (λ found. found.0.whole.start.input.now ≡ start.entry.input.now) }
    ensures url { IfOk result (λ found. found.0.url.start.input.now ≡ start.entry.input.now) }
    ensures whole { IfOk result (λ found. found.0.whole.text.now
        ≡ encode_utf8_all (url_at (rest_of start.entry)).0) }
    ensures none { 0 < length (url_at (rest_of start.entry)).0
        → ((url extras : List ℕ)
        → IsExtrasSplit (encode_utf8_all (url_at (rest_of start.entry)).0) url extras → ⊥)
        → IsOk result }
{
    let place = start.after_whitespace();
    let (whole, later) = cut_url(place, true);
    if whole.text.is_empty() {
        return Err(place.refuse_none(plain(String::from_str(alloc, "Expected URL"))));
    }
    let (url, extras) = read_parts(alloc, whole)?;
    Ok((Unnamed { whole, url, extras }, later))
}

/// Splits a URL's text into the URL and the extras at its end, and reads these.
fn read_parts<'a>(
    alloc: Global,
    whole: UrlPiece<'a>,
) -> Result<(UrlPiece<'a>, Vec<ExtraName>), Refusal<'a>>
    requires { IsAt whole.start whole.text.now }
    ensures read { MatchResult result
        (λ found. HasExtras whole.entry.text.now found.0.text.now (Some found.1.items))
        (λ refusal. IsPlain refusal.kind
        × ((refusal.kind ≡ Memory) ⊎ ((url : List ℕ) × HasExtras whole.entry.text.now url None))) }
    ensures of { IfErr result (IsOf whole.entry.start) }
    ensures none { ((url extras : List ℕ) → IsExtrasSplit whole.entry.text.now url extras → ⊥) → IsOk result }
    ensures input { IfOk result (λ found. found.0.start.input.now ≡ whole.entry.start.input.now) }
{
    let Some((url, extras)) = split_piece(whole) else {
        return Ok((whole, Vec::new(alloc)));
    };
    match read_inside(alloc, inside(extras)) {
        Ok(Some(names)) => Ok((url, names)),
        Ok(None) => Err(refuse_extras(alloc, url.start.pass(url.text))),
        Err(_) => Err(Refusal::memory()),
    }
}

/// Splits a URL's text into the URL and the text of the extras at its end.
fn split_piece<'a>(whole: UrlPiece<'a>) -> Option<(UrlPiece<'a>, &'a str)>
    requires { IsAt whole.start whole.text.now }
    ensures split { MatchOption result
        ((url extras : List ℕ) → IsExtrasSplit whole.entry.text.now url extras → ⊥)
        (λ parts. IsExtrasSplit whole.entry.text.now parts.0.text.now parts.1.now) }
    ensures at { IfSome result (λ parts. IsAt parts.0.start parts.0.text.now) }
    ensures input { IfSome result (λ parts. parts.0.start.input.now ≡ whole.entry.start.input.now) }
{
    let (text, extras) = split_extras(whole.text)?;
    let start = whole.start;
    Some((UrlPiece { text, start }, extras))
}

/// Returns the text between the brackets at both ends.
fn inside(extras: &str) -> &str
    requires { (inner : List ℕ) × (extras.now ≡ 91 ∷ (inner ++ 93 ∷ [])) }
    ensures { extras.now ≡ 91 ∷ (result.now ++ 93 ∷ []) }
{
    &extras[1..extras.len() - 1]
}
