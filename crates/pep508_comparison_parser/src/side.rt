//! Reading a side of a comparison.

ghost use Rattle.std.specs.Prelude.{◌≡◌};
ghost use Rattle.pep508_error.specs.Cuts.{cut_before};
ghost use Rattle.pep508_error.specs.Cursors.{behind, IsBehind};
ghost use Rattle.pep508_error.specs.Refusals.{StaysIn};
ghost use Rattle.pep508_marker.specs.Values.{value_of};
ghost use Rattle.pep508_comparison_parser.specs.SideReading.{side_at, quoted_at, key_at, ends_key};
ghost use Rattle.pep508_comparison_parser.specs.Outcome.{Reads};

use crate::comparison_stops::PieceEnd;
use crate::refusal_place::malformed;
use pep508_error::{Cursor, Refusal};
use pep508_marker::MarkerValue;
use std::alloc::Global;

/// Reads a quoted text or a key at a place, and returns it with the place after it.
pub(crate) fn read_side<'a>(
    alloc: Global,
    start: Cursor<'a>,
) -> Result<(MarkerValue, Cursor<'a>), Refusal<'a>>
    ensures read { Reads value_of result (side_at (behind start.entry)) }
    ensures stays { StaysIn start.entry result }
{
    match start.split_first() {
        None => Err(start.refuse_char(malformed(String::from_str(
            alloc,
            "Expected marker value, found end of dependency specification",
        )))),
        Some((c, inner)) => {
            if c == '\'' || c == '"' {
                read_quoted(alloc, start, c, inner)
            } else {
                read_key(alloc, start)
            }
        }
    }
}

/// Reads the text up to a quote, after an opening one.
fn read_quoted<'a>(
    alloc: Global,
    opening: Cursor<'a>,
    quote: char,
    inner: Cursor<'a>,
) -> Result<(MarkerValue, Cursor<'a>), Refusal<'a>>
    requires { IsBehind opening inner }
    ensures read { Reads value_of result (quoted_at quote (behind inner.entry)) }
    ensures stays { StaysIn opening.entry result }
{
    match inner.cut_around(quote) {
        Some((text, later)) => {
            let text = String::from_str(alloc, text)?;
            Ok((MarkerValue::QuotedString(text), later))
        }
        None => Err(opening.refuse_char(malformed(format!(in alloc;
            "Expected '{quote}', found end of dependency specification"
        )))),
    }
}

/// Reads a key.
fn read_key<'a>(alloc: Global, start: Cursor<'a>) -> Result<(MarkerValue, Cursor<'a>), Refusal<'a>>
    ensures read { Reads value_of result (key_at (cut_before ends_key (behind start.entry))) }
    ensures stays { StaysIn start.entry result }
{
    let (text, later) = start.cut(PieceEnd::Key);
    match MarkerValue::from_str(alloc, text) {
        Ok(key) => Ok((key, later)),
        Err(_) => Err(start.refuse_to(
            later,
            malformed(format!(in alloc;
                "Expected a quoted string or a valid marker name, found `{text}`"
            )),
        )),
    }
}
