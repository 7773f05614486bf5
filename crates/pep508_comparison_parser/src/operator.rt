//! Reading the operator of a comparison.

ghost use Rattle.std.specs.Prelude.{◌≡◌};
ghost use Rattle.pep508_error.specs.Cuts.{cut_before};
ghost use Rattle.pep508_error.specs.Cursors.{behind, IsBehind};
ghost use Rattle.pep508_error.specs.Refusals.{IsOf, StaysIn};
ghost use Rattle.pep508_comparison_parser.specs.SideReading.{Malformed, operator_at, operator_in, behind_not};
ghost use Rattle.pep508_comparison_parser.specs.SideReading.{in_at};
ghost use Rattle.pep508_comparison_parser.specs.Stops.{stops_at};
ghost use Rattle.pep508_comparison_parser.specs.Outcome.{Fits, Reads};

use crate::comparison_stops::PieceEnd;
use crate::refusal_place::{expect, malformed};
use pep508_error::{Cursor, Refusal};
use pep508_marker::MarkerOperator;
use std::alloc::Global;

/// Reads an operator at a place, of letters or of signs, and returns it with the place after it.
pub(crate) fn read_operator<'a>(
    alloc: Global,
    start: Cursor<'a>,
) -> Result<(MarkerOperator, Cursor<'a>), Refusal<'a>>
    ensures read { Reads (λ operator. operator) result (operator_at (behind start.entry)) }
    ensures stays { StaysIn start.entry result }
{
    match start.peek() {
        None => Err(refuse_operator(alloc, start, "", start)),
        Some(c) => {
            if c.is_ascii_alphabetic() {
                read_up_to(alloc, start, PieceEnd::Word)
            } else {
                read_up_to(alloc, start, PieceEnd::Signs)
            }
        }
    }
}

/// Returns the refusal of a text that is not an operator.
fn refuse_operator<'a>(alloc: Global, start: Cursor<'a>, text: &str, end: Cursor<'a>) -> Refusal<'a>
    requires { IsBehind start end }
    ensures fits { Fits result.kind Malformed }
    ensures of { IsOf start.entry result }
{
    start.refuse_to(
        end,
        malformed(format!(in alloc;
            "Expected a valid marker operator (such as `>=` or `not in`), found `{text}`"
        )),
    )
}

/// Reads an operator that ends before the first character of a kind.
fn read_up_to<'a>(
    alloc: Global,
    start: Cursor<'a>,
    end: PieceEnd,
) -> Result<(MarkerOperator, Cursor<'a>), Refusal<'a>>
    ensures read { Reads (λ operator. operator) result
        (operator_in (cut_before (stops_at end) (behind start.entry))) }
    ensures stays { StaysIn start.entry result }
{
    let (text, later) = start.cut(end);
    if text == "not" {
        return read_in(alloc, later);
    }
    match MarkerOperator::from_str(alloc, text) {
        Ok(operator) => Ok((operator, later)),
        Err(_) => Err(refuse_operator(alloc, start, text, later)),
    }
}

/// Reads the white space and `in` after `not`.
fn read_in<'a>(
    alloc: Global,
    start: Cursor<'a>,
) -> Result<(MarkerOperator, Cursor<'a>), Refusal<'a>>
    ensures read { Reads (λ operator. operator) result (behind_not (behind start.entry)) }
    ensures stays { StaysIn start.entry result }
{
    match start.split_first() {
        None => Err(start.refuse_char(malformed(String::from_str(
            alloc,
            "Expected whitespace after 'not', found end of input",
        )))),
        Some((c, later)) => {
            if !c.is_whitespace() {
                return Err(start.refuse_char(malformed(format!(in alloc;
                    "Expected whitespace after `not`, found `{c}`"
                ))));
            }
            read_letters(alloc, later.after_whitespace())
        }
    }
}

/// Reads `in` at a place, after `not` and white space.
fn read_letters<'a>(
    alloc: Global,
    start: Cursor<'a>,
) -> Result<(MarkerOperator, Cursor<'a>), Refusal<'a>>
    ensures read { Reads (λ operator. operator) result (in_at (behind start.entry)) }
    ensures stays { StaysIn start.entry result }
{
    let second = expect(alloc, start, 'i')?;
    let end = expect(alloc, second, 'n')?;
    Ok((MarkerOperator::NotIn, end))
}
