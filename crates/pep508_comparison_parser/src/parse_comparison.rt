//! Reading a text that is one comparison.
//!
//! These are functions because a type of another crate gets methods only by a trait.

ghost use Rattle.std.specs.Prelude.{◌≡◌, IfErr};
ghost use Rattle.std.specs.Str.{chars};
ghost use Rattle.pep508_comparison_parser.specs.SideReading.{expression_at};
ghost use Rattle.pep508_error.specs.Cursors.{behind};
ghost use Rattle.pep508_error.specs.Refusals.{IsOf};
ghost use Rattle.pep508_comparison_parser.specs.Outcome.{ReadsExpression, ReadsWhole};
ghost use Rattle.pep508_comparison_parser.specs.Outcome.{SaysExpression};

use crate::comparison::read_comparison;
use crate::refusal_place::{malformed, refuse_rest};
use pep508_error::{Cursor, Pep508Error, Refusal};
use pep508_marker::{MarkerExpression, Reporter, Silent};
use pep508_url::Pep508Url;
use std::alloc::Global;

/// Reads a comparison, as `python_version > '3.8'`, with white space around it; `None` where it is
/// meaningless and left out (PEP 508, "Environment Markers"). Its warnings are reported in their order.
///
/// Linear in the text; takes memory for the comparison, for the texts of the warnings that are wanted, and
/// for an error.
///
/// # Errors
/// `String` with the part at fault where the text is not a comparison; `Memory` where memory ran out.
pub fn parse_expression_reporter<T: Pep508Url, R: Reporter>(
    alloc: Global,
    text: &str,
    reporter: &mut R,
) -> Result<Option<MarkerExpression>, Pep508Error<T>>
    requires { R.can_report reporter.old }
    ensures read { ReadsExpression R.takes reporter.old reporter.new text.now result
        (expression_at (chars text.now)) }
    ensures again { R.can_report reporter.new }
{
    match read_whole(alloc, Cursor::new(text), reporter) {
        Ok(said) => Ok(said),
        Err(refusal) => Err(Pep508Error::of(alloc, refusal)),
    }
}

/// Reads a comparison as `parse_expression_reporter` does, and drops its warnings.
///
/// # Errors
/// Those of `parse_expression_reporter`.
pub fn parse_expression<T: Pep508Url>(
    alloc: Global,
    text: &str,
) -> Result<Option<MarkerExpression>, Pep508Error<T>>
    ensures { SaysExpression text.now result (expression_at (chars text.now)) }
{
    parse_expression_reporter(alloc, text, &mut Silent)
}

/// Reads the comparison at a place, after which only white space may be left.
#[tactic(auto, unfolding(crate::specs::SideReading::expression_at))]
fn read_whole<'a, R: Reporter>(
    alloc: Global,
    start: Cursor<'a>,
    reporter: &mut R,
) -> Result<Option<MarkerExpression>, Refusal<'a>>
    requires { R.can_report reporter.old }
    ensures read { ReadsWhole R.takes reporter.old reporter.new result (expression_at (behind start.entry)) }
    ensures of { IfErr result (IsOf start.entry) }
    ensures again { R.can_report reporter.new }
{
    let (said, later) = read_comparison(alloc, start.after_whitespace(), reporter)?;
    let end = later.after_whitespace();
    match end.peek() {
        None => Ok(said),
        Some(c) => Err(refuse_rest(
            end,
            malformed(format!(in alloc; "Unexpected character '{c}', expected end of input")),
        )),
    }
}
