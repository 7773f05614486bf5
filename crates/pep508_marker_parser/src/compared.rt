//! Comparisons as pieces of formulas.

ghost use Rattle.std.specs.Prelude.{IfOk, IfErr};
ghost use Rattle.pep508_error.specs.Cursors.{IsBehind, behind};
ghost use Rattle.pep508_error.specs.Refusals.{IsOf};
ghost use Rattle.pep508_marker_parser.specs.MarkerReading.{comparison_at};
ghost use Rattle.pep508_marker_parser.specs.FormulaReading.{ReadsPiece};

use pep508_comparison_parser::read_comparison;
use pep508_error::{Cursor, Refusal, RefusalKind};
use pep508_expression::has_points;
use pep508_formula::FormulaBuilder;
use pep508_marker::Reporter;
use std::alloc::Global;

/// Adds the comparison at a place as the next piece, or that it is left out where it is meaningless, and
/// returns the place after it. Refused where a number can't be raised.
#[tactic(auto, unfolding(crate::specs::MarkerReading::comparison_at))]
pub(crate) fn read_compared<'a, R: Reporter>(
    alloc: Global,
    builder: &mut FormulaBuilder,
    start: Cursor<'a>,
    reporter: &mut R,
) -> Result<Cursor<'a>, Refusal<'a>>
    requires { R.can_report reporter.old }
    ensures read { ReadsPiece R.takes reporter.old reporter.new builder.old builder.new result
        (comparison_at (behind start.entry)) }
    ensures stays { IfOk result (IsBehind start.entry) }
    ensures of { IfErr result (IsOf start.entry) }
    ensures again { R.can_report reporter.new }
{
    let (said, later) = read_comparison(alloc, start, reporter)?;
    let Some(expression) = said else {
        builder.leave_out()?;
        return Ok(later);
    };
    if !has_points(alloc, &expression)? {
        return Err(start.refuse_to(later, RefusalKind::NumberAtEnd));
    }
    builder.say(alloc, expression)?;
    Ok(later)
}
