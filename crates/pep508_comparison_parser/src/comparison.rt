//! Reading a comparison.

ghost use Rattle.std.specs.Prelude.{◌≡◌};
ghost use Rattle.pep508_error.specs.Cursors.{behind};
ghost use Rattle.pep508_error.specs.Refusals.{StaysIn};
ghost use Rattle.pep508_comparison_parser.specs.SideReading.{compared_at};
ghost use Rattle.pep508_comparison_parser.specs.Outcome.{ReadsComparison};

use crate::compare::compare;
use crate::operator::read_operator;
use crate::side::read_side;
use pep508_error::{Cursor, Refusal};
use pep508_marker::{MarkerExpression, Reporter};
use std::alloc::Global;

/// Reads the comparison at a place (PEP 508, "Environment Markers"), and returns it with the place after
/// it; `None` where the comparison is meaningless and left out. Its warnings are reported in their order.
///
/// Linear in its text; takes memory for the comparison, for the texts of the warnings that are wanted, and
/// for a refusal.
///
/// # Errors
/// The part at fault where there is no comparison at the place, or lack of memory.
#[tactic(auto, unfolding(crate::specs::SideReading::compared_at))]
pub fn read_comparison<'a, R: Reporter>(
    alloc: Global,
    start: Cursor<'a>,
    reporter: &mut R,
) -> Result<(Option<MarkerExpression>, Cursor<'a>), Refusal<'a>>
    requires { R.can_report reporter.old }
    ensures read { ReadsComparison R.takes reporter.old reporter.new result
        (compared_at (behind start.entry)) }
    ensures stays { StaysIn start.entry result }
    ensures again { R.can_report reporter.new }
{
    let (left, behind_left) = read_side(alloc, start)?;
    let (operator, behind_operator) = read_operator(alloc, behind_left.after_whitespace())?;
    let (right, later) = read_side(alloc, behind_operator.after_whitespace())?;
    let said = compare(alloc, reporter, left, operator, right)?;
    Ok((said, later))
}
