//! Reading a condition.

ghost use Rattle.reqs_assuming.specs.Conditions.{ReadsCondition};

use pep508_error::Pep508Error;
use pep508_formula::MarkerFormula;
use pep508_marker::Silent;
use pep508_marker_parser::parse_formula;
use pep508_url::VerbatimUrl;
use std::alloc::Global;

/// Reads a condition, a marker as a line of requirements has it (PEP 508, "Environment Markers"), and drops
/// its warnings: a comparison that says nothing is ignored, so a condition of such comparisons alone always
/// holds. Linear in the text.
///
/// # Errors
///
/// That of `pep508_marker_parser::parse_formula` for what is no marker; `Memory` in it when memory runs out.
pub(crate) fn read_condition(
    alloc: Global,
    text: &str,
) -> Result<MarkerFormula, Pep508Error<VerbatimUrl>>
    ensures { ReadsCondition text.now result }
{
    parse_formula(alloc, text, &mut Silent)
}
