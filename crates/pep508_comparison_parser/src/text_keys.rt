//! Comparisons of a key of texts, and of `extra`, with a text.

ghost use Rattle.std.specs.Prelude.{◌≡◌, IfOk};
ghost use Rattle.std.specs.String.{string_bytes};
ghost use Rattle.pep508_name.specs.Name.{name_of};
ghost use Rattle.pep508_marker.specs.Operators.{extra_operator};
ghost use Rattle.pep508_marker.specs.Values as values;
ghost use Rattle.pep508_comparison_parser.specs.Compared.{text_compared, extra_compared, extra_of, of_extra};
ghost use Rattle.pep508_comparison_parser.specs.Compared.{warned_of_name};
ghost use Rattle.pep508_comparison_parser.specs.Outcome.{IsCompared, IsNamed};

use crate::notice::{Notice, leave_out, warn};
use pep508_marker::{
    ExtraOperator, MarkerExpression, MarkerOperator, MarkerValueExtra, MarkerValueString, Reporter,
};
use pep508_name::{ExtraName, InvalidNameError};
use std::alloc::{AllocError, Global};

/// Makes the comparison of a key of texts with a text; `~=` is left out with a warning.
pub(crate) fn compare_text<R: Reporter>(
    alloc: Global,
    reporter: &mut R,
    key: MarkerValueString,
    operator: MarkerOperator,
    value: String,
) -> Result<Option<MarkerExpression>, AllocError>
    requires { R.can_report reporter.old }
    ensures said { IfOk result (λ said. IsCompared R.takes reporter.old reporter.new said
        (text_compared key operator (string_bytes value))) }
    ensures again { R.can_report reporter.new }
{
    match operator {
        MarkerOperator::TildeEqual => leave_out(alloc, reporter, Notice::Compatible),
        _ => Ok(Some(MarkerExpression::String {
            key,
            operator,
            value,
        })),
    }
}

/// Makes the comparison of `extra` with a text; operators other than `==` and `!=` are left out with a
/// warning.
pub(crate) fn compare_extra<R: Reporter>(
    alloc: Global,
    reporter: &mut R,
    operator: MarkerOperator,
    text: &str,
) -> Result<Option<MarkerExpression>, AllocError>
    requires { R.can_report reporter.old }
    ensures said { IfOk result (λ said. IsCompared R.takes reporter.old reporter.new said
        (extra_compared operator text.now)) }
    ensures again { R.can_report reporter.new }
{
    let name = name_extra(alloc, reporter, text)?;
    match ExtraOperator::from_marker_operator(operator) {
        Some(operator) => Ok(Some(MarkerExpression::Extra { operator, name })),
        None => leave_out(alloc, reporter, Notice::Extra),
    }
}

/// Returns the extra that a text names, or the text itself, with a warning.
fn name_extra<R: Reporter>(
    alloc: Global,
    reporter: &mut R,
    text: &str,
) -> Result<MarkerValueExtra, AllocError>
    requires { R.can_report reporter.old }
    ensures named { IfOk result (λ extra. IsNamed R.takes reporter.old reporter.new extra text.now) }
    ensures again { R.can_report reporter.new }
{
    match ExtraName::from_str(alloc, text) {
        Ok(name) => Ok(MarkerValueExtra::Extra(name)),
        Err(InvalidNameError::Memory) => Err(AllocError),
        Err(error) => {
            warn(alloc, reporter, Notice::Name(text, &error))?;
            Ok(MarkerValueExtra::Arbitrary(String::from_str(alloc, text)?))
        }
    }
}
