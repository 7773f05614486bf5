//! The comparison that two sides with an operator between them express.

ghost use Rattle.std.specs.Prelude.{◌≡◌, IfOk};
ghost use Rattle.std.specs.String.{string_bytes};
ghost use Rattle.pep508_marker.specs.Values.{value_of, VersionKey, TextKey, ExtraKey, Quoted};
ghost use Rattle.pep508_comparison_parser.specs.Compared.{compared};
ghost use Rattle.pep508_comparison_parser.specs.Outcome.{IsCompared};

use crate::notice::{Notice, leave_out};
use crate::text_keys::{compare_extra, compare_text};
use crate::version_keys::{compare_turned, compare_version};
use pep508_marker::{
    MarkerExpression, MarkerOperator, MarkerValue, MarkerValueString, MarkerValueVersion, Reporter,
};
use std::alloc::{AllocError, Global};

/// Returns the comparison that two sides and an operator express, if any. The warnings are reported in
/// their order.
pub(crate) fn compare<R: Reporter>(
    alloc: Global,
    reporter: &mut R,
    left: MarkerValue,
    operator: MarkerOperator,
    right: MarkerValue,
) -> Result<Option<MarkerExpression>, AllocError>
    requires { R.can_report reporter.old }
    ensures said { IfOk result (λ said. IsCompared R.takes reporter.old reporter.new said
        (compared (value_of left) operator (value_of right))) }
    ensures again { R.can_report reporter.new }
{
    match left {
        MarkerValue::MarkerEnvVersion(key) => {
            compare_version_key(alloc, reporter, key, operator, &right)
        }
        MarkerValue::MarkerEnvString(key) => {
            compare_text_key(alloc, reporter, key, operator, right)
        }
        MarkerValue::Extra => compare_extra_key(alloc, reporter, operator, &right),
        MarkerValue::QuotedString(text) => compare_quoted(alloc, reporter, text, operator, &right),
    }
}

/// Makes the comparison of a key of versions with another side.
#[tactic(auto, unfolding(crate::specs::Compared::compared))]
fn compare_version_key<R: Reporter>(
    alloc: Global,
    reporter: &mut R,
    key: MarkerValueVersion,
    operator: MarkerOperator,
    right: &MarkerValue,
) -> Result<Option<MarkerExpression>, AllocError>
    requires { R.can_report reporter.old }
    ensures said { IfOk result (λ said. IsCompared R.takes reporter.old reporter.new said
        (compared (VersionKey key) operator (value_of right.now))) }
    ensures again { R.can_report reporter.new }
{
    match right {
        MarkerValue::QuotedString(text) => {
            compare_version(alloc, reporter, key, operator, text.as_str())
        }
        MarkerValue::MarkerEnvVersion(_) | MarkerValue::MarkerEnvString(_) | MarkerValue::Extra => {
            leave_out(alloc, reporter, Notice::Unquoted(key, right))
        }
    }
}

/// Makes the comparison of a key of texts with another side.
#[tactic(auto, unfolding(crate::specs::Compared::compared))]
fn compare_text_key<R: Reporter>(
    alloc: Global,
    reporter: &mut R,
    key: MarkerValueString,
    operator: MarkerOperator,
    right: MarkerValue,
) -> Result<Option<MarkerExpression>, AllocError>
    requires { R.can_report reporter.old }
    ensures said { IfOk result (λ said. IsCompared R.takes reporter.old reporter.new said
        (compared (TextKey key) operator (value_of right))) }
    ensures again { R.can_report reporter.new }
{
    match right {
        MarkerValue::QuotedString(text) => compare_text(alloc, reporter, key, operator, text),
        MarkerValue::MarkerEnvVersion(_) | MarkerValue::MarkerEnvString(_) | MarkerValue::Extra => {
            leave_out(alloc, reporter, Notice::Keys)
        }
    }
}

/// Makes the comparison of `extra` with another side.
#[tactic(auto, unfolding(crate::specs::Compared::compared))]
fn compare_extra_key<R: Reporter>(
    alloc: Global,
    reporter: &mut R,
    operator: MarkerOperator,
    right: &MarkerValue,
) -> Result<Option<MarkerExpression>, AllocError>
    requires { R.can_report reporter.old }
    ensures said { IfOk result (λ said. IsCompared R.takes reporter.old reporter.new said
        (compared ExtraKey operator (value_of right.now))) }
    ensures again { R.can_report reporter.new }
{
    match right {
        MarkerValue::QuotedString(text) => compare_extra(alloc, reporter, operator, text.as_str()),
        MarkerValue::MarkerEnvVersion(_) | MarkerValue::MarkerEnvString(_) | MarkerValue::Extra => {
            leave_out(alloc, reporter, Notice::Extra)
        }
    }
}

/// Makes the comparison of a quoted text with another side; in the result a key is on the left.
#[tactic(auto, unfolding(crate::specs::Compared::compared))]
fn compare_quoted<R: Reporter>(
    alloc: Global,
    reporter: &mut R,
    text: String,
    operator: MarkerOperator,
    right: &MarkerValue,
) -> Result<Option<MarkerExpression>, AllocError>
    requires { R.can_report reporter.old }
    ensures said { IfOk result (λ said. IsCompared R.takes reporter.old reporter.new said
        (compared (Quoted (string_bytes text)) operator (value_of right.now))) }
    ensures again { R.can_report reporter.new }
{
    match right {
        MarkerValue::MarkerEnvVersion(key) => {
            compare_turned(alloc, reporter, *key, operator.invert(), text.as_str())
        }
        MarkerValue::MarkerEnvString(key) => {
            compare_text(alloc, reporter, *key, operator.invert(), text)
        }
        MarkerValue::Extra => compare_extra(alloc, reporter, operator, text.as_str()),
        MarkerValue::QuotedString(other) => {
            let notice = Notice::Quoted(text.as_str(), operator, other.as_str());
            leave_out(alloc, reporter, notice)
        }
    }
}
