//! Answers on the pieces of comparisons.

ghost use Rattle.pep508_expression.specs.Trees.{IsComparison};
ghost use Rattle.pep508_marker.specs.Expression.{expression_of};

use crate::stop::{Stop, Told, answered, put, said, stop_behind};
use crate::texts::text_of;
use pep440_range::RangeError;
use pep508_expression::MarkerTreeExpression;
use pep508_marker::{
    ExtraOperator, MarkerExpression, MarkerOperator, MarkerTextError, MarkerValue,
    MarkerValueExtra, MarkerValueString, MarkerValueVersion,
};
use pep508_name::{ExtraName, InvalidNameError};
use pep508_tree::{Interner, MarkerTree};
use std::alloc::Global;
use std::fmt::Write;
use std::ops::Bound;

/// Stops a question on a text that is not a key or operator.
pub fn stopped(answer: &mut String, error: &MarkerTextError) -> Stop {
    match error {
        MarkerTextError::Memory => Stop::Memory,
        MarkerTextError::Text(text) => stop_behind(answer.push_str(text)),
    }
}

fn operator_of(alloc: Global, answer: &mut String, text: &str) -> Result<MarkerOperator, Stop> {
    match MarkerOperator::from_str(alloc, text) {
        Ok(operator) => Ok(operator),
        Err(error) => Err(stopped(answer, &error)),
    }
}

/// Answers with an operator, its inverse and its negation, and as an operator of specifiers and extras.
pub fn operator(alloc: Global, answer: &mut String, text: &str) -> Told {
    let operator = operator_of(alloc, answer, text)?;
    let inverted = operator.invert();
    let negated = operator.negate();
    let of_versions = operator.to_pep440_operator();
    let of_extras = ExtraOperator::from_marker_operator(operator);
    let other = of_extras.map(ExtraOperator::negate);
    write!(
        answer,
        "{operator:?}, inverted {inverted:?}, negated {negated:?}, "
    )?;
    answered(write!(answer, "{of_versions:?}, {of_extras:?}, {other:?}"))
}

/// Answers with a key: its name, and for a key of texts the name by which it was written and whether that
/// is old.
pub fn key(alloc: Global, answer: &mut String, text: &str) -> Told {
    match MarkerValue::from_str(alloc, text) {
        Ok(value) => key_shown(answer, &value),
        Err(error) => Err(stopped(answer, &error)),
    }
}

fn key_shown(answer: &mut String, value: &MarkerValue) -> Told {
    match value {
        MarkerValue::MarkerEnvVersion(key) => said(answer, MarkerValueVersion::name(*key)),
        MarkerValue::MarkerEnvString(key) => {
            let (name, written, modern) = (key.name(), key.written(), key.modern());
            let is_old = key.is_deprecated();
            answered(write!(
                answer,
                "{name}, written {written}, old {is_old}, {modern:?}"
            ))
        }
        value => put(answer, value),
    }
}

/// Answers with the print of a copy of a side of a comparison: a key, or a text.
pub fn side(alloc: Global, answer: &mut String, key: &str, text: &str) -> Told {
    if key.is_empty() {
        let text = MarkerValue::QuotedString(String::from_str(alloc, text)?);
        return copied(alloc, answer, &text);
    }
    match MarkerValue::from_str(alloc, key) {
        Ok(value) => copied(alloc, answer, &value),
        Err(error) => Err(stopped(answer, &error)),
    }
}

fn copied(alloc: Global, answer: &mut String, value: &MarkerValue) -> Told {
    let copy = value.try_clone(alloc)?;
    put(answer, &copy)
}

/// Answers with the terms of a lower and an upper bound, of both together and of each by itself. A bracket
/// includes the character after it, and a parenthesis excludes it.
pub fn bounds(answer: &mut String, lower: &str, upper: &str) -> Told {
    let (lower, upper) = (bound(lower), bound(upper));
    let both = MarkerOperator::from_bounds((lower.as_ref(), upper.as_ref()));
    let from_lower = MarkerOperator::from_lower_bound(lower.as_ref());
    let from_upper = MarkerOperator::from_upper_bound(upper.as_ref());
    answered(write!(answer, "{both:?}, {from_lower:?}, {from_upper:?}"))
}

fn bound(written: &str) -> Bound<char> {
    let mut signs = written.chars();
    match (signs.next(), signs.next()) {
        (Some('['), Some(value)) => Bound::Included(value),
        (Some(_), Some(value)) => Bound::Excluded(value),
        _ => Bound::Unbounded,
    }
}

/// Answers with the text of the tree of a comparison, whose key is one of texts or `extra`.
pub fn comparison(
    alloc: Global,
    answer: &mut String,
    interner: &mut Interner,
    key: &str,
    operator: &str,
    text: &str,
) -> Told {
    let operator = operator_of(alloc, answer, operator)?;
    match key_of(alloc, answer, key)? {
        Some(key) => of_text(alloc, answer, interner, key, operator, text),
        None => of_extra(alloc, answer, interner, operator, text),
    }
}

/// Returns a key of texts; `None` for `extra`.
fn key_of(
    alloc: Global,
    answer: &mut String,
    key: &str,
) -> Result<Option<MarkerValueString>, Stop> {
    match MarkerValue::from_str(alloc, key) {
        Ok(MarkerValue::MarkerEnvString(key)) => Ok(Some(key)),
        Ok(MarkerValue::Extra) => Ok(None),
        Ok(_) => Err(stop_behind(answer.push_str("no comparison"))),
        Err(error) => Err(stopped(answer, &error)),
    }
}

fn of_text(
    alloc: Global,
    answer: &mut String,
    interner: &mut Interner,
    key: MarkerValueString,
    operator: MarkerOperator,
    text: &str,
) -> Told {
    if operator == MarkerOperator::TildeEqual {
        return said(answer, "no comparison");
    }
    let expression = MarkerExpression::String {
        key,
        operator,
        value: String::from_str(alloc, text)?,
    };
    tree_text(alloc, answer, interner, &expression)
}

fn of_extra(
    alloc: Global,
    answer: &mut String,
    interner: &mut Interner,
    operator: MarkerOperator,
    text: &str,
) -> Told {
    let Some(operator) = ExtraOperator::from_marker_operator(operator) else {
        return said(answer, "no comparison");
    };
    let name = extra(alloc, text)?;
    of_name(alloc, answer, interner, operator, &name)
}

fn of_name(
    alloc: Global,
    answer: &mut String,
    interner: &mut Interner,
    operator: ExtraOperator,
    name: &MarkerValueExtra,
) -> Told {
    let expression = MarkerExpression::Extra {
        operator,
        name: name.try_clone(alloc)?,
    };
    tree_text(alloc, answer, interner, &expression)
}

/// Returns the extra of a name, or the text where it is not a name.
fn extra(alloc: Global, text: &str) -> Result<MarkerValueExtra, Stop> {
    match ExtraName::from_str(alloc, text) {
        Ok(name) => Ok(MarkerValueExtra::Extra(name)),
        Err(InvalidNameError::InvalidName(text)) => Ok(MarkerValueExtra::Arbitrary(text)),
        Err(InvalidNameError::Memory) => Err(Stop::Memory),
    }
}

fn tree_text(
    alloc: Global,
    answer: &mut String,
    interner: &mut Interner,
    expression: &MarkerExpression,
) -> Told
    requires { IsComparison (expression_of expression.now) }
{
    let copy = expression.try_clone(alloc)?;
    match MarkerTree::expression(alloc, interner, copy) {
        Ok(tree) => text_of(alloc, answer, interner, tree),
        Err(RangeError::Memory) => Err(Stop::Memory),
        Err(RangeError::NumberAtEnd) => said(answer, "number at end"),
    }
}
