//! The operators of markers.

ghost use Rattle.std.specs.Prelude.{◌≡◌, None, Some, Err, option_map, option_copied};
ghost use Rattle.read_outcome.specs.Outcome.{Answers};
ghost use Rattle.pep508_marker.specs.Operators.{marker_operator_text, behind_not, is_not_in};
ghost use Rattle.pep508_marker.specs.Operators.{marker_operator_of, marker_operator_reading, told_text};
ghost use Rattle.pep508_marker.specs.Operators.{text_error_text, inverted, marker_negated};
ghost use Rattle.pep508_marker.specs.Operators.{specifier_operator};
ghost use Rattle.pep508_marker.specs.Operators.{extra_operator_text, extra_negated, extra_operator};
ghost use Rattle.pep508_marker.specs.Operators.{shown_bound, lower_term, upper_term, bound_terms};

use pep440_operator::Operator;
use std::alloc::{AllocError, Global};
use std::error::Error;
use std::fmt;
use std::ops::Bound;

/// How a key and a value are compared (PEP 508, "Environment Markers").
///
/// Prints as its text; containment prints as `in` and `not in`, with its sides exchanged.
#[derive(Clone, Copy, Debug, PartialEq, Eq, PartialOrd, Ord, Hash)]
pub enum MarkerOperator {
    /// `==`
    Equal,
    /// `!=`
    NotEqual,
    /// `>`
    GreaterThan,
    /// `>=`
    GreaterEqual,
    /// `<`
    LessThan,
    /// `<=`
    LessEqual,
    /// `~=`
    TildeEqual,
    /// `in`: the key's value is part of the text.
    In,
    /// `not in`
    NotIn,
    /// The text is part of the key's value, as in `'x' in os_name`.
    Contains,
    /// The text is not part of the key's value.
    NotContains,
}

/// Why a text is not an operator, or not a key.
#[derive(Debug, PartialEq, Eq, Drop)]
pub enum MarkerTextError {
    /// The message, with the text in it.
    Text(String),
    /// Memory ran out.
    Memory,
}

impl From<AllocError> for MarkerTextError {
    ghost use Rattle.std.specs.Prelude.{◌≡◌};
    ghost use Rattle.pep508_marker.specs.declared.operators.MarkerTextError.TheVariants.{Memory};

    ghost from_gives = { λ _ error. error ≡ Memory };

    fn from(_: AllocError) -> MarkerTextError {
        MarkerTextError::Memory
    }
}

impl fmt::Display for MarkerTextError {
    ghost output = { λ error. Some (text_error_text error) };

    fn fmt<W: fmt::Write>(&self, f: &mut fmt::Formatter<W>) -> fmt::Result {
        match self {
            MarkerTextError::Text(text) => write!(f, "{text}"),
            MarkerTextError::Memory => write!(f, "out of memory"),
        }
    }
}

impl Error for MarkerTextError {}

/// Returns the text after `not`, where that is at the front.
fn behind_not(text: &str) -> Option<&str>
    ensures { option_copied result ≡ behind_not text.now }
{
    text.strip_prefix("not")
}

/// Returns whether the text is `not`, white space and `in`.
#[tactic(auto, unfolding(crate::specs::Operators::is_not_in))]
fn is_not_in(text: &str) -> bool
    ensures { result ≡ is_not_in text.now }
{
    match behind_not(text) {
        Some(rest) => rest.trim_start() == "in" && rest != "in",
        None => false,
    }
}

impl MarkerOperator {
    /// Reads an operator, as `>=`, with nothing around it. Between `not` and `in` there is white space, one
    /// character or more; containment is never read.
    ///
    /// Takes memory for the error alone.
    ///
    /// # Errors
    /// `Text` with `Invalid comparator: ` and the text where it is not an operator; `Memory` where memory
    /// ran out.
    #[tactic(auto, unfolding(crate::specs::Operators::marker_operator_of))]
    pub fn from_str(alloc: Global, text: &str) -> Result<MarkerOperator, MarkerTextError>
        ensures answered { Answers (λ operator. operator) told_text result
            (marker_operator_reading text.now) }
        ensures grown { result ≡ Err MarkerTextError.Memory → marker_operator_of text.now ≡ None }
    {
        match text {
            "==" => Ok(MarkerOperator::Equal),
            "!=" => Ok(MarkerOperator::NotEqual),
            ">" => Ok(MarkerOperator::GreaterThan),
            ">=" => Ok(MarkerOperator::GreaterEqual),
            "<" => Ok(MarkerOperator::LessThan),
            "<=" => Ok(MarkerOperator::LessEqual),
            "~=" => Ok(MarkerOperator::TildeEqual),
            "in" => Ok(MarkerOperator::In),
            _ => {
                if is_not_in(text) {
                    return Ok(MarkerOperator::NotIn);
                }
                let message = format!(in alloc; "Invalid comparator: {text}")?;
                Err(MarkerTextError::Text(message))
            }
        }
    }

    /// Returns the operator with the sides exchanged: `>` for `<`, containment for `in`.
    pub fn invert(self) -> MarkerOperator
        ensures { result ≡ inverted self }
    {
        match self {
            MarkerOperator::Equal | MarkerOperator::NotEqual | MarkerOperator::TildeEqual => self,
            MarkerOperator::GreaterThan => MarkerOperator::LessThan,
            MarkerOperator::GreaterEqual => MarkerOperator::LessEqual,
            MarkerOperator::LessThan => MarkerOperator::GreaterThan,
            MarkerOperator::LessEqual => MarkerOperator::GreaterEqual,
            MarkerOperator::In => MarkerOperator::Contains,
            MarkerOperator::NotIn => MarkerOperator::NotContains,
            MarkerOperator::Contains => MarkerOperator::In,
            MarkerOperator::NotContains => MarkerOperator::NotIn,
        }
    }

    /// Returns the operator of the opposite; `None` for `~=`.
    pub fn negate(self) -> Option<MarkerOperator>
        ensures { result ≡ marker_negated self }
    {
        match self {
            MarkerOperator::Equal => Some(MarkerOperator::NotEqual),
            MarkerOperator::NotEqual => Some(MarkerOperator::Equal),
            MarkerOperator::GreaterThan => Some(MarkerOperator::LessEqual),
            MarkerOperator::GreaterEqual => Some(MarkerOperator::LessThan),
            MarkerOperator::LessThan => Some(MarkerOperator::GreaterEqual),
            MarkerOperator::LessEqual => Some(MarkerOperator::GreaterThan),
            MarkerOperator::TildeEqual => None,
            MarkerOperator::In => Some(MarkerOperator::NotIn),
            MarkerOperator::NotIn => Some(MarkerOperator::In),
            MarkerOperator::Contains => Some(MarkerOperator::NotContains),
            MarkerOperator::NotContains => Some(MarkerOperator::Contains),
        }
    }

    /// Returns the specifiers' operator with the same sign; `None` for `in`, `not in` and containment.
    pub fn to_pep440_operator(self) -> Option<Operator>
        ensures { result ≡ specifier_operator self }
    {
        match self {
            MarkerOperator::Equal => Some(Operator::Equal),
            MarkerOperator::NotEqual => Some(Operator::NotEqual),
            MarkerOperator::GreaterThan => Some(Operator::GreaterThan),
            MarkerOperator::GreaterEqual => Some(Operator::GreaterThanEqual),
            MarkerOperator::LessThan => Some(Operator::LessThan),
            MarkerOperator::LessEqual => Some(Operator::LessThanEqual),
            MarkerOperator::TildeEqual => Some(Operator::TildeEqual),
            _ => None,
        }
    }

    /// Returns the comparisons with a value that two bounds amount to: `==` where both are included and
    /// equal, `!=` where both are excluded and equal, and else one for each bound that there is, the lower
    /// one first.
    pub fn from_bounds<'a, T: PartialEq>(
        bounds: (Bound<&'a T>, Bound<&'a T>),
    ) -> (
        Option<(MarkerOperator, &'a T)>,
        Option<(MarkerOperator, &'a T)>,
    )
        ensures { (
          option_map (λ term. (term.0, term.1.now)) result.0,
          option_map (λ term. (term.0, term.1.now)) result.1,
        )
            ≡ bound_terms T.eq (shown_bound bounds.entry.0) (shown_bound bounds.entry.1) }
    {
        match bounds {
            (Bound::Included(lower), Bound::Included(upper)) if *lower == *upper => {
                (Some((MarkerOperator::Equal, lower)), None)
            }
            (Bound::Excluded(lower), Bound::Excluded(upper)) if *lower == *upper => {
                (Some((MarkerOperator::NotEqual, lower)), None)
            }
            (lower, upper) => (
                MarkerOperator::from_lower_bound(lower),
                MarkerOperator::from_upper_bound(upper),
            ),
        }
    }

    /// Returns the comparison of a lower bound: `>=` for an included one, `>` for an excluded one, and
    /// `None` where there is no bound.
    pub fn from_lower_bound<T>(bound: Bound<&T>) -> Option<(MarkerOperator, &T)>
        ensures { option_map (λ term. (term.0, term.1.now)) result ≡ lower_term (shown_bound bound.entry) }
    {
        match bound {
            Bound::Included(value) => Some((MarkerOperator::GreaterEqual, value)),
            Bound::Excluded(value) => Some((MarkerOperator::GreaterThan, value)),
            Bound::Unbounded => None,
        }
    }

    /// Returns the comparison of an upper bound: `<=` for an included one, `<` for an excluded one, and
    /// `None` where there is no bound.
    pub fn from_upper_bound<T>(bound: Bound<&T>) -> Option<(MarkerOperator, &T)>
        ensures { option_map (λ term. (term.0, term.1.now)) result ≡ upper_term (shown_bound bound.entry) }
    {
        match bound {
            Bound::Included(value) => Some((MarkerOperator::LessEqual, value)),
            Bound::Excluded(value) => Some((MarkerOperator::LessThan, value)),
            Bound::Unbounded => None,
        }
    }
}

impl fmt::Display for MarkerOperator {
    ghost output = { λ operator. Some (marker_operator_text operator) };

    fn fmt<W: fmt::Write>(&self, f: &mut fmt::Formatter<W>) -> fmt::Result {
        match self {
            MarkerOperator::Equal => write!(f, "=="),
            MarkerOperator::NotEqual => write!(f, "!="),
            MarkerOperator::GreaterThan => write!(f, ">"),
            MarkerOperator::GreaterEqual => write!(f, ">="),
            MarkerOperator::LessThan => write!(f, "<"),
            MarkerOperator::LessEqual => write!(f, "<="),
            MarkerOperator::TildeEqual => write!(f, "~="),
            MarkerOperator::In | MarkerOperator::Contains => write!(f, "in"),
            MarkerOperator::NotIn | MarkerOperator::NotContains => write!(f, "not in"),
        }
    }
}

/// How `extra` is compared with a name.
#[derive(Clone, Copy, Debug, PartialEq, Eq, PartialOrd, Ord, Hash)]
pub enum ExtraOperator {
    /// `==`
    Equal,
    /// `!=`
    NotEqual,
}

impl ExtraOperator {
    /// Returns the operator with the same sign; `None` for all but `==` and `!=`.
    pub fn from_marker_operator(operator: MarkerOperator) -> Option<ExtraOperator>
        ensures { result ≡ extra_operator operator }
    {
        match operator {
            MarkerOperator::Equal => Some(ExtraOperator::Equal),
            MarkerOperator::NotEqual => Some(ExtraOperator::NotEqual),
            _ => None,
        }
    }

    /// Returns the other operator.
    pub fn negate(self) -> ExtraOperator
        ensures { result ≡ extra_negated self }
    {
        match self {
            ExtraOperator::Equal => ExtraOperator::NotEqual,
            ExtraOperator::NotEqual => ExtraOperator::Equal,
        }
    }
}

impl fmt::Display for ExtraOperator {
    ghost output = { λ operator. Some (extra_operator_text operator) };

    fn fmt<W: fmt::Write>(&self, f: &mut fmt::Formatter<W>) -> fmt::Result {
        match self {
            ExtraOperator::Equal => write!(f, "=="),
            ExtraOperator::NotEqual => write!(f, "!="),
        }
    }
}
