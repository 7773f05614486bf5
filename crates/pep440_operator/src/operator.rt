//! Operators.
//!
//! `===` negates to `!=`, as upstream has it, although `!=` is not the complement of `===`.

ghost use Rattle.std.specs.Prelude.{◌≡◌, false, IfOk, Some, None, Err};
ghost use Rattle.read_outcome.specs.Outcome.{Answers};
ghost use Rattle.pep440_operator.specs.Operators.{is_star, negated};
ghost use Rattle.pep440_operator.specs.OperatorErrors.{operator_error_text};
ghost use Rattle.pep440_operator.specs.OperatorPrint.{operator_text};
ghost use Rattle.pep440_operator.specs.OperatorReading.{operator_of, told_operator, operator_reading};

use std::alloc::Global;
use std::error::Error;
use std::fmt;

/// How a specifier compares (PEP 440, "Version specifiers"). A star matches every release that begins with
/// the given numbers.
///
/// Prints as in a specifier's text, without the star, which follows the version there.
#[derive(Clone, Copy, Debug, PartialEq, Eq, PartialOrd, Ord, Hash)]
pub enum Operator {
    /// `==`
    Equal,
    /// `==` with a version that ends in `.*`
    EqualStar,
    /// `===`, which compares prints
    ExactEqual,
    /// `!=`
    NotEqual,
    /// `!=` with a version that ends in `.*`
    NotEqualStar,
    /// `~=`, the releases compatible with a version
    TildeEqual,
    /// `<`
    LessThan,
    /// `<=`
    LessThanEqual,
    /// `>`
    GreaterThan,
    /// `>=`
    GreaterThanEqual,
}

impl fmt::Display for Operator {
    ghost output = { λ operator. Some (operator_text operator) };

    fn fmt<W: fmt::Write>(&self, f: &mut fmt::Formatter<W>) -> fmt::Result {
        match self {
            Operator::Equal | Operator::EqualStar => write!(f, "=="),
            Operator::ExactEqual => write!(f, "==="),
            Operator::NotEqual | Operator::NotEqualStar => write!(f, "!="),
            Operator::TildeEqual => write!(f, "~="),
            Operator::LessThan => write!(f, "<"),
            Operator::LessThanEqual => write!(f, "<="),
            Operator::GreaterThan => write!(f, ">"),
            Operator::GreaterThanEqual => write!(f, ">="),
        }
    }
}

impl Operator {
    /// Reads an operator, as `>=`, with no white space around it; never one with a star, which follows the
    /// version.
    ///
    /// Takes memory for the error alone, which keeps the text. Linear in the text.
    ///
    /// # Errors
    /// `Unknown` with the text where it is not an operator; `Memory` where memory for that copy ran out.
    #[tactic(auto, unfolding(crate::specs::OperatorReading::operator_of))]
    pub fn from_str(alloc: Global, text: &str) -> Result<Operator, OperatorParseError>
        ensures operator { Answers (λ operator. operator) told_operator result (operator_reading text.now) }
        ensures starless { IfOk result (λ operator. is_star operator ≡ false) }
        ensures grown { result ≡ Err OperatorParseError.Memory → operator_of text.now ≡ None }
    {
        match text {
            "==" => Ok(Operator::Equal),
            "===" => Ok(Operator::ExactEqual),
            "!=" => Ok(Operator::NotEqual),
            "~=" => Ok(Operator::TildeEqual),
            "<" => Ok(Operator::LessThan),
            "<=" => Ok(Operator::LessThanEqual),
            ">" => Ok(Operator::GreaterThan),
            ">=" => Ok(Operator::GreaterThanEqual),
            _ => match String::from_str(alloc, text) {
                Ok(text) => Err(OperatorParseError::Unknown(text)),
                Err(_) => Err(OperatorParseError::Memory),
            },
        }
    }

    /// Returns the operator of the negated sign: `!=` for `==` and `===`, `>=` for `<`; `None` for `~=`.
    ///
    /// `==` and `!=`, with a star and without, accept exactly what their negations reject (PEP 440,
    /// "Version exclusion"). `<` and `>` do not: both `<1.0` and `>=1.0` reject `1.0.dev0`, and both `>1.0`
    /// and `<=1.0` reject `1.0.post1`.
    pub fn negate(self) -> Option<Operator>
        ensures { result ≡ negated self }
    {
        match self {
            Operator::Equal => Some(Operator::NotEqual),
            Operator::EqualStar => Some(Operator::NotEqualStar),
            Operator::ExactEqual => Some(Operator::NotEqual),
            Operator::NotEqual => Some(Operator::Equal),
            Operator::NotEqualStar => Some(Operator::EqualStar),
            Operator::TildeEqual => None,
            Operator::LessThan => Some(Operator::GreaterThanEqual),
            Operator::LessThanEqual => Some(Operator::GreaterThan),
            Operator::GreaterThan => Some(Operator::LessThanEqual),
            Operator::GreaterThanEqual => Some(Operator::LessThan),
        }
    }

    /// Returns whether `.*` follows the version.
    pub fn is_star(self) -> bool
        ensures { result ≡ is_star self }
    {
        matches!(self, Operator::EqualStar | Operator::NotEqualStar)
    }
}

/// Why a text is not an operator.
#[derive(Debug, PartialEq, Eq, Drop)]
pub enum OperatorParseError {
    /// Memory ran out.
    Memory,
    /// The text is not an operator; it is kept here.
    Unknown(String),
}

impl fmt::Display for OperatorParseError {
    ghost output = { λ error. Some (operator_error_text error) };

    fn fmt<W: fmt::Write>(&self, f: &mut fmt::Formatter<W>) -> fmt::Result {
        match self {
            OperatorParseError::Memory => write!(f, "out of memory"),
            OperatorParseError::Unknown(text) => write!(
                f,
                "no such comparison operator \"{text}\", must be one of ~= == != <= >= < > ==="
            ),
        }
    }
}

impl Error for OperatorParseError {}
