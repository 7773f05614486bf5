//! The results of calls that read: the definitions in every contract of a reader (`specs/Outcome.antt`),
//! and the error of reading a JSON value.
#![tactic(auto)]

ghost use Rattle.read_outcome.specs.Outcome.{value_error_text};

use std::error::Error;
use std::fmt;

/// Why a JSON value could not be read.
#[derive(Debug, PartialEq, Eq, Drop)]
pub enum FromValueError<E: Drop> {
    /// The value is not a text.
    Shape,
    /// What is wrong with the value's text, or lack of memory.
    Text(E),
}

impl<E: fmt::Display + Drop> fmt::Display for FromValueError<E> {
    ghost output = { value_error_text E.output };

    fn fmt<W: fmt::Write>(&self, f: &mut fmt::Formatter<W>) -> fmt::Result {
        match self {
            FromValueError::Shape => write!(f, "expected a text"),
            FromValueError::Text(error) => write!(f, "{error}"),
        }
    }
}

impl<E: Error + Drop> Error for FromValueError<E> {}
