//! Why a text is not a specifier.

ghost use Rattle.std.specs.Prelude.{Some};
ghost use Rattle.pep440_specifier.specs.SpecifierErrorPrints.{specifier_error_text};

use crate::{OperatorParseError, VersionSpecifierBuildError};
use pep440_version::VersionPatternParseError;
use std::error::Error;
use std::fmt;

/// Why a text is not a specifier.
#[derive(Debug, PartialEq, Eq, Drop)]
pub enum VersionSpecifierParseError {
    /// Memory ran out while reading.
    Memory,
    /// The text doesn't begin with an operator.
    MissingOperator,
    /// The operator is unknown.
    InvalidOperator(OperatorParseError),
    /// No version follows the operator.
    MissingVersion,
    /// What follows the operator is not a version.
    InvalidVersion(VersionPatternParseError),
    /// The operator does not allow this version.
    InvalidSpecifier(VersionSpecifierBuildError),
    /// Something other than white space follows the version.
    InvalidTrailing(String),
}

impl fmt::Display for VersionSpecifierParseError {
    ghost output = { λ error. Some (specifier_error_text error) };

    fn fmt<W: fmt::Write>(&self, f: &mut fmt::Formatter<W>) -> fmt::Result {
        match self {
            VersionSpecifierParseError::Memory => write!(f, "out of memory"),
            VersionSpecifierParseError::MissingOperator => write!(
                f,
                "Unexpected end of version specifier, expected operator"
            ),
            VersionSpecifierParseError::InvalidOperator(error) => write!(f, "{error}"),
            VersionSpecifierParseError::MissingVersion => write!(
                f,
                "Unexpected end of version specifier, expected version"
            ),
            VersionSpecifierParseError::InvalidVersion(error) => write!(f, "{error}"),
            VersionSpecifierParseError::InvalidSpecifier(error) => write!(f, "{error}"),
            VersionSpecifierParseError::InvalidTrailing(text) => {
                write!(f, "Trailing `{text}` is not allowed")
            }
        }
    }
}

impl Error for VersionSpecifierParseError {}
