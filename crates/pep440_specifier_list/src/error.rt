//! Why a text is not a list of specifiers.
//!
//! The error has the piece's fault, the line, and the piece's place, which is on a character of the line;
//! its print shows the line with the piece underlined.

ghost use Rattle.std.specs.Prelude.{◌≡◌, Some};
ghost use Rattle.pep440_specifier_list.specs.ListErrors.{line_of, error_text};
ghost use Rattle.pep440_specifier_list.specs.declared.error.VersionSpecifiersParseError.TheVariants as errors;

use crate::RefusedPiece;
use std::alloc::{AllocError, AllocFailed};
use std::error::Error;
use std::fmt;

/// Why a text is not a list of specifiers.
#[derive(Debug, PartialEq, Eq, Drop)]
pub enum VersionSpecifiersParseError {
    /// Memory ran out while reading.
    Memory,
    /// The first piece between commas that is not a specifier.
    Specifier(RefusedPiece),
}

impl VersionSpecifiersParseError {
    /// Returns the text that is not a list; empty where memory ran out.
    pub fn line(&self) -> &str
        ensures { result.now ≡ line_of self.now }
    {
        match self {
            VersionSpecifiersParseError::Memory => "",
            VersionSpecifiersParseError::Specifier(piece) => piece.line(),
        }
    }
}

impl From<AllocError> for VersionSpecifiersParseError {
    ghost use Rattle.std.specs.Prelude.{◌≡◌};

    ghost from_gives = { λ _ error. error ≡ errors.Memory };

    fn from(_: AllocError) -> VersionSpecifiersParseError {
        VersionSpecifiersParseError::Memory
    }
}

impl<T: Drop> From<AllocFailed<T>> for VersionSpecifiersParseError {
    ghost use Rattle.std.specs.Prelude.{◌≡◌};

    ghost from_gives = { λ _ error. error ≡ errors.Memory };

    fn from(_: AllocFailed<T>) -> VersionSpecifiersParseError {
        VersionSpecifiersParseError::Memory
    }
}

impl fmt::Display for VersionSpecifiersParseError {
    ghost output = { λ error. Some (error_text error) };

    fn fmt<W: fmt::Write>(&self, f: &mut fmt::Formatter<W>) -> fmt::Result {
        match self {
            VersionSpecifiersParseError::Memory => write!(f, "out of memory"),
            VersionSpecifiersParseError::Specifier(piece) => {
                let error = piece.error();
                let picture = piece.underlined();
                write!(f, "Failed to parse version: {error}:\n{picture}")
            }
        }
    }
}

impl Error for VersionSpecifiersParseError {}
