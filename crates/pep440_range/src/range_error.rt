//! Why a specifier has no range.

ghost use Rattle.std.specs.Prelude.{Some};
ghost use Rattle.pep440_range.specs.ErrorPrint.{range_error_text};

use std::alloc::{AllocError, AllocFailed};
use std::error::Error;
use std::fmt;

/// Why a specifier has no range.
#[derive(Clone, Copy, Debug, PartialEq, Eq)]
pub enum RangeError {
    /// A number that has to be raised by one is `u64::MAX`.
    NumberAtEnd,
    /// Memory ran out.
    Memory,
}

impl From<AllocError> for RangeError {
    ghost use Rattle.std.specs.Prelude.{◌≡◌};
    ghost use Rattle.pep440_range.specs.declared.range_error.RangeError.TheVariants.{Memory};

    ghost from_gives = { λ _ error. error ≡ Memory };

    fn from(_: AllocError) -> RangeError {
        RangeError::Memory
    }
}

impl<T: Drop> From<AllocFailed<T>> for RangeError {
    ghost use Rattle.std.specs.Prelude.{◌≡◌};
    ghost use Rattle.pep440_range.specs.declared.range_error.RangeError.TheVariants.{Memory};

    ghost from_gives = { λ _ error. error ≡ Memory };

    fn from(_: AllocFailed<T>) -> RangeError {
        RangeError::Memory
    }
}

impl fmt::Display for RangeError {
    ghost output = { λ error. Some (range_error_text error) };

    fn fmt<W: fmt::Write>(&self, f: &mut fmt::Formatter<W>) -> fmt::Result {
        match self {
            RangeError::NumberAtEnd => write!(f, "a version number can't be raised"),
            RangeError::Memory => write!(f, "out of memory"),
        }
    }
}

impl Error for RangeError {}
