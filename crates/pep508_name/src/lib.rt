#![tactic(auto)]
//! Names of Python packages and of their extras, as PEP 508 has them, in the normal form of PEP 503.
//!
//! The model of a `PackageName` and of an `ExtraName` in contracts is the list of the normal name's bytes,
//! so that `FrIeNdLy-._.-bArD` and `friendly-bard` are one name.
//!
//! Rejecting a name never fails for lack of memory, but for the copy of the text that its error keeps.
//! Where even that is refused, a candidate list asks `is_name`, which allocates nothing: a candidate line
//! with a bad name is refused as such whatever memory there is.

ghost use Rattle.std.specs.Prelude.{◌≡◌, Some};
ghost use Rattle.pep508_name.specs.Name.{refused_text, error_text};

use std::alloc::{AllocError, Global};
use std::error::Error;
use std::fmt;

mod extra_name;
pub mod laws;
mod normal;
mod origin;
mod package;
mod unchanged;

pub use extra_name::ExtraName;
pub use normal::is_name;
pub use origin::RequirementOrigin;
pub use package::PackageName;

/// Why a text is not a name.
#[derive(Debug, PartialEq, Eq, Drop)]
pub enum InvalidNameError {
    /// Memory ran out while reading.
    Memory,
    /// The text, as it was given, is not a name.
    InvalidName(String),
}

impl InvalidNameError {
    ghost use Rattle.std.specs.Prelude.{IfOk};
    ghost use Rattle.pep508_name.specs.Name.{refused_text, told_name};

    /// Returns a copy, in memory of its own; a copy of `Memory` takes none.
    ///
    /// # Errors
    ///
    /// `AllocError` when memory runs out.
    pub fn try_clone(&self, alloc: Global) -> Result<Self, AllocError>
        ensures { IfOk result (λ copy. told_name copy ≡ told_name self.now) }
    {
        match self {
            InvalidNameError::Memory => Ok(InvalidNameError::Memory),
            InvalidNameError::InvalidName(text) => Ok(InvalidNameError::InvalidName(
                String::from_str(alloc, text.as_str())?,
            )),
        }
    }

    /// Returns the text that is not a name, as it was given; empty where memory ran out.
    pub fn as_str(&self) -> &str
        ensures { result.now ≡ refused_text self.now }
    {
        match self {
            InvalidNameError::Memory => "",
            InvalidNameError::InvalidName(text) => text.as_str(),
        }
    }
}

impl From<AllocError> for InvalidNameError {
    ghost use Rattle.pep508_name.specs.declared.InvalidNameError.TheVariants.{Memory};

    ghost from_gives = { λ _ error. error ≡ Memory };

    fn from(_: AllocError) -> InvalidNameError {
        InvalidNameError::Memory
    }
}

impl fmt::Display for InvalidNameError {
    ghost output = { λ error. Some (error_text error) };

    fn fmt<W: fmt::Write>(&self, f: &mut fmt::Formatter<W>) -> fmt::Result {
        match self {
            InvalidNameError::Memory => write!(f, "out of memory"),
            InvalidNameError::InvalidName(text) => write!(
                f,
                "Not a valid package or extra name: \"{text}\". \
                 Names must start and end with a letter or digit and may only contain \
                 -, _, ., and alphanumeric characters."
            ),
        }
    }
}

impl Error for InvalidNameError {}
