#![tactic(auto)]
//! The texts of versions, as PEP 440 has them: their parts, how they are read and what they print.
//!
//! `read_version` and `read_pattern` return the parts of a text, of which the crate of versions makes a
//! `Version`.
//!
//! The crate is below `pep440_version`, so that `Version::from_str` is an ordinary method.
//!
//! The grammar says what each part of a version is, and one general rule says when an optional part is
//! present: wherever some prefix of the rest is such a part, and then the longest such prefix is taken. So
//! `1.0a-1` is `1.0a1` and not a pre-release with a post-release, and the definition has no order of
//! attempts.
//!
//! White space around a version is what Rust's `is_ascii_whitespace` accepts: tab, line feed, form feed,
//! carriage return and space. PEP 440's own pattern accepts a vertical tab too. It may also follow a star:
//! the pattern `3.8.* ` is read as the version `3.8 ` is.

ghost use Rattle.std.specs.Prelude.{◌≡◌, IfOk};
ghost use Rattle.pep440_text.specs.Record.{segment_of};

use std::alloc::{AllocError, AllocFailed, Global};

pub mod laws;
mod print;
mod reading;
pub mod release;
pub mod suffixes;

pub use reading::{read_pattern, read_version};

/// The kind of a pre-release (PEP 440, "Pre-releases"). Prints as `a`, `b` or `rc`.
#[derive(Clone, Copy, Debug, PartialEq, Eq, PartialOrd, Ord, Hash)]
pub enum PrereleaseKind {
    Alpha,
    Beta,
    Rc,
}

/// A pre-release: its kind and its number. Prints as `a1`.
#[derive(Clone, Copy, Debug, PartialEq, Eq, PartialOrd, Ord, Hash)]
pub struct Prerelease {
    pub kind: PrereleaseKind,
    pub number: u64,
}

/// A segment of a local part (PEP 440, "Local version identifiers"): a number, or a text in lower case.
#[derive(Debug, PartialEq, Eq, PartialOrd, Ord, Hash, Drop)]
pub enum LocalSegment {
    String(String),
    Number(u64),
}

impl LocalSegment {
    /// Returns a copy, in memory of its own.
    ///
    /// # Errors
    ///
    /// `AllocError` when memory runs out.
    pub fn try_clone(&self, alloc: Global) -> Result<LocalSegment, AllocError>
        ensures { IfOk result (λ copy. segment_of copy ≡ segment_of self.now) }
    {
        Ok(match self {
            LocalSegment::String(text) => {
                LocalSegment::String(String::from_str(alloc, text.as_str())?)
            }
            LocalSegment::Number(number) => LocalSegment::Number(*number),
        })
    }
}

/// The parts of a version's text.
#[derive(Drop)]
pub struct VersionParts {
    pub epoch: u64,
    pub release: Vec<u64>,
    pub pre: Option<Prerelease>,
    pub post: Option<u64>,
    pub dev: Option<u64>,
    pub local: Vec<LocalSegment>,
}

/// What is wrong with a text that is not a version.
#[derive(Clone, Copy, Debug, PartialEq, Eq, PartialOrd, Ord, Hash)]
pub enum FaultKind {
    /// `.*` follows the release, where a version is wanted and not a pattern.
    Wildcard,
    /// A number exceeds `u64::MAX`.
    NumberTooBig,
    /// The text, or what follows the epoch, doesn't begin with a digit.
    NoLeadingNumber,
    /// No letter or digit follows the `+` or a separator of the local part.
    LocalEmpty,
    /// Something is left that can't be part of the version.
    UnexpectedEnd,
}

/// What is wrong with a text, and where.
#[derive(Clone, Copy, Debug, PartialEq, Eq, PartialOrd, Ord, Hash)]
pub struct TextFault {
    pub kind: FaultKind,
    /// The number of bytes from the fault to the end of the text.
    pub left: usize,
}

/// Why a text could not be read as a version.
#[derive(Clone, Copy, Debug, PartialEq, Eq, PartialOrd, Ord, Hash)]
pub enum ReadError {
    /// Memory ran out while reading.
    Memory,
    Fault(TextFault),
}

impl From<AllocError> for ReadError {
    ghost use Rattle.pep440_text.specs.declared.ReadError.TheVariants.{Memory};

    ghost from_gives = { λ _ error. error ≡ Memory };

    fn from(_: AllocError) -> ReadError {
        ReadError::Memory
    }
}

impl<T: Drop> From<AllocFailed<T>> for ReadError {
    ghost use Rattle.pep440_text.specs.declared.ReadError.TheVariants.{Memory};

    ghost from_gives = { λ _ error. error ≡ Memory };

    fn from(_: AllocFailed<T>) -> ReadError {
        ReadError::Memory
    }
}

impl From<TextFault> for ReadError {
    ghost use Rattle.pep440_text.specs.declared.ReadError.TheVariants.{Fault};

    ghost from_gives = { λ fault error. error ≡ Fault fault };

    fn from(fault: TextFault) -> ReadError {
        ReadError::Fault(fault)
    }
}
