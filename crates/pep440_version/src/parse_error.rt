//! Why a text is not a version or not a pattern.
//!
//! `after parsing V, found REST` cuts the whole text in two, white space at its front and before the rest
//! included. A number that is too big is reported by its digits as they were written.

ghost use Rattle.std.specs.Prelude.{◌≡◌, ◌≢◌, IfOk, IfSome, Some, Err, alloc_error};
ghost use Rattle.std.specs.Option.{option_map};
ghost use Rattle.std.specs.String.{string_bytes};
ghost use Rattle.pep440_text.specs.declared.FaultKind.TheVariants as kinds;
ghost use Rattle.pep440_text.specs.Faults.{StandsIn, told_read};
ghost use Rattle.pep440_text.specs.Reading.{leading_digits};
ghost use Rattle.pep440_version.specs.ErrorPrints.{version_error_text, pattern_error_text};
ghost use Rattle.pep440_version.specs.declared.parse_error.VersionParseError.TheVariants as errors;
ghost use Rattle.pep440_version.specs.declared.parse_error.VersionPatternParseError.TheVariants as patterns;
ghost use Rattle.pep440_version.specs.VersionReading.{fault_in, told_version, told_pattern};

use pep440_text::{FaultKind, ReadError, TextFault};
use std::alloc::{AllocError, AllocFailed, Global};
use std::error::Error;
use std::fmt;

/// Why a text is not a version.
#[derive(Debug, PartialEq, Eq, Drop)]
pub enum VersionParseError {
    /// Memory ran out while reading.
    Memory,
    /// `.*` follows the release, where a version is wanted and not a pattern.
    Wildcard,
    /// A number exceeds `u64::MAX`.
    NumberTooBig {
        /// The number's digits, as they are written.
        number: String,
    },
    /// The text, or what follows the epoch, doesn't begin with an ASCII digit.
    NoLeadingNumber,
    /// No ASCII letter or digit follows the `+` or a separator of the local part.
    LocalEmpty,
    /// Something is left that can't be part of the version.
    UnexpectedEnd {
        /// The text that was read so far.
        version: String,
        /// The text that is left.
        remaining: String,
    },
}

impl From<AllocError> for VersionParseError {
    ghost use Rattle.std.specs.Prelude.{◌≡◌};
    ghost use Rattle.pep440_version.specs.declared.parse_error.VersionParseError.TheVariants.{Memory};

    ghost from_gives = { λ _ error. error ≡ Memory };

    fn from(_: AllocError) -> VersionParseError {
        VersionParseError::Memory
    }
}

impl<T: Drop> From<AllocFailed<T>> for VersionParseError {
    ghost use Rattle.std.specs.Prelude.{◌≡◌};
    ghost use Rattle.pep440_version.specs.declared.parse_error.VersionParseError.TheVariants.{Memory};

    ghost from_gives = { λ _ error. error ≡ Memory };

    fn from(_: AllocFailed<T>) -> VersionParseError {
        VersionParseError::Memory
    }
}

impl fmt::Display for VersionParseError {
    ghost output = { λ error. Some (version_error_text error) };

    fn fmt<W: fmt::Write>(&self, f: &mut fmt::Formatter<W>) -> fmt::Result {
        match self {
            VersionParseError::Memory => write!(f, "out of memory"),
            VersionParseError::Wildcard => write!(f, "wildcards are not allowed in a version"),
            VersionParseError::NumberTooBig { number } => write!(
                f,
                "expected number less than or equal to 18446744073709551615, \
                 but number found in \"{number}\" exceeds it"
            ),
            VersionParseError::NoLeadingNumber => write!(
                f,
                "expected version to start with a number, but no leading ASCII digits were found"
            ),
            VersionParseError::LocalEmpty => write!(
                f,
                "expected an alphanumeric ASCII segment after `+` or a separator"
            ),
            VersionParseError::UnexpectedEnd { version, remaining } => {
                write!(f, "after parsing `{version}`, ")?;
                write!(
                    f,
                    "found `{remaining}`, which is not part of a valid version"
                )
            }
        }
    }
}

impl Error for VersionParseError {}

/// Returns the digits at the front of some bytes. Takes memory for them.
fn digits_of(alloc: Global, bytes: &[u8]) -> Result<String, AllocError>
    ensures { IfOk result (λ digits. string_bytes digits ≡ leading_digits bytes.now) }
{
    let mut digits = String::new(alloc);
    for byte in bytes {
        if !byte.is_ascii_digit() {
            return Ok(digits);
        }
        digits.push(char::from(*byte))?;
    }
    Ok(digits)
}

impl VersionParseError {
    /// Returns the error for a fault in a text. Takes memory for the texts in it.
    fn of_fault(
        alloc: Global,
        text: &str,
        fault: TextFault,
    ) -> Result<VersionParseError, AllocError>
        requires { StandsIn text.now fault }
        ensures told { IfOk result (λ error. told_version error ≡ Some (fault_in text.now fault)) }
        ensures grown { result ≡ Err alloc_error → fault.kind ≢ kinds.NoLeadingNumber }
    {
        let (version, remaining) = text.split_at(text.len() - fault.left);
        match fault.kind {
            FaultKind::Wildcard => Ok(VersionParseError::Wildcard),
            FaultKind::NumberTooBig => Ok(VersionParseError::NumberTooBig {
                number: digits_of(alloc, remaining.as_bytes())?,
            }),
            FaultKind::NoLeadingNumber => Ok(VersionParseError::NoLeadingNumber),
            FaultKind::LocalEmpty => Ok(VersionParseError::LocalEmpty),
            FaultKind::UnexpectedEnd => Ok(VersionParseError::UnexpectedEnd {
                version: String::from_str(alloc, version)?,
                remaining: String::from_str(alloc, remaining)?,
            }),
        }
    }

    /// Returns the error for a text that could not be read.
    pub(crate) fn of_reading(alloc: Global, text: &str, error: ReadError) -> VersionParseError
        requires { IfSome (told_read error) (StandsIn text.now) }
        ensures told { IfSome (told_version result)
            (λ fault. option_map (fault_in text.now) (told_read error) ≡ Some fault) }
        ensures grown { result ≡ errors.Memory
            → IfSome (told_read error) (λ fault. fault.kind ≢ kinds.NoLeadingNumber) }
    {
        match error {
            ReadError::Memory => VersionParseError::Memory,
            ReadError::Fault(fault) => VersionParseError::of_fault(alloc, text, fault).unwrap_or(
                VersionParseError::Memory,
            ),
        }
    }
}

/// Why a text is not a pattern.
#[derive(Debug, PartialEq, Eq, Drop)]
pub enum VersionPatternParseError {
    /// Memory ran out while reading.
    Memory,
    /// What is wrong with the version; never lack of memory.
    Version(VersionParseError),
}

impl fmt::Display for VersionPatternParseError {
    ghost output = { λ error. Some (pattern_error_text error) };

    fn fmt<W: fmt::Write>(&self, f: &mut fmt::Formatter<W>) -> fmt::Result {
        match self {
            VersionPatternParseError::Memory => write!(f, "out of memory"),
            VersionPatternParseError::Version(error) => write!(f, "{error}"),
        }
    }
}

impl Error for VersionPatternParseError {}

impl VersionPatternParseError {
    /// Returns the error for a text that could not be read.
    pub(crate) fn of_reading(
        alloc: Global,
        text: &str,
        error: ReadError,
    ) -> VersionPatternParseError
        requires { IfSome (told_read error) (StandsIn text.now) }
        ensures told { IfSome (told_pattern result)
            (λ fault. option_map (fault_in text.now) (told_read error) ≡ Some fault) }
        ensures grown { result ≡ patterns.Memory
            → IfSome (told_read error) (λ fault. fault.kind ≢ kinds.NoLeadingNumber) }
        ensures plain { result ≢ patterns.Version errors.Memory }
    {
        match VersionParseError::of_reading(alloc, text, error) {
            VersionParseError::Memory => VersionPatternParseError::Memory,
            error => VersionPatternParseError::Version(error),
        }
    }
}
