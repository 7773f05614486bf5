//! Versions with the texts that they were read from.

ghost use Rattle.std.specs.Prelude.{◌≡◌, ◌≢◌, IfOk, Some, Err};
ghost use Rattle.std.specs.String.{string_bytes};
ghost use Rattle.serde_json.specs.View.{view};
ghost use Rattle.serde_json.specs.Find.{as_str};
ghost use Rattle.read_outcome.specs.Outcome.{Answers, ReadsText};
ghost use Rattle.pep440_text.specs.Print.{version_text};
ghost use Rattle.pep440_version.specs.VersionReading.{NoLeadingNumber, version_reading, told_version};
ghost use Rattle.pep440_version.specs.declared.parse_error.VersionParseError.TheVariants as errors;

use pep440_version::{Version, VersionParseError};
use read_outcome::FromValueError;
use serde_json::Value;
use std::alloc::{AllocError, Global};
use std::fmt;

/// A version and a text of it, as an interpreter reports both. Prints as the text.
///
/// Compares and hashes by both, so that `1.0` and `1` differ here.
#[derive(Debug, PartialEq, Eq, Hash, Drop)]
pub struct StringVersion {
    /// The text, as it was given.
    pub string: String,
    /// The version.
    pub version: Version,
}

impl StringVersion {
    /// Returns a version with its print as the text. Takes memory for the text.
    ///
    /// # Errors
    ///
    /// `AllocError` when memory runs out.
    pub fn from_version(alloc: Global, version: Version) -> Result<StringVersion, AllocError>
        ensures version { IfOk result (λ made. made.version ≡ version) }
        ensures text { IfOk result (λ made. string_bytes made.string ≡ version_text version) }
    {
        Ok(StringVersion {
            string: version.to_string(alloc)?,
            version,
        })
    }

    /// Reads a version, as `Version::from_str` does, and keeps the text, white space included.
    ///
    /// # Errors
    /// Those of `Version::from_str`; `Memory` too where memory for the text ran out.
    pub fn from_str(alloc: Global, text: &str) -> Result<StringVersion, VersionParseError>
        ensures answered { Answers (λ read. read.version) told_version result (version_reading text.now) }
        ensures text { IfOk result (λ read. string_bytes read.string ≡ text.now) }
        ensures grown { result ≡ Err errors.Memory → version_reading text.now ≢ Err NoLeadingNumber }
    {
        let version = Version::from_str(alloc, text)?;
        Ok(StringVersion {
            string: String::from_str(alloc, text)?,
            version,
        })
    }

    /// Returns a copy, in memory of its own.
    ///
    /// # Errors
    ///
    /// `AllocError` when memory runs out.
    pub fn try_clone(&self, alloc: Global) -> Result<StringVersion, AllocError>
        ensures version { IfOk result (λ copy. copy.version ≡ self.now.version) }
        ensures text { IfOk result (λ copy. string_bytes copy.string ≡ string_bytes self.now.string) }
    {
        Ok(StringVersion {
            string: String::from_str(alloc, self.string.as_str())?,
            version: self.version.try_clone(alloc)?,
        })
    }

    /// Returns the text as a JSON text. Takes memory for it.
    ///
    /// # Errors
    ///
    /// `AllocError` when memory runs out.
    pub fn to_value(&self, alloc: Global) -> Result<Value, AllocError>
        ensures { IfOk result (λ value. as_str (view value) ≡ Some (string_bytes self.now.string)) }
    {
        Ok(Value::String(String::from_str(alloc, self.string.as_str())?))
    }

    /// Reads a version from a JSON text as `from_str` does.
    ///
    /// # Errors
    /// `Shape` where the value is not a text; `Text` with the error of `from_str`, lack of memory too.
    pub fn from_value(
        alloc: Global,
        value: &Value,
    ) -> Result<StringVersion, FromValueError<VersionParseError>>
        ensures answered { ReadsText
            (λ text read. Answers (λ made. made.version) told_version read (version_reading text)
            × IfOk read (λ made. string_bytes made.string ≡ text)
            × (read ≡ Err errors.Memory → version_reading text ≢ Err NoLeadingNumber))
            (as_str (view value.now)) result }
    {
        let Some(text) = value.as_str() else {
            return Err(FromValueError::Shape);
        };
        match StringVersion::from_str(alloc, text) {
            Ok(version) => Ok(version),
            Err(error) => Err(FromValueError::Text(error)),
        }
    }
}

impl fmt::Display for StringVersion {
    ghost output = { λ version. Some (string_bytes version.string) };

    fn fmt<W: fmt::Write>(&self, f: &mut fmt::Formatter<W>) -> fmt::Result {
        write!(f, "{}", self.string)
    }
}
