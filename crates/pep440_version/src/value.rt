//! Versions as JSON values.

ghost use Rattle.std.specs.Prelude.{◌≡◌, ◌≢◌, IfOk, Some, Err};
ghost use Rattle.serde_json.specs.View.{view};
ghost use Rattle.serde_json.specs.Find.{as_str};
ghost use Rattle.pep440_text.specs.Print.{version_text};
ghost use Rattle.read_outcome.specs.Outcome.{Answers, ReadsText};
ghost use Rattle.pep440_version.specs.declared.parse_error.VersionParseError.TheVariants as errors;
ghost use Rattle.pep440_version.specs.VersionReading.{NoLeadingNumber, version_reading, told_version};

use crate::{FromValueError, Version, VersionParseError};
use serde_json::Value;
use std::alloc::{AllocError, Global};

impl Version {
    /// Returns the version as a JSON text: its print. Takes memory for the text.
    ///
    /// # Errors
    ///
    /// `AllocError` when memory runs out.
    pub fn to_value(&self, alloc: Global) -> Result<Value, AllocError>
        ensures { IfOk result (λ value. as_str (view value) ≡ Some (version_text self.now)) }
    {
        Ok(Value::String(self.to_string(alloc)?))
    }

    /// Reads a version from a JSON text as `from_str` does.
    ///
    /// # Errors
    /// `Shape` where the value is not a text; `Text` with the error of `from_str`, lack of memory too.
    pub fn from_value(
        alloc: Global,
        value: &Value,
    ) -> Result<Version, FromValueError<VersionParseError>>
        ensures answered { ReadsText
            (λ text read. Answers (λ version. version) told_version read (version_reading text))
            (as_str (view value.now)) result }
        ensures grown { ReadsText
            (λ text read. read ≡ Err errors.Memory → version_reading text ≢ Err NoLeadingNumber)
            (as_str (view value.now)) result }
    {
        let Some(text) = value.as_str() else {
            return Err(FromValueError::Shape);
        };
        match Version::from_str(alloc, text) {
            Ok(version) => Ok(version),
            Err(error) => Err(FromValueError::Text(error)),
        }
    }
}
