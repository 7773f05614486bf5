//! Specifiers as JSON values.

ghost use Rattle.std.specs.Prelude.{◌≡◌, IfOk, IfErr, Some, Err};
ghost use Rattle.serde_json.specs.View.{view};
ghost use Rattle.serde_json.specs.Find.{as_str};
ghost use Rattle.read_outcome.specs.Outcome.{Answers, ReadsText};
ghost use Rattle.pep440_specifier.specs.declared.parse_error.VersionSpecifierParseError.TheVariants as errors;
ghost use Rattle.pep440_specifier.specs.SpecifierPrint.{specifier_text};
ghost use Rattle.pep440_specifier.specs.SpecifierReading.{specifier_reading, told_specifier, IsPlain};
ghost use Rattle.pep440_specifier.specs.SpecifierReading.{HasGrown};

use crate::{VersionSpecifier, VersionSpecifierParseError};
use pep440_version::FromValueError;
use serde_json::Value;
use std::alloc::{AllocError, Global};

impl VersionSpecifier {
    /// Returns the specifier as a JSON text: its print. Takes memory for the text.
    ///
    /// # Errors
    ///
    /// `AllocError` when memory runs out.
    pub fn to_value(&self, alloc: Global) -> Result<Value, AllocError>
        ensures { IfOk result (λ value. as_str (view value) ≡ Some (specifier_text self.now)) }
    {
        Ok(Value::String(self.to_string(alloc)?))
    }

    /// Reads a specifier from a JSON text as `from_str` does.
    ///
    /// # Errors
    /// `Shape` where the value is not a text; `Text` with the error of `from_str`, lack of memory too.
    pub fn from_value(
        alloc: Global,
        value: &Value,
    ) -> Result<VersionSpecifier, FromValueError<VersionSpecifierParseError>>
        ensures answered { ReadsText
            (λ text read. Answers (λ specifier. specifier) told_specifier read (specifier_reading text))
            (as_str (view value.now)) result }
        ensures plain { ReadsText (λ text read. IfErr read IsPlain) (as_str (view value.now)) result }
        ensures grown { ReadsText (λ text read. read ≡ Err errors.Memory → HasGrown (specifier_reading text))
            (as_str (view value.now)) result }
    {
        let Some(text) = value.as_str() else {
            return Err(FromValueError::Shape);
        };
        match VersionSpecifier::from_str(alloc, text) {
            Ok(specifier) => Ok(specifier),
            Err(error) => Err(FromValueError::Text(error)),
        }
    }
}
