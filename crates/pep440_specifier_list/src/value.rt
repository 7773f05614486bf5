//! Lists as JSON values.

ghost use Rattle.std.specs.Prelude.{◌≡◌, IfOk, IfErr, Some};
ghost use Rattle.serde_json.specs.View.{view};
ghost use Rattle.serde_json.specs.Find.{as_str};
ghost use Rattle.read_outcome.specs.Outcome.{ReadsText};
ghost use Rattle.pep440_specifier_list.specs.ListText.{list_value_text};
ghost use Rattle.pep440_specifier_list.specs.ListReading.{TellsOrMemory, ReadsList};

use crate::{VersionSpecifiers, VersionSpecifiersParseError};
use pep440_version::FromValueError;
use serde_json::Value;
use std::alloc::{AllocError, Global};

impl VersionSpecifiers {
    /// Returns the list as a JSON text: its members with bare commas between them. Takes memory for the
    /// text.
    ///
    /// # Errors
    ///
    /// `AllocError` when memory runs out.
    pub fn to_value(&self, alloc: Global) -> Result<Value, AllocError>
        ensures { IfOk result (λ value. as_str (view value) ≡ Some (list_value_text self.now)) }
    {
        Ok(Value::String(self.bare_commas().to_string(alloc)?))
    }

    /// Reads a list from a JSON text as `from_str` does.
    ///
    /// # Errors
    /// `Shape` where the value is not a text; `Text` with the error of `from_str`, lack of memory too.
    pub fn from_value(
        alloc: Global,
        value: &Value,
    ) -> Result<VersionSpecifiers, FromValueError<VersionSpecifiersParseError>>
        ensures answered { ReadsText (λ text read. ReadsList read text) (as_str (view value.now)) result }
        ensures plain { ReadsText (λ text read. IfErr read TellsOrMemory) (as_str (view value.now)) result }
    {
        let Some(text) = value.as_str() else {
            return Err(FromValueError::Shape);
        };
        match VersionSpecifiers::from_str(alloc, text) {
            Ok(list) => Ok(list),
            Err(error) => Err(FromValueError::Text(error)),
        }
    }
}
