//! Names of extras.

ghost use Rattle.std.specs.Prelude.{◌≡◌, ◌<◌, IfOk, IsTrue, Some, Err, codes, length};
ghost use Rattle.std.specs.Fmt.{◌++?◌, debug_str};
ghost use Rattle.std.specs.String.{string_bytes};
ghost use Rattle.read_outcome.specs.Outcome.{Answers, ReadsText};
ghost use Rattle.serde_json.specs.View.{view};
ghost use Rattle.serde_json.specs.Find as find;
ghost use Rattle.pep508_name.specs.Name.{is_name, name_of, name_reading, told_name};

use crate::InvalidNameError;
use crate::normal::NormalName;
use read_outcome::FromValueError;
use serde_json::Value;
use std::alloc::{AllocError, Global};
use std::fmt;
use std::marker::Model;

/// The name of an extra of a package, in normal form (PEP 503, "Normalized Names").
///
/// Names compare and hash by the bytes of the normal form, and print as it.
#[derive(PartialEq, Eq, PartialOrd, Ord, Hash, Drop)]
pub struct ExtraName(NormalName);

impl Model for ExtraName {
    ghost use Rattle.std.specs.Prelude.{List, ℕ};

    ghost Value = { List ℕ };

    ghost view = { λ n. n.0 };

    ghost inverse = { λ name. record { 0 = name } };
}

impl ExtraName {
    /// Reads a name (PEP 508, "Names"), with no white space around it, and returns it in normal form.
    ///
    /// One pass over a text in normal form, at most three over another, and one allocation of its length.
    ///
    /// # Errors
    /// `InvalidName` with a copy of the text where it is not a name; `Memory` where memory ran out.
    pub fn from_str(alloc: Global, text: &str) -> Result<Self, InvalidNameError>
        ensures answered { Answers (λ name. name) told_name result (name_reading text.now) }
        ensures grown { result ≡ Err InvalidNameError.Memory → 0 < length text.now }
    {
        Ok(ExtraName(NormalName::from_str(alloc, text)?))
    }

    /// Reads a name as `from_str` does, and takes the text over.
    ///
    /// # Errors
    /// `InvalidName` with the text itself where it is not a name, which takes no memory; `Memory` where
    /// memory for a name ran out.
    pub fn new(alloc: Global, text: String) -> Result<Self, InvalidNameError>
        ensures answered { Answers (λ name. name) told_name result (name_reading (string_bytes text)) }
        ensures grown { result ≡ Err InvalidNameError.Memory → IsTrue (is_name (string_bytes text)) }
    {
        Ok(ExtraName(NormalName::new(alloc, text)?))
    }

    /// Returns the normal form.
    pub fn as_str(&self) -> &str
        ensures text { result.now ≡ self.now }
        ensures normal { name_of self.now ≡ Some self.now }
    {
        self.0.as_str()
    }

    /// Returns a copy, in memory of its own.
    ///
    /// # Errors
    ///
    /// `AllocError` when memory runs out.
    pub fn try_clone(&self, alloc: Global) -> Result<Self, AllocError>
        ensures { IfOk result (λ copy. copy ≡ self.now) }
    {
        Ok(ExtraName(self.0.try_clone(alloc)?))
    }

    /// Returns the name as a JSON text.
    ///
    /// # Errors
    ///
    /// `AllocError` when memory runs out.
    pub fn to_value(&self, alloc: Global) -> Result<Value, AllocError>
        ensures { IfOk result (λ value. find.as_str (view value) ≡ Some self.now) }
    {
        Ok(Value::String(String::from_str(alloc, self.as_str())?))
    }

    /// Reads a name from a JSON text as `from_str` does.
    ///
    /// # Errors
    /// `Shape` where the value is not a text; `Text` with the error of `from_str`, lack of memory too.
    pub fn from_value(
        alloc: Global,
        value: &Value,
    ) -> Result<Self, FromValueError<InvalidNameError>>
        ensures { ReadsText
            (λ text read. Answers (λ name. name) told_name read (name_reading text)
            × (read ≡ Err InvalidNameError.Memory → 0 < length text))
            (find.as_str (view value.now)) result }
    {
        let Some(text) = value.as_str() else {
            return Err(FromValueError::Shape);
        };
        match ExtraName::from_str(alloc, text) {
            Ok(name) => Ok(name),
            Err(error) => Err(FromValueError::Text(error)),
        }
    }
}

impl fmt::Display for ExtraName {
    ghost output = { λ name. Some name };

    fn fmt<W: fmt::Write>(&self, f: &mut fmt::Formatter<W>) -> fmt::Result {
        write!(f, "{}", self.0)
    }
}

impl fmt::Debug for ExtraName {
    ghost debug_output = { λ name. Some (codes "ExtraName(") ++? debug_str name ++? Some (codes ")") };

    fn fmt<W: fmt::Write>(&self, f: &mut fmt::Formatter<W>) -> fmt::Result {
        write!(f, "ExtraName({:?})", self.0)
    }
}
