//! Names of packages.

ghost use Rattle.std.specs.Prelude.{◌≡◌, ◌<◌, ◌==◌, IfOk, IsOkAnd, IsTrue, false, Some, Err, codes, length};
ghost use Rattle.std.specs.Cow.{cow_str_bytes, IsBorrowedStr};
ghost use Rattle.std.specs.List.{list_any};
ghost use Rattle.std.specs.Fmt.{◌++?◌, debug_str};
ghost use Rattle.std.specs.String.{string_bytes};
ghost use Rattle.read_outcome.specs.Outcome.{Answers, ReadsText};
ghost use Rattle.serde_json.specs.View.{view};
ghost use Rattle.serde_json.specs.Find as find;
ghost use Rattle.pep508_name.specs.Name.{is_name, name_of, name_reading, told_name, dist_info_name};

use crate::InvalidNameError;
use crate::normal::{NormalName, escaped};
use read_outcome::FromValueError;
use serde_json::Value;
use std::alloc::{AllocError, Global};
use std::borrow::CowStr;
use std::fmt;
use std::marker::Model;

/// The name of a package, in normal form (PEP 503, "Normalized Names").
///
/// Names compare and hash by the bytes of the normal form, and print as it.
#[derive(PartialEq, Eq, PartialOrd, Ord, Hash, Drop)]
pub struct PackageName(NormalName);

impl Model for PackageName {
    ghost use Rattle.std.specs.Prelude.{List, ℕ};

    ghost Value = { List ℕ };

    ghost view = { λ n. n.0 };

    ghost inverse = { λ name. record { 0 = name } };
}

impl PackageName {
    /// Reads a name (PEP 508, "Names"), with no white space around it, and returns it in normal form.
    ///
    /// One pass over a text in normal form, at most three over another, and one allocation of its length.
    ///
    /// # Errors
    /// `InvalidName` with a copy of the text where it is not a name; `Memory` where memory ran out.
    pub fn from_str(alloc: Global, text: &str) -> Result<Self, InvalidNameError>
        ensures answered { Answers (λ name. name) told_name result (name_reading text.now) }
        ensures grown { result ≡ Err InvalidNameError.Memory → 0 < length text.now }
    {
        Ok(PackageName(NormalName::from_str(alloc, text)?))
    }

    /// Reads a name as `from_str` does, and takes the text over.
    ///
    /// # Errors
    /// `InvalidName` with the text itself where it is not a name, which takes no memory; `Memory` where
    /// memory for a name ran out.
    pub fn new(alloc: Global, text: String) -> Result<Self, InvalidNameError>
        ensures answered { Answers (λ name. name) told_name result (name_reading (string_bytes text)) }
        ensures grown { result ≡ Err InvalidNameError.Memory → IsTrue (is_name (string_bytes text)) }
    {
        Ok(PackageName(NormalName::new(alloc, text)?))
    }

    /// Returns the normal form.
    pub fn as_str(&self) -> &str
        ensures text { result.now ≡ self.now }
        ensures normal { name_of self.now ≡ Some self.now }
    {
        self.0.as_str()
    }

    /// Returns a copy, in memory of its own.
    ///
    /// # Errors
    ///
    /// `AllocError` when memory runs out.
    pub fn try_clone(&self, alloc: Global) -> Result<Self, AllocError>
        ensures { IfOk result (λ copy. copy ≡ self.now) }
    {
        Ok(PackageName(self.0.try_clone(alloc)?))
    }

    /// Returns the name as an installed package's folder is named, with `_` for each `-` (the specification
    /// of recorded installs). Borrowed, and so without memory, where there is no `-`.
    ///
    /// # Errors
    ///
    /// `AllocError` when memory runs out.
    #[tactic(auto, using(crate::proofs::Escaped::escaped_name, crate::proofs::Escaped::nothing_escaped))]
    pub fn as_dist_info_name(&self, alloc: Global) -> Result<CowStr<'_>, AllocError>
        ensures text { IfOk result (λ name. cow_str_bytes name ≡ dist_info_name self.now) }
        ensures lent { list_any (λ byte. byte == 45) self.now ≡ false
            → IsOkAnd result (λ name. IsBorrowedStr name) }
    {
        let name = self.as_str();
        if !name.as_bytes().contains(&b'-') {
            return Ok(CowStr::Borrowed(name));
        }
        Ok(CowStr::Owned(escaped(alloc, name)?))
    }

    /// Returns the name as a JSON text.
    ///
    /// # Errors
    ///
    /// `AllocError` when memory runs out.
    pub fn to_value(&self, alloc: Global) -> Result<Value, AllocError>
        ensures { IfOk result (λ value. find.as_str (view value) ≡ Some self.now) }
    {
        Ok(Value::String(String::from_str(alloc, self.as_str())?))
    }

    /// Reads a name from a JSON text as `from_str` does.
    ///
    /// # Errors
    /// `Shape` where the value is not a text; `Text` with the error of `from_str`, lack of memory too.
    pub fn from_value(
        alloc: Global,
        value: &Value,
    ) -> Result<Self, FromValueError<InvalidNameError>>
        ensures { ReadsText
            (λ text read. Answers (λ name. name) told_name read (name_reading text)
            × (read ≡ Err InvalidNameError.Memory → 0 < length text))
            (find.as_str (view value.now)) result }
    {
        let Some(text) = value.as_str() else {
            return Err(FromValueError::Shape);
        };
        match PackageName::from_str(alloc, text) {
            Ok(name) => Ok(name),
            Err(error) => Err(FromValueError::Text(error)),
        }
    }
}

impl fmt::Display for PackageName {
    ghost output = { λ name. Some name };

    fn fmt<W: fmt::Write>(&self, f: &mut fmt::Formatter<W>) -> fmt::Result {
        write!(f, "{}", self.0)
    }
}

impl fmt::Debug for PackageName {
    ghost debug_output = { λ name. Some (codes "PackageName(") ++? debug_str name ++? Some (codes ")") };

    fn fmt<W: fmt::Write>(&self, f: &mut fmt::Formatter<W>) -> fmt::Result {
        write!(f, "PackageName({:?})", self.0)
    }
}
