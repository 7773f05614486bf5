//! Lists of extras.

ghost use Rattle.std.specs.Prelude.{◌≡◌, ◌==◌, false, chars, IsOk, IfOk};
ghost use Rattle.pep508_error.specs.Cuts.{begins_by};
ghost use Rattle.pep508_requirement.specs.ExtrasReading.{ReadsExtras};

use pep508_error::{Cursor, Pep508Error};
use pep508_name::ExtraName;
use pep508_requirement_text::read_extras;
use pep508_url::Pep508Url;
use std::alloc::{AllocError, Global};

/// The extras that a requirement requests, in the order given.
#[derive(Debug, PartialEq, Eq, Hash, Drop)]
pub struct Extras(Vec<ExtraName>);

impl Extras {
    /// Reads the extras at the front of a text, as `[security,tests]`; none where no bracket is there. The
    /// text after them is ignored (PEP 508, "Grammar").
    ///
    /// Linear in the extras; takes memory for them and for an error, and none where no bracket is there.
    ///
    /// # Errors
    /// `String` with the first fault where the bracket holds something else than names, or isn't closed;
    /// `Memory` where memory ran out.
    pub fn parse<T: Pep508Url>(alloc: Global, text: &str) -> Result<Extras, Pep508Error<T>>
        ensures read { ReadsExtras text.now result }
        ensures none { begins_by (λ c. c == 91) (chars text.now) ≡ false → IsOk result }
    {
        match read_extras(alloc, Cursor::new(text)) {
            Ok((names, _)) => Ok(Extras(names)),
            Err(refusal) => Err(Pep508Error::of(alloc, refusal)),
        }
    }

    /// Returns the names, in the order given.
    pub fn as_slice(&self) -> &[ExtraName]
        ensures { result.now ≡ self.now.0.items }
    {
        self.0.as_slice()
    }

    /// Returns a copy, in memory of its own.
    ///
    /// # Errors
    ///
    /// `AllocError` when memory runs out.
    pub fn try_clone(&self, alloc: Global) -> Result<Self, AllocError>
        ensures { IfOk result (λ copy. copy.0.items ≡ self.now.0.items) }
    {
        Ok(Extras(copy_names(alloc, &self.0)?))
    }
}

pub(crate) fn copy_names(alloc: Global, names: &[ExtraName]) -> Result<Vec<ExtraName>, AllocError>
    ensures { IfOk result (λ copies. copies.items ≡ names.now) }
{
    let mut copies = Vec::with_capacity(alloc, names.len())?;
    for name in names {
        copies.push(name.try_clone(alloc)?)?;
    }
    Ok(copies)
}
