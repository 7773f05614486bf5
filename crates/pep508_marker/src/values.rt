//! The sides of a comparison.

ghost use Rattle.std.specs.Prelude.{◌≡◌, IfOk, None, Some, Err};
ghost use Rattle.read_outcome.specs.Outcome.{Answers};
ghost use Rattle.pep508_marker.specs.Operators.{told_text};

use crate::written::{text_key, version_key};
use crate::{MarkerTextError, MarkerValueString, MarkerValueVersion};
use pep508_name::ExtraName;
use std::alloc::{AllocError, Global};
use std::fmt;

/// The value that `extra` is compared with. Prints as its text; compares and hashes by the variant, then by
/// the bytes.
#[derive(Debug, PartialEq, Eq, PartialOrd, Ord, Hash, Drop)]
pub enum MarkerValueExtra {
    /// The name of an extra.
    Extra(ExtraName),
    /// A text that is not a name, and so not an extra.
    Arbitrary(String),
}

impl MarkerValueExtra {
    ghost use Rattle.pep508_marker.specs.Values.{extra_of};

    /// Returns a copy, in memory of its own.
    ///
    /// # Errors
    ///
    /// `AllocError` when memory runs out.
    pub fn try_clone(&self, alloc: Global) -> Result<MarkerValueExtra, AllocError>
        ensures { IfOk result (λ copy. extra_of copy ≡ extra_of self.now) }
    {
        match self {
            MarkerValueExtra::Extra(name) => Ok(MarkerValueExtra::Extra(name.try_clone(alloc)?)),
            MarkerValueExtra::Arbitrary(text) => Ok(MarkerValueExtra::Arbitrary(String::from_str(
                alloc,
                text.as_str(),
            )?)),
        }
    }
}

impl fmt::Display for MarkerValueExtra {
    ghost use Rattle.std.specs.Prelude.{Some};
    ghost use Rattle.pep508_marker.specs.Values.{extra_of, extra_text};

    ghost output = { λ extra. Some (extra_text (extra_of extra)) };

    fn fmt<W: fmt::Write>(&self, f: &mut fmt::Formatter<W>) -> fmt::Result {
        match self {
            MarkerValueExtra::Extra(name) => write!(f, "{name}"),
            MarkerValueExtra::Arbitrary(text) => write!(f, "{text}"),
        }
    }
}

/// A side of a comparison (PEP 508, "Environment Markers"). Prints as the modern name of a key, as `extra`,
/// or as a text in single quotes; compares and hashes by the variant, then by the field.
#[derive(Debug, PartialEq, Eq, PartialOrd, Ord, Hash, Drop)]
pub enum MarkerValue {
    /// A key whose values are versions.
    MarkerEnvVersion(MarkerValueVersion),
    /// A key whose values are texts.
    MarkerEnvString(MarkerValueString),
    /// `extra`
    Extra,
    /// A quoted text, without the quotes.
    QuotedString(String),
}

impl MarkerValue {
    ghost use Rattle.pep508_marker.specs.Values.{value_of, key_of_text, key_reading};

    /// Reads a key as it is written in a marker, as `os.name`, or `extra`, with nothing around it.
    ///
    /// Takes memory for the error alone.
    ///
    /// # Errors
    /// `Text` with `Invalid key: ` and the text where it is not a key; `Memory` where memory ran out.
    pub fn from_str(alloc: Global, text: &str) -> Result<MarkerValue, MarkerTextError>
        ensures answered { Answers value_of told_text result (key_reading text.now) }
        ensures grown { result ≡ Err MarkerTextError.Memory → key_of_text text.now ≡ None }
    {
        if let Some(key) = version_key(text) {
            return Ok(MarkerValue::MarkerEnvVersion(key));
        }
        if text == "extra" {
            return Ok(MarkerValue::Extra);
        }
        match text_key(text) {
            Some(key) => Ok(MarkerValue::MarkerEnvString(key)),
            None => {
                let message = format!(in alloc; "Invalid key: {text}")?;
                Err(MarkerTextError::Text(message))
            }
        }
    }

    /// Returns a copy, in memory of its own.
    ///
    /// # Errors
    ///
    /// `AllocError` when memory runs out.
    pub fn try_clone(&self, alloc: Global) -> Result<MarkerValue, AllocError>
        ensures { IfOk result (λ copy. value_of copy ≡ value_of self.now) }
    {
        match self {
            MarkerValue::MarkerEnvVersion(key) => Ok(MarkerValue::MarkerEnvVersion(*key)),
            MarkerValue::MarkerEnvString(key) => Ok(MarkerValue::MarkerEnvString(*key)),
            MarkerValue::Extra => Ok(MarkerValue::Extra),
            MarkerValue::QuotedString(text) => Ok(MarkerValue::QuotedString(String::from_str(
                alloc,
                text.as_str(),
            )?)),
        }
    }
}

impl fmt::Display for MarkerValue {
    ghost use Rattle.std.specs.Prelude.{Some};
    ghost use Rattle.pep508_marker.specs.Values.{value_of, value_text};

    ghost output = { λ value. Some (value_text (value_of value)) };

    fn fmt<W: fmt::Write>(&self, f: &mut fmt::Formatter<W>) -> fmt::Result {
        match self {
            MarkerValue::MarkerEnvVersion(key) => write!(f, "{key}"),
            MarkerValue::MarkerEnvString(key) => write!(f, "{key}"),
            MarkerValue::Extra => write!(f, "extra"),
            MarkerValue::QuotedString(text) => write!(f, "'{text}'"),
        }
    }
}
