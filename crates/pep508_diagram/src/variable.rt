//! The variables of marker trees.
//!
//! Variables are ordered by a number and a text (`place_of`): keys of versions 0 and 1, keys of texts 2 to
//! 15, `in` from 16, containment from 30, extras 44, extras that are no names 45. A new text key has to
//! move these. `python_version` is no variable, and a node's key is a type with two values, so that no tree
//! can test it.

ghost use Rattle.std.specs.Prelude.{◌≡◌, IfOk};
ghost use Rattle.pep508_marker.specs.Keys.{text_key_rank};
ghost use Rattle.pep508_diagram.specs.Question.{text_rank, flag_rank, flag_text};

use crate::marker_text::MarkerText;
use crate::node_value::NodeValue;
use pep508_marker::MarkerValueString;
use pep508_name::ExtraName;
use std::alloc::{AllocError, Global};

/// A variable whose values are versions. Comparisons of `python_version` are made of `python_full_version`.
#[derive(Clone, Copy, Debug, PartialEq, Eq, PartialOrd, Ord, Hash)]
pub enum VersionVariable {
    /// `implementation_version`
    ImplementationVersion,
    /// `python_full_version`
    PythonFullVersion,
}

/// A variable that is set or not.
#[derive(Drop)]
pub enum Flag {
    /// The key's text occurs in this text, as `os_name in 'posix'`.
    In(MarkerValueString, MarkerText),
    /// This text occurs in the key's text, as `'x' in os_name`.
    Contains(MarkerValueString, MarkerText),
    /// The extra of this name is requested.
    Extra(ExtraName),
    /// An extra of this text, which is not a name: no environment has it.
    Arbitrary(MarkerText),
}

fn text_key_rank(key: MarkerValueString) -> u8
    ensures { result ≡ text_key_rank key }
{
    key as u8
}

/// Returns the rank of a key whose values are texts among the kinds of variables and their keys.
pub fn text_rank(key: MarkerValueString) -> u8
    ensures { result ≡ text_rank key }
{
    2 + text_key_rank(key)
}

impl Flag {
    /// Returns the rank of the flag's kind and key among the kinds of variables and their keys.
    pub fn rank(&self) -> u8
        ensures { result ≡ flag_rank self.now }
    {
        match self {
            Flag::In(key, _) => 16 + text_key_rank(*key),
            Flag::Contains(key, _) => 30 + text_key_rank(*key),
            Flag::Extra(_) => 44,
            Flag::Arbitrary(_) => 45,
        }
    }

    /// Returns the text that the flag is about.
    pub fn text(&self) -> &str
        ensures { result.now ≡ flag_text self.now }
    {
        match self {
            Flag::In(_, text) => text.as_str(),
            Flag::Contains(_, text) => text.as_str(),
            Flag::Extra(name) => name.as_str(),
            Flag::Arbitrary(text) => text.as_str(),
        }
    }

    /// Returns a copy. The only error is lack of memory.
    ///
    /// # Errors
    ///
    /// `AllocError` when memory runs out.
    pub fn try_clone(&self, alloc: Global) -> Result<Flag, AllocError>
        ensures { IfOk result (λ copy. copy ≡ self.now) }
    {
        Ok(match self {
            Flag::In(key, text) => Flag::In(*key, text.copied(alloc)?),
            Flag::Contains(key, text) => Flag::Contains(*key, text.copied(alloc)?),
            Flag::Extra(name) => Flag::Extra(name.try_clone(alloc)?),
            Flag::Arbitrary(text) => Flag::Arbitrary(text.copied(alloc)?),
        })
    }
}
