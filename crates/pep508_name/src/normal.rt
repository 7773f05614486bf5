//! Names in normal form: the common part of package names and extra names.
//!
//! `PackageName` and `ExtraName` are thin wrappers of `NormalName`, which has the model, order and hash
//! written out; the two derive theirs, and a law states that they compare and hash as their bytes. The text
//! is always a new one, also in `PackageName::new`, which is given an owned text: there is one way to read
//! a name. A name that is normal already is recognised in one pass and copied whole; another is tested
//! first and then written byte by byte.

ghost use Rattle.std.specs.Prelude.{◌≡◌, ◌<◌, IsTrue, IfOk, IfSome, Some, Err, option_copied, false, length};
ghost use Rattle.std.specs.Prelude.{map, encode_utf8_all, refl};
ghost use Rattle.std.specs.Option.{option_map_or};
ghost use Rattle.std.specs.Cmp.{partial_equiv_from_equiv};
ghost use Rattle.std.specs.Cmp.Lexicographic.{nat_list_eq_equiv, nat_list_cmp_total, texts_ties, texts_po};
ghost use Rattle.std.specs.Ordering.{as_partial_cmp};
ghost use Rattle.std.specs.Fmt.{debug_str};
ghost use Rattle.std.specs.List.{list_all};
ghost use Rattle.std.specs.String.{string_bytes};
ghost use Rattle.std.specs.Str.{chars};
ghost use Rattle.read_outcome.specs.Outcome.{Answers};
ghost use Rattle.pep508_name.specs.Name.{is_name, is_name_byte, is_alphanumeric, is_separator, normal_name};
ghost use Rattle.pep508_name.specs.Name.{name_of, name_reading, told_name, dist_info_byte, name_eq, name_cmp};
ghost use Rattle.pep508_name.specs.Name.{fed_name};
ghost use Rattle.pep508_name.specs.Hashing.{alike_names};

use crate::InvalidNameError;
use crate::unchanged::is_normal;
use std::alloc::{AllocError, Global};
use std::cmp::Ordering;
use std::fmt;
use std::hash::{Hash, Hasher};
use std::marker::Model;

/// A name in normal form. Compares and hashes by its bytes, and prints as they are.
#[derive(Drop)]
pub(crate) struct NormalName {
    text: String,
}

impl Model for NormalName {
    ghost use Rattle.std.specs.Prelude.{◌≡◌, List, ℕ, Some};
    ghost use Rattle.std.specs.String.{string_bytes};
    ghost use Rattle.pep508_name.specs.Name.{name_of};

    ghost Value = { List ℕ };

    ghost view = { λ n. string_bytes n.text };

    ghost invariant = { λ n. name_of (string_bytes n.text) ≡ Some (string_bytes n.text) };
}

impl NormalName {
    /// Reads a name and returns its normal form.
    #[tactic(auto, using(crate::proofs::Again::normal_form_again), unfolding(crate::specs::Name::name_of))]
    pub(crate) fn from_str(alloc: Global, text: &str) -> Result<Self, InvalidNameError>
        ensures answered { Answers (λ name. name) told_name result (name_reading text.now) }
        ensures grown { result ≡ Err InvalidNameError.Memory → 0 < length text.now }
    {
        if is_normal(text) {
            return Ok(NormalName {
                text: String::from_str(alloc, text)?,
            });
        }
        if !is_name(text) {
            return Err(invalid(alloc, text));
        }
        Ok(NormalName {
            text: normalized(alloc, text)?,
        })
    }

    /// Reads a name and returns its normal form; the error takes the text over.
    #[tactic(auto, using(crate::proofs::Again::normal_form_again), unfolding(crate::specs::Name::name_of))]
    pub(crate) fn new(alloc: Global, text: String) -> Result<Self, InvalidNameError>
        ensures answered { Answers (λ name. name) told_name result (name_reading (string_bytes text)) }
        ensures grown { result ≡ Err InvalidNameError.Memory → IsTrue (is_name (string_bytes text)) }
    {
        if !is_name(text.as_str()) {
            return Err(InvalidNameError::InvalidName(text));
        }
        Ok(NormalName {
            text: normalized(alloc, text.as_str())?,
        })
    }

    pub(crate) fn as_str(&self) -> &str
        ensures text { result.now ≡ self.now }
        ensures normal { name_of self.now ≡ Some self.now }
    {
        &self.text
    }

    pub(crate) fn try_clone(&self, alloc: Global) -> Result<Self, AllocError>
        ensures { IfOk result (λ copy. copy ≡ self.now) }
    {
        Ok(NormalName {
            text: String::from_str(alloc, self.text.as_str())?,
        })
    }
}

impl fmt::Display for NormalName {
    ghost output = { λ name. Some name };

    fn fmt<W: fmt::Write>(&self, f: &mut fmt::Formatter<W>) -> fmt::Result {
        write!(f, "{}", self.text)
    }
}

impl fmt::Debug for NormalName {
    ghost debug_output = { debug_str };

    fn fmt<W: fmt::Write>(&self, f: &mut fmt::Formatter<W>) -> fmt::Result {
        write!(f, "{:?}", self.text)
    }
}

impl PartialEq for NormalName {
    ghost eq = { name_eq };

    ghost laws = { partial_equiv_from_equiv nat_list_eq_equiv };

    fn eq(&self, other: &NormalName) -> bool {
        self.text.as_str() == other.text.as_str()
    }
}

impl Eq for NormalName {
    ghost laws = { nat_list_eq_equiv };
}

impl Ord for NormalName {
    ghost cmp = { name_cmp };

    ghost total = { nat_list_cmp_total };

    ghost matches_partial_cmp = { λ x y. refl };

    ghost matches_eq = { texts_ties };

    fn cmp(&self, other: &NormalName) -> Ordering {
        self.text.as_str().cmp(other.text.as_str())
    }
}

impl PartialOrd for NormalName {
    ghost partial_cmp = { as_partial_cmp name_cmp };

    ghost laws = { texts_po };

    fn partial_cmp(&self, other: &NormalName) -> Option<Ordering> {
        Some(self.cmp(other))
    }
}

impl Hash for NormalName {
    ghost hash_input = { fed_name };

    ghost respects_eq = { alike_names };

    fn hash<H: Hasher>(&self, state: &mut H) {
        self.text.as_str().hash(state);
    }
}

/// Returns whether a text is a name (PEP 508, "Names"), with no white space around it.
///
/// One pass over the text, with no allocation.
pub fn is_name(text: &str) -> bool
    ensures { result ≡ is_name text.now }
{
    let bytes = text.as_bytes();
    are_name_bytes(bytes) && is_alphanumeric(bytes.first()) && is_alphanumeric(bytes.last())
}

fn are_name_bytes(bytes: &[u8]) -> bool
    ensures { result ≡ list_all is_name_byte bytes.now }
{
    bytes.iter().all(|byte| is_name_byte(*byte))
}

/// Returns whether there is a byte, and it is an ASCII letter or digit.
fn is_alphanumeric(byte: Option<&u8>) -> bool
    ensures { result ≡ option_map_or is_alphanumeric (option_copied byte.entry) false }
{
    match byte {
        Some(byte) => byte.is_ascii_alphanumeric(),
        None => false,
    }
}

fn is_name_byte(byte: u8) -> bool
    ensures { result ≡ is_name_byte byte }
{
    byte.is_ascii_alphanumeric() || is_separator(byte)
}

/// Returns whether a byte is `-`, `_` or `.`.
fn is_separator(byte: u8) -> bool
    ensures { result ≡ is_separator byte }
{
    matches!(byte, b'-' | b'_' | b'.')
}

/// Returns the error for a text that is not a name.
fn invalid(alloc: Global, text: &str) -> InvalidNameError
    ensures told { IfSome (told_name result) (λ given. given ≡ text.now) }
    ensures grown { result ≡ InvalidNameError.Memory → 0 < length text.now }
{
    if text.is_empty() {
        return InvalidNameError::InvalidName(String::new(alloc));
    }
    match String::from_str(alloc, text) {
        Ok(text) => InvalidNameError::InvalidName(text),
        Err(_) => InvalidNameError::Memory,
    }
}

/// Returns the normal form of a name, in one allocation of the name's length.
fn normalized(alloc: Global, text: &str) -> Result<String, AllocError>
    requires { IsTrue (is_name text.now) }
    ensures { IfOk result (λ name. string_bytes name ≡ normal_name text.now) }
{
    let mut name = Vec::with_capacity(alloc, text.len())?;
    let mut separated = false;
    for byte in text.as_bytes() {
        if is_separator(*byte) {
            separated = true;
        } else {
            if separated {
                name.push(b'-')?;
            }
            name.push(byte.to_ascii_lowercase())?;
            separated = false;
        }
    }
    match String::from_utf8(name) {
        Ok(name) => Ok(name),
        Err(_) => unreachable!(),
    }
}

/// Returns the text with `_` for each `-`.
pub(crate) fn escaped(alloc: Global, text: &str) -> Result<String, AllocError>
    ensures { IfOk result (λ name.
        string_bytes name ≡ encode_utf8_all (map dist_info_byte (chars text.now))) }
{
    text.chars()
        .map(|letter| if letter == '-' { '_' } else { letter })
        .collect(alloc)
}
