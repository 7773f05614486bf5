//! The words of the command line, each of which has to be UTF-8.
//!
//! `std::env::args` reports neither lack of memory nor the word that is no text, so the words are read
//! here. The program calls itself `reqs` whatever its file is called.

use std::alloc::{AllocError, AllocFailed, Global};
use std::env::{Env, FillError};

/// The size of the first buffer for a word or a variable, in bytes.
const FIRST_SIZE: usize = 256;

/// Why the words of the command line could not be read.
#[derive(Drop)]
pub enum WordsFault {
    /// The word is not UTF-8: its text, with U+FFFD for each invalid piece.
    NotText(String),
    Memory,
}

impl From<AllocError> for WordsFault {
    fn from(_: AllocError) -> WordsFault {
        WordsFault::Memory
    }
}

impl<T: Drop> From<AllocFailed<T>> for WordsFault {
    fn from(_: AllocFailed<T>) -> WordsFault {
        WordsFault::Memory
    }
}

/// The words of the command line: `reqs`, whatever the program's file is called, and the words after the
/// program's name.
///
/// # Errors
///
/// `WordsFault::NotText` for the first word that is not UTF-8, `WordsFault::Memory` when memory runs out.
pub fn words<E: Env>(env: &E, alloc: Global) -> Result<Vec<String>, WordsFault> {
    let mut words = Vec::new(alloc);
    words.push(String::from_str(alloc, "reqs")?)?;
    for place in 1..usize::MAX {
        match filled(alloc, |buffer| env.arg(place, buffer))? {
            Some(bytes) => words.push(text_of(alloc, &bytes)?)?,
            None => break,
        }
    }
    Ok(words)
}

/// A word as text.
fn text_of(alloc: Global, bytes: &[u8]) -> Result<String, WordsFault> {
    match str::from_utf8(bytes) {
        Ok(text) => Ok(String::from_str(alloc, text)?),
        Err(_) => Err(WordsFault::NotText(String::from_utf8_lossy(alloc, bytes)?)),
    }
}

/// The bytes that `fill` writes, into a buffer that is doubled until they fit; `None` if it has none.
///
/// # Errors
///
/// `AllocError` when memory runs out.
pub fn filled<F: Fn(&mut [u8]) -> Result<usize, FillError>>(
    alloc: Global,
    fill: F,
) -> Result<Option<Vec<u8>>, AllocError>
    requires { F.IsAlwaysCallable fill }
{
    let mut size = FIRST_SIZE;
    for _ in 0..u64::MAX {
        let mut bytes = Vec::new(alloc);
        bytes.resize(size, 0)?;
        match fill(&mut bytes) {
            Ok(count) => {
                bytes.truncate(count);
                return Ok(Some(bytes));
            }
            Err(FillError::NotPresent) => break,
            Err(FillError::TooLong) => size = size.saturating_mul(2),
        }
    }
    Ok(None)
}
