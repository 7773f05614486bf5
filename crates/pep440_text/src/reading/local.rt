//! Reading local parts.
//!
//! A segment of digits above 2^64 - 1 is a text and keeps its zeros; any other number that large is
//! refused. `1.0+a.` could be read as `1.0+a` with a dot left over; it is no version either way, and the
//! fault says that a letter or digit is missing after the separator.

ghost use Rattle.std.specs.Prelude.{◌≡◌, ◌^◌, ◌&&◌, if◌then◌else◌, nat_lt, length, drop, map, IfOk};
ghost use Rattle.std.specs.Prelude.{Some, None};
ghost use Rattle.std.specs.Char.{is_ascii_alphanumeric, to_ascii_lowercase};
ghost use Rattle.std.specs.List.{prefix_len, take_while};
ghost use Rattle.std.specs.String.{string_bytes};
ghost use Rattle.std.specs.Str.{IsAscii, all_ascii_digits};
ghost use Rattle.std.specs.Str.Parse.{digits_value};
ghost use Rattle.pep440_text.specs.Record.{segment_of};
ghost use Rattle.read_outcome.specs.Outcome.{Answers};
ghost use Rattle.pep440_text.specs.Faults.{told_read};
ghost use Rattle.pep440_text.specs.Reading.{segment_at, segments_at, local_at};

use super::fault;
use super::number::{split_digits, value};
use super::suffix::is_separator;
use crate::{FaultKind, LocalSegment, ReadError};
use std::alloc::{AllocError, Global};

/// Returns the letters and digits at the front, and the bytes after them.
fn split_letters(bytes: &[u8]) -> (&[u8], &[u8])
    ensures letters { result.0.now ≡ take_while is_ascii_alphanumeric bytes.now }
    ensures rest { result.1.now ≡ drop (prefix_len is_ascii_alphanumeric bytes.now) bytes.now }
    ensures ascii { IsAscii result.0.now }
{
    let mut count = 0;
    while count < bytes.len() && bytes[count].is_ascii_alphanumeric() {
        count += 1;
    }
    bytes.split_at(count)
}

/// Returns the number that the letters and digits are, where they are all digits and it fits 64 bits.
fn whole_number(letters: &[u8]) -> Option<u64>
    ensures { result ≡ (if all_ascii_digits letters.now && nat_lt (digits_value 10 letters.now) (2 ^ 64)
        then Some (digits_value 10 letters.now) else None) }
{
    let (digits, rest) = split_digits(letters);
    if rest.is_empty() { value(digits) } else { None }
}

/// Returns letters and digits as a text in lower case.
fn lower(alloc: Global, letters: &[u8]) -> Result<String, AllocError>
    requires { IsAscii letters.now }
    ensures { IfOk result (λ text. string_bytes text ≡ map to_ascii_lowercase letters.now) }
{
    match String::from_utf8(letters.to_ascii_lowercase(alloc)?) {
        Ok(text) => Ok(text),
        Err(_) => unreachable!(),
    }
}

/// Reads the segment at the front, which has to be there, and returns it with the bytes after it.
#[tactic(auto, unfolding(crate::specs::Reading::segment_at))]
fn segment(alloc: Global, bytes: &[u8]) -> Result<(LocalSegment, &[u8]), ReadError>
    ensures { Answers (λ found. (segment_of found.0, found.1.now)) told_read result (segment_at bytes.now) }
{
    let (letters, rest) = split_letters(bytes);
    if letters.is_empty() {
        return Err(ReadError::Fault(fault(FaultKind::LocalEmpty, bytes)));
    }
    match whole_number(letters) {
        Some(number) => Ok((LocalSegment::Number(number), rest)),
        None => {
            let text = lower(alloc, letters)?;
            Ok((LocalSegment::String(text), rest))
        }
    }
}

/// Reads segments with separators between them, and returns them with the bytes after them.
fn segments(alloc: Global, bytes: &[u8]) -> Result<(Vec<LocalSegment>, &[u8]), ReadError>
    ensures { Answers (λ found. (map segment_of found.0.items, found.1.now)) told_read result
        (segments_at (length bytes.now) bytes.now) }
{
    let mut segments = Vec::new(alloc);
    let mut rest = bytes;
    for _ in 0..bytes.len() {
        match segment(alloc, rest) {
            Err(error) => return Err(error),
            Ok((segment, behind)) => {
                segments.push(segment)?;
                match behind.split_first() {
                    None => return Ok((segments, behind)),
                    Some((byte, later)) => {
                        if !is_separator(*byte) {
                            return Ok((segments, behind));
                        }
                        rest = later;
                    }
                }
            }
        }
    }
    Err(ReadError::Fault(fault(FaultKind::LocalEmpty, rest)))
}

/// Reads the segments of a local part, none where there is no `+`, and returns them with the bytes after it.
#[tactic(auto, unfolding(crate::specs::Reading::local_at))]
pub(super) fn local(alloc: Global, bytes: &[u8]) -> Result<(Vec<LocalSegment>, &[u8]), ReadError>
    ensures { Answers (λ found. (map segment_of found.0.items, found.1.now)) told_read result
        (local_at bytes.now) }
{
    match bytes.split_first() {
        Some((b'+', rest)) => segments(alloc, rest),
        _ => Ok((Vec::new(alloc), bytes)),
    }
}
