//! Reading numbers, and numbers with dots between them.

ghost use Rattle.std.specs.Prelude.{◌≡◌, ◌<◌, ◌^◌, nat_lt, if◌then◌else◌, [], ◌∷◌, length, Some, None, Err};
ghost use Rattle.std.specs.Prelude.{IfOk};
ghost use Rattle.std.specs.Str.Parse.{AllDigits, digits_value};
ghost use Rattle.read_outcome.specs.Outcome.{Answers};
ghost use Rattle.pep440_text.specs.declared.ReadError.TheVariants as errors;
ghost use Rattle.pep440_text.specs.Faults.{told_read, HasNumber};
ghost use Rattle.pep440_text.specs.Reading.{leading_digits, behind_digits, number_of, number_at};
ghost use Rattle.pep440_text.specs.Reading.{marked_number_at, epoch_at, with_front, numbers_at, release_at};

use super::fault;
use crate::{FaultKind, ReadError, TextFault};
use std::alloc::Global;

/// Returns the digits at the front, and the bytes after them.
pub(super) fn split_digits(bytes: &[u8]) -> (&[u8], &[u8])
    ensures digits { result.0.now ≡ leading_digits bytes.now }
    ensures rest { result.1.now ≡ behind_digits bytes.now }
    ensures are_digits { AllDigits 10 result.0.now }
{
    let mut count = 0;
    while count < bytes.len() && bytes[count].is_ascii_digit() {
        count += 1;
    }
    bytes.split_at(count)
}

/// Returns the value of the digits, where it fits 64 bits.
pub(super) fn value(digits: &[u8]) -> Option<u64>
    requires { AllDigits 10 digits.now }
    ensures { result ≡ (if nat_lt (digits_value 10 digits.now) (2 ^ 64)
        then Some (digits_value 10 digits.now) else None) }
{
    let mut total = 0u64;
    for digit in digits {
        total = total
            .checked_mul(10)?
            .checked_add(digit.saturating_sub(b'0') as u64)?;
    }
    Some(total)
}

/// Returns the value of the digits at the front of some bytes, where there are any.
fn number_of(bytes: &[u8], digits: &[u8]) -> Result<Option<u64>, TextFault>
    requires { AllDigits 10 digits.now }
    ensures { Answers (λ number. number) Some result (number_of bytes.now digits.now) }
{
    if digits.is_empty() {
        return Ok(None);
    }
    match value(digits) {
        None => Err(fault(FaultKind::NumberTooBig, bytes)),
        Some(number) => Ok(Some(number)),
    }
}

/// Reads the number at the front, where there is one, and returns it with the bytes after it.
#[tactic(auto, unfolding(crate::specs::Reading::number_at))]
pub(super) fn number(bytes: &[u8]) -> Result<(Option<u64>, &[u8]), TextFault>
    ensures { Answers (λ found. (found.0, found.1.now)) Some result (number_at bytes.now) }
{
    let (digits, rest) = split_digits(bytes);
    let number = number_of(bytes, digits)?;
    Ok((number, rest))
}

/// Reads a byte and a number after it, where there are both, and returns the number with the bytes after it.
#[tactic(auto, unfolding(crate::specs::Reading::marked_number_at))]
pub(super) fn marked_number(mark: u8, bytes: &[u8]) -> Result<(Option<u64>, &[u8]), TextFault>
    ensures { Answers (λ found. (found.0, found.1.now)) Some result (marked_number_at mark bytes.now) }
{
    let Some((byte, rest)) = bytes.split_first() else {
        return Ok((None, bytes));
    };
    if *byte != mark {
        return Ok((None, bytes));
    }
    let (found, later) = number(rest)?;
    match found {
        None => Ok((None, bytes)),
        Some(number) => Ok((Some(number), later)),
    }
}

/// Reads the number before a `!`, where there are both, and returns it with the bytes after the `!`.
#[tactic(auto, unfolding(crate::specs::Reading::epoch_at))]
pub(super) fn epoch(bytes: &[u8]) -> Result<(Option<u64>, &[u8]), TextFault>
    ensures { Answers (λ found. (found.0, found.1.now)) Some result (epoch_at bytes.now) }
{
    let (digits, behind) = split_digits(bytes);
    match behind.split_first() {
        Some((b'!', rest)) => {
            if digits.is_empty() {
                return Ok((None, bytes));
            }
            let number = number_of(bytes, digits)?;
            Ok((number, rest))
        }
        _ => Ok((None, bytes)),
    }
}

/// Reads the numbers after a first one, as long as dots with numbers follow, and returns them all with the
/// bytes after them.
fn numbers(alloc: Global, first: u64, bytes: &[u8]) -> Result<(Vec<u64>, &[u8]), ReadError>
    ensures { Answers (λ found. (found.0.items, found.1.now)) told_read result
        (with_front (first ∷ []) (numbers_at (length bytes.now) bytes.now)) }
{
    let dots = bytes.iter().filter(|byte| **byte == b'.').count();
    let mut numbers = Vec::with_capacity(alloc, dots + 1)?;
    numbers.push(first)?;
    let mut rest = bytes;
    for _ in 0..bytes.len() {
        match marked_number(b'.', rest) {
            Err(fault) => return Err(ReadError::Fault(fault)),
            Ok((None, later)) => return Ok((numbers, later)),
            Ok((Some(number), later)) => {
                numbers.push(number)?;
                rest = later;
            }
        }
    }
    Ok((numbers, rest))
}

/// Reads the numbers of a release, and returns them with the bytes after them.
#[tactic(auto, unfolding(crate::specs::Reading::release_at))]
pub(super) fn release(alloc: Global, bytes: &[u8]) -> Result<(Vec<u64>, &[u8]), ReadError>
    ensures release { Answers (λ found. (found.0.items, found.1.now)) told_read result
        (release_at bytes.now) }
    ensures numbers { IfOk result (λ found. 0 < length found.0.items) }
    ensures grown { result ≡ Err errors.Memory → HasNumber (release_at bytes.now) }
{
    let (first, rest) = number(bytes)?;
    match first {
        None => Err(ReadError::Fault(fault(FaultKind::NoLeadingNumber, bytes))),
        Some(first) => numbers(alloc, first, rest),
    }
}
