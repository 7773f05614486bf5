//! The bytes of numbers.

ghost use Rattle.std.specs.Prelude.{◌≡◌, ◌++◌, ◌∷◌, OnOk};
ghost use Rattle.pep440_key.specs.Key.{number_bytes, component_bytes};

use std::alloc::AllocError;

/// The greatest number that is written as one byte.
const MOST_IN_A_BYTE: u64 = 251;
/// The byte before a number of two bytes; the next two constants are those before four and before eight.
const TWO_FOLLOW: u8 = 253;

const FOUR_FOLLOW: u8 = 254;

const EIGHT_FOLLOW: u8 = 255;

/// Appends the bytes of a number, 1 to 9 of them, which are no prefix of another number's. They sort as the
/// numbers do.
///
/// # Errors
///
/// `AllocError` when memory runs out.
#[tactic(auto, unfolding(crate::specs::Key::number_bytes))]
pub fn push_number(key: &mut Vec<u8>, number: u64) -> Result<(), AllocError>
    ensures { OnOk result (key.new.items ≡ key.old.items ++ number_bytes number) }
{
    if number <= MOST_IN_A_BYTE {
        key.push(number as u8 + 1)?;
        Ok(())
    } else if let Ok(number) = u16::try_from(number) {
        push_bytes(key, TWO_FOLLOW, &number.to_be_bytes())
    } else if let Ok(number) = u32::try_from(number) {
        push_bytes(key, FOUR_FOLLOW, &number.to_be_bytes())
    } else {
        push_bytes(key, EIGHT_FOLLOW, &number.to_be_bytes())
    }
}

/// Appends a byte and others after it.
fn push_bytes(key: &mut Vec<u8>, first: u8, bytes: &[u8]) -> Result<(), AllocError>
    ensures { OnOk result (key.new.items ≡ key.old.items ++ first ∷ bytes.now) }
{
    key.push(first)?;
    key.extend_from_slice(bytes)
}

/// Appends the numbers, and a byte that ends them.
pub(crate) fn push_numbers(key: &mut Vec<u8>, numbers: &[u64]) -> Result<(), AllocError>
    ensures { OnOk result (key.new.items ≡ key.old.items ++ component_bytes numbers.now) }
{
    for number in numbers {
        push_number(key, *number)?;
    }
    key.push(0)?;
    Ok(())
}
