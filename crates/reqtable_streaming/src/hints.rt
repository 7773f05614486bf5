//! Hints of where the package of a name stands.
//!
//! A hint is a place that is tried first, found by the ends of the name. It promises nothing: the name at
//! that place decides, and where it is another one, names are searched for. So names that were chosen to
//! have the hints of others cost a search, and never a wrong answer.

ghost use Rattle.std.specs.Prelude.{◌<◌, OnErr, length};

use crate::fronts::Fronted;
use std::alloc::{AllocError, Global};

/// What stands where there is no hint.
const NONE: u32 = u32::MAX;

/// What is multiplied by, so that the higher bits of the product depend on all lower ones.
const SPREAD: u64 = 0x9e37_79b9_7f4a_7c15;

/// The hints of names, each in one of two slots. There are two to four slots for each name.
pub(crate) fn hints_of(alloc: Global, names: &[Fronted<'_>]) -> Result<Vec<u32>, AllocError>
    ensures grown { OnErr result (0 < length names.now) }
{
    let mut hints = Vec::new(alloc);
    if names.is_empty() {
        return Ok(hints);
    }
    let slots = names.len().saturating_mul(2);
    hints.resize(slots.checked_next_power_of_two().unwrap_or(2), NONE)?;
    for (place, name) in names.iter().enumerate() {
        keep_hint(&mut hints, name, place);
    }
    Ok(hints)
}

/// Keeps the place of a name in its first slot, or in its second one if the first is taken.
fn keep_hint(hints: &mut [u32], name: &Fronted<'_>, place: usize) {
    let first = slot_of(name, hints.len());
    let slot = if hint_at(hints, first) == NONE {
        first
    } else {
        first ^ 1
    };
    if let Some(hint) = hints.get_mut(slot) {
        *hint = u32::try_from(place).unwrap_or(NONE);
    }
}

/// A place to try for a name among these: that of its first or its second slot, if a name with the ends of
/// this one stands there, and otherwise `before`.
pub(crate) fn hint_of(
    hints: &[u32],
    names: &[Fronted<'_>],
    name: &Fronted<'_>,
    before: usize,
) -> usize {
    let slot = slot_of(name, hints.len());
    let first = hint_at(hints, slot) as usize;
    if is_like(names, first, name) {
        return first;
    }
    let second = hint_at(hints, slot ^ 1) as usize;
    if is_like(names, second, name) {
        return second;
    }
    before
}

fn hint_at(hints: &[u32], slot: usize) -> u32 {
    match hints.get(slot) {
        Some(hint) => *hint,
        None => NONE,
    }
}

/// Whether the name at a place begins and ends as this one does, in eight bytes each.
fn is_like(names: &[Fronted<'_>], place: usize, name: &Fronted<'_>) -> bool {
    match names.get(place) {
        Some(other) => other.front == name.front && end_of(other) == end_of(name),
        None => false,
    }
}

/// The first slot of a name, by its ends. `slots` is a power of two.
fn slot_of(name: &Fronted<'_>, slots: usize) -> usize {
    (spread(spread(name.front) ^ end_of(name)) >> 40) as usize & slots.wrapping_sub(1)
}

/// The last eight bytes of a name as one number; 0 for a shorter name, which its front is the whole of.
fn end_of(name: &Fronted<'_>) -> u64 {
    match name.name.last_chunk::<8>() {
        Some(bytes) => u64::from_be_bytes(*bytes),
        None => 0,
    }
}

/// A number of which the bits from the fortieth on depend on all bits of this one.
fn spread(bits: u64) -> u64 {
    (bits ^ bits >> 32).wrapping_mul(SPREAD)
}
