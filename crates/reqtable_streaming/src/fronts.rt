//! Names with their fronts, by which a package is found.
//!
//! A front is the first eight bytes of a name as one number, as `reqtable_candidates` has it for sorting. A
//! list of names with their fronts is dense: a step of a search reads one entry of it, and names only where
//! fronts are equal and full: a name of seven bytes or fewer is its front, since no name has a byte 0. A
//! front is a field with the fact that it is the name's, so that the contract of the comparison is that of
//! names. The name is borrowed, so that a candidate's needs no memory of its own.

ghost use Rattle.std.specs.Prelude.{◌≡◌, ◌<◌, ◌+◌, ◌*◌, ◌^◌, true, Some};
ghost use Rattle.pep508_name.specs.Name.{name_cmp, name_of};
ghost use Rattle.reqtable_candidates.specs.Fronts.{first_or_none, behind_first, front_of, are_bytes};

use pep508_name::PackageName;
use std::cmp::Ordering;

/// A name in normal form with its front.
#[derive(Clone, Copy)]
pub(crate) struct Fronted<'a> {
    pub(crate) front: u64,
    pub(crate) name: &'a [u8],
    pub(crate) ghost is_front: { front ≡ front_of name.now },
    pub(crate) ghost has_bytes: { are_bytes name.now ≡ true },
}

/// The name with its front.
pub(crate) fn of_name(name: &PackageName) -> Fronted<'_>
    ensures { result.name.now ≡ name.now }
{
    with_front(name.as_str().as_bytes())
}

/// The bytes, which are a name in normal form, with its front.
#[tactic(auto, using(reqtable_candidates::proofs::Fronts::name_of_bytes))]
pub(crate) fn with_front(name: &[u8]) -> Fronted<'_>
    requires { name_of name.now ≡ Some name.now }
    ensures { result.name.now ≡ name.now }
{
    let front = front_of(name);
    Fronted { front, name }
}

/// The order of two names. Reads them only if their fronts are equal and full.
pub(crate) fn compare(a: &Fronted<'_>, b: &Fronted<'_>) -> Ordering
    ensures { result ≡ name_cmp a.now.name.now b.now.name.now }
{
    if a.front < b.front {
        return Ordering::Less;
    }
    if a.front > b.front {
        return Ordering::Greater;
    }
    if a.front % 256 == 0 {
        return Ordering::Equal;
    }
    a.name.cmp(b.name)
}

/// The first of some bytes, eight at most, as one big-endian number; missing bytes are 0.
fn front_of(bytes: &[u8]) -> u64
    ensures { result ≡ front_of bytes.now }
{
    if bytes.len() < 8 {
        return short_front(bytes);
    }
    let first = bytes[0] as u64 * 256 + bytes[1] as u64;
    let second = bytes[2] as u64 * 256 + bytes[3] as u64;
    let third = bytes[4] as u64 * 256 + bytes[5] as u64;
    let fourth = bytes[6] as u64 * 256 + bytes[7] as u64;
    ((first * 65536 + second) * 65536 + third) * 65536 + fourth
}

/// The first of some bytes, eight at most, as one big-endian number, byte by byte; missing bytes are 0.
#[tactic(auto, unfolding(reqtable_candidates::specs::Fronts::front_of))]
fn short_front(bytes: &[u8]) -> u64
    ensures { result ≡ front_of bytes.now }
{
    let (front, rest) = shifted(0, bytes);
    let (front, rest) = shifted(front, rest);
    let (front, rest) = shifted(front, rest);
    let (front, rest) = shifted(front, rest);
    let (front, rest) = shifted(front, rest);
    let (front, rest) = shifted(front, rest);
    let (front, rest) = shifted(front, rest);
    let (front, _) = shifted(front, rest);
    front
}

/// A number with the first of some bytes appended as its last eight bits (0 if there is none), and the bytes
/// after it.
fn shifted(front: u64, bytes: &[u8]) -> (u64, &[u8])
    requires { front < 2 ^ 56 }
    ensures front { result.0 ≡ front * 256 + first_or_none bytes.now }
    ensures below { result.0 < (front + 1) * 256 }
    ensures rest { result.1.now ≡ behind_first bytes.now }
{
    match bytes.split_first() {
        Some((byte, rest)) => (front * 256 + *byte as u64, rest),
        None => (front * 256, bytes),
    }
}
