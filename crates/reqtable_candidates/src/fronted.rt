//! Candidates with numbers that order most of them: the first bytes of their names, and the heads of their
//! versions.
//!
//! A front is the first eight bytes of a name as one number: four of five comparisons end there and read no
//! candidate. A name of seven bytes or fewer is its front, since no name has a byte 0. A front is a field
//! with the fact that it is the name's, and a head one with the fact that it is the version's, so that the
//! contract of the comparison is that of names and versions. Both are dropped once the candidates are
//! sorted.

ghost use Rattle.std.specs.Prelude.{◌≡◌, ◌<◌, ◌+◌, ◌*◌, ◌^◌};
ghost use Rattle.reqtable_candidates.specs.Fronts.{first_or_none, behind_first, front_of};
ghost use Rattle.reqtable_candidates.specs.Heads.{head_of};

use crate::ordered::Placed;

/// A candidate with its index in the list, and with the front of its name and the head of its version as
/// numbers.
#[derive(Drop)]
pub(crate) struct Fronted<'a> {
    pub(crate) front: u64,
    pub(crate) head: u64,
    pub(crate) placed: Placed<'a>,
    pub(crate) ghost is_front: { front ≡ front_of placed.candidate.now.name },
    pub(crate) ghost is_head: { head ≡ head_of placed.candidate.now.version },
}

/// The first eight bytes of a text as one big-endian number; missing bytes are 0.
#[tactic(auto, unfolding(crate::specs::Fronts::front_of))]
pub(crate) fn front_of(text: &str) -> u64
    ensures { result ≡ front_of text.now }
{
    let (front, rest) = shifted(0, text.as_bytes());
    let (front, rest) = shifted(front, rest);
    let (front, rest) = shifted(front, rest);
    let (front, rest) = shifted(front, rest);
    let (front, rest) = shifted(front, rest);
    let (front, rest) = shifted(front, rest);
    let (front, rest) = shifted(front, rest);
    let (front, _) = shifted(front, rest);
    front
}

/// A number with the first of some bytes appended as its last eight bits (0 if there is none), and the bytes
/// after it.
fn shifted(front: u64, bytes: &[u8]) -> (u64, &[u8])
    requires { front < 2 ^ 56 }
    ensures front { result.0 ≡ front * 256 + first_or_none bytes.now }
    ensures below { result.0 < (front + 1) * 256 }
    ensures rest { result.1.now ≡ behind_first bytes.now }
{
    match bytes.split_first() {
        Some((byte, rest)) => (front * 256 + *byte as u64, rest),
        None => (front * 256, bytes),
    }
}
