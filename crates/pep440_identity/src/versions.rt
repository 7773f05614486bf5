//! Versions that have the same parts.

ghost use Rattle.std.specs.Prelude.{◌≡◌, ◌↔◌, map, IsTrue};
ghost use Rattle.pep440_version.specs.Record.{segment_of};

use pep440_version::{LocalSegment, Prerelease, Version};

/// Whether two versions have the same parts, including the zeros at the end of a release and the marks of
/// a range's ends. Takes at most one comparison of each part.
pub fn is_identical_version(one: &Version, other: &Version) -> bool
    ensures { IsTrue result ↔ (one.now ≡ other.now) }
{
    if one.epoch() != other.epoch() || !are_same_numbers(one.release(), other.release()) {
        return false;
    }
    if !is_same_pre(one.pre(), other.pre()) || !is_same_number(one.post(), other.post()) {
        return false;
    }
    if !is_same_number(one.dev(), other.dev()) || !are_same_segments(one.local(), other.local()) {
        return false;
    }
    is_same_number(one.min(), other.min()) && is_same_number(one.max(), other.max())
}

fn are_same_numbers(ours: &[u64], theirs: &[u64]) -> bool
    ensures { IsTrue result ↔ (ours.now ≡ theirs.now) }
{
    ours == theirs
}

#[tactic(auto, using(crate::proofs::Steps::same_next, crate::proofs::Steps::unlike_mapped))]
fn are_same_segments(ours: &[LocalSegment], theirs: &[LocalSegment]) -> bool
    ensures { IsTrue result ↔ (map segment_of ours.now ≡ map segment_of theirs.now) }
{
    if ours.len() != theirs.len() {
        return false;
    }
    for (place, one) in ours.iter().enumerate() {
        if !is_same_segment(one, &theirs[place]) {
            return false;
        }
    }
    true
}

fn is_same_segment(one: &LocalSegment, other: &LocalSegment) -> bool
    ensures { IsTrue result ↔ (segment_of one.now ≡ segment_of other.now) }
{
    match one {
        LocalSegment::String(ours) => match other {
            LocalSegment::String(theirs) => *ours == *theirs,
            LocalSegment::Number(_) => false,
        },
        LocalSegment::Number(ours) => match other {
            LocalSegment::String(_) => false,
            LocalSegment::Number(theirs) => *ours == *theirs,
        },
    }
}

fn is_same_pre(one: Option<Prerelease>, other: Option<Prerelease>) -> bool
    ensures { IsTrue result ↔ (one ≡ other) }
{
    one == other
}

fn is_same_number(one: Option<u64>, other: Option<u64>) -> bool
    ensures { IsTrue result ↔ (one ≡ other) }
{
    one == other
}
