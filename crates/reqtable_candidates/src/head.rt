//! The heads of versions, which order most versions of a package.
//!
//! A head is the first two numbers of a release as one number. A version with an epoch, or with a first
//! number past 32 bits, has the greatest head. Versions are compared where heads are equal.

ghost use Rattle.std.specs.Prelude.{◌≡◌, get_or};
ghost use Rattle.reqtable_candidates.specs.Heads.{head_of, two_numbers};

use pep440_version::Version;

/// The first two numbers of a version's release as one number that orders versions as far as it differs: the
/// first number before the second. The greatest number if the epoch isn't 0.
#[tactic(auto, unfolding(crate::specs::Heads::head_of))]
pub(crate) fn head_of(version: &Version) -> u64
    ensures { result ≡ head_of version.now }
{
    if version.epoch() != 0 {
        return u64::MAX;
    }
    let release = version.release();
    two_numbers(number_at(release, 0), number_at(release, 1))
}

/// `first * 2^32 + second` as one number; a second number past 32 bits counts as the greatest of 32 bits, and
/// a result past 64 bits as the greatest of 64.
fn two_numbers(first: u64, second: u64) -> u64
    ensures { result ≡ two_numbers first second }
{
    let second = second.min(u64::from(u32::MAX));
    first.saturating_mul(1 << 32).saturating_add(second)
}

/// The number at an index, or 0 if there is none.
fn number_at(release: &[u64], place: usize) -> u64
    ensures { result ≡ get_or release.now place 0 }
{
    match release.get(place) {
        Some(number) => *number,
        None => 0,
    }
}
