//! Ranges of lists: the intersection of the ranges of all members.
//!
//! The range of a list is that of its first half intersected with that of its second half, down to single
//! members. Each level is one pass over all bounds, so `n` members take O(n log n) comparisons, and the
//! recursion is as deep as the logarithm of `n`. Among all versions or among releases is one private enum,
//! so that halving is proved once.

ghost use Rattle.std.specs.Prelude.{map};
ghost use Rattle.pep440_range.specs.Ranges.{Gives, GivesAll, range_of, release_range_of};
ghost use Rattle.pep440_range.specs.Shared.{range_among};

use crate::{RangeError, release_specifier_to_range, sets, specifier_to_range};
use pep440_specifier::VersionSpecifier;
use pep440_specifier_list::VersionSpecifiers;
use pep440_version::Version;
use std::alloc::Global;
use version_ranges::Ranges;

/// Returns the intersection of the ranges of all members.
///
/// The ranges of the two halves of the list are intersected, so that n members take O(n log n) comparisons
/// of versions: a list of 40,000 exclusions takes less than a second. Takes memory for the bounds.
///
/// # Errors
/// `NumberAtEnd` where one of the members has no range; `Memory` where memory ran out.
pub fn specifiers_to_range(
    alloc: Global,
    specifiers: &VersionSpecifiers,
) -> Result<Ranges<Version>, RangeError>
    ensures { GivesAll result (map range_of specifiers.now) }
{
    shared_range(alloc, Among::Versions, specifiers.as_slice())
}

/// Returns the intersection of the ranges among releases of all members.
///
/// Its comparisons and memory are those of `specifiers_to_range`.
///
/// # Errors
/// `NumberAtEnd` where one of the members has no range among releases; `Memory` where memory ran out.
pub fn release_specifiers_to_ranges(
    alloc: Global,
    specifiers: &VersionSpecifiers,
) -> Result<Ranges<Version>, RangeError>
    ensures { GivesAll result (map release_range_of specifiers.now) }
{
    shared_range(alloc, Among::Releases, specifiers.as_slice())
}

/// The versions of which a specifier's range is made.
#[derive(Clone, Copy)]
enum Among {
    /// All versions, as PEP 440 says.
    Versions,
    /// Releases alone.
    Releases,
}

/// Returns the intersection of the ranges of these members: that of the one half with that of the other
/// half.
fn shared_range(
    alloc: Global,
    among: Among,
    members: &[VersionSpecifier],
) -> Result<Ranges<Version>, RangeError>
    ensures { GivesAll result (map (range_among among) members.now) }
{
    if members.is_empty() {
        return Ok(Ranges::full(alloc)?);
    }
    if members.len() == 1 {
        return range_among(alloc, among, &members[0]);
    }
    let (front, back) = members.split_at(members.len() / 2);
    let front = shared_range(alloc, among, front)?;
    let back = shared_range(alloc, among, back)?;
    sets::both(alloc, &front, &back)
}

fn range_among(
    alloc: Global,
    among: Among,
    member: &VersionSpecifier,
) -> Result<Ranges<Version>, RangeError>
    ensures { Gives result (range_among among member.now) }
{
    match among {
        Among::Versions => specifier_to_range(alloc, member),
        Among::Releases => release_specifier_to_range(alloc, member),
    }
}
