//! The intersection of the ranges of many specifiers.

ghost use Rattle.std.specs.Prelude.{[], ◌∷◌, IfOk};
ghost use Rattle.reqtable_range.specs.Together.{HasRange, HaveRanges, IsShared, lent};

use pep440_range::{RangeError, specifier_to_range};
use pep440_specifier::VersionSpecifier;
use pep440_version::Version;
use std::alloc::{AllocError, Global};
use version_ranges::Ranges;

/// The intersection of the ranges of all specifiers; the full range if there are none.
///
/// Intersects the ranges of both halves, so that n specifiers need O(n log n) comparisons of versions. Needs
/// memory for the bounds.
///
/// # Errors
///
/// `AllocError` when memory runs out.
pub fn shared_range(
    alloc: Global,
    members: &[&VersionSpecifier],
) -> Result<Ranges<Version>, AllocError>
    requires { HaveRanges (lent members.now) }
    ensures { IfOk result (IsShared (lent members.now)) }
{
    if members.is_empty() {
        return Ranges::full(alloc);
    }
    if members.len() == 1 {
        return range_of(alloc, members[0]);
    }
    let (front, back) = members.split_at(members.len() / 2);
    let front = shared_range(alloc, front)?;
    let back = shared_range(alloc, back)?;
    front.intersection(alloc, &back)
}

/// The range of a specifier that has one.
fn range_of(alloc: Global, member: &VersionSpecifier) -> Result<Ranges<Version>, AllocError>
    requires { HasRange member.now }
    ensures { IfOk result (IsShared (member.now ∷ [])) }
{
    match specifier_to_range(alloc, member) {
        Ok(range) => Ok(range),
        Err(RangeError::NumberAtEnd) => unreachable!(),
        Err(RangeError::Memory) => Err(AllocError),
    }
}
