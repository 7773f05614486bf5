//! Copies of bounds of versions.

ghost use Rattle.std.specs.Prelude.{◌≡◌, IfOk};
ghost use Rattle.pep440_specifier.specs.Bounds.{lent_bound};

use pep440_version::Version;
use std::alloc::{AllocError, Global};
use std::ops::Bound;

/// Returns a copy of a bound.
pub(crate) fn copy_of_bound(
    alloc: Global,
    bound: Bound<&Version>,
) -> Result<Bound<Version>, AllocError>
    ensures { IfOk result (λ copy. copy ≡ lent_bound bound.entry) }
{
    Ok(match bound {
        Bound::Included(version) => Bound::Included(version.try_clone(alloc)?),
        Bound::Excluded(version) => Bound::Excluded(version.try_clone(alloc)?),
        Bound::Unbounded => Bound::Unbounded,
    })
}
