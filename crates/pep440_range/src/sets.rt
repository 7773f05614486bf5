//! The sets that ranges are made of, with the error of ranges. Comparisons of markers are made of some too.

ghost use Rattle.std.specs.Prelude.{◌≡◌, ◌&&◌, Option, Some, Ok, IfOk, IfErr};
ghost use Rattle.std.specs.Option.{option_map};
ghost use Rattle.std.specs.declared.ops.Bound.TheVariants.{Included, Excluded};
ghost use Rattle.version_ranges.specs.Point.{Point};
ghost use Rattle.version_ranges.specs.Held.{holds_at};
ghost use Rattle.pep440_version.specs.Record.{VersionRecord};
ghost use Rattle.pep440_version.specs.Order.{version_cmp};
ghost use Rattle.pep440_range.specs.Ranges.{PointTest, Gives, all_but, at_version, from_bound, to_bound};
ghost use Rattle.pep440_range.specs.Ranges.{up_to};

use crate::RangeError;
use pep440_version::Version;
use std::alloc::Global;
use std::ops::Bound;
use version_ranges::Ranges;

/// Returns the set of one version.
pub(crate) fn point(alloc: Global, version: Version) -> Result<Ranges<Version>, RangeError>
    ensures { Gives result (Some (at_version version)) }
{
    Ok(Ranges::singleton(alloc, version)?)
}

/// Returns the set from the version on, the version included.
///
/// # Errors
///
/// `RangeError::Memory` when memory runs out.
pub fn from(alloc: Global, version: Version) -> Result<Ranges<Version>, RangeError>
    ensures { Gives result (Some (from_bound (Included version))) }
{
    Ok(Ranges::higher_than(alloc, version)?)
}

/// Returns the set of what is above a version.
pub(crate) fn above(alloc: Global, version: Version) -> Result<Ranges<Version>, RangeError>
    ensures { Gives result (Some (from_bound (Excluded version))) }
{
    Ok(Ranges::strictly_higher_than(alloc, version)?)
}

/// Returns the set up to the version, the version included.
pub(crate) fn to(alloc: Global, version: Version) -> Result<Ranges<Version>, RangeError>
    ensures { Gives result (Some (to_bound (Included version))) }
{
    Ok(Ranges::lower_than(alloc, version)?)
}

/// Returns the set of what is below a version.
///
/// # Errors
///
/// `RangeError::Memory` when memory runs out.
pub fn below(alloc: Global, version: Version) -> Result<Ranges<Version>, RangeError>
    ensures { Gives result (Some (to_bound (Excluded version))) }
{
    Ok(Ranges::strictly_lower_than(alloc, version)?)
}

/// Returns the set from a version on, up to and without another version.
///
/// # Errors
///
/// `RangeError::Memory` when memory runs out.
pub fn up_to(alloc: Global, first: Version, end: Version) -> Result<Ranges<Version>, RangeError>
    ensures { Gives result (Some (up_to first end)) }
{
    let bounds = (Bound::Included(first), Bound::Excluded(end));
    Ok(Ranges::from_range_bounds(alloc, bounds)?)
}

/// Returns the complement of a range; an error is passed on.
pub(crate) fn all_but(
    alloc: Global,
    range: Result<Ranges<Version>, RangeError>,
) -> Result<Ranges<Version>, RangeError>
    ensures { (wanted : Option PointTest) →
        Gives range wanted → Gives result (option_map all_but wanted) }
{
    match range {
        Ok(range) => Ok(range.complement(alloc)?),
        Err(error) => Err(error),
    }
}

/// Returns the intersection of two ranges.
pub(crate) fn both(
    alloc: Global,
    range: &Ranges<Version>,
    other: &Ranges<Version>,
) -> Result<Ranges<Version>, RangeError>
    ensures points { IfOk result (λ set. (p : Point VersionRecord) →
        holds_at version_cmp set p
        ≡ (holds_at version_cmp range.now p && holds_at version_cmp other.now p)) }
    ensures memory { IfErr result (λ error. error ≡ RangeError.Memory) }
{
    Ok(range.intersection(alloc, other)?)
}
