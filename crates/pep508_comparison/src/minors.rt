//! Minor releases of an interpreter, as sets of full versions.

ghost use Rattle.pep440_range.specs.Ranges.{Gives};
ghost use Rattle.pep508_comparison.specs.Comparisons.{in_minor, from_next_minor, before_next_minor};

use crate::release_numbers::{minor_of, next_minor};
use pep440_range::{RangeError, sets};
use pep440_version::Version;
use std::alloc::Global;
use version_ranges::Ranges;

/// Returns the full versions of the minor release with which the numbers begin.
pub(crate) fn in_minor(alloc: Global, numbers: &[u64]) -> Result<Ranges<Version>, RangeError>
    ensures { Gives result (in_minor numbers.now) }
{
    let end = next_minor(numbers)?;
    let end = Version::new(alloc, &end)?;
    let first = Version::new(alloc, &minor_of(numbers))?;
    sets::up_to(alloc, first, end)
}

/// Returns the full versions from the next minor release on.
pub(crate) fn from_next_minor(alloc: Global, numbers: &[u64]) -> Result<Ranges<Version>, RangeError>
    ensures { Gives result (from_next_minor numbers.now) }
{
    let next = next_minor(numbers)?;
    sets::from(alloc, Version::new(alloc, &next)?)
}

/// Returns the full versions before the next minor release.
pub(crate) fn before_next_minor(
    alloc: Global,
    numbers: &[u64],
) -> Result<Ranges<Version>, RangeError>
    ensures { Gives result (before_next_minor numbers.now) }
{
    let next = next_minor(numbers)?;
    sets::below(alloc, Version::new(alloc, &next)?)
}
