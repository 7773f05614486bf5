//! The ranges of specifiers among releases alone: epochs, suffixes and local parts are dropped.
//!
//! `star_releases` and `compatible_releases` are two functions because their definitions read better apart.

ghost use Rattle.std.specs.Prelude.{◌≡◌, ◌<◌, ◌≤◌, length};
ghost use Rattle.pep440_version.specs.Record.{release_record};
ghost use Rattle.pep440_range.specs.Ranges.{Gives, release_range_of, release_range_by, star_releases};
ghost use Rattle.pep440_range.specs.Ranges.{compatible_releases};

use crate::numbers::last_raised;
use crate::{RangeError, sets};
use pep440_specifier::{Operator, VersionSpecifier};
use pep440_version::Version;
use std::alloc::Global;
use version_ranges::Ranges;

/// Returns the range of a specifier among releases, as markers compare the versions of an interpreter: of
/// the specifier's version the release alone counts, and the bounds are releases.
///
/// Goes a fixed number of times through the version. Takes memory for the bounds.
///
/// # Errors
/// `NumberAtEnd` where a number of a bound would have to be greater than `u64::MAX`; `Memory` where memory
/// ran out.
pub fn release_specifier_to_range(
    alloc: Global,
    specifier: &VersionSpecifier,
) -> Result<Ranges<Version>, RangeError>
    ensures { Gives result (release_range_of specifier.now) }
{
    let release = specifier.version().only_release(alloc)?;
    release_range_by(alloc, specifier.operator(), release)
}

/// Returns the range of an operator and a release.
fn release_range_by(
    alloc: Global,
    operator: Operator,
    release: Version,
) -> Result<Ranges<Version>, RangeError>
    requires plain { release ≡ release_record release.release }
    requires numbers { operator ≡ Operator.TildeEqual → 2 ≤ length release.release }
    ensures { Gives result (release_range_by operator release.release) }
{
    match operator {
        Operator::Equal | Operator::ExactEqual => sets::point(alloc, release),
        Operator::EqualStar => star_releases(alloc, release),
        Operator::NotEqual => sets::all_but(alloc, sets::point(alloc, release)),
        Operator::NotEqualStar => sets::all_but(alloc, star_releases(alloc, release)),
        Operator::TildeEqual => compatible_releases(alloc, release),
        Operator::LessThan => sets::below(alloc, release),
        Operator::LessThanEqual => sets::to(alloc, release),
        Operator::GreaterThan => sets::above(alloc, release),
        Operator::GreaterThanEqual => sets::from(alloc, release),
    }
}

/// Returns the range of the releases that begin with this one.
fn star_releases(alloc: Global, release: Version) -> Result<Ranges<Version>, RangeError>
    requires { release ≡ release_record release.release }
    ensures { Gives result (star_releases release.release) }
{
    let end = last_raised(alloc, release.release())?;
    let end = Version::new(alloc, &end)?;
    sets::up_to(alloc, release, end)
}

/// Returns the range from the release on, as far as all its numbers but the last are kept.
fn compatible_releases(alloc: Global, release: Version) -> Result<Ranges<Version>, RangeError>
    requires plain { release ≡ release_record release.release }
    requires numbers { 2 ≤ length release.release }
    ensures { Gives result (compatible_releases release.release) }
{
    let numbers = release.release();
    let end = last_raised(alloc, &numbers[..numbers.len() - 1])?;
    let end = Version::new(alloc, &end)?;
    sets::up_to(alloc, release, end)
}
