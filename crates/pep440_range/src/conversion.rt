//! The ranges of specifiers, as PEP 440 has them.
//!
//! Conversions borrow their argument and clone only the versions that become endpoints (`==V.*` makes new
//! ones). So `VersionSpecifier::version` also says that the specifier may be built.

ghost use Rattle.std.specs.Prelude.{◌≡◌, ◌<◌, ◌≤◌, length, IfOk};
ghost use Rattle.pep440_range.specs.Ranges.{Gives, range_of, range_by, first_of, star_range};
ghost use Rattle.pep440_range.specs.Ranges.{compatible_range, greater_range, end_of_less};

use crate::numbers::{last_raised, raised};
use crate::{RangeError, sets};
use pep440_specifier::{Operator, VersionSpecifier};
use pep440_version::Version;
use std::alloc::{AllocError, Global};
use version_ranges::Ranges;

/// Returns the range of a specifier (PEP 440, "Version specifiers"), with the bounds that `range_of` names.
///
/// Goes a fixed number of times through the version. Takes memory for the bounds alone: a copy of the
/// version where it is one.
///
/// # Errors
/// `NumberAtEnd` where a number of a bound would have to be greater than `u64::MAX`; `Memory` where memory
/// ran out.
pub fn specifier_to_range(
    alloc: Global,
    specifier: &VersionSpecifier,
) -> Result<Ranges<Version>, RangeError>
    ensures { Gives result (range_of specifier.now) }
{
    range_by(alloc, specifier.operator(), specifier.version())
}

/// Returns the range of an operator and a version.
fn range_by(
    alloc: Global,
    operator: Operator,
    version: &Version,
) -> Result<Ranges<Version>, RangeError>
    requires { operator ≡ Operator.TildeEqual → 2 ≤ length version.now.release }
    ensures { Gives result (range_by operator version.now) }
{
    match operator {
        Operator::Equal | Operator::ExactEqual => sets::point(alloc, version.try_clone(alloc)?),
        Operator::EqualStar => star_range(alloc, version),
        Operator::NotEqual => sets::all_but(alloc, sets::point(alloc, version.try_clone(alloc)?)),
        Operator::NotEqualStar => sets::all_but(alloc, star_range(alloc, version)),
        Operator::TildeEqual => compatible_range(alloc, version),
        Operator::LessThan => sets::below(alloc, end_of_less(version.try_clone(alloc)?)),
        Operator::LessThanEqual => sets::to(alloc, version.try_clone(alloc)?),
        Operator::GreaterThan => greater_range(alloc, version),
        Operator::GreaterThanEqual => sets::from(alloc, version.try_clone(alloc)?),
    }
}

/// Returns the first developmental release of an epoch and release numbers.
fn first_of(alloc: Global, epoch: u64, numbers: &[u64]) -> Result<Version, AllocError>
    requires { 0 < length numbers.now }
    ensures { IfOk result (λ version. version ≡ first_of epoch numbers.now) }
{
    Ok(
        Version::new(alloc, numbers)?
            .with_epoch(epoch)
            .with_dev(Some(0)),
    )
}

/// Returns the range of the versions whose epoch and release begin with this version's.
fn star_range(alloc: Global, version: &Version) -> Result<Ranges<Version>, RangeError>
    ensures { Gives result (star_range version.now) }
{
    let end = last_raised(alloc, version.release())?;
    let end = first_of(alloc, version.epoch(), &end)?;
    let first = first_of(alloc, version.epoch(), version.release())?;
    sets::up_to(alloc, first, end)
}

/// Returns the range from the version on, as far as all its release numbers but the last are kept.
fn compatible_range(alloc: Global, version: &Version) -> Result<Ranges<Version>, RangeError>
    requires { 2 ≤ length version.now.release }
    ensures { Gives result (compatible_range version.now) }
{
    let release = version.release();
    let end = last_raised(alloc, &release[..release.len() - 1])?;
    let end = first_of(alloc, version.epoch(), &end)?;
    sets::up_to(alloc, version.try_clone(alloc)?, end)
}

/// Returns the exclusive upper bound of the versions that are less than this one.
fn end_of_less(version: Version) -> Version
    ensures { result ≡ end_of_less version }
{
    if version.any_prerelease() {
        version
    } else {
        version.with_min(Some(0))
    }
}

/// Returns the range of the versions greater than this one.
fn greater_range(alloc: Global, version: &Version) -> Result<Ranges<Version>, RangeError>
    ensures { Gives result (greater_range version.now version.now.dev version.now.post) }
{
    if let Some(dev) = version.dev() {
        let next = raised(dev)?;
        return sets::from(alloc, version.try_clone(alloc)?.with_dev(Some(next)));
    }
    if let Some(post) = version.post() {
        let next = raised(post)?;
        return sets::from(alloc, version.try_clone(alloc)?.with_post(Some(next)));
    }
    sets::above(alloc, version.try_clone(alloc)?.with_max(Some(0)))
}
