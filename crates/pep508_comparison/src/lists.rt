//! Comparisons with lists of versions, by `in` and `not in`.

ghost use Rattle.std.specs.Prelude.{◌≡◌, IfOk};
ghost use Rattle.std.specs.List.{list_all};
ghost use Rattle.version_ranges.specs.Point.{Point};
ghost use Rattle.version_ranges.specs.Held.{holds_at};
ghost use Rattle.pep440_text.specs.Record.{VersionRecord};
ghost use Rattle.pep440_version.specs.Order.{version_cmp};
ghost use Rattle.pep440_range.specs.Ranges.{Gives};
ghost use Rattle.pep508_comparison.specs.Comparisons.{is_minor, negated_points, listed, listed_minors};
ghost use Rattle.pep508_comparison.specs.Comparisons.{python_listed_points};
ghost use Rattle.pep508_comparison.specs.Unions.{GivesAny};

use crate::minors::in_minor;
use crate::sets;
use pep440_range::RangeError;
use pep440_version::Version;
use std::alloc::{AllocError, Global};
use version_ranges::Ranges;

/// Returns the set of the versions of a list, or of all others where `negated`.
///
/// The sets of the two halves of the list are joined, so that n versions take O(n log n) comparisons of
/// versions. Takes memory for the bounds.
///
/// # Errors
///
/// `AllocError` when memory runs out.
pub fn listed_range(
    alloc: Global,
    negated: bool,
    versions: &[Version],
) -> Result<Ranges<Version>, AllocError>
    ensures { IfOk result (λ set. (p : Point VersionRecord) →
        holds_at version_cmp set p ≡ negated_points negated (listed versions.now) p) }
{
    let listed = listed_versions(alloc, versions)?;
    if negated {
        listed.complement(alloc)
    } else {
        Ok(listed)
    }
}

/// Returns the full versions for which `python_version` is listed, or is not where `negated`. A listed
/// version of three numbers or more, zeros counted, makes both hold nowhere, and then no number is raised.
///
/// Its comparisons and memory are those of `listed_range`.
///
/// # Errors
/// `NumberAtEnd` where the minor release after a listed one has a number past 64 bits; `Memory` where
/// memory ran out.
pub fn python_listed_range(
    alloc: Global,
    negated: bool,
    versions: &[Version],
) -> Result<Ranges<Version>, RangeError>
    ensures { Gives result (python_listed_points negated versions.now) }
{
    if !are_minors(versions) {
        return sets::nowhere(alloc);
    }
    sets::negated(alloc, negated, minors_range(alloc, versions))
}

/// Returns the set of the versions: that of the one half joined with that of the other half.
fn listed_versions(alloc: Global, versions: &[Version]) -> Result<Ranges<Version>, AllocError>
    ensures { IfOk result (λ set. (p : Point VersionRecord) →
        holds_at version_cmp set p ≡ listed versions.now p) }
{
    if versions.is_empty() {
        return Ok(Ranges::empty(alloc));
    }
    if versions.len() == 1 {
        let version = versions[0].try_clone(alloc)?;
        return Ranges::singleton(alloc, version);
    }
    let (front, back) = versions.split_at(versions.len() / 2);
    let front = listed_versions(alloc, front)?;
    let back = listed_versions(alloc, back)?;
    front.union(alloc, &back)
}

/// Returns the full versions of the listed minor releases: those of the one half joined with those of the
/// other half.
fn minors_range(alloc: Global, versions: &[Version]) -> Result<Ranges<Version>, RangeError>
    ensures { GivesAny result (listed_minors versions.now) }
{
    if versions.is_empty() {
        return Ok(Ranges::empty(alloc));
    }
    if versions.len() == 1 {
        return in_minor(alloc, versions[0].release());
    }
    let (front, back) = versions.split_at(versions.len() / 2);
    let front = minors_range(alloc, front)?;
    let back = minors_range(alloc, back)?;
    sets::either(alloc, &front, &back)
}

/// Returns whether each version has at most two numbers, zeros counted.
fn are_minors(versions: &[Version]) -> bool
    ensures { result ≡ list_all (λ version. is_minor version.release) versions.now }
{
    versions.iter().all(|version| version.release().len() < 3)
}
