//! Lists of the specifiers of intervals.
//!
//! The intervals are meant to follow one another, but nothing requires it: the result is stated for any
//! intervals, so no caller has to prove their order. The law that the list holds just these intervals
//! speaks of ordered ones.

ghost use Rattle.std.specs.Prelude.{◌≡◌, ◌∷◌, ◌++◌, length, map, option_to_list, IfOk, IsOk, OnOk};
ghost use Rattle.version_ranges.specs.Bounds.{last_upper, lent_bounds};
ghost use Rattle.pep440_specifier.specs.Bounds.{lent_bound, IsReleaseBound};
ghost use Rattle.pep440_specifier_list.specs.Lists.{IsInOrder};
ghost use Rattle.pep440_specifier_list.specs.ListBounds.{AreReleaseIntervals, gap_specifier, gap_specifiers};
ghost use Rattle.pep440_specifier_list.specs.ListBounds.{list_specifiers};

use crate::VersionSpecifiers;
use pep440_specifier::{VersionSpecifier, is_next_minor};
use pep440_version::Version;
use std::alloc::{AllocError, Global};
use std::ops::Bound;

impl VersionSpecifiers {
    /// Returns the list of specifiers for intervals, whose versions have epoch 0 and a release alone; the
    /// empty list for no intervals.
    ///
    /// Each interval has to end before the next begins: only the first may lack a lower bound, only the
    /// last an upper one, and an upper bound is not above the next lower one. A gap of one version becomes
    /// `!=`, one from `a.b` to below `a.(b+1)` becomes `!=a.b.*`, and any other gap is left out, so that
    /// the list accepts its versions too.
    ///
    /// Linear in the intervals, but for sorting the members. Takes memory for the list and copies of
    /// versions, and none where there are no intervals.
    ///
    /// # Errors
    ///
    /// `AllocError` when memory runs out.
    pub fn from_release_only_bounds(
        alloc: Global,
        bounds: &[(Bound<&Version>, Bound<&Version>)],
    ) -> Result<VersionSpecifiers, AllocError>
        requires { AreReleaseIntervals (map lent_bounds bounds.now) }
        ensures list { IfOk result (λ list. IsInOrder (list_specifiers (map lent_bounds bounds.now)) list) }
        ensures empty { length bounds.now ≡ 0 → IsOk result }
    {
        let Some((first, later)) = bounds.split_first() else {
            return Ok(VersionSpecifiers::empty(alloc));
        };
        VersionSpecifiers::from_specifiers(alloc, list_specifiers(alloc, first.0, first.1, later)?)
    }
}

/// Returns the specifiers of the interval between two bounds and of those after it.
fn list_specifiers<'a>(
    alloc: Global,
    lower: Bound<&'a Version>,
    upper: Bound<&'a Version>,
    later: &'a [(Bound<&'a Version>, Bound<&'a Version>)],
) -> Result<Vec<VersionSpecifier>, AllocError>
    requires lower { IsReleaseBound (lent_bound lower) }
    requires upper { IsReleaseBound (lent_bound upper) }
    requires later { AreReleaseIntervals (map lent_bounds later.now) }
    ensures { IfOk result (λ found. found.items
        ≡ list_specifiers ((lent_bound lower.entry, lent_bound upper.entry) ∷ map lent_bounds later.now)) }
{
    let mut found = gap_specifiers(alloc, upper, later)?;
    let last = last_upper(upper, later);
    let mut outer = VersionSpecifier::from_release_only_bounds(alloc, (lower, last))?;
    found.append(&mut outer)?;
    Ok(found)
}

/// Returns the specifiers of the gaps after an upper bound.
fn gap_specifiers<'a>(
    alloc: Global,
    first: Bound<&'a Version>,
    later: &'a [(Bound<&'a Version>, Bound<&'a Version>)],
) -> Result<Vec<VersionSpecifier>, AllocError>
    requires first { IsReleaseBound (lent_bound first) }
    requires later { AreReleaseIntervals (map lent_bounds later.now) }
    ensures { IfOk result (λ found.
        found.items ≡ gap_specifiers (lent_bound first.entry) (map lent_bounds later.now)) }
{
    let mut found = Vec::new(alloc);
    let mut upper = first;
    for next in later {
        push_gap(alloc, &mut found, upper, next.0)?;
        upper = next.1;
    }
    Ok(found)
}

fn push_gap(
    alloc: Global,
    found: &mut Vec<VersionSpecifier>,
    upper: Bound<&Version>,
    lower: Bound<&Version>,
) -> Result<(), AllocError>
    requires upper { IsReleaseBound (lent_bound upper) }
    requires lower { IsReleaseBound (lent_bound lower) }
    ensures { OnOk result (found.new.items
        ≡ found.old.items
        ++ option_to_list (gap_specifier (lent_bound upper.entry) (lent_bound lower.entry))) }
{
    if let Some(gap) = gap_specifier(alloc, upper, lower)? {
        found.push(gap)?;
    }
    Ok(())
}

/// Returns the upper bound of the last interval, or the given one where there are no more intervals.
fn last_upper<'a>(
    upper: Bound<&'a Version>,
    later: &'a [(Bound<&'a Version>, Bound<&'a Version>)],
) -> Bound<&'a Version>
    requires upper { IsReleaseBound (lent_bound upper) }
    requires later { AreReleaseIntervals (map lent_bounds later.now) }
    ensures last { lent_bound result ≡ last_upper (lent_bound upper.entry) (map lent_bounds later.now) }
    ensures release { IsReleaseBound (lent_bound result) }
{
    match later.split_last() {
        None => upper,
        Some((last, _)) => last.1,
    }
}

/// Returns the specifier of the gap between an upper bound and the next lower one, where there is one.
#[tactic(auto, using(crate::proofs::ListBounds::release_is_star))]
fn gap_specifier(
    alloc: Global,
    upper: Bound<&Version>,
    lower: Bound<&Version>,
) -> Result<Option<VersionSpecifier>, AllocError>
    requires upper { IsReleaseBound (lent_bound upper) }
    requires lower { IsReleaseBound (lent_bound lower) }
    ensures { IfOk result (λ found.
        found ≡ gap_specifier (lent_bound upper.entry) (lent_bound lower.entry)) }
{
    match (upper, lower) {
        (Bound::Excluded(upper), Bound::Excluded(lower)) => {
            if upper != lower {
                return Ok(None);
            }
            Ok(Some(VersionSpecifier::not_equals_version(upper.try_clone(alloc)?)))
        }
        (Bound::Excluded(upper), Bound::Included(lower)) => {
            if !is_next_minor(upper, lower) {
                return Ok(None);
            }
            Ok(Some(VersionSpecifier::not_equals_star_version(upper.try_clone(alloc)?)))
        }
        _ => Ok(None),
    }
}
