//! Which versions a range decides, and the indices of those that it doesn't.
//!
//! The places of candidates of which a range does not tell are stored next to the run, found in one pass:
//! those with a local part, and for cases with `<` or `>` post-releases too. A gap is left at the next such
//! place, as the specifiers may accept what the range does not hold. Mostly there are none, so no candidate
//! has a mark for it.

ghost use Rattle.std.specs.Prelude.{◌≡◌, ◌⊎◌, ◌≤◌, ◌<◌, length, IfOk};
ghost use Rattle.std.specs.List.{list_any, AllByRecursion};
ghost use Rattle.std.specs.List.Sorted.{IsNonDecreasing, IsPartitionPoint};
ghost use Rattle.reqtable_search.specs.Told.{is_told, is_bound};
ghost use Rattle.reqtable_search.specs.InRun.{untold_from, IsOneOf};

use pep440_specifier::{Operator, VersionSpecifier};
use pep440_version::Version;
use reqtable_candidates::Placed;
use std::alloc::{AllocError, Global};

/// Whether the range of some specifiers decides if they accept the version. `bounded` is whether one of them
/// has `<` or `>`.
pub fn is_told(bounded: bool, version: &Version) -> bool
    ensures { result ≡ is_told bounded version.now }
{
    version.local().is_empty() && (version.post().is_none() || !bounded)
}

/// Whether some specifier has `<` or `>`.
pub fn has_bound(specifiers: &[VersionSpecifier]) -> bool
    ensures { result ≡ list_any (λ s. is_bound s.operator) specifiers.now }
{
    specifiers
        .iter()
        .any(|specifier| is_bound(specifier.operator()))
}

/// Whether an operator is `<` or `>`.
pub fn is_bound(operator: Operator) -> bool
    ensures { result ≡ is_bound operator }
{
    match operator {
        Operator::LessThan | Operator::GreaterThan => true,
        Operator::Equal
        | Operator::EqualStar
        | Operator::ExactEqual
        | Operator::NotEqual
        | Operator::NotEqualStar
        | Operator::TildeEqual
        | Operator::LessThanEqual
        | Operator::GreaterThanEqual => false,
    }
}

/// The indices of the candidates that a range doesn't decide.
pub(crate) fn untold_places(
    alloc: Global,
    bounded: bool,
    placed: &[Placed<'_>],
) -> Result<Vec<usize>, AllocError>
    ensures { IfOk result (λ places. places.items ≡ untold_from bounded 0 placed.now) }
{
    let mut places = Vec::new(alloc);
    for (index, item) in placed.iter().enumerate() {
        if !is_told(bounded, &item.candidate.version) {
            places.push(index)?;
        }
    }
    Ok(places)
}

/// The first of some rising indices after `at`, or `end` if that comes first.
pub(crate) fn next_place(places: &[usize], at: usize, end: usize) -> usize
    requires rising { IsNonDecreasing places.now }
    requires within { at < end }
    ensures behind { at < result }
    ensures within { result ≤ end }
    ensures next { AllByRecursion (λ place. at < place → result ≤ place) places.now }
    ensures one { (result ≡ end) ⊎ IsOneOf places.now result }
{
    let past = places_upto(places, at);
    if past == places.len() {
        return end;
    }
    let place = places[past];
    if place < end { place } else { end }
}

/// The number of rising indices that are at most `at`.
fn places_upto(places: &[usize], at: usize) -> usize
    requires { IsNonDecreasing places.now }
    ensures within { result ≤ length places.now }
    ensures point { IsPartitionPoint (λ place. place ≤ at) (λ place. at < place) places.now result }
{
    places.partition_point(|place| *place <= at)
}
