//! Which versions a specifier accepts.
//!
//! The candidate's local part is dropped first where the specifier has none, so `>1.0a1` accepts `1.0+x`.
//! `===` compares prints and not the texts as written, so `===01.00`, which prints `===1.0`, accepts `1.0`.

ghost use Rattle.std.specs.Prelude.{◌≡◌, ◌≢◌, IfOk, IsOk};
ghost use Rattle.pep440_specifier.specs.Matching.{candidate_cmp, begins_padded, has_front, same_release};
ghost use Rattle.pep440_specifier.specs.Matching.{matches};

use crate::{Operator, VersionSpecifier};
use pep440_version::Version;
use std::alloc::{AllocError, Global};
use std::cmp::Ordering;

impl VersionSpecifier {
    /// Returns whether the specifier accepts a version (PEP 440, "Version specifiers").
    ///
    /// Goes a fixed number of times through both versions. Takes memory for `===` alone, which compares
    /// prints, and fails only where memory for these ran out.
    ///
    /// # Errors
    ///
    /// `AllocError` when memory runs out.
    pub fn contains(&self, alloc: Global, version: &Version) -> Result<bool, AllocError>
        ensures matching { IfOk result (λ taken.
            taken ≡ matches self.now.operator self.now.version version.now) }
        ensures memory { self.now.operator ≢ Operator.ExactEqual → IsOk result }
    {
        let own = self.version();
        Ok(match self.operator() {
            Operator::Equal => compare(own, version).is_eq(),
            Operator::EqualStar => has_front(own.epoch(), own.release(), version),
            Operator::ExactEqual => prints_alike(alloc, own, version)?,
            Operator::NotEqual => !compare(own, version).is_eq(),
            Operator::NotEqualStar => !has_front(own.epoch(), own.release(), version),
            Operator::TildeEqual => is_compatible(own, version),
            Operator::LessThan => is_less(own, version),
            Operator::LessThanEqual => compare(own, version).is_le(),
            Operator::GreaterThan => is_greater(own, version),
            Operator::GreaterThanEqual => compare(own, version).is_ge(),
        })
    }
}

/// Compares a candidate with a specifier's version; the candidate's local part is ignored where the version
/// has none.
fn compare(version: &Version, candidate: &Version) -> Ordering
    ensures { result ≡ candidate_cmp version.now candidate.now }
{
    if version.local().is_empty() {
        candidate.cmp_public(version)
    } else {
        candidate.cmp(version)
    }
}

/// Returns whether the prints are equal, byte by byte (PEP 440, "Arbitrary equality").
fn prints_alike(alloc: Global, version: &Version, candidate: &Version) -> Result<bool, AllocError>
    ensures { IfOk result (λ alike. alike ≡ matches Operator.ExactEqual version.now candidate.now) }
{
    let candidate = candidate.to_string(alloc)?;
    let version = version.to_string(alloc)?;
    Ok(candidate.as_str() == version.as_str())
}

/// Returns whether the numbers, padded with zeros, begin with the wanted ones.
fn begins_padded(wanted: &[u64], numbers: &[u64]) -> bool
    ensures { result ≡ begins_padded wanted.now numbers.now }
{
    let mut left = numbers;
    for number in wanted {
        match left.split_first() {
            None => {
                if *number != 0 {
                    return false;
                }
            }
            Some((first, rest)) => {
                if *number != *first {
                    return false;
                }
                left = rest;
            }
        }
    }
    true
}

/// Returns whether a candidate has the epoch and its release begins with these numbers.
fn has_front(epoch: u64, release: &[u64], candidate: &Version) -> bool
    ensures { result ≡ has_front epoch release.now candidate.now }
{
    candidate.epoch() == epoch && begins_padded(release, candidate.release())
}

/// Returns whether a candidate is not below the version and shares all its release numbers but the last.
fn is_compatible(version: &Version, candidate: &Version) -> bool
    ensures { result ≡ matches Operator.TildeEqual version.now candidate.now }
{
    let release = version.release();
    let front = &release[..release.len().saturating_sub(1)];
    has_front(version.epoch(), front, candidate) && compare(version, candidate).is_ge()
}

/// Returns whether epoch and release are equal, up to zeros at the end.
fn same_release(version: &Version, candidate: &Version) -> bool
    ensures { result ≡ same_release version.now candidate.now }
{
    version.epoch() == candidate.epoch() && version.cmp_release(candidate).is_eq()
}

/// Returns whether a candidate is below the version, and not a pre-release of it unless the version is one.
fn is_less(version: &Version, candidate: &Version) -> bool
    ensures { result ≡ matches Operator.LessThan version.now candidate.now }
{
    let hidden = same_release(version, candidate)
        && candidate.any_prerelease()
        && !version.any_prerelease();
    compare(version, candidate).is_lt() && !hidden
}

/// Returns whether a candidate is above the version, and not a post-release of it unless the version is
/// one.
fn is_greater(version: &Version, candidate: &Version) -> bool
    ensures { result ≡ matches Operator.GreaterThan version.now candidate.now }
{
    let hidden = same_release(version, candidate) && candidate.is_post() && !version.is_post();
    compare(version, candidate).is_gt() && !hidden
}
