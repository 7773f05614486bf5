//! Specifiers of bounds, and of the intervals between two bounds.
//!
//! Bounds are compared in the order of versions where one specifier stands for two of them: `3.8.0` ends
//! the interval of `3.7.*` as `3.8` does. The lower bound's spelling is kept. `is_next_minor` is public for
//! the crate of lists.

ghost use Rattle.std.specs.Prelude.{◌≡◌, ◌+◌, ◌++◌, ◌↔◌, [], ◌∷◌, false, IsTrue, IfOk, IfErr, OnOk, Some};
ghost use Rattle.std.specs.Prelude.{Err, is_some, option_to_list};
ghost use Rattle.std.specs.Ordering.{is_eq};
ghost use Rattle.pep440_version.specs.Order.{padded_cmp};
ghost use Rattle.pep440_specifier.specs.Matching.{begins_padded};
ghost use Rattle.pep440_specifier.specs.Bounds.{bound_error_text, lent_bound, is_local_bound};
ghost use Rattle.pep440_specifier.specs.Bounds.{IsReleaseVersion, IsReleaseBound, lower_specifier};
ghost use Rattle.pep440_specifier.specs.Bounds.{upper_specifier, is_next_minor, single_specifier};
ghost use Rattle.pep440_specifier.specs.Bounds.{interval_specifiers};

use crate::VersionSpecifier;
use pep440_version::Version;
use pep440_version::laws::releases_compare_padded;
use std::alloc::{AllocError, Global};
use std::error::Error;
use std::fmt;
use std::ops::Bound;

/// Why a bound has no specifier.
#[derive(Clone, Copy, Debug, PartialEq, Eq)]
pub enum BoundError {
    /// The bound's version has a local part, which PEP 440 does not allow with `<`, `<=`, `>` and `>=`.
    LocalInBound,
    /// Memory ran out.
    Memory,
}

impl From<AllocError> for BoundError {
    ghost use Rattle.std.specs.Prelude.{◌≡◌};
    ghost use Rattle.pep440_specifier.specs.declared.bounds.BoundError.TheVariants.{Memory};

    ghost from_gives = { λ _ error. error ≡ Memory };

    fn from(_: AllocError) -> BoundError {
        BoundError::Memory
    }
}

impl fmt::Display for BoundError {
    ghost output = { λ error. Some (bound_error_text error) };

    fn fmt<W: fmt::Write>(&self, f: &mut fmt::Formatter<W>) -> fmt::Result {
        match self {
            BoundError::LocalInBound => write!(f, "a bound has a local part"),
            BoundError::Memory => write!(f, "out of memory"),
        }
    }
}

impl Error for BoundError {}

impl VersionSpecifier {
    /// Returns the specifier of a lower bound: `>=` for an included one, `>` for an excluded one, and none
    /// where there is no bound.
    ///
    /// Takes memory for a copy of the version; a bound with a local part is refused first.
    ///
    /// # Errors
    /// `LocalInBound` where the bound's version has a local part; `Memory` where memory ran out.
    pub fn from_lower_bound(
        alloc: Global,
        bound: Bound<&Version>,
    ) -> Result<Option<VersionSpecifier>, BoundError>
        ensures specifier { IfOk result (λ found. found ≡ lower_specifier (lent_bound bound.entry)) }
        ensures local { (result ≡ Err BoundError.LocalInBound)
            ↔ IsTrue (is_local_bound (lent_bound bound.entry)) }
        ensures memory { result ≡ Err BoundError.Memory
            → IsTrue (is_some (lower_specifier (lent_bound bound.entry))) }
    {
        if is_local_bound(bound) {
            return Err(BoundError::LocalInBound);
        }
        Ok(lower_specifier(alloc, bound)?)
    }

    /// Returns the specifier of an upper bound: `<=` for an included one, `<` for an excluded one, and none
    /// where there is no bound.
    ///
    /// Takes memory for a copy of the version; a bound with a local part is refused first.
    ///
    /// # Errors
    /// `LocalInBound` where the bound's version has a local part; `Memory` where memory ran out.
    pub fn from_upper_bound(
        alloc: Global,
        bound: Bound<&Version>,
    ) -> Result<Option<VersionSpecifier>, BoundError>
        ensures specifier { IfOk result (λ found. found ≡ upper_specifier (lent_bound bound.entry)) }
        ensures local { (result ≡ Err BoundError.LocalInBound)
            ↔ IsTrue (is_local_bound (lent_bound bound.entry)) }
        ensures memory { result ≡ Err BoundError.Memory
            → IsTrue (is_some (upper_specifier (lent_bound bound.entry))) }
    {
        if is_local_bound(bound) {
            return Err(BoundError::LocalInBound);
        }
        Ok(upper_specifier(alloc, bound)?)
    }

    /// Returns the specifiers of the interval between two bounds, whose versions have epoch 0 and a release
    /// alone: `==` for a single version, `==a.b.*` from `a.b` to below `a.(b+1)`, and else one for each
    /// bound that there is.
    ///
    /// Takes memory for copies of the versions and for the list.
    ///
    /// # Errors
    ///
    /// `AllocError` when memory runs out.
    pub fn from_release_only_bounds(
        alloc: Global,
        bounds: (Bound<&Version>, Bound<&Version>),
    ) -> Result<Vec<VersionSpecifier>, AllocError>
        requires lower { IsReleaseBound (lent_bound bounds.0) }
        requires upper { IsReleaseBound (lent_bound bounds.1) }
        ensures { IfOk result (λ found.
            found.items ≡ interval_specifiers (lent_bound bounds.entry.0) (lent_bound bounds.entry.1)) }
    {
        let (lower, upper) = bounds;
        let mut found = Vec::new(alloc);
        match single_specifier(alloc, lower, upper)? {
            Some(single) => found.push(single)?,
            None => {
                push_present(&mut found, lower_specifier(alloc, lower)?)?;
                push_present(&mut found, upper_specifier(alloc, upper)?)?;
            }
        }
        Ok(found)
    }
}

/// Returns whether the release has exactly two numbers, `a.b`, and the other version equals `a.(b+1)`.
///
/// The other version has epoch 0 and a release alone. Takes no memory; linear in the other release.
#[tactic(auto, using(crate::proofs::NextMinor::next_of_two))]
pub fn is_next_minor(version: &Version, next: &Version) -> bool
    requires { IsReleaseVersion next.now }
    ensures { result ≡ is_next_minor version.now next.now }
{
    releases_compare_padded();
    match version.release() {
        [major, minor] => is_step(*major, *minor, next.release()),
        _ => false,
    }
}

/// Returns whether a release is `a.(b+1)`, up to zeros at the end.
#[tactic(auto, using(crate::proofs::NextMinor::steps))]
fn is_step(major: u64, minor: u64, release: &[u64]) -> bool
    ensures { result ≡ is_eq (padded_cmp (major ∷ (minor + 1) ∷ []) release.now) }
{
    match release.split_first() {
        None => false,
        Some((first, behind)) => match behind.split_first() {
            None => false,
            Some((second, zeros)) => {
                if *first != major {
                    return false;
                }
                let second = *second;
                match minor.checked_add(1) {
                    None => false,
                    Some(next) => next == second && are_zeros(zeros),
                }
            }
        },
    }
}

fn are_zeros(numbers: &[u64]) -> bool
    ensures { result ≡ begins_padded numbers.now [] }
{
    for number in numbers {
        if *number != 0 {
            return false;
        }
    }
    true
}

fn is_local_bound(bound: Bound<&Version>) -> bool
    ensures { result ≡ is_local_bound (lent_bound bound.entry) }
{
    match bound {
        Bound::Included(version) | Bound::Excluded(version) => version.is_local(),
        Bound::Unbounded => false,
    }
}

/// Returns the specifier of a lower bound with no local part.
fn lower_specifier(
    alloc: Global,
    bound: Bound<&Version>,
) -> Result<Option<VersionSpecifier>, AllocError>
    requires { is_local_bound (lent_bound bound) ≡ false }
    ensures specifier { IfOk result (λ found. found ≡ lower_specifier (lent_bound bound.entry)) }
    ensures memory { IfErr result (λ error. IsTrue (is_some (lower_specifier (lent_bound bound.entry)))) }
{
    Ok(match bound {
        Bound::Included(version) => Some(VersionSpecifier::greater_than_equal_version(
            version.try_clone(alloc)?,
        )),
        Bound::Excluded(version) => Some(VersionSpecifier::greater_than_version(version.try_clone(
            alloc,
        )?)),
        Bound::Unbounded => None,
    })
}

/// Returns the specifier of an upper bound with no local part.
fn upper_specifier(
    alloc: Global,
    bound: Bound<&Version>,
) -> Result<Option<VersionSpecifier>, AllocError>
    requires { is_local_bound (lent_bound bound) ≡ false }
    ensures specifier { IfOk result (λ found. found ≡ upper_specifier (lent_bound bound.entry)) }
    ensures memory { IfErr result (λ error. IsTrue (is_some (upper_specifier (lent_bound bound.entry)))) }
{
    Ok(match bound {
        Bound::Included(version) => Some(VersionSpecifier::less_than_equal_version(
            version.try_clone(alloc)?,
        )),
        Bound::Excluded(version) => Some(VersionSpecifier::less_than_version(version.try_clone(
            alloc,
        )?)),
        Bound::Unbounded => None,
    })
}

/// Returns the one specifier that expresses both bounds, where there is one.
fn single_specifier(
    alloc: Global,
    lower: Bound<&Version>,
    upper: Bound<&Version>,
) -> Result<Option<VersionSpecifier>, AllocError>
    requires lower { IsReleaseBound (lent_bound lower) }
    requires upper { IsReleaseBound (lent_bound upper) }
    ensures { IfOk result (λ found.
        found ≡ single_specifier (lent_bound lower.entry) (lent_bound upper.entry)) }
{
    match (lower, upper) {
        (Bound::Included(lower), Bound::Included(upper)) => {
            if lower != upper {
                return Ok(None);
            }
            Ok(Some(VersionSpecifier::equals_version(lower.try_clone(alloc)?)))
        }
        (Bound::Included(lower), Bound::Excluded(upper)) => {
            if !is_next_minor(lower, upper) {
                return Ok(None);
            }
            Ok(Some(VersionSpecifier::equals_star_version(lower.try_clone(alloc)?)))
        }
        _ => Ok(None),
    }
}

fn push_present(
    found: &mut Vec<VersionSpecifier>,
    specifier: Option<VersionSpecifier>,
) -> Result<(), AllocError>
    ensures { OnOk result (found.new.items ≡ found.old.items ++ option_to_list specifier) }
{
    if let Some(specifier) = specifier {
        found.push(specifier)?;
    }
    Ok(())
}
