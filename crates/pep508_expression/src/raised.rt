//! Comparisons of versions whose numbers can be raised.
//!
//! A number that cannot be raised is refused while the marker is read, so that making trees fails for lack
//! of memory alone. Most comparisons are decided by their numbers; a range is made only for `~=` and where
//! a number is the greatest of 64 bits.

ghost use Rattle.std.specs.Prelude.{◌≡◌, true, Bool, Option, IfOk};
ghost use Rattle.std.specs.Option.{is_some};
ghost use Rattle.std.specs.List.{list_all};
ghost use Rattle.pep440_range.specs.Ranges.{Gives, PointTest};
ghost use Rattle.pep508_marker.specs.declared.keys.MarkerValueVersion.{MarkerValueVersion};
ghost use Rattle.pep508_marker.specs.Expression.{expression_of};
ghost use Rattle.pep508_expression.specs.Expressions.{has_points, compared_points, listed_points};
ghost use Rattle.pep508_expression.specs.Raising.{is_small, has_small};

use crate::version_trees::{compared_range, listed_by};
use pep440_operator::Operator;
use pep440_range::RangeError;
use pep440_specifier::VersionSpecifier;
use pep440_version::Version;
use pep508_marker::{MarkerExpression, MarkerValueVersion};
use std::alloc::{AllocError, Global};
use version_ranges::Ranges;

/// Returns whether each number is less than the greatest of 64 bits.
fn are_small(numbers: &[u64]) -> bool
    ensures { result ≡ list_all is_small numbers.now }
{
    numbers.iter().all(|number| *number < u64::MAX)
}

/// Returns whether the operator and the numbers alone show that no number is past the end; false for `~=`,
/// which is not looked into.
fn is_plain(specifier: &VersionSpecifier) -> bool
    ensures { (key : MarkerValueVersion) → result ≡ true
        → is_some (compared_points key specifier.now) ≡ true }
{
    match specifier.operator() {
        Operator::TildeEqual => false,
        _ => are_small(specifier.version().release()),
    }
}

/// Returns whether the numbers of all versions are less than the greatest of 64 bits.
fn all_small(versions: &[Version]) -> bool
    ensures { result ≡ list_all has_small versions.now }
{
    versions.iter().all(|version| are_small(version.release()))
}

/// Returns whether there is such a set: false for `NumberAtEnd`.
fn is_made(set: Result<Ranges<Version>, RangeError>) -> Result<bool, AllocError>
    ensures { (points : Option PointTest) → Gives set points
        → IfOk result (λ answer. answer ≡ is_some points) }
{
    match set {
        Ok(_) => Ok(true),
        Err(RangeError::NumberAtEnd) => Ok(false),
        Err(RangeError::Memory) => Err(AllocError),
    }
}

/// Returns whether a specifier's numbers can be raised.
fn compared_raises(
    alloc: Global,
    key: MarkerValueVersion,
    specifier: &VersionSpecifier,
) -> Result<bool, AllocError>
    ensures { IfOk result (λ answer. answer ≡ is_some (compared_points key specifier.now)) }
{
    if is_plain(specifier) {
        return Ok(true);
    }
    is_made(compared_range(alloc, key, specifier))
}

/// Returns whether the numbers of listed versions can be raised.
fn listed_raises(
    alloc: Global,
    key: MarkerValueVersion,
    versions: &[Version],
    negated: bool,
) -> Result<bool, AllocError>
    ensures { IfOk result (λ answer. answer ≡ is_some (listed_points key negated versions.now)) }
{
    if all_small(versions) {
        return Ok(true);
    }
    is_made(listed_by(alloc, key, versions, negated))
}

/// Returns whether each number of a comparison that has to be raised can be, as it is less than the
/// greatest of 64 bits. Looks at the numbers; only where one is the greatest, or for `~=`, the range is
/// made, and takes memory.
///
/// # Errors
///
/// `AllocError` when memory runs out.
#[tactic(auto, unfolding(crate::specs::Expressions::has_points))]
pub fn has_points(alloc: Global, expression: &MarkerExpression) -> Result<bool, AllocError>
    ensures { IfOk result (λ answer. answer ≡ has_points (expression_of expression.now)) }
{
    match expression {
        MarkerExpression::Version { key, specifier } => compared_raises(alloc, *key, specifier),
        MarkerExpression::VersionIn {
            key,
            versions,
            negated,
        } => listed_raises(alloc, *key, versions, *negated),
        MarkerExpression::String { .. } | MarkerExpression::Extra { .. } => Ok(true),
    }
}
