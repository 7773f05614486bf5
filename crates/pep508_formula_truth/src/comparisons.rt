//! Whether comparisons hold.

ghost use Rattle.std.specs.Prelude.{◌≡◌, IfOk, ℕ, List, Option};
ghost use Rattle.version_ranges.specs.Point.{At};
ghost use Rattle.pep440_range.specs.Ranges.{Gives, PointTest};
ghost use Rattle.pep508_expression.specs.Expressions.{compared_points, listed_points, or_nowhere};
ghost use Rattle.pep508_expression.specs.Expressions.{text_holds, extra_holds};
ghost use Rattle.pep508_marker.specs.Values.{extra_of};
ghost use Rattle.pep508_environment.specs.Environment.{EnvironmentRecord};
ghost use Rattle.pep508_evaluation.specs.Valuations.{valuation_of};

use pep440_range::RangeError;
use pep440_specifier::VersionSpecifier;
use pep440_version::Version;
use pep508_environment::MarkerEnvironment;
use pep508_evaluation::stands_in;
use pep508_expression::{compared_range, listed_by};
use pep508_marker::{
    ExtraOperator, MarkerOperator, MarkerValueExtra, MarkerValueString, MarkerValueVersion,
};
use pep508_name::ExtraName;
use std::alloc::{AllocError, Global};
use version_ranges::Ranges;

/// Returns whether the set contains a version; false where a number couldn't be raised.
#[tactic(auto, using(crate::proofs::Points::held_there, crate::proofs::Points::nowhere_there))]
fn at_version(
    set: Result<Ranges<Version>, RangeError>,
    version: &Version,
) -> Result<bool, AllocError>
    ensures { (points : Option PointTest) → Gives set points →
        IfOk result (λ answer. answer ≡ or_nowhere points (At version.now)) }
{
    match set {
        Ok(set) => Ok(set.contains(version)),
        Err(RangeError::NumberAtEnd) => Ok(false),
        Err(RangeError::Memory) => Err(AllocError),
    }
}

/// Returns whether a specifier's comparison holds at a version; false where a number can't be raised.
pub(crate) fn version_holds(
    alloc: Global,
    key: MarkerValueVersion,
    specifier: &VersionSpecifier,
    version: &Version,
) -> Result<bool, AllocError>
    ensures { IfOk result (λ answer. answer
        ≡ or_nowhere (compared_points key specifier.now) (At version.now)) }
{
    at_version(compared_range(alloc, key, specifier), version)
}

/// Returns whether a key is listed at a version, or is not where `negated`; false for both where a number
/// can't be raised.
pub(crate) fn listed_holds(
    alloc: Global,
    key: MarkerValueVersion,
    versions: &[Version],
    negated: bool,
    version: &Version,
) -> Result<bool, AllocError>
    ensures { IfOk result (λ answer. answer
        ≡ or_nowhere (listed_points key negated versions.now) (At version.now)) }
{
    at_version(listed_by(alloc, key, versions, negated), version)
}

/// Returns whether a comparison of a key's text holds.
pub(crate) fn text_holds(
    environment: &MarkerEnvironment,
    key: MarkerValueString,
    operator: MarkerOperator,
    text: &str,
) -> bool
    ensures { (extras : List (List ℕ)) →
        result ≡ text_holds key operator text.now (valuation_of environment.now extras) }
{
    let at = environment.get_string(key);
    match operator {
        MarkerOperator::Equal => at.cmp(text).is_eq(),
        MarkerOperator::NotEqual => !at.cmp(text).is_eq(),
        MarkerOperator::GreaterThan => text.cmp(at).is_lt(),
        MarkerOperator::GreaterEqual => text.cmp(at).is_le(),
        MarkerOperator::LessThan => at.cmp(text).is_lt(),
        MarkerOperator::LessEqual => at.cmp(text).is_le(),
        MarkerOperator::TildeEqual => false,
        MarkerOperator::In => stands_in(at, text),
        MarkerOperator::NotIn => !stands_in(at, text),
        MarkerOperator::Contains => stands_in(text, at),
        MarkerOperator::NotContains => !stands_in(text, at),
    }
}

/// Returns whether an extra is listed.
fn is_listed(extras: &[ExtraName], name: &MarkerValueExtra) -> bool
    ensures { (environment : EnvironmentRecord) → result
        ≡ extra_holds ExtraOperator.Equal (extra_of name.now) (valuation_of environment extras.now) }
{
    match name {
        MarkerValueExtra::Extra(name) => extras.contains(name),
        MarkerValueExtra::Arbitrary(_) => false,
    }
}

/// Returns whether an extra is listed, or for `!=` whether it isn't.
pub(crate) fn extra_holds(
    extras: &[ExtraName],
    operator: ExtraOperator,
    name: &MarkerValueExtra,
) -> bool
    ensures { (environment : EnvironmentRecord) →
        result ≡ extra_holds operator (extra_of name.now) (valuation_of environment extras.now) }
{
    let listed = is_listed(extras, name);
    match operator {
        ExtraOperator::Equal => listed,
        ExtraOperator::NotEqual => !listed,
    }
}
