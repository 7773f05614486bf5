//! The comparisons that express a key's values.
//!
//! A star stands for release versions alone: what lies from `3.8` to below `3.9` is written as a star where
//! the bounds equal these releases, of epoch 0 and without suffix or local part. A lower bound `3.8a1`
//! begins no star, and `3` counts as `3.0`.

ghost use Rattle.std.specs.Prelude.{◌≡◌, [], ◌∷◌, cond, IfOk, option_map};
ghost use Rattle.std.specs.Ordering.{eq_by_cmp};
ghost use Rattle.pep440_text.specs.Record.{release_record, without_local};
ghost use Rattle.pep508_marker.specs.Expression.{expression_of, String, Extra};
ghost use Rattle.pep508_marker.specs.Values.{extra_of};
ghost use Rattle.pep508_marker.specs.declared.operators.ExtraOperator.TheVariants as extras;
ghost use Rattle.pep508_marker_text_laws.specs.Terms.{key_of_variable, version_saying, text_saying};
ghost use Rattle.pep508_marker_text_laws.specs.Terms.{minor_between};
ghost use Rattle.pep508_marker_text_laws.specs.Terms.{is_minor_of};
ghost use Rattle.pep508_marker_text_laws.specs.Terms.{set_term, unset_term, two_numbers};
ghost use Rattle.pep508_marker_display.specs.Said.{said, star_said, text_operator};

use pep440_specifier::{VersionSpecifier, is_next_minor};
use pep440_version::Version;
use pep508_diagram::{Flag, MarkerText, VersionVariable};
use pep508_marker::{
    ExtraOperator, MarkerExpression, MarkerOperator, MarkerValueExtra, MarkerValueString,
    MarkerValueVersion,
};
use std::alloc::{AllocError, Global};

/// How a key's value compares with another one.
#[derive(Clone, Copy)]
pub(crate) enum Relation {
    Equal,
    NotEqual,
    AtLeast,
    Above,
    AtMost,
    Below,
}

/// A maker of the comparisons that express where a key's value lies.
pub(crate) trait Says<T> {
    ghost use Rattle.pep508_marker_text_laws.specs.Saying.{Saying};

    ghost saying: { Self → Saying T };

    /// Returns whether two values are equal.
    fn are_equal(&self, value: &T, other: &T) -> bool
        ensures { result ≡ eq_by_cmp (saying self.now).cmp value.now other.now };

    /// Returns the comparison with a value.
    fn term(
        &self,
        alloc: Global,
        relation: Relation,
        value: &T,
    ) -> Result<MarkerExpression, AllocError>
        ensures { IfOk result (λ term.
            expression_of term ≡ said (saying self.now) relation value.now) };

    /// Returns the comparison with a star for the values from `lower` on up to below `upper`, by `!=` where
    /// `negated`; `None` where no star expresses these.
    fn star(
        &self,
        alloc: Global,
        negated: bool,
        lower: &T,
        upper: &T,
    ) -> Result<Option<MarkerExpression>, AllocError>
        ensures { IfOk result (λ found.
            option_map expression_of found ≡ star_said (saying self.now) negated lower.now upper.now) };
}

/// The maker of comparisons of a variable's versions.
#[derive(Clone, Copy)]
pub(crate) struct SaysVersions {
    pub variable: VersionVariable,
}

/// The maker of comparisons of a key's texts.
#[derive(Clone, Copy)]
pub(crate) struct SaysTexts {
    pub key: MarkerValueString,
}

/// Returns the key that is written for a variable.
fn key_of_variable(variable: VersionVariable) -> MarkerValueVersion
    ensures { result ≡ key_of_variable variable }
{
    match variable {
        VersionVariable::ImplementationVersion => MarkerValueVersion::ImplementationVersion,
        VersionVariable::PythonFullVersion => MarkerValueVersion::PythonFullVersion,
    }
}

/// Returns the release `a.b`, where the lower version equals it and the upper one equals `a.(b+1)`.
fn minor_between(
    alloc: Global,
    lower: &Version,
    upper: &Version,
) -> Result<Option<Version>, AllocError>
    ensures { IfOk result (λ found.
        found ≡ option_map release_record (minor_between lower.now upper.now)) }
{
    let Some((major, minor)) = two_numbers(lower.release()) else {
        return Ok(None);
    };
    let release = Version::new(alloc, &[major, minor])?;
    if is_minor_of(&release, lower, upper) {
        Ok(Some(release))
    } else {
        Ok(None)
    }
}

/// Returns whether a version equals the release `a.b`, and another one `a.(b+1)`.
fn is_minor_of(release: &Version, lower: &Version, upper: &Version) -> bool
    requires { release.now ≡ release_record release.now.release }
    ensures { result ≡ is_minor_of lower.now upper.now release.now.release }
{
    if release != lower {
        return false;
    }
    if !upper.is_only_release() {
        return false;
    }
    is_next_minor(release, upper)
}

/// Returns the two numbers of a release; the second is 0 where there is only one.
fn two_numbers(release: &[u64]) -> Option<(u64, u64)>
    ensures { option_map (λ numbers. numbers.0 ∷ numbers.1 ∷ []) result ≡ two_numbers release.now }
{
    match release {
        [major] => Some((*major, 0)),
        [major, minor] => Some((*major, *minor)),
        _ => None,
    }
}

impl Says<Version> for SaysVersions {
    ghost saying = { λ says. version_saying says.variable };

    fn are_equal(&self, value: &Version, other: &Version) -> bool {
        value == other
    }

    fn term(
        &self,
        alloc: Global,
        relation: Relation,
        value: &Version,
    ) -> Result<MarkerExpression, AllocError> {
        let version = value.try_clone(alloc)?.without_local();
        let specifier = match relation {
            Relation::Equal => VersionSpecifier::equals_version(version),
            Relation::NotEqual => VersionSpecifier::not_equals_version(version),
            Relation::AtLeast => VersionSpecifier::greater_than_equal_version(version),
            Relation::Above => VersionSpecifier::greater_than_version(version),
            Relation::AtMost => VersionSpecifier::less_than_equal_version(version),
            Relation::Below => VersionSpecifier::less_than_version(version),
        };
        let key = key_of_variable(self.variable);
        Ok(MarkerExpression::Version { key, specifier })
    }

    fn star(
        &self,
        alloc: Global,
        negated: bool,
        lower: &Version,
        upper: &Version,
    ) -> Result<Option<MarkerExpression>, AllocError> {
        let Some(release) = minor_between(alloc, lower, upper)? else {
            return Ok(None);
        };
        let specifier = if negated {
            VersionSpecifier::not_equals_star_version(release)
        } else {
            VersionSpecifier::equals_star_version(release)
        };
        let key = key_of_variable(self.variable);
        Ok(Some(MarkerExpression::Version { key, specifier }))
    }
}

fn text_operator(relation: Relation) -> MarkerOperator
    ensures { result ≡ text_operator relation }
{
    match relation {
        Relation::Equal => MarkerOperator::Equal,
        Relation::NotEqual => MarkerOperator::NotEqual,
        Relation::AtLeast => MarkerOperator::GreaterEqual,
        Relation::Above => MarkerOperator::GreaterThan,
        Relation::AtMost => MarkerOperator::LessEqual,
        Relation::Below => MarkerOperator::LessThan,
    }
}

/// Returns the comparison with a text.
fn text_term(
    alloc: Global,
    key: MarkerValueString,
    operator: MarkerOperator,
    text: &str,
) -> Result<MarkerExpression, AllocError>
    ensures { IfOk result (λ term. expression_of term ≡ String key operator text.now) }
{
    let value = String::from_str(alloc, text)?;
    Ok(MarkerExpression::String {
        key,
        operator,
        value,
    })
}

impl Says<MarkerText> for SaysTexts {
    ghost saying = { λ says. text_saying says.key };

    fn are_equal(&self, value: &MarkerText, other: &MarkerText) -> bool {
        value.cmp(other).is_eq()
    }

    fn term(
        &self,
        alloc: Global,
        relation: Relation,
        value: &MarkerText,
    ) -> Result<MarkerExpression, AllocError> {
        let operator = text_operator(relation);
        text_term(alloc, self.key, operator, value.as_str())
    }

    fn star(
        &self,
        _alloc: Global,
        _negated: bool,
        _lower: &MarkerText,
        _upper: &MarkerText,
    ) -> Result<Option<MarkerExpression>, AllocError> {
        Ok(None)
    }
}

/// Returns the comparison with an extra.
fn extra_term(name: MarkerValueExtra, set: bool) -> MarkerExpression
    ensures { expression_of result ≡ Extra (cond set extras.Equal extras.NotEqual) (extra_of name) }
{
    let operator = if set {
        ExtraOperator::Equal
    } else {
        ExtraOperator::NotEqual
    };
    MarkerExpression::Extra { operator, name }
}

/// Returns the comparison that expresses whether a flag is set.
pub(crate) fn flag_term(
    alloc: Global,
    flag: &Flag,
    set: bool,
) -> Result<MarkerExpression, AllocError>
    ensures { IfOk result (λ term.
        expression_of term ≡ cond set (set_term flag.now) (unset_term flag.now)) }
{
    match flag {
        Flag::In(key, text) => {
            let operator = if set {
                MarkerOperator::In
            } else {
                MarkerOperator::NotIn
            };
            text_term(alloc, *key, operator, text.as_str())
        }
        Flag::Contains(key, text) => {
            let operator = if set {
                MarkerOperator::Contains
            } else {
                MarkerOperator::NotContains
            };
            text_term(alloc, *key, operator, text.as_str())
        }
        Flag::Extra(name) => {
            let name = MarkerValueExtra::Extra(name.try_clone(alloc)?);
            Ok(extra_term(name, set))
        }
        Flag::Arbitrary(text) => {
            let text = String::from_str(alloc, text.as_str())?;
            Ok(extra_term(MarkerValueExtra::Arbitrary(text), set))
        }
    }
}
