//! Version specifiers: an operator and a version.

ghost use Rattle.std.specs.Prelude.{◌≡◌, [], true, IfOk, IfErr, Some};
ghost use Rattle.pep440_version.specs.Changes.{is_prerelease};
ghost use Rattle.pep440_specifier.specs.Matching.{SpecifierRecord};
ghost use Rattle.pep440_operator.specs.Operators.{is_star, bounds_below, takes_local};
ghost use Rattle.pep440_specifier.specs.Building.{IsBuilt, IsStarVersion, built, built_of_pattern};
ghost use Rattle.pep440_specifier.specs.SpecifierPrint.{specifier_text};
ghost use Rattle.pep440_specifier.specs.declared.parse_error.VersionSpecifierParseError.TheVariants as errors;
ghost use Rattle.pep440_specifier.specs.SpecifierReading.{specifier_reading, told_specifier, IsPlain};
ghost use Rattle.pep440_specifier.specs.SpecifierReading.{HasGrown};
ghost use Rattle.read_outcome.specs.Outcome.{Answers};

use crate::reading::read_specifier;
use crate::{Operator, VersionSpecifierBuildError, VersionSpecifierParseError};
use pep440_version::{Version, VersionPattern};
use std::alloc::{AllocError, Global};
use std::fmt;
use std::marker::Model;

/// An operator and the version that it compares with, as `>=1.2` (PEP 440, "Version specifiers").
#[derive(Drop)]
pub struct VersionSpecifier {
    operator: Operator,
    version: Version,
}

impl Model for VersionSpecifier {
    ghost use Rattle.pep440_specifier.specs.Matching.{SpecifierRecord};
    ghost use Rattle.pep440_specifier.specs.Building.{IsBuilt};

    ghost Value = { SpecifierRecord };

    ghost view = { λ s. record { operator = s.operator; version = s.version } };

    ghost invariant = { λ s. IsBuilt (record { operator = s.operator; version = s.version }) };
}

impl VersionSpecifier {
    /// Returns the specifier of an operator and a pattern. A star is allowed with `==` and `!=` alone, a
    /// local part with `==`, `!=` and `===` alone, and `~=` needs two release numbers.
    ///
    /// # Errors
    /// `OperatorWithStar`, `OperatorLocalCombo` or `CompatibleRelease` where the operator does not allow
    /// the pattern.
    pub fn from_pattern(
        operator: Operator,
        pattern: VersionPattern,
    ) -> Result<VersionSpecifier, VersionSpecifierBuildError>
        requires { is_star operator ≡ true → IsStarVersion pattern.version }
        ensures { result ≡ built_of_pattern operator pattern }
    {
        let wildcard = pattern.is_wildcard();
        let version = pattern.into_version();
        if !wildcard {
            return VersionSpecifier::from_version(operator, version);
        }
        match operator {
            Operator::Equal => VersionSpecifier::from_version(Operator::EqualStar, version),
            Operator::NotEqual => VersionSpecifier::from_version(Operator::NotEqualStar, version),
            _ => Err(VersionSpecifierBuildError::OperatorWithStar { operator }),
        }
    }

    /// Returns the specifier of an operator and a version. A local part is allowed with `==`, `!=` and
    /// `===` alone, and `~=` needs two release numbers. An operator with a star needs a version of epoch
    /// and release alone.
    ///
    /// # Errors
    /// `OperatorLocalCombo` or `CompatibleRelease` where the operator does not allow the version.
    pub fn from_version(
        operator: Operator,
        version: Version,
    ) -> Result<VersionSpecifier, VersionSpecifierBuildError>
        requires { is_star operator ≡ true → IsStarVersion version }
        ensures { result ≡ built operator version }
    {
        if version.is_local() && !takes_local(operator) {
            return Err(VersionSpecifierBuildError::OperatorLocalCombo { operator, version });
        }
        if operator == Operator::TildeEqual && version.release().len() < 2 {
            return Err(VersionSpecifierBuildError::CompatibleRelease);
        }
        Ok(VersionSpecifier { operator, version })
    }

    /// Returns `==` this version.
    pub fn equals_version(version: Version) -> VersionSpecifier
        ensures { result ≡ record { operator = Operator.Equal; version = version } }
    {
        VersionSpecifier {
            operator: Operator::Equal,
            version,
        }
    }

    /// Returns `==` with a star: it accepts every version whose release begins with that of this version,
    /// which has an epoch and a release alone.
    pub fn equals_star_version(version: Version) -> VersionSpecifier
        requires { IsStarVersion version }
        ensures { result ≡ record { operator = Operator.EqualStar; version = version } }
    {
        VersionSpecifier {
            operator: Operator::EqualStar,
            version,
        }
    }

    /// Returns `!=` with a star: it rejects every version whose release begins with that of this version,
    /// which has an epoch and a release alone.
    pub fn not_equals_star_version(version: Version) -> VersionSpecifier
        requires { IsStarVersion version }
        ensures { result ≡ record { operator = Operator.NotEqualStar; version = version } }
    {
        VersionSpecifier {
            operator: Operator::NotEqualStar,
            version,
        }
    }

    /// Returns `!=` this version.
    pub fn not_equals_version(version: Version) -> VersionSpecifier
        ensures { result ≡ record { operator = Operator.NotEqual; version = version } }
    {
        VersionSpecifier {
            operator: Operator::NotEqual,
            version,
        }
    }

    /// Returns `>=` this version, which has no local part.
    pub fn greater_than_equal_version(version: Version) -> VersionSpecifier
        requires { version.local ≡ [] }
        ensures { result ≡ record { operator = Operator.GreaterThanEqual; version = version } }
    {
        VersionSpecifier {
            operator: Operator::GreaterThanEqual,
            version,
        }
    }

    /// Returns `>` this version, which has no local part.
    pub fn greater_than_version(version: Version) -> VersionSpecifier
        requires { version.local ≡ [] }
        ensures { result ≡ record { operator = Operator.GreaterThan; version = version } }
    {
        VersionSpecifier {
            operator: Operator::GreaterThan,
            version,
        }
    }

    /// Returns `<=` this version, which has no local part.
    pub fn less_than_equal_version(version: Version) -> VersionSpecifier
        requires { version.local ≡ [] }
        ensures { result ≡ record { operator = Operator.LessThanEqual; version = version } }
    {
        VersionSpecifier {
            operator: Operator::LessThanEqual,
            version,
        }
    }

    /// Returns `<` this version, which has no local part.
    pub fn less_than_version(version: Version) -> VersionSpecifier
        requires { version.local ≡ [] }
        ensures { result ≡ record { operator = Operator.LessThan; version = version } }
    {
        VersionSpecifier {
            operator: Operator::LessThan,
            version,
        }
    }

    /// Reads an operator and the version after it, as `>= 1.2` or `==1.2.*`, with white space around each.
    ///
    /// Linear in the text; takes memory for the version, and for the texts of an error, and none before an
    /// operator and a first number were read.
    ///
    /// # Errors
    /// The first fault from the left, where the text is not a specifier; `Memory` itself, never inside
    /// another error, where memory ran out.
    pub fn from_str(
        alloc: Global,
        text: &str,
    ) -> Result<VersionSpecifier, VersionSpecifierParseError>
        ensures answered { Answers (λ specifier. specifier) told_specifier result
            (specifier_reading text.now) }
        ensures plain { IfErr result IsPlain }
        ensures grown { result ≡ Err errors.Memory → HasGrown (specifier_reading text.now) }
    {
        read_specifier(alloc, text)
    }

    /// Returns the operator.
    pub fn operator(&self) -> Operator
        ensures { result ≡ self.now.operator }
    {
        self.operator
    }

    /// Returns the version that the operator compares with.
    pub fn version(&self) -> &Version
        ensures version { result.now ≡ self.now.version }
        ensures built { IsBuilt self.now }
    {
        &self.version
    }

    /// Returns the operator and the version.
    pub fn into_parts(self) -> (Operator, Version)
        ensures parts { result ≡ (self.operator, self.version) }
        ensures built { IsBuilt self }
    {
        (self.operator, self.version)
    }

    /// Returns whether the version is a pre-release or a developmental release.
    pub fn any_prerelease(&self) -> bool
        ensures { result ≡ is_prerelease self.now.version }
    {
        self.version.any_prerelease()
    }

    /// Returns whether the version is a lower bound of what the specifier accepts: so for `==`, `===`,
    /// `~=`, `>` and `>=`.
    ///
    /// With a star the accepted versions begin below it: `==1.2.*` accepts `1.2.dev0`.
    pub fn has_lower_bound(&self) -> bool
        ensures { result ≡ bounds_below self.now.operator }
    {
        match self.operator {
            Operator::Equal
            | Operator::EqualStar
            | Operator::ExactEqual
            | Operator::TildeEqual
            | Operator::GreaterThan
            | Operator::GreaterThanEqual => true,
            Operator::NotEqual
            | Operator::NotEqualStar
            | Operator::LessThan
            | Operator::LessThanEqual => false,
        }
    }

    /// Returns a copy, in memory of its own.
    ///
    /// # Errors
    ///
    /// `AllocError` when memory runs out.
    pub fn try_clone(&self, alloc: Global) -> Result<VersionSpecifier, AllocError>
        ensures { IfOk result (λ copy. copy ≡ self.now) }
    {
        Ok(VersionSpecifier {
            operator: self.operator,
            version: self.version.try_clone(alloc)?,
        })
    }
}

fn takes_local(operator: Operator) -> bool
    ensures { result ≡ takes_local operator }
{
    matches!(
        operator,
        Operator::Equal | Operator::NotEqual | Operator::ExactEqual
    )
}

impl fmt::Display for VersionSpecifier {
    ghost output = { λ specifier. Some (specifier_text specifier) };

    fn fmt<W: fmt::Write>(&self, f: &mut fmt::Formatter<W>) -> fmt::Result {
        let operator = self.operator;
        let version = &self.version;
        if operator.is_star() {
            return write!(f, "{operator}{version}.*");
        }
        write!(f, "{operator}{version}")
    }
}

impl fmt::Debug for VersionSpecifier {
    fn fmt<W: fmt::Write>(&self, f: &mut fmt::Formatter<W>) -> fmt::Result {
        write!(f, "\"{self}\"")
    }
}
