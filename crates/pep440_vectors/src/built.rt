//! Answers on specifiers that are built of an operator and a pattern or a version.

ghost use Rattle.std.specs.Prelude.{◌≡◌, false};
ghost use Rattle.pep440_operator.specs.Operators.{is_star};

use crate::answers::{Told, shown};
use crate::{patterns, versions};
use pep440_operator::{Operator, OperatorParseError};
use pep440_specifier::{VersionSpecifier, VersionSpecifierBuildError};
use pep440_version::{Version, VersionPattern};
use std::alloc::{AllocError, Global};
use std::fmt::Write;

/// Answers with the specifier of an operator and a text, which is a pattern's, or else a version's.
pub fn of_texts(
    alloc: Global,
    answer: &mut String,
    kind: &str,
    operator: &str,
    text: &str,
) -> Told {
    match Operator::from_str(alloc, operator) {
        Ok(operator) if operator.is_star() => answer.push_str("a star"),
        Ok(operator) if kind == "of pattern" => of_pattern(alloc, answer, operator, text),
        Ok(operator) => of_version(alloc, answer, operator, text),
        Err(OperatorParseError::Memory) => Err(AllocError),
        Err(error) => shown(answer, &error),
    }
}

fn of_pattern(alloc: Global, answer: &mut String, operator: Operator, text: &str) -> Told
    requires { is_star operator ≡ false }
{
    match VersionPattern::from_str(alloc, text) {
        Ok(pattern) => told(answer, VersionSpecifier::from_pattern(operator, pattern)),
        Err(error) => patterns::unread(answer, "of pattern", &error),
    }
}

fn of_version(alloc: Global, answer: &mut String, operator: Operator, text: &str) -> Told
    requires { is_star operator ≡ false }
{
    match Version::from_str(alloc, text) {
        Ok(version) => told(answer, VersionSpecifier::from_version(operator, version)),
        Err(error) => versions::unread(answer, "version fault", &error),
    }
}

fn told(answer: &mut String, made: Result<VersionSpecifier, VersionSpecifierBuildError>) -> Told {
    match made {
        Ok(specifier) => parts(answer, &specifier),
        Err(VersionSpecifierBuildError::Memory) => Err(AllocError),
        Err(error) => shown(answer, &error),
    }
}

fn parts(answer: &mut String, specifier: &VersionSpecifier) -> Told {
    let (operator, version) = (specifier.operator(), specifier.version());
    write!(answer, "{specifier} by {operator:?} of {version}")
}
