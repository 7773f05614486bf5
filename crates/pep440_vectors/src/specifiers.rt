//! Answers on specifiers and their operators.

use crate::answers::{REFUSED, Told, hash_of, shown, sign, yes_or_no};
use crate::{lists, sets, versions};
use pep440_operator::{Operator, OperatorParseError};
use pep440_range::{release_specifier_to_range, specifier_to_range};
use pep440_specifier::{
    BoundError, VersionSpecifier, VersionSpecifierBuildError, VersionSpecifierParseError,
};
use pep440_specifier_list::{VersionSpecifiers, VersionSpecifiersParseError};
use pep440_version::{Version, VersionParseError, VersionPatternParseError};
use std::alloc::{AllocError, Global};
use std::fmt::Write;

/// The questions on a specifier and another text.
pub const KINDS: [&str; 9] = [
    "specifier",
    "specifier copy",
    "specifier parts",
    "set",
    "release set",
    "end",
    "list of one",
    "takes",
    "specifiers",
];

/// Answers a question on a specifier's text, and perhaps another one.
pub fn of_text(alloc: Global, answer: &mut String, kind: &str, text: &str, other: &str) -> Told {
    match VersionSpecifier::from_str(alloc, text) {
        Ok(specifier) => told(alloc, answer, kind, &specifier, other),
        Err(error) => unread(answer, kind, &error),
    }
}

/// Answers where a text is not a specifier.
pub fn unread(answer: &mut String, kind: &str, error: &VersionSpecifierParseError) -> Told {
    match error {
        VersionSpecifierParseError::Memory => Err(AllocError),
        error => match kind {
            "specifier" | "specifier value" => write!(answer, "refused: {error}"),
            _ => answer.push_str(REFUSED),
        },
    }
}

fn told(
    alloc: Global,
    answer: &mut String,
    kind: &str,
    specifier: &VersionSpecifier,
    other: &str,
) -> Told {
    match kind {
        "specifier" => shown(answer, specifier),
        "specifier copy" => prints(answer, &specifier.try_clone(alloc)?),
        "specifier parts" => {
            let (operator, version) = specifier.try_clone(alloc)?.into_parts();
            parts(alloc, answer, operator, &version, specifier)
        }
        "list of one" => {
            let list = VersionSpecifiers::from_specifier(alloc, specifier.try_clone(alloc)?)?;
            lists::of_member(answer, list)
        }
        "takes" => takes(alloc, answer, specifier, other),
        "specifiers" => beside(alloc, answer, specifier, other),
        "release set" => {
            let range = release_specifier_to_range(alloc, specifier);
            sets::of_range(answer, kind, range, None)
        }
        _ => sets::of_range(answer, kind, specifier_to_range(alloc, specifier), None),
    }
}

/// Appends a specifier's print, and that for programmers.
fn prints(answer: &mut String, specifier: &VersionSpecifier) -> Told {
    write!(answer, "{specifier}, {specifier:?}")
}

/// Appends a specifier's parts and properties.
fn parts(
    alloc: Global,
    answer: &mut String,
    operator: Operator,
    version: &Version,
    specifier: &VersionSpecifier,
) -> Told {
    let (is_pre, is_bounded) = (specifier.any_prerelease(), specifier.has_lower_bound());
    write!(answer, "{operator:?} {version}, release ")?;
    shown(answer, &version.only_release(alloc)?)?;
    write!(
        answer,
        ", any pre-release {is_pre}, lower bound {is_bounded}"
    )
}

/// Answers whether a specifier accepts a version.
fn takes(
    alloc: Global,
    answer: &mut String,
    specifier: &VersionSpecifier,
    candidate: &str,
) -> Told {
    match Version::from_str(alloc, candidate) {
        Ok(candidate) => yes_or_no(answer, specifier.contains(alloc, &candidate)),
        Err(error) => versions::unread(answer, "takes", &error),
    }
}

fn beside(alloc: Global, answer: &mut String, left: &VersionSpecifier, right: &str) -> Told {
    match VersionSpecifier::from_str(alloc, right) {
        Ok(right) => compared(answer, left, &right),
        Err(error) => unread(answer, "specifiers", &error),
    }
}

/// Answers with the order of two specifiers, and whether they are equal and hash alike.
fn compared(answer: &mut String, left: &VersionSpecifier, right: &VersionSpecifier) -> Told {
    let order = sign(left.cmp(right));
    let is_equal = left == right;
    let is_one = hash_of(left) == hash_of(right);
    write!(answer, "{order}, equal {is_equal}, one hash {is_one}")
}

/// Appends the print of an error of memory.
pub fn want_of_memory(answer: &mut String, what: &str) -> Told {
    match what {
        "version" => shown(answer, &VersionParseError::Memory),
        "pattern" => shown(answer, &VersionPatternParseError::Memory),
        "operator" => shown(answer, &OperatorParseError::Memory),
        "built specifier" => shown(answer, &VersionSpecifierBuildError::Memory),
        "specifier" => shown(answer, &VersionSpecifierParseError::Memory),
        "bound" => shown(answer, &BoundError::Memory),
        "list" => {
            let error = VersionSpecifiersParseError::Memory;
            write!(answer, "{error} at `{}`", error.line())
        }
        _ => answer.push_str("no question"),
    }
}

/// Answers for each operator: its print, its negation, and what its print is read as.
pub fn operators(alloc: Global, answer: &mut String) -> Told {
    for operator in [
        Operator::Equal,
        Operator::EqualStar,
        Operator::ExactEqual,
        Operator::NotEqual,
        Operator::NotEqualStar,
        Operator::TildeEqual,
        Operator::LessThan,
        Operator::LessThanEqual,
        Operator::GreaterThan,
        Operator::GreaterThanEqual,
    ] {
        push_operator(alloc, answer, operator)?;
    }
    Ok(())
}

fn push_operator(alloc: Global, answer: &mut String, operator: Operator) -> Told {
    let negated = operator.negate();
    write!(answer, "{operator:?} {operator} not {negated:?} again ")?;
    yes_or_no(answer, is_read_again(alloc, operator))?;
    answer.push_str("; ")
}

/// Returns whether an operator's print is read as the operator.
fn is_read_again(alloc: Global, operator: Operator) -> Result<bool, AllocError> {
    let text = operator.to_string(alloc)?;
    match Operator::from_str(alloc, &text) {
        Ok(again) => Ok(again == operator),
        Err(OperatorParseError::Memory) => Err(AllocError),
        Err(_) => Ok(false),
    }
}

/// Answers with the operator of a text.
pub fn operator(alloc: Global, answer: &mut String, text: &str) -> Told {
    match Operator::from_str(alloc, text) {
        Ok(operator) => write!(answer, "{operator:?}"),
        Err(OperatorParseError::Memory) => Err(AllocError),
        Err(OperatorParseError::Unknown(text)) => write!(answer, "unknown: {text}"),
    }
}

/// Answers with the specifiers of `1` by each operator that has a constructor of its own.
pub fn made_of_operators(alloc: Global, answer: &mut String) -> Told {
    let one = [1];
    push_made(
        answer,
        VersionSpecifier::equals_version(Version::new(alloc, &one)?),
    )?;
    push_made(
        answer,
        VersionSpecifier::equals_star_version(Version::new(alloc, &one)?),
    )?;
    push_made(
        answer,
        VersionSpecifier::not_equals_version(Version::new(alloc, &one)?),
    )?;
    push_made(
        answer,
        VersionSpecifier::not_equals_star_version(Version::new(alloc, &one)?),
    )?;
    push_made(
        answer,
        VersionSpecifier::greater_than_version(Version::new(alloc, &one)?),
    )?;
    push_made(
        answer,
        VersionSpecifier::greater_than_equal_version(Version::new(alloc, &one)?),
    )?;
    push_made(
        answer,
        VersionSpecifier::less_than_version(Version::new(alloc, &one)?),
    )?;
    push_made(
        answer,
        VersionSpecifier::less_than_equal_version(Version::new(alloc, &one)?),
    )
}

fn push_made(answer: &mut String, specifier: VersionSpecifier) -> Told {
    write!(answer, "{specifier} ")
}
