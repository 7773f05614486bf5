//! Answers on patterns.

use crate::answers::{REFUSED, Told, hash_of};
use pep440_version::{Version, VersionPattern, VersionPatternParseError};
use std::alloc::{AllocError, Global};
use std::fmt::Write;

/// Answers a question on a pattern's text, and perhaps another one.
pub fn of_text(alloc: Global, answer: &mut String, kind: &str, text: &str, other: &str) -> Told {
    match VersionPattern::from_str(alloc, text) {
        Ok(pattern) => told(alloc, answer, kind, &pattern, other),
        Err(error) => unread(answer, kind, &error),
    }
}

fn told(
    alloc: Global,
    answer: &mut String,
    kind: &str,
    pattern: &VersionPattern,
    other: &str,
) -> Told {
    match kind {
        "pattern" => {
            let (version, is_starred) = (pattern.version(), pattern.is_wildcard());
            let has = if is_starred { "with" } else { "without" };
            write!(answer, "{version} {has} a star")
        }
        "pattern copy" => copied(answer, &pattern.try_clone(alloc)?, pattern),
        _ => beside(alloc, answer, pattern, other),
    }
}

/// Answers where a text is not a pattern.
pub fn unread(answer: &mut String, kind: &str, error: &VersionPatternParseError) -> Told {
    match error {
        VersionPatternParseError::Memory => Err(AllocError),
        error => match kind {
            "pattern" => write!(answer, "refused: {error}"),
            "of pattern" => write!(answer, "{error}"),
            _ => answer.push_str(REFUSED),
        },
    }
}

/// Answers with a pattern's copy for programmers, and whether it is equal and hashes alike.
fn copied(answer: &mut String, copy: &VersionPattern, pattern: &VersionPattern) -> Told {
    write!(answer, "{copy:?}, ")?;
    same(answer, copy, pattern)
}

fn beside(alloc: Global, answer: &mut String, left: &VersionPattern, right: &str) -> Told {
    match VersionPattern::from_str(alloc, right) {
        Ok(right) => same(answer, left, &right),
        Err(error) => unread(answer, "patterns", &error),
    }
}

/// Answers whether two patterns are equal and hash alike.
fn same(answer: &mut String, left: &VersionPattern, right: &VersionPattern) -> Told {
    let is_equal = left == right;
    let is_one = hash_of(left) == hash_of(right);
    write!(answer, "equal {is_equal}, one hash {is_one}")
}

/// Answers with `1.2` as a pattern with a star, then without one.
pub fn made(alloc: Global, answer: &mut String) -> Told {
    let star = VersionPattern::wildcard(Version::new(alloc, &[1, 2])?);
    let has_star = star.is_wildcard();
    let plain = VersionPattern::verbatim(star.into_version());
    made_shown(answer, has_star, &plain)
}

fn made_shown(answer: &mut String, has_star: bool, plain: &VersionPattern) -> Told {
    let (keeps_star, version) = (plain.is_wildcard(), plain.version());
    write!(
        answer,
        "star {has_star}, then star {keeps_star} of {version}"
    )
}
