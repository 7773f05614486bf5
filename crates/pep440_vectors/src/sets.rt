//! Answers on the sets of versions that specifiers and lists accept.

use crate::answers::{REFUSED, Told};
use crate::versions;
use pep440_range::{RangeError, specifiers_to_range};
use pep440_specifier_list::{VersionSpecifiers, VersionSpecifiersParseError};
use pep440_version::Version;
use std::alloc::{AllocError, Global};
use std::fmt::Write;
use std::ops::Bound;
use version_ranges::Ranges;

type Range = Ranges<Version>;

/// Answers a question on a set, or whether it contains a version.
pub fn of_range(
    answer: &mut String,
    kind: &str,
    range: Result<Range, RangeError>,
    candidate: Option<&Version>,
) -> Told {
    match range {
        Ok(range) => told(answer, kind, &range, candidate),
        Err(error) => at_end(answer, kind, &error),
    }
}

/// Answers where a number can't be raised.
fn at_end(answer: &mut String, kind: &str, error: &RangeError) -> Told {
    match error {
        RangeError::Memory => Err(AllocError),
        error if kind.ends_with("set") => write!(answer, "refused: {error}"),
        _ => answer.push_str(REFUSED),
    }
}

fn told(answer: &mut String, kind: &str, range: &Range, candidate: Option<&Version>) -> Told {
    if let Some(candidate) = candidate {
        return write!(answer, "{}", range.contains(candidate));
    }
    match kind {
        "intervals" => write!(answer, "{}", range.iter().count()),
        "end" => end(answer, range),
        _ => intervals(answer, range),
    }
}

/// Appends the intervals, with square brackets for included bounds, as `[1.2.dev0, 1.3.dev0)`.
fn intervals(answer: &mut String, range: &Range) -> Told {
    for (lower, upper) in range.iter() {
        push_lower(answer, lower)?;
        push_upper(answer, upper)?;
    }
    Ok(())
}

fn push_lower(answer: &mut String, lower: Bound<&Version>) -> Told {
    match lower {
        Bound::Included(version) => write!(answer, "[{version}, "),
        Bound::Excluded(version) => write!(answer, "({version}, "),
        Bound::Unbounded => answer.push_str("(, "),
    }
}

fn push_upper(answer: &mut String, upper: Bound<&Version>) -> Told {
    match upper {
        Bound::Included(version) => write!(answer, "{version}]"),
        Bound::Excluded(version) => write!(answer, "{version})"),
        Bound::Unbounded => answer.push(')'),
    }
}

/// Appends what no print shows of the version below which a set ends: its `min` mark, with its
/// developmental number.
fn end(answer: &mut String, range: &Range) -> Told {
    match range.bounding_range() {
        Some((_, Bound::Excluded(end))) => {
            write!(answer, "{end}")?;
            versions::number(answer, "least", end.min())?;
            versions::number(answer, "dev", end.dev())
        }
        _ => answer.push_str("no end"),
    }
}

/// Answers whether the union or the intersection of two lists' sets contains a version.
pub fn of_two(
    alloc: Global,
    answer: &mut String,
    kind: &str,
    left: &str,
    right: &str,
    candidate: &str,
) -> Told {
    match range(alloc, left) {
        Ok(left) => beside(alloc, answer, kind, &left, right, candidate),
        Err(error) => at_end(answer, kind, &error),
    }
}

/// Returns the set of versions that a list accepts; a text that isn't a list is refused as a number at its
/// end is.
fn range(alloc: Global, text: &str) -> Result<Range, RangeError> {
    match VersionSpecifiers::from_str(alloc, text) {
        Ok(list) => specifiers_to_range(alloc, &list),
        Err(VersionSpecifiersParseError::Memory) => Err(RangeError::Memory),
        Err(_) => Err(RangeError::NumberAtEnd),
    }
}

fn beside(
    alloc: Global,
    answer: &mut String,
    kind: &str,
    left: &Range,
    right: &str,
    candidate: &str,
) -> Told {
    match range(alloc, right) {
        Ok(right) => both(alloc, answer, kind, (left, &right), candidate),
        Err(error) => at_end(answer, kind, &error),
    }
}

fn both(
    alloc: Global,
    answer: &mut String,
    kind: &str,
    (left, right): (&Range, &Range),
    candidate: &str,
) -> Told {
    match kind {
        "union" => held(alloc, answer, &left.union(alloc, right)?, candidate),
        _ => held(alloc, answer, &left.intersection(alloc, right)?, candidate),
    }
}

fn held(alloc: Global, answer: &mut String, range: &Range, candidate: &str) -> Told {
    match Version::from_str(alloc, candidate) {
        Ok(candidate) => told(answer, "range", range, Some(&candidate)),
        Err(error) => versions::unread(answer, "range", &error),
    }
}
