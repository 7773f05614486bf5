//! Answers on specifiers that are made of bounds.

ghost use Rattle.std.specs.Prelude.{IfOk, IfSome};
ghost use Rattle.pep440_specifier.specs.Bounds.{IsReleaseVersion, IsReleaseBound, lent_bound};

use crate::answers::{REFUSED, Told, shown};
use pep440_specifier::{BoundError, VersionSpecifier};
use pep440_specifier_list::VersionSpecifiers;
use pep440_version::{Version, VersionParseError};
use std::alloc::{AllocError, Global};
use std::fmt::Write;
use std::ops::Bound;

/// Answers with the specifier of a bound as a lower one, then as an upper one.
pub fn bounds(alloc: Global, answer: &mut String, kind: &str, version: &Version) -> Told {
    let bound = match kind {
        "included" => Bound::Included(version),
        "excluded" => Bound::Excluded(version),
        _ => Bound::Unbounded,
    };
    push_bound(answer, VersionSpecifier::from_lower_bound(alloc, bound))?;
    answer.push_str("; ")?;
    push_bound(answer, VersionSpecifier::from_upper_bound(alloc, bound))
}

/// Appends the print of a bound's specifier.
fn push_bound(answer: &mut String, found: Result<Option<VersionSpecifier>, BoundError>) -> Told {
    match found {
        Ok(Some(specifier)) => shown(answer, &specifier),
        Ok(None) => answer.push_str("nothing"),
        Err(BoundError::Memory) => Err(AllocError),
        Err(error) => shown(answer, &error),
    }
}

/// Answers a question on the releases between two versions, all but those, or all between but one.
pub fn of_texts(
    alloc: Global,
    answer: &mut String,
    kind: &str,
    first: &str,
    second: &str,
    third: &str,
) -> Told {
    match release(alloc, first)? {
        Some(first) => beside(alloc, answer, kind, &first, second, third),
        None => answer.push_str(REFUSED),
    }
}

/// Returns the release of a version's text; `None` where the text is invalid.
fn release(alloc: Global, text: &str) -> Result<Option<Version>, AllocError>
    ensures { IfOk result (λ found. IfSome found IsReleaseVersion) }
{
    match Version::from_str(alloc, text) {
        Ok(version) => Ok(Some(version.only_release(alloc)?)),
        Err(error) => {
            if matches!(error, VersionParseError::Memory) {
                Err(AllocError)
            } else {
                Ok(None)
            }
        }
    }
}

fn beside(
    alloc: Global,
    answer: &mut String,
    kind: &str,
    first: &Version,
    second: &str,
    third: &str,
) -> Told
    requires { IsReleaseVersion first.now }
{
    match release(alloc, second)? {
        Some(second) => between(alloc, answer, kind, first, &second, third),
        None => answer.push_str(REFUSED),
    }
}

/// Answers with the specifiers of all releases from a version to below or up to another one; or of all but
/// those; or of those up to below a third one, but for the second.
fn between(
    alloc: Global,
    answer: &mut String,
    kind: &str,
    first: &Version,
    second: &Version,
    third: &str,
) -> Told
    requires first { IsReleaseVersion first.now }
    requires second { IsReleaseVersion second.now }
{
    match kind {
        "below" => from_bounds(alloc, answer, first, Bound::Excluded(second)),
        "up to" => from_bounds(alloc, answer, first, Bound::Included(second)),
        "but from" => without(
            alloc,
            answer,
            Bound::Excluded(first),
            Bound::Included(second),
        ),
        "but up to" => without(
            alloc,
            answer,
            Bound::Excluded(first),
            Bound::Excluded(second),
        ),
        _ => around(alloc, answer, first, second, third),
    }
}

fn from_bounds(alloc: Global, answer: &mut String, lower: &Version, upper: Bound<&Version>) -> Told
    requires lower { IsReleaseVersion lower.now }
    requires upper { IsReleaseBound (lent_bound upper) }
{
    let bounds = (Bound::Included(lower), upper);
    let made = VersionSpecifier::from_release_only_bounds(alloc, bounds)?;
    printed(answer, &made)
}

/// Appends the prints, with a blank after each.
fn printed(answer: &mut String, specifiers: &[VersionSpecifier]) -> Told {
    for specifier in specifiers {
        write!(answer, "{specifier} ")?;
    }
    Ok(())
}

/// Answers with all releases but those between two bounds.
fn without(
    alloc: Global,
    answer: &mut String,
    upper: Bound<&Version>,
    lower: Bound<&Version>,
) -> Told
    requires upper { IsReleaseBound (lent_bound upper) }
    requires lower { IsReleaseBound (lent_bound lower) }
{
    let bounds = [(Bound::Unbounded, upper), (lower, Bound::Unbounded)];
    let made = VersionSpecifiers::from_release_only_bounds(alloc, &bounds)?;
    shown(answer, &made)
}

fn around(
    alloc: Global,
    answer: &mut String,
    lower: &Version,
    middle: &Version,
    upper: &str,
) -> Told
    requires lower { IsReleaseVersion lower.now }
    requires middle { IsReleaseVersion middle.now }
{
    match release(alloc, upper)? {
        Some(upper) => around_one(alloc, answer, lower, middle, &upper),
        None => answer.push_str(REFUSED),
    }
}

/// Answers with the list of a lower version up to below an upper one, but for one between.
fn around_one<'a>(
    alloc: Global,
    answer: &mut String,
    lower: &'a Version,
    middle: &'a Version,
    upper: &'a Version,
) -> Told
    requires lower { IsReleaseVersion lower.now }
    requires middle { IsReleaseVersion middle.now }
    requires upper { IsReleaseVersion upper.now }
{
    let bounds = [
        (Bound::Included(lower), Bound::Excluded(middle)),
        (Bound::Excluded(middle), Bound::Excluded(upper)),
    ];
    let made = VersionSpecifiers::from_release_only_bounds(alloc, &bounds)?;
    shown(answer, &made)
}

/// Answers with the list of no intervals.
pub fn no_intervals(alloc: Global, answer: &mut String) -> Told {
    let list = VersionSpecifiers::from_release_only_bounds(alloc, &[])?;
    let is_empty = list.is_empty();
    write!(answer, "empty {is_empty}")
}
