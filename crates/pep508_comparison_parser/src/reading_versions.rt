//! Reading versions and patterns from texts.

ghost use Rattle.std.specs.Prelude.{◌≡◌, [], ◌∷◌, option_map, IfOk, MatchOption};
ghost use Rattle.std.specs.Result.{result_ok};
ghost use Rattle.pep440_text.specs.Reading.{version_of, pattern_of};
ghost use Rattle.pep508_comparison_parser.specs.Compared.{runs_of, versions_of};

use pep440_version::{Version, VersionParseError, VersionPattern, VersionPatternParseError};
use pep508_error::{Space, split};
use std::alloc::{AllocError, Global};

/// Returns the version that a text is, or why it is not a version.
#[tactic(auto, using(pep440_version::proofs::Found::reads_found))]
pub(crate) fn read_version(
    alloc: Global,
    text: &str,
) -> Result<Result<Version, VersionParseError>, AllocError>
    ensures { IfOk result (λ found. result_ok found ≡ version_of text.now) }
{
    match Version::from_str(alloc, text) {
        Err(VersionParseError::Memory) => Err(AllocError),
        found => Ok(found),
    }
}

/// Returns the pattern that a text is, or why it is not a pattern.
#[tactic(auto, using(pep440_version::proofs::Found::reads_found))]
pub(crate) fn read_pattern(
    alloc: Global,
    text: &str,
) -> Result<Result<VersionPattern, VersionPatternParseError>, AllocError>
    ensures { IfOk result (λ found. result_ok found ≡ pattern_of text.now) }
{
    match VersionPattern::from_str(alloc, text) {
        Err(VersionPatternParseError::Memory) => Err(AllocError),
        found => Ok(found),
    }
}

/// Returns the versions in a text between white space, in their order, or why the first of these words that
/// is not a version is not one. A text of white space alone has none.
///
/// Linear in the text.
pub(crate) fn read_versions(
    alloc: Global,
    text: &str,
) -> Result<Result<Vec<Version>, VersionParseError>, AllocError>
    ensures { IfOk result (λ found. option_map (λ versions. versions.items) (result_ok found)
        ≡ versions_of (runs_of text.now)) }
{
    let mut versions = Vec::new(alloc);
    let mut rest = text;
    while let Some((run, later)) = next_run(rest) {
        match read_version(alloc, run)? {
            Ok(version) => versions.push(version)?,
            Err(error) => return Ok(Err(error)),
        }
        rest = later;
    }
    Ok(Ok(versions))
}

/// Splits off the first word of a text that is not white space, and returns it with the text after it, if
/// there is one.
fn next_run(text: &str) -> Option<(&str, &str)>
    ensures { MatchOption result (runs_of text.now ≡ [])
        (λ found. runs_of text.now ≡ found.0.now ∷ runs_of found.1.now) }
{
    let trimmed = text.trim_start();
    if trimmed.is_empty() {
        return None;
    }
    Some(split(trimmed, Space))
}
