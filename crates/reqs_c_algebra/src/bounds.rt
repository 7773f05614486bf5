//! The texts of bounds, which are versions.

ghost use Rattle.std.specs.Prelude.{◌≡◌, true, IfOk, IfErr};
ghost use Rattle.std.specs.Str.{is_utf8};
ghost use Rattle.pep440_version.specs.VersionReading.{version_reading, told_version};
ghost use Rattle.pep440_specifier.specs.Bounds.{lent_bound};
ghost use Rattle.read_outcome.specs.Outcome.{Tells};
ghost use Rattle.reqs_c_reply.specs.Endings.{EndsIn, NoAnswer, ending_of};
ghost use Rattle.reqs_c_algebra.specs.Arguments.{IsVersionOrNone, RefusesVersion, IsNoVersion};
ghost use Rattle.reqs_c_algebra.specs.Arguments.{lower_bound, upper_bound};

use pep440_version::{Version, VersionParseError};
use reqs_c_reply::{Ended, Place, text_of};
use std::alloc::Global;
use std::ops::Bound;

/// The version of an argument, or `None` if the argument is empty.
///
/// # Errors
///
/// How the call ends: refused at argument `input` if it is not a version, or out of memory.
pub(crate) fn read_bound(alloc: Global, input: u32, bytes: &[u8]) -> Result<Option<Version>, Ended>
    ensures version { IfOk result (IsVersionOrNone bytes.now) }
    ensures none { IfErr result (λ ended.
        EndsIn NoAnswer (RefusesVersion input bytes.now) (ending_of ended)) }
{
    if bytes.is_empty() {
        return Ok(None);
    }
    let text = text_of(alloc, input, bytes)?;
    match Version::from_str(alloc, text) {
        Ok(version) => Ok(Some(version)),
        Err(error) => Err(no_version(alloc, input, bytes, &error)),
    }
}

/// The end of a call whose argument is not a version, or for which memory ran out.
fn no_version(alloc: Global, input: u32, bytes: &[u8], error: &VersionParseError) -> Ended
    requires is_text { is_utf8 bytes.now ≡ true }
    requires tells { Tells (told_version error.now) (version_reading bytes.now) }
    ensures { EndsIn NoAnswer (IsNoVersion input bytes.now) (ending_of result) }
{
    match error {
        VersionParseError::Memory => Ended::OutOfMemory,
        error => Ended::refused(Place::span(input, 0, bytes.len()), error.to_string(alloc)),
    }
}

/// The bound that includes a version and everything above it, or no bound without a version.
pub(crate) fn lower_bound(least: &Option<Version>) -> Bound<&Version>
    ensures { lent_bound result ≡ lower_bound least.now }
{
    match least {
        None => Bound::Unbounded,
        Some(version) => Bound::Included(version),
    }
}

/// The bound that excludes a version and everything above it, or no bound without a version.
pub(crate) fn upper_bound(end: &Option<Version>) -> Bound<&Version>
    ensures { lent_bound result ≡ upper_bound end.now }
{
    match end {
        None => Bound::Unbounded,
        Some(version) => Bound::Excluded(version),
    }
}
