//! Versions.

ghost use Rattle.std.specs.Prelude.{◌≡◌, true, Some, IfErr, IfOk, option_map};
ghost use Rattle.std.specs.Str.{is_utf8};
ghost use Rattle.pep440_version.specs.Outcome.{Tells};
ghost use Rattle.pep440_version.specs.Reading.{version_of};
ghost use Rattle.pep440_version.specs.VersionReading.{version_reading, told_version};
ghost use Rattle.pep440_key.specs.Key.{version_bytes};
ghost use Rattle.reqs_c_reply.specs.Endings.{EndsIn, NoAnswer, RepliesAs, ending_of};
ghost use Rattle.reqs_c_versions.specs.Versions.{version_in, RefusesVersion, RefusesVersions, VersionEnds};
ghost use Rattle.reqs_c_versions.specs.Versions.{OrderEnds, order_text};
ghost use Rattle.reqs_c_versions.specs.Versions.{IsWritten, IsKey};

use pep440_version::{Version, VersionParseError};
use reqs_c_reply::{Ended, Place, Reply, text_of, write_front};
use std::alloc::{AllocError, Global};
use std::cmp::Ordering;
use std::str;

/// The version in an argument, or `None` if it isn't one.
pub(crate) fn read_version(alloc: Global, bytes: &[u8]) -> Result<Option<Version>, AllocError>
    ensures { IfOk result (λ version. version ≡ version_in bytes.now) }
{
    match str::from_utf8(bytes) {
        Ok(text) => version_of_text(alloc, text),
        Err(_) => Ok(None),
    }
}

#[tactic(auto, using(pep440_version::proofs::Found::reads_found))]
fn version_of_text(alloc: Global, text: &str) -> Result<Option<Version>, AllocError>
    ensures { IfOk result (λ version. version ≡ version_of text.now) }
{
    match Version::from_str(alloc, text) {
        Ok(version) => Ok(Some(version)),
        Err(VersionParseError::Memory) => Err(AllocError),
        Err(_) => Ok(None),
    }
}

/// Replies with the normal text of a version (PEP 440, "Normalization"). Linear in the text.
///
/// # Errors
///
/// Refuses a text that is not a version, for its first fault from the left. Status 3 when memory runs out.
pub fn version(alloc: Global, bytes: &[u8], out: &mut [u8]) -> Reply
    ensures { RepliesAs (VersionEnds bytes.now) out.old out.new result }
{
    normal_text(alloc, bytes).reply(out)
}

/// The end of the call that replies with the normal text.
fn normal_text(alloc: Global, bytes: &[u8]) -> Ended
    ensures { VersionEnds bytes.now (ending_of result) }
{
    match version_at(alloc, 1, bytes) {
        Ok(version) => Ended::answered(version.to_string(alloc)),
        Err(ended) => ended,
    }
}

/// The version in the argument of a number.
///
/// # Errors
///
/// How the call ends: refused at that argument if it is not a version, or out of memory.
fn version_at(alloc: Global, input: u32, bytes: &[u8]) -> Result<Version, Ended>
    ensures version { IfOk result (λ version. version_in bytes.now ≡ Some version) }
    ensures none { IfErr result (λ ended.
        EndsIn NoAnswer (RefusesVersion input bytes.now) (ending_of ended)) }
{
    let text = text_of(alloc, input, bytes)?;
    match Version::from_str(alloc, text) {
        Ok(version) => Ok(version),
        Err(error) => Err(no_version(alloc, input, bytes, &error)),
    }
}

/// The end of a call whose text is not a version, or for which memory ran out.
fn no_version(alloc: Global, input: u32, bytes: &[u8], error: &VersionParseError) -> Ended
    requires is_text { is_utf8 bytes.now ≡ true }
    requires tells { Tells (told_version error.now) (version_reading bytes.now) }
    ensures { EndsIn NoAnswer (RefusesVersion input bytes.now) (ending_of result) }
{
    match error {
        VersionParseError::Memory => Ended::OutOfMemory,
        error => Ended::refused(Place::span(input, 0, bytes.len()), error.to_string(alloc)),
    }
}

/// Replies with one byte, which says how the left version compares with the right one: `<`, `=` or `>` (PEP
/// 440, "Summary of permitted suffixes and relative ordering"). Linear in the texts.
///
/// # Errors
///
/// Refuses the first of the texts that is not a version, for its first fault from the left. Status 3 when
/// memory runs out.
pub fn version_order(alloc: Global, left: &[u8], right: &[u8], out: &mut [u8]) -> Reply
    ensures { RepliesAs (OrderEnds left.now right.now) out.old out.new result }
{
    order(alloc, left, right).reply(out)
}

/// The end of the call that replies with the order of two versions.
fn order(alloc: Global, left: &[u8], right: &[u8]) -> Ended
    ensures { OrderEnds left.now right.now (ending_of result) }
{
    match read_versions(alloc, left, right) {
        Ok((left, right)) => Ended::answered(String::from_str(alloc, sign_of(left.cmp(&right)))),
        Err(ended) => ended,
    }
}

/// The versions in the first and the second argument.
///
/// # Errors
///
/// How the call ends: refused at the first argument that is not a version, or out of memory.
fn read_versions(alloc: Global, left: &[u8], right: &[u8]) -> Result<(Version, Version), Ended>
    ensures left { IfOk result (λ versions. version_in left.now ≡ Some versions.0) }
    ensures right { IfOk result (λ versions. version_in right.now ≡ Some versions.1) }
    ensures none { IfErr result (λ ended.
        EndsIn NoAnswer (RefusesVersions left.now right.now) (ending_of ended)) }
{
    let left = version_at(alloc, 1, left)?;
    let right = version_at(alloc, 2, right)?;
    Ok((left, right))
}

fn sign_of(order: Ordering) -> &'static str
    ensures { result.now ≡ order_text order }
{
    match order {
        Ordering::Less => "<",
        Ordering::Equal => "=",
        Ordering::Greater => ">",
    }
}

/// Writes the prefix that fits of the key of a text's version: bytes in whose order versions sort, and which
/// are equal exactly if versions are equal (PEP 440, "Summary of permitted suffixes and relative ordering").
/// Returns the key's length; -2 if the text is not a version, and -3 when memory runs out.
pub fn version_key(alloc: Global, bytes: &[u8], out: &mut [u8]) -> i64
    ensures { IsKey bytes.now out.old out.new result }
{
    match key_in(alloc, bytes) {
        Ok(Some(key)) => write_key(&key, out),
        Ok(None) => -2,
        Err(_) => -3,
    }
}

/// The key of the version in a text, or `None` if it isn't one.
fn key_in(alloc: Global, bytes: &[u8]) -> Result<Option<Vec<u8>>, AllocError>
    ensures { IfOk result (λ key. option_map (λ k. k.items) key
        ≡ option_map version_bytes (version_in bytes.now)) }
{
    match read_version(alloc, bytes)? {
        None => Ok(None),
        Some(version) => Ok(Some(pep440_key::version_key(alloc, &version)?)),
    }
}

/// Writes the prefix of a key that fits, and returns its length.
fn write_key(key: &[u8], out: &mut [u8]) -> i64
    ensures { IsWritten key.now out.old out.new result }
{
    match i64::try_from(key.len()) {
        Ok(length) => {
            write_front(key, out);
            length
        }
        Err(_) => -3,
    }
}
