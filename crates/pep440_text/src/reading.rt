//! Reading the text of a version, from left to right.

ghost use Rattle.std.specs.Prelude.{◌≡◌, ◌<◌, length, Some, Err, IfOk};
ghost use Rattle.pep440_text.specs.declared.ReadError.TheVariants as errors;
ghost use Rattle.pep440_text.specs.Record.{epoch_record, said};
ghost use Rattle.read_outcome.specs.Outcome.{Answers};
ghost use Rattle.pep440_text.specs.Faults.{told_read, HasNumber};
ghost use Rattle.pep440_text.specs.Reading.{after_white, after_v, head_at, end_at, suffixed, is_star};
ghost use Rattle.pep440_text.specs.Reading.{read_version, read_pattern};

use crate::{FaultKind, ReadError, TextFault, VersionParts};
use std::alloc::Global;

mod local;
mod number;
mod suffix;

/// An epoch and a release.
#[derive(Drop)]
struct Head {
    epoch: u64,
    release: Vec<u64>,
}

/// Returns the fault at which these bytes are left.
fn fault(kind: FaultKind, bytes: &[u8]) -> TextFault
    ensures { result ≡ record { kind = kind; left = length bytes.now } }
{
    TextFault {
        kind,
        left: bytes.len(),
    }
}

/// Returns the bytes after the white space at the front.
fn skip_white(bytes: &[u8]) -> &[u8]
    ensures { result.now ≡ after_white bytes.now }
{
    bytes.trim_ascii_start()
}

/// Returns the bytes after a `v`, where one is at the front.
fn skip_v(bytes: &[u8]) -> &[u8]
    ensures { result.now ≡ after_v bytes.now }
{
    match bytes.split_first() {
        None => bytes,
        Some((byte, rest)) => {
            if byte.to_ascii_lowercase() == b'v' {
                rest
            } else {
                bytes
            }
        }
    }
}

/// Reads white space, `v`, the epoch and the release, and returns these two with the bytes after them.
#[tactic(auto, unfolding(crate::specs::Reading::head_at))]
fn read_head(alloc: Global, bytes: &[u8]) -> Result<(Head, &[u8]), ReadError>
    ensures head { Answers (λ found. ((found.0.epoch, found.0.release.items), found.1.now)) told_read result
        (head_at bytes.now) }
    ensures numbers { IfOk result (λ found. 0 < length found.0.release.items) }
    ensures grown { result ≡ Err errors.Memory → HasNumber (head_at bytes.now) }
{
    let (epoch, behind) = number::epoch(skip_v(skip_white(bytes)))?;
    let (release, rest) = number::release(alloc, behind)?;
    let head = Head {
        epoch: epoch.unwrap_or(0),
        release,
    };
    Ok((head, rest))
}

/// Reports a fault where anything but white space is left.
#[tactic(auto, unfolding(crate::specs::Reading::end_at))]
fn end(bytes: &[u8]) -> Result<(), TextFault>
    ensures { Answers (λ end. end) Some result (end_at bytes.now) }
{
    let rest = skip_white(bytes);
    if rest.is_empty() {
        return Ok(());
    }
    Err(fault(FaultKind::UnexpectedEnd, rest))
}

/// Returns the parts of a version with an epoch and a release alone.
fn plain(alloc: Global, head: Head) -> VersionParts
    ensures parts { said result ≡ epoch_record head.epoch head.release.items }
    ensures release { result.release.items ≡ head.release.items }
{
    VersionParts {
        epoch: head.epoch,
        release: head.release,
        pre: None,
        post: None,
        dev: None,
        local: Vec::new(alloc),
    }
}

/// Reads the parts after an epoch and a release, and returns them all. Most versions have none, so that is
/// tested first.
#[tactic(auto, using(crate::proofs::White::nothing_behind), unfolding(crate::specs::Reading::suffixed))]
fn suffixed(alloc: Global, head: Head, bytes: &[u8]) -> Result<VersionParts, ReadError>
    ensures parts { Answers said told_read result (suffixed (head.epoch, head.release.items) bytes.now) }
    ensures release { IfOk result (λ parts. parts.release.items ≡ head.release.items) }
{
    if bytes.is_empty() {
        return Ok(plain(alloc, head));
    }
    let (pre, behind_pre) = suffix::pre(bytes)?;
    let (post, behind_post) = suffix::post(behind_pre)?;
    let (dev, behind_dev) = suffix::dev(behind_post)?;
    let (local, rest) = local::local(alloc, behind_dev)?;
    end(rest)?;
    Ok(VersionParts {
        epoch: head.epoch,
        release: head.release,
        pre,
        post,
        dev,
        local,
    })
}

/// Returns whether the bytes are `.*` and white space alone.
#[tactic(auto, using(crate::proofs::White::is_white_alone))]
fn is_star(bytes: &[u8]) -> bool
    ensures { result ≡ is_star bytes.now }
{
    match bytes.split_first() {
        Some((b'.', behind)) => match behind.split_first() {
            Some((b'*', rest)) => skip_white(rest).is_empty(),
            _ => false,
        },
        _ => false,
    }
}

/// Reads a version: its parts in their order, those that are there, in either case and with white space
/// around them.
///
/// Goes through the text a fixed number of times, and takes memory for release and local part.
///
/// # Errors
/// `Fault` with the first fault from the left; `Memory` where memory ran out.
#[tactic(auto, unfolding(crate::specs::Reading::read_version))]
pub fn read_version(alloc: Global, text: &[u8]) -> Result<VersionParts, ReadError>
    ensures parts { Answers said told_read result (read_version text.now) }
    ensures numbers { IfOk result (λ parts. 0 < length parts.release.items) }
    ensures grown { result ≡ Err errors.Memory → HasNumber (read_version text.now) }
{
    let (head, rest) = read_head(alloc, text)?;
    if is_star(rest) {
        return Err(ReadError::Fault(fault(FaultKind::Wildcard, rest)));
    }
    suffixed(alloc, head, rest)
}

/// Reads a version, or an epoch and a release followed by `.*`; returns with it whether there was a `.*`.
/// Costs are those of `read_version`.
///
/// # Errors
/// Those of `read_version`, but for `Wildcard`.
#[tactic(auto, unfolding(crate::specs::Reading::read_pattern))]
pub fn read_pattern(alloc: Global, text: &[u8]) -> Result<(VersionParts, bool), ReadError>
    ensures parts { Answers (λ found. record { version = said found.0; wildcard = found.1 }) told_read result
        (read_pattern text.now) }
    ensures numbers { IfOk result (λ found. 0 < length found.0.release.items) }
    ensures grown { result ≡ Err errors.Memory → HasNumber (read_pattern text.now) }
{
    let (head, rest) = read_head(alloc, text)?;
    if is_star(rest) {
        return Ok((plain(alloc, head), true));
    }
    let parts = suffixed(alloc, head, rest)?;
    Ok((parts, false))
}
