//! Answers on versions.

use crate::answers::{REFUSED, Told, hash_of, shown, sign};
use crate::{lists, releases};
use pep440_specifier_list::VersionSpecifiers;
use pep440_version::{LocalSegment, Prerelease, PrereleaseKind, Version, VersionParseError};
use std::alloc::{AllocError, Global};
use std::fmt::Write;

/// The questions on a version, or on two.
pub const KINDS: [&str; 18] = [
    "print",
    "version fault",
    "parts",
    "traits",
    "copy",
    "release",
    "trimmed",
    "public",
    "raised",
    "early",
    "low",
    "high",
    "included",
    "excluded",
    "unbounded",
    "empty list",
    "order",
    "compare",
];

/// Answers a question on a version's text, and perhaps another one.
pub fn of_text(alloc: Global, answer: &mut String, kind: &str, text: &str, other: &str) -> Told {
    match Version::from_str(alloc, text) {
        Ok(version) => told(alloc, answer, kind, &version, other),
        Err(error) => unread(answer, kind, &error),
    }
}

/// Answers where a text is not a version.
pub fn unread(answer: &mut String, kind: &str, error: &VersionParseError) -> Told {
    match error {
        VersionParseError::Memory => Err(AllocError),
        error => match kind {
            "version fault" => shown(answer, error),
            "value" => write!(answer, "refused: {error}"),
            _ => answer.push_str(REFUSED),
        },
    }
}

fn told(alloc: Global, answer: &mut String, kind: &str, version: &Version, other: &str) -> Told {
    match kind {
        "print" => shown(answer, version),
        "version fault" => write!(answer, "read {version}"),
        "parts" => parts(answer, version),
        "traits" => traits(answer, version),
        "order" | "compare" => beside(alloc, answer, kind, version, other),
        "early" => ordered(answer, &Version::min_version(alloc)?, version),
        "low" => marks(
            answer,
            &Version::new(alloc, &[1])?.with_min(Some(0)),
            version,
        ),
        "high" => marks(
            answer,
            &Version::new(alloc, &[1])?.with_max(Some(0)),
            version,
        ),
        "empty list" => lists::empty(alloc, answer, &VersionSpecifiers::empty(alloc), version),
        "included" | "excluded" | "unbounded" => releases::bounds(alloc, answer, kind, version),
        _ => made(alloc, answer, kind, version),
    }
}

/// Answers with a version that is made from another one.
fn made(alloc: Global, answer: &mut String, kind: &str, version: &Version) -> Told {
    match kind {
        "copy" => shown(answer, &version.try_clone(alloc)?),
        "release" => shown(answer, &version.only_release(alloc)?),
        "trimmed" => shown(answer, &version.try_clone(alloc)?.without_end_zeros()),
        "public" => shown(answer, &version.try_clone(alloc)?.without_local()),
        _ => match version.try_clone(alloc)?.with_last_raised() {
            Some(next) => shown(answer, &next),
            None => answer.push_str("at the end"),
        },
    }
}

fn parts(answer: &mut String, version: &Version) -> Told {
    write!(answer, "epoch {}, release ", version.epoch())?;
    let mut dot = "";
    for number in version.release() {
        write!(answer, "{dot}{number}")?;
        dot = ".";
    }
    match version.pre() {
        Some(pre) => write!(answer, ", pre {pre}")?,
        None => answer.push_str(", pre -")?,
    }
    number(answer, "post", version.post())?;
    number(answer, "dev", version.dev())?;
    local(answer, version.local())
}

pub fn number(answer: &mut String, name: &str, number: Option<u64>) -> Told {
    match number {
        Some(number) => write!(answer, ", {name} {number}"),
        None => write!(answer, ", {name} -"),
    }
}

fn local(answer: &mut String, segments: &[LocalSegment]) -> Told {
    answer.push_str(", local [")?;
    let mut comma = "";
    for segment in segments {
        match segment {
            LocalSegment::String(text) => write!(answer, "{comma}text {text}")?,
            LocalSegment::Number(number) => write!(answer, "{comma}number {number}")?,
        }
        comma = ", ";
    }
    answer.push(']')
}

/// Appends a version's properties, and its print for programmers.
fn traits(answer: &mut String, version: &Version) -> Told {
    write!(answer, "{version:?}")?;
    for (name, holds) in [
        (", any pre-release", version.any_prerelease()),
        (", stable", version.is_stable()),
        (", pre", version.is_pre()),
        (", post", version.is_post()),
        (", dev", version.is_dev()),
        (", local", version.is_local()),
        (", a release alone", version.is_only_release()),
    ] {
        if holds {
            answer.push_str(name)?;
        }
    }
    Ok(())
}

/// Answers with a version, and its order to another one.
fn ordered(answer: &mut String, left: &Version, right: &Version) -> Told {
    let order = sign(left.cmp(right));
    write!(answer, "{left} {order}")
}

/// Answers with an end's marks, its order to a version, and whether it is a release alone.
fn marks(answer: &mut String, end: &Version, version: &Version) -> Told {
    let order = sign(end.cmp(version));
    let is_alone = end.is_only_release();
    let (min, max) = (Version::min(end), Version::max(end));
    write!(
        answer,
        "{min:?} {max:?} {order}, a release alone {is_alone}"
    )
}

fn beside(alloc: Global, answer: &mut String, kind: &str, left: &Version, right: &str) -> Told {
    match Version::from_str(alloc, right) {
        Ok(right) => compared(answer, kind, left, &right),
        Err(error) => unread(answer, kind, &error),
    }
}

/// Answers with the order of versions; or with the order of their public parts and of their releases too,
/// and whether they are equal and hash alike.
fn compared(answer: &mut String, kind: &str, left: &Version, right: &Version) -> Told {
    let order = sign(left.cmp(right));
    if kind == "order" {
        return answer.push_str(order);
    }
    let public = sign(left.cmp_public(right));
    let release = sign(left.cmp_release(right));
    let is_equal = left == right;
    let is_one = hash_of(left) == hash_of(right);
    write!(answer, "{order}, public {public}, release {release}, ")?;
    write!(answer, "equal {is_equal}, one hash {is_one}")
}

/// Returns the segments of `ubuntu.7`.
fn segments(alloc: Global) -> Result<Vec<LocalSegment>, AllocError> {
    let mut segments = Vec::new(alloc);
    segments.push(LocalSegment::String(String::from_str(alloc, "ubuntu")?))?;
    segments.push(LocalSegment::Number(7))?;
    Ok(segments)
}

/// Answers with `9`, of which each part is set anew.
pub fn changed(alloc: Global, answer: &mut String) -> Told {
    let version = Version::new(alloc, &[9])?.with_release(alloc, &[1, 2])?;
    changed_parts(answer, version, segments(alloc)?)
}

fn changed_parts(answer: &mut String, version: Version, local: Vec<LocalSegment>) -> Told {
    let beta2 = Prerelease {
        kind: PrereleaseKind::Beta,
        number: 2,
    };
    let changed = version
        .with_epoch(3)
        .with_pre(Some(beta2))
        .with_post(Some(4))
        .with_dev(Some(5))
        .with_local(local);
    shown(answer, &changed)
}
