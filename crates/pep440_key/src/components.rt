//! The components of a version's key.

ghost use Rattle.std.specs.Prelude.{◌≡◌, ◌++◌, [], ◌∷◌, map, OnOk};
ghost use Rattle.std.specs.List.{flat_map};
ghost use Rattle.pep440_text.specs.Record.{segment_of};
ghost use Rattle.pep440_version.specs.Order.{stripped, kind_rank, class_of, absent_first, absent_last};
ghost use Rattle.pep440_version.specs.Order.{pre_key, post_key, segment_key, local_key};
ghost use Rattle.pep440_key.specs.Key.{component_bytes};

use crate::number::{push_number, push_numbers};
use pep440_version::{LocalSegment, Prerelease, PrereleaseKind, Version};
use std::alloc::AllocError;

/// Returns the numbers without the zeros at their end.
#[tactic(auto, using(pep440_version::proofs::Stripped::stripped_rules))]
fn without_end_zeros(numbers: &[u64]) -> &[u64]
    ensures { result.now ≡ stripped numbers.now }
{
    let mut front = numbers;
    loop {
        match front.split_last() {
            None => return front,
            Some((last, shorter)) => {
                if *last != 0 {
                    return front;
                }
                front = shorter;
            }
        }
    }
}

pub(crate) fn push_release(key: &mut Vec<u8>, numbers: &[u64]) -> Result<(), AllocError>
    ensures { OnOk result (key.new.items ≡ key.old.items ++ component_bytes (stripped numbers.now)) }
{
    push_numbers(key, without_end_zeros(numbers))
}

pub(crate) fn rank(kind: PrereleaseKind) -> u64
    ensures { result ≡ kind_rank kind }
{
    match kind {
        PrereleaseKind::Alpha => 0,
        PrereleaseKind::Beta => 1,
        PrereleaseKind::Rc => 2,
    }
}

/// Returns the rank of a version among those of its release, from the lowest: below every suffix, a
/// developmental release, the kinds of pre-release, the release, a post-release.
pub(crate) fn class(version: &Version) -> u64
    ensures { result ≡ class_of version.now }
{
    if version.min().is_some() {
        return 0;
    }
    if let Some(pre) = version.pre() {
        return 2 + rank(pre.kind);
    }
    match (version.post(), version.dev(), version.max()) {
        (None, Some(_), None) => 1,
        (None, None, None) => 5,
        _ => 6,
    }
}

pub(crate) fn push_pre(key: &mut Vec<u8>, pre: Option<Prerelease>) -> Result<(), AllocError>
    ensures { OnOk result (key.new.items ≡ key.old.items ++ component_bytes (pre_key pre)) }
{
    match pre {
        None => push_numbers(key, &[]),
        Some(pre) => push_numbers(key, &[rank(pre.kind), pre.number]),
    }
}

pub(crate) fn push_post(
    key: &mut Vec<u8>,
    post: Option<u64>,
    most: Option<u64>,
) -> Result<(), AllocError>
    ensures { OnOk result (key.new.items ≡ key.old.items ++ component_bytes (post_key post most)) }
{
    match (post, most) {
        (_, Some(number)) => push_numbers(key, &[1, number]),
        (Some(number), None) => push_numbers(key, &[0, number]),
        (None, None) => push_numbers(key, &[]),
    }
}

pub(crate) fn push_absent_first(key: &mut Vec<u8>, number: Option<u64>) -> Result<(), AllocError>
    ensures { OnOk result (key.new.items ≡ key.old.items ++ component_bytes (absent_first number)) }
{
    match number {
        None => push_numbers(key, &[]),
        Some(number) => push_numbers(key, &[number]),
    }
}

pub(crate) fn push_absent_last(key: &mut Vec<u8>, number: Option<u64>) -> Result<(), AllocError>
    ensures { OnOk result (key.new.items ≡ key.old.items ++ component_bytes (absent_last number)) }
{
    match number {
        None => push_numbers(key, &[1]),
        Some(number) => push_numbers(key, &[0, number]),
    }
}

/// Appends the bytes of a text, one for each byte below 252 and three for others, and a 0, which ends them:
/// they sort as the texts do, and are no prefix of another text's.
///
/// # Errors
///
/// `AllocError` when memory runs out.
pub fn push_text(key: &mut Vec<u8>, bytes: &[u8]) -> Result<(), AllocError>
    ensures { OnOk result (key.new.items ≡ key.old.items ++ component_bytes bytes.now) }
{
    for byte in bytes {
        push_number(key, *byte as u64)?;
    }
    key.push(0)?;
    Ok(())
}

fn push_segment(key: &mut Vec<u8>, segment: &LocalSegment) -> Result<(), AllocError>
    ensures { OnOk result
        (key.new.items ≡ key.old.items ++ component_bytes (segment_key (segment_of segment.now))) }
{
    match segment {
        LocalSegment::String(text) => {
            push_number(key, 0)?;
            push_text(key, text.as_bytes())
        }
        LocalSegment::Number(number) => push_numbers(key, &[1, *number]),
    }
}

pub(crate) fn push_local(key: &mut Vec<u8>, segments: &[LocalSegment]) -> Result<(), AllocError>
    ensures { OnOk result (key.new.items
        ≡ key.old.items ++ flat_map component_bytes (local_key (map segment_of segments.now))) }
{
    for segment in segments {
        push_segment(key, segment)?;
    }
    Ok(())
}
