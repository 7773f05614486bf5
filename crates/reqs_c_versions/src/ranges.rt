//! Lists of specifiers as ranges: sets of points on the line of versions, at versions and between them.

ghost use Rattle.std.specs.Prelude.{◌≡◌, IfOk, IfErr, MatchBool};
ghost use Rattle.std.specs.Result.{IsOkAnd};
ghost use Rattle.version_ranges.specs.Held.{holds_at};
ghost use Rattle.pep440_version.specs.Order.{version_cmp};
ghost use Rattle.reqs_c_reply.specs.Endings.{EndsIn, NoAnswer, NoRefusal, RepliesAs, ending_of, yes_or_no};
ghost use Rattle.reqs_c_versions.specs.Ranges.{IsRangeIn, RefusesRange, RefusesRanges};
ghost use Rattle.reqs_c_versions.specs.Ranges.{AreDisjoint, Meet, IsSubset, GoesBeyond, IsEmpty, HoldsSome};
ghost use Rattle.reqs_c_versions.specs.Ranges.{RangesDisjointEnds, SubsetEnds, EmptyEnds};

use crate::specifier_lists::read_list;
use pep440_range::{RangeError, specifiers_to_range};
use pep440_version::Version;
use reqs_c_reply::{Ended, Place, Reply};
use std::alloc::{AllocError, Global};
use version_ranges::Ranges;
use version_ranges::laws::every_set_is_normal;

/// The range of the list of specifiers in an argument.
///
/// # Errors
///
/// How the call ends: refused at argument `input` if it is not a list or has no range, or out of memory.
fn read_range(alloc: Global, input: u32, bytes: &[u8]) -> Result<Ranges<Version>, Ended>
    ensures range { IfOk result (λ set. IsRangeIn bytes.now (holds_at version_cmp set)) }
    ensures none { IfErr result (λ ended. EndsIn NoAnswer (RefusesRange input bytes.now) (ending_of ended)) }
{
    let list = read_list(alloc, input, bytes)?;
    match specifiers_to_range(alloc, &list) {
        Ok(range) => Ok(range),
        Err(RangeError::Memory) => Err(Ended::OutOfMemory),
        Err(error) => Err(Ended::refused(Place::span(input, 0, 0), error.to_string(alloc))),
    }
}

/// The ranges of the lists in the first and the second argument.
///
/// # Errors
///
/// How the call ends: refused at the first argument that is not a list or has no range, or out of memory.
fn read_ranges(
    alloc: Global,
    left: &[u8],
    right: &[u8],
) -> Result<(Ranges<Version>, Ranges<Version>), Ended>
    ensures left { IfOk result (λ ranges. IsRangeIn left.now (holds_at version_cmp ranges.0)) }
    ensures right { IfOk result (λ ranges. IsRangeIn right.now (holds_at version_cmp ranges.1)) }
    ensures none { IfErr result (λ ended.
        EndsIn NoAnswer (RefusesRanges left.now right.now) (ending_of ended)) }
{
    let left = read_range(alloc, 1, left)?;
    let right = read_range(alloc, 2, right)?;
    Ok((left, right))
}

/// Replies with `1` if the ranges of two lists are disjoint, that is if no point is in both, otherwise with
/// `0`. Linear in the texts; n specifiers need O(n log n) comparisons of versions.
///
/// # Errors
///
/// Refuses a text that is not a list, and a list without a range. Status 3 when memory runs out.
pub fn specifiers_disjoint(alloc: Global, left: &[u8], right: &[u8], out: &mut [u8]) -> Reply
    ensures { RepliesAs (RangesDisjointEnds left.now right.now) out.old out.new result }
{
    disjoint_ranges(alloc, left, right).reply(out)
}

/// The end of the call that replies whether two ranges are disjoint.
fn disjoint_ranges(alloc: Global, left: &[u8], right: &[u8]) -> Ended
    ensures { RangesDisjointEnds left.now right.now (ending_of result) }
{
    match read_ranges(alloc, left, right) {
        Ok((left, right)) => whether(alloc, are_disjoint(alloc, &left, &right)),
        Err(ended) => ended,
    }
}

/// Whether no point is in both ranges.
#[tactic(auto, using(crate::proofs::RangeAnswers::disjoint_by))]
fn are_disjoint(
    alloc: Global,
    left: &Ranges<Version>,
    right: &Ranges<Version>,
) -> Result<bool, AllocError>
    ensures { IfOk result (λ answer. MatchBool answer
        (AreDisjoint (holds_at version_cmp left.now) (holds_at version_cmp right.now))
        (Meet (holds_at version_cmp left.now) (holds_at version_cmp right.now))) }
{
    let both = left.intersection(alloc, right)?;
    Ok(is_empty(&both))
}

/// Replies with `1` if each point of the left list's range is in that of the right list, otherwise with `0`.
/// Linear in the texts; n specifiers need O(n log n) comparisons of versions.
///
/// # Errors
///
/// Refuses a text that is not a list, and a list without a range. Status 3 when memory runs out.
pub fn specifiers_subset(alloc: Global, left: &[u8], right: &[u8], out: &mut [u8]) -> Reply
    ensures { RepliesAs (SubsetEnds left.now right.now) out.old out.new result }
{
    subset_of_range(alloc, left, right).reply(out)
}

/// The end of the call that replies whether one range is a subset of another.
fn subset_of_range(alloc: Global, left: &[u8], right: &[u8]) -> Ended
    ensures { SubsetEnds left.now right.now (ending_of result) }
{
    match read_ranges(alloc, left, right) {
        Ok((left, right)) => whether(alloc, is_subset(alloc, &left, &right)),
        Err(ended) => ended,
    }
}

/// Whether each point of the left range is in the right one.
fn is_subset(
    alloc: Global,
    left: &Ranges<Version>,
    right: &Ranges<Version>,
) -> Result<bool, AllocError>
    ensures { IfOk result (λ answer. MatchBool answer
        (IsSubset (holds_at version_cmp left.now) (holds_at version_cmp right.now))
        (GoesBeyond (holds_at version_cmp left.now) (holds_at version_cmp right.now))) }
{
    let others = right.complement(alloc)?;
    let both = left.intersection(alloc, &others)?;
    Ok(is_empty(&both))
}

/// Replies with `1` if the range of a list is empty, that is if no point is in it, otherwise with `0`. Linear
/// in the text; n specifiers need O(n log n) comparisons of versions.
///
/// # Errors
///
/// Refuses a text that is not a list, and a list without a range. Status 3 when memory runs out.
pub fn specifiers_empty(alloc: Global, bytes: &[u8], out: &mut [u8]) -> Reply
    ensures { RepliesAs (EmptyEnds bytes.now) out.old out.new result }
{
    empty_range(alloc, bytes).reply(out)
}

/// The end of the call that replies whether a range is empty.
fn empty_range(alloc: Global, bytes: &[u8]) -> Ended
    ensures { EmptyEnds bytes.now (ending_of result) }
{
    match read_range(alloc, 1, bytes) {
        Ok(range) => mark(alloc, is_empty(&range)),
        Err(ended) => ended,
    }
}

/// Whether no point is in the range.
#[tactic(auto, using(crate::proofs::RangeAnswers::empty_by))]
fn is_empty(range: &Ranges<Version>) -> bool
    ensures { MatchBool result (IsEmpty (holds_at version_cmp range.now))
        (HoldsSome (holds_at version_cmp range.now)) }
{
    every_set_is_normal(range);
    range.is_empty()
}

/// The end of a call with `1` or `0`, or out of memory.
fn whether(alloc: Global, answer: Result<bool, AllocError>) -> Ended
    ensures { EndsIn (λ text. IsOkAnd answer (λ b. text ≡ yes_or_no b)) NoRefusal (ending_of result) }
{
    match answer {
        Ok(answer) => mark(alloc, answer),
        Err(_) => Ended::OutOfMemory,
    }
}

/// The end of a call with `1` or `0`.
fn mark(alloc: Global, answer: bool) -> Ended
    ensures { EndsIn (λ text. text ≡ yes_or_no answer) NoRefusal (ending_of result) }
{
    Ended::answered(String::from_str(alloc, if answer { "1" } else { "0" }))
}
