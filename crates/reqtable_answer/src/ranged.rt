//! The range of many requirements, which decides what they accept together.
//!
//! From 16 candidates on, a package with more than 1,024 pairs of a specifier and a candidate gets one
//! range; with fewer each pair is tested directly. The answer is the same either way, by the law that
//! ranges agree with matching.

ghost use Rattle.std.specs.Prelude.{◌≡◌, ◌<◌, ◌↔◌, ◌&&◌, IsTrue, length, map, IfOk, OnOk};
ghost use Rattle.std.specs.List.{list_all};
ghost use Rattle.pep440_version.specs.Record.{VersionRecord};
ghost use Rattle.reqtable_range.specs.Together.{members_of, all_take};
ghost use Rattle.reqtable_answer.specs.Asks.{ask_takes};
ghost use Rattle.reqtable_answer.specs.Ranged.{TellsTaken};
ghost use Rattle.reqtable_answer.specs.Says.{ask_seen};

use crate::ask::{Ask, AskSource};
use pep440_specifier_list::VersionSpecifiers;
use reqtable_range::{OneRange, one_range};
use std::alloc::{AllocError, Global};

/// With fewer candidates than this, each is tested against every specifier.
const FEW_CANDIDATES: usize = 16;

/// Up to this product of specifiers and candidates every pair is tested directly.
const FEW_QUESTIONS: usize = 1024;

/// A range that decides what the requirements accept, or `None` where the product of specifiers and
/// candidates is small enough to test every pair.
///
/// Needs the O(n log n) comparisons of versions of `one_range` for n specifiers, and memory for one reference
/// per list. Where it is `None`, each of n specifiers is tested against fewer than 16 candidates, or all of
/// them together at most 1,024 times.
///
/// # Errors
///
/// `AllocError` when memory runs out.
pub fn range_of<'a>(
    alloc: Global,
    asks: &[Ask<'a>],
    candidates: usize,
) -> Result<Option<OneRange<'a>>, AllocError>
    ensures { IfOk result (TellsTaken asks.now) }
{
    if candidates < FEW_CANDIDATES {
        return Ok(None);
    }
    let lists = lists_of(alloc, asks)?;
    if !has_more_members(&lists, FEW_QUESTIONS / candidates) {
        return Ok(None);
    }
    Ok(Some(one_range(alloc, &lists)?))
}

/// Whether the lists together have more than `most` specifiers. Counts lists only until that is certain.
fn has_more_members(lists: &[&VersionSpecifiers], most: usize) -> bool
    ensures { IsTrue result ↔ (most < length (members_of (map (λ list. list.now) lists.now))) }
{
    let mut left = most;
    for list in lists {
        let count = list.as_slice().len();
        if left < count {
            return true;
        }
        left -= count;
    }
    false
}

/// The lists of specifiers of those requirements that have one.
fn lists_of<'a>(alloc: Global, asks: &[Ask<'a>]) -> Result<Vec<&'a VersionSpecifiers>, AllocError>
    ensures { IfOk result (λ lists. (version : VersionRecord) →
        all_take (map (λ list. list.now) lists.items) version
        ≡ list_all (λ ask. ask_takes version (ask_seen ask)) asks.now) }
{
    let mut lists = Vec::new(alloc);
    for ask in asks {
        lend_list(&mut lists, ask)?;
    }
    Ok(lists)
}

/// Appends the list of specifiers of a requirement, if it has one.
fn lend_list<'a>(lists: &mut Vec<&'a VersionSpecifiers>, ask: &Ask<'a>) -> Result<(), AllocError>
    ensures { OnOk result ((version : VersionRecord) →
        all_take (map (λ list. list.now) lists.new.items) version
        ≡ (all_take (map (λ list. list.now) lists.old.items) version
        && ask_takes version (ask_seen ask.now))) }
{
    match ask.source {
        AskSource::Specifiers(list) => {
            lists.push(list)?;
            Ok(())
        }
        AskSource::Url | AskSource::Any => Ok(()),
    }
}
