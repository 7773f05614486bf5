//! What is selected for a package: the first among the highest of its acceptable candidates.
//!
//! Candidates are tested from the list's front, each only if it is above the best so far; so the first
//! among equals is found without sorting.

ghost use Rattle.std.specs.Prelude.{◌≡◌, ℕ, ◌<◌, All, map, filter, option_map, IfOk, IfSome};
ghost use Rattle.reqtable_answer.specs.Admission.{Admits, AnswersBy};
ghost use Rattle.reqtable_answer.specs.Asks.{may_be_taken};
ghost use Rattle.reqtable_answer.specs.Answer.{by_version, chosen, first_greatest, outcome_of};
ghost use Rattle.reqtable_answer.specs.Groups.{numbered_seen, passes_by, exceeds, better_of};
ghost use Rattle.reqtable_answer.specs.Ranged.{TellsTaken};
ghost use Rattle.reqtable_answer.specs.Rows.{IsTakenBelow};
ghost use Rattle.reqtable_answer.specs.Says.{asks_seen};

use crate::admission::Admission;
use crate::answer::Outcome;
use crate::ask::Ask;
use crate::asking::{is_direct, may_be_taken, names_prerelease};
use crate::ranged::range_of;
use pep440_version::Version;
use reqtable_candidates::Candidate;
use reqtable_range::OneRange;
use std::alloc::{AllocError, Global};

/// A candidate with its index in the candidate list.
#[derive(Clone, Copy)]
pub struct Numbered<'a> {
    pub place: usize,
    pub candidate: &'a Candidate,
}

/// What is selected for a package, by the requirements on it and from its candidates.
///
/// # Errors
///
/// `AllocError` when memory runs out.
pub fn outcome<F: Fn(&Version, bool) -> bool>(
    alloc: Global,
    asks: &[Ask<'_>],
    candidates: &[Numbered<'_>],
    admission: &Admission<F>,
) -> Result<Outcome, AllocError>
    requires { F.IsAlwaysCallable admission.now }
    ensures chosen { IfOk result (λ outcome. (admits : Admits) → AnswersBy (F.post admission.now) admits →
        outcome ≡ outcome_of admits (asks_seen asks.now) (map numbered_seen candidates.now)) }
    ensures below { IfOk result (λ outcome. (count : ℕ) →
        All (λ c. c.place < count) candidates.now → IsTakenBelow count outcome) }
{
    if is_direct(asks) {
        return Ok(Outcome::Direct);
    }
    match greatest(alloc, asks, candidates, admission)? {
        None => Ok(Outcome::Nothing),
        Some(found) => Ok(Outcome::Taken(found.place)),
    }
}

/// The first among the highest candidates that are accepted and admitted.
fn greatest<'a, F: Fn(&Version, bool) -> bool>(
    alloc: Global,
    asks: &[Ask<'_>],
    candidates: &[Numbered<'a>],
    admission: &Admission<F>,
) -> Result<Option<Numbered<'a>>, AllocError>
    requires { F.IsAlwaysCallable admission.now }
    ensures greatest { IfOk result (λ best. (admits : Admits) → AnswersBy (F.post admission.now) admits →
        option_map numbered_seen best ≡ first_greatest by_version
        (filter (may_be_taken admits (asks_seen asks.now)) (map numbered_seen candidates.now))) }
    ensures below { IfOk result (λ best. (count : ℕ) →
        All (λ c. c.place < count) candidates.now → IfSome best (λ found. found.place < count)) }
{
    let range = range_of(alloc, asks, candidates.len())?;
    greatest_by(alloc, asks, &range, candidates, admission)
}

/// The first among the highest candidates that are accepted and admitted, decided by the range of the
/// requirements where there is one. A candidate is tested only if it is higher than the best one before it.
fn greatest_by<'a, F: Fn(&Version, bool) -> bool>(
    alloc: Global,
    asks: &[Ask<'_>],
    range: &Option<OneRange<'_>>,
    candidates: &[Numbered<'a>],
    admission: &Admission<F>,
) -> Result<Option<Numbered<'a>>, AllocError>
    requires callable { F.IsAlwaysCallable admission.now }
    requires told { TellsTaken asks.now range.now }
    ensures greatest { IfOk result (λ best. (admits : Admits) → AnswersBy (F.post admission.now) admits →
        option_map numbered_seen best ≡ first_greatest by_version
        (filter (may_be_taken admits (asks_seen asks.now)) (map numbered_seen candidates.now))) }
    ensures below { IfOk result (λ best. (count : ℕ) →
        All (λ c. c.place < count) candidates.now → IfSome best (λ found. found.place < count)) }
{
    let prerelease = names_prerelease(asks);
    let mut best = None;
    for candidate in candidates {
        best = better(alloc, asks, range, prerelease, admission, candidate, best)?;
    }
    Ok(best)
}

/// The candidate if it is higher than the best one before it and may be selected, otherwise the best one
/// before it.
fn better<'a, F: Fn(&Version, bool) -> bool>(
    alloc: Global,
    asks: &[Ask<'_>],
    range: &Option<OneRange<'_>>,
    prerelease: bool,
    admission: &Admission<F>,
    candidate: &Numbered<'a>,
    best: Option<Numbered<'a>>,
) -> Result<Option<Numbered<'a>>, AllocError>
    requires callable { F.IsAlwaysCallable admission.now }
    requires told { TellsTaken asks.now range.now }
    ensures better { IfOk result (λ new. (admits : Admits) → AnswersBy (F.post admission.now) admits →
        option_map numbered_seen new ≡ better_of by_version (passes_by admits asks.now prerelease)
        (numbered_seen candidate.now) (option_map numbered_seen best.entry)) }
    ensures below { IfOk result (λ new. (count : ℕ) → candidate.now.place < count →
        IfSome best.entry (λ found. found.place < count) → IfSome new (λ found. found.place < count)) }
{
    if !is_greater(candidate, best) {
        return Ok(best);
    }
    let version = &candidate.candidate.version;
    let taken = may_be_taken(alloc, asks, range, prerelease, admission, version)?;
    if taken {
        Ok(Some(*candidate))
    } else {
        Ok(best)
    }
}

/// Whether the candidate is higher than the best one before it.
fn is_greater(candidate: &Numbered<'_>, best: Option<Numbered<'_>>) -> bool
    ensures { result ≡
        exceeds by_version (numbered_seen candidate.now) (option_map numbered_seen best.entry) }
{
    match best {
        None => true,
        Some(best) => candidate.candidate.version > best.candidate.version,
    }
}
