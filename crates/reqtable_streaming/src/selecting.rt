//! The rows of packages whose candidates were all read.

ghost use Rattle.std.specs.Prelude.{◌≡◌, ℕ, ◌<◌, List, All, map, length, IfOk, OnErr};
ghost use Rattle.std.specs.List.{list_any};
ghost use Rattle.std.specs.List.Sorted.{IsStrictlySortedBy};
ghost use Rattle.std.specs.Ordering.{nat_cmp};
ghost use Rattle.std.specs.Cmp.Lexicographic.{slice_cmp};
ghost use Rattle.std.specs.Str.{bytes_eq};
ghost use Rattle.pep508_requirement_text.specs.FrontReading.{Front};
ghost use Rattle.reqtable_candidates.specs.declared.candidates.Candidate.{Candidate};
ghost use Rattle.reqtable_answer.specs.Answer.{Admits};
ghost use Rattle.reqtable_answer.specs.Asks.{has_extra};
ghost use Rattle.reqtable_answer.specs.Rows.{row_seen, IsTakenBelow};
ghost use Rattle.reqtable_answer.specs.Says.{asks_seen};
ghost use Rattle.reqtable_streaming.specs.Packages.{AreSound, HaveBests, IsKeptAs};
ghost use Rattle.reqtable_streaming.specs.Selection.{IsSelection};

use crate::required::Package;
use crate::selection::Selection;
use reqtable_answer::{Answer, Outcome, Row, extras_of};
use reqtable_candidates::Candidate;
use std::alloc::{AllocError, Global};

/// The row of each package, with the candidates that they select.
pub(crate) fn selection_of(
    alloc: Global,
    packages: Vec<Package<'_>>,
) -> Result<Selection, AllocError>
    requires { AreSound packages.items }
    ensures selected { IfOk result (λ selection.
        (admits : Admits) (all : List Front) (read : List Candidate) →
        HaveBests admits all read packages.entry.items →
        IsSelection admits all read selection.candidates.items (map row_seen selection.answer.rows.items)) }
    ensures places { IfOk result (λ selection. All
        (λ row. IsTakenBelow (length selection.candidates.items) row.outcome) selection.answer.rows.items) }
    ensures grown { OnErr result (0 < length packages.entry.items) }
{
    let mut rows = Vec::with_capacity(alloc, packages.len())?;
    let mut candidates = Vec::with_capacity(alloc, packages.len())?;
    for wanted in packages {
        rows.push(row_of(alloc, wanted, &mut candidates)?)?;
    }
    Ok(Selection {
        answer: Answer { rows },
        candidates,
    })
}

/// The row of a package, whose best candidate is appended to the selected ones.
fn row_of(
    alloc: Global,
    wanted: Package<'_>,
    candidates: &mut Vec<Candidate>,
) -> Result<Row, AllocError>
    ensures name { IfOk result (λ row. row.package ≡ wanted.entry.name.now) }
    ensures extras_rise { IfOk result (λ row. IsStrictlySortedBy (slice_cmp nat_cmp) row.extras.items) }
    ensures extras_are { IfOk result (λ row. (extra : List ℕ) → list_any (bytes_eq extra) row.extras.items
        ≡ list_any (has_extra extra) (asks_seen wanted.entry.asks.items)) }
    ensures outcome { IfOk result (λ row. IsKeptAs wanted.entry.direct wanted.entry.best
        candidates.old.items candidates.new.items row.outcome) }
{
    let name = wanted.name.try_clone(alloc)?;
    let extras = extras_of(alloc, &wanted.asks)?;
    let outcome = outcome_of(wanted.direct, wanted.best, candidates)?;
    Ok(Row {
        package: name,
        extras,
        outcome,
    })
}

/// What is selected, by whether there is a URL and by the best candidate, which is appended to the selected
/// ones.
fn outcome_of(
    direct: bool,
    best: Option<Candidate>,
    candidates: &mut Vec<Candidate>,
) -> Result<Outcome, AllocError>
    ensures { IfOk result (IsKeptAs direct best candidates.old.items candidates.new.items) }
{
    if direct {
        return Ok(Outcome::Direct);
    }
    match best {
        None => Ok(Outcome::Nothing),
        Some(best) => {
            let place = candidates.len();
            candidates.push(best)?;
            Ok(Outcome::Taken(place))
        }
    }
}
