//! The row of one package.

ghost use Rattle.std.specs.Prelude.{◌≡◌, ◌⊎◌, ◌≤◌, ◌<◌, ◌+◌, ◌++◌, ◌∷◌, ℕ, [], length, get_or};
ghost use Rattle.std.specs.Prelude.{Some, None, OnOk};
ghost use Rattle.std.specs.List.{AllZip, AllByRecursion};
ghost use Rattle.reqtable_answer.specs.Admission.{Admits, AnswersBy};
ghost use Rattle.reqtable_answer.specs.Rows.{row_seen, IsTakenBelow};
ghost use Rattle.reqtable_table.specs.Answers.{most_tests_in, LiesIn, SamePackage};
ghost use Rattle.reqtable_table.specs.Counts.{all_tests};
ghost use Rattle.reqtable_table.specs.Kept.{KeptPackage};
ghost use Rattle.reqtable_table.specs.Standing.{HasItsLines};
ghost use Rattle.reqs_json.specs.Rows.{row_in};
ghost use Rattle.reqs_rows.specs.Asked.{nodes_in, valuation_in, candidates_in, format_in};
ghost use Rattle.reqs_rows.specs.Ready.{IsReadyIn, KeepsRuns};
ghost use Rattle.reqs_rows.specs.Texts.{PutsRow};

use crate::answering::Answering;
use crate::known::{keep, piece_at, reach};
use crate::row_query::Asked;
use pep440_version::Version;
use reqs_json::row_text;
use reqs_pieces::Pieces;
use reqtable_answer::{Admission, Row};
use reqtable_table::lent::row_among;
use std::alloc::{AllocError, Global};

/// Appends the row of the package at an index to the text, in its active case: the piece that is known, or
/// else a new one. Appends nothing if no line of the package applies.
pub(crate) fn put_row<F: Fn(&Version, bool) -> bool>(
    alloc: Global,
    run: &mut Answering<'_, '_>,
    index: usize,
    place: Option<usize>,
    asked: &Asked<'_>,
    admission: &Admission<F>,
) -> Result<(), AllocError>
    requires within { index < length run.old.table }
    requires lines { AllByRecursion HasItsLines run.old.table }
    requires ready { IsReadyIn (F.IsAlwaysCallable admission.now) (F.post admission.now) asked.now run.old }
    requires lies { (other : KeptPackage) →
        LiesIn (nodes_in asked.now) (valuation_in asked.now) (get_or run.old.table index other) place }
    ensures ready { OnOk result
        (IsReadyIn (F.IsAlwaysCallable admission.now) (F.post admission.now) asked.now run.new) }
    ensures put { OnOk result ((admits : Admits) (other : KeptPackage) →
        AnswersBy (F.post admission.now) admits →
        PutsRow (format_in asked.now) admits (nodes_in asked.now) (valuation_in asked.now)
        (candidates_in asked.now) (get_or run.old.table index other) run.old.text.whole run.new.text.whole) }
    ensures kept { AllZip SamePackage run.new.table run.old.table }
    ensures runs { KeepsRuns (F.post admission.now) run.old run.new }
    ensures tests { (other : KeptPackage) → all_tests run.new.table ≤ all_tests run.old.table
        + most_tests_in (nodes_in asked.now) (valuation_in asked.now) (candidates_in asked.now)
        (get_or run.old.table index other) }
{
    let Some(place) = place else {
        return Ok(());
    };
    reach(alloc, &mut run.known, index)?;
    if let Some(piece) = piece_at(&run.known[index].pieces, place) {
        return run.text.append(piece);
    }
    let row = row_among(
        alloc,
        &mut run.table,
        index,
        asked.interner,
        asked.environment,
        asked.extras,
        &mut run.runs,
        admission,
    )?;
    // A package with an active case has a row, so this isn't reached.
    let Some(row) = row else {
        return Ok(());
    };
    let own = &mut run.known[index].pieces;
    put_new(alloc, row, place, asked, own, &mut run.text)
}

/// Appends the row in the case at an index to the text, as a new piece that is cached.
fn put_new(
    alloc: Global,
    row: Row,
    place: usize,
    asked: &Asked<'_>,
    own: &mut Vec<Option<usize>>,
    pieces: &mut Pieces,
) -> Result<(), AllocError>
    requires { IsTakenBelow (length (candidates_in asked.now)) row.outcome }
    ensures whole { OnOk result (pieces.new.whole
        ≡ pieces.old.whole ++ row_in (format_in asked.now) (candidates_in asked.now) (row_seen row)) }
    ensures texts { OnOk result (pieces.new.texts
        ≡ pieces.old.texts ++ row_in (format_in asked.now) (candidates_in asked.now) (row_seen row) ∷ []) }
    ensures kept { OnOk result (get_or own.new.items place None ≡ Some (length pieces.old.texts)) }
    ensures known { OnOk result ((at found : ℕ) → get_or own.new.items at None ≡ Some found →
        ((at ≡ place) × (length pieces.old.texts ≡ found)) ⊎ (get_or own.old.items at None ≡ Some found)) }
{
    let text = row_text(alloc, asked.format, row, asked.candidates)?;
    let piece = pieces.add(text)?;
    keep(own, place, piece)?;
    pieces.append(piece)
}
