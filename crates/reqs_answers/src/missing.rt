//! Whether a row is `none`, and the status of a strict command by that.
//!
//! `matrix` writes a row that environments share from one text, from which its outcome can't be read. So a
//! strict one asks the table for each environment by `answer_among` first, for all rows. The outcomes that
//! are decided there are not decided again for the text.

ghost use Rattle.std.specs.Prelude.{◌≡◌, ◌&&◌, ◌||◌, List, map, true, IfOk, OnOk};
ghost use Rattle.std.specs.List.{AllZip};
ghost use Rattle.pep508_evaluation.specs.Valuations.{valuation_of};
ghost use Rattle.reqtable_answer.specs.Answer.{RowRecord, IsAnswer};
ghost use Rattle.reqtable_answer.specs.Rows.{row_seen};
ghost use Rattle.reqtable_requirements.specs.Asks.{asks_of};
ghost use Rattle.reqtable_requirements.specs.LineReading.{LineRecord};
ghost use Rattle.reqtable_table.specs.Answers.{SamePackage};
ghost use Rattle.reqtable_table.specs.Kept.{KeepsAll};
ghost use Rattle.reqs_io_faults.specs.Ends.{status_of_answer};
ghost use Rattle.reqs_answers.specs.Check.{on_request};
ghost use Rattle.reqs_answers.specs.Matrix.{HasStatus};
ghost use Rattle.reqs_answers.specs.Ready.{nodes_in, IsReadyOnRequest};
ghost use Rattle.reqs_answers.specs.Strict.{is_nothing, has_none};

use pep440_version::Version;
use pep508_environment::MarkerEnvironment;
use reqs_io_faults::Status;
use reqs_rows::{Answering, Query};
use reqtable_answer::{Admission, Answer, Outcome, Row};
use std::alloc::{AllocError, Global};

/// The status after an answer.
pub(crate) fn rows_status(strict: bool, answer: &Answer) -> Status
    ensures { result ≡ status_of_answer (strict && has_none (map row_seen answer.now.rows.items)) }
{
    let found = has_none(&answer.rows);
    Status::of_answer(strict & found)
}

/// Whether one of the rows is `none`.
fn has_none(rows: &[Row]) -> bool
    ensures { result ≡ has_none (map row_seen rows.now) }
{
    for row in rows {
        if is_nothing(row.outcome) {
            return true;
        }
    }
    false
}

/// Whether no candidate is selected.
fn is_nothing(outcome: Outcome) -> bool
    ensures { result ≡ is_nothing outcome }
{
    match outcome {
        Outcome::Nothing => true,
        Outcome::Taken(_) | Outcome::Direct => false,
    }
}

/// The status after the answers of a table for all environments, for which a strict command asks it.
pub(crate) fn answers_status<F: Fn(&Version, bool) -> bool>(
    alloc: Global,
    run: &mut Answering<'_, '_>,
    query: &Query<'_>,
    environments: &[MarkerEnvironment],
    admission: &Admission<F>,
    strict: bool,
) -> Result<Status, AllocError>
    requires { IsReadyOnRequest (F.IsAlwaysCallable admission.now) (F.post admission.now) query.now run.old }
    ensures ready { OnOk result
        (IsReadyOnRequest (F.IsAlwaysCallable admission.now) (F.post admission.now) query.now run.new) }
    ensures status { IfOk result (λ status. (said : List LineRecord) →
        KeepsAll (nodes_in query.now) run.old.table said →
        HasStatus strict query.now.extras.now said query.now.candidates.now environments.now status) }
    ensures kept { OnOk result (AllZip SamePackage run.new.table run.old.table) }
    ensures text { OnOk result (run.new.text ≡ run.old.text) }
{
    if strict {
        strict_status(alloc, run, query, environments, admission)
    } else {
        Ok(Status::Answered)
    }
}

/// The status of a strict command after the answers for all environments.
fn strict_status<F: Fn(&Version, bool) -> bool>(
    alloc: Global,
    run: &mut Answering<'_, '_>,
    query: &Query<'_>,
    environments: &[MarkerEnvironment],
    admission: &Admission<F>,
) -> Result<Status, AllocError>
    requires { IsReadyOnRequest (F.IsAlwaysCallable admission.now) (F.post admission.now) query.now run.old }
    ensures ready { OnOk result
        (IsReadyOnRequest (F.IsAlwaysCallable admission.now) (F.post admission.now) query.now run.new) }
    ensures status { IfOk result (λ status. (said : List LineRecord) →
        KeepsAll (nodes_in query.now) run.old.table said →
        HasStatus true query.now.extras.now said query.now.candidates.now environments.now status) }
    ensures kept { OnOk result (AllZip SamePackage run.new.table run.old.table) }
    ensures text { OnOk result (run.new.text ≡ run.old.text) }
{
    let mut found = false;
    for environment in environments {
        found = finds_none(alloc, run, query, environment, admission, found)?;
    }
    Ok(Status::of_answer(found))
}

/// Whether one of the rows for an environment is `none`, or one was found before.
fn finds_none<F: Fn(&Version, bool) -> bool>(
    alloc: Global,
    run: &mut Answering<'_, '_>,
    query: &Query<'_>,
    environment: &MarkerEnvironment,
    admission: &Admission<F>,
    found: bool,
) -> Result<bool, AllocError>
    requires { IsReadyOnRequest (F.IsAlwaysCallable admission.now) (F.post admission.now) query.now run.old }
    ensures ready { OnOk result
        (IsReadyOnRequest (F.IsAlwaysCallable admission.now) (F.post admission.now) query.now run.new) }
    ensures finds { IfOk result (λ finds. (said : List LineRecord) →
        KeepsAll (nodes_in query.now) run.old.table said → (rows : List RowRecord)
        × IsAnswer on_request (asks_of (valuation_of environment.now query.now.extras.now) said)
        query.now.candidates.now rows × (finds ≡ (found || has_none rows))) }
    ensures kept { OnOk result (AllZip SamePackage run.new.table run.old.table) }
    ensures text { OnOk result (run.new.text ≡ run.old.text) }
{
    let answer = run.table.answer_among(
        alloc,
        query.interner,
        environment,
        query.extras,
        &mut run.runs,
        admission,
    )?;
    let here = has_none(&answer.rows);
    Ok(found | here)
}
