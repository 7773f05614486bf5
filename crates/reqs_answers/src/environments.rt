//! The answers of a table for many environments, one after another.
//!
//! Both formats go the same way: a row's text is made once for its case, by `reqs_json::row_text`, and
//! `frames.rt` has what stands around the rows of an environment.

ghost use Rattle.std.specs.Prelude.{◌≡◌, [], List, IfOk, OnOk};
ghost use Rattle.std.specs.List.{AllZip, AllByRecursion};
ghost use Rattle.reqtable_requirements.specs.LineReading.{LineRecord};
ghost use Rattle.reqtable_table.specs.Answers.{SamePackage};
ghost use Rattle.reqtable_table.specs.Cases.{HasItsCases};
ghost use Rattle.reqtable_table.specs.Kept.{KeepsAll};
ghost use Rattle.reqs_answers.specs.Check.{on_request};
ghost use Rattle.reqs_answers.specs.Matrix.{IsMatrixIn, HasStatus};
ghost use Rattle.reqs_answers.specs.Ready.{nodes_in, IsReadyOnRequest, PutsEnvironment};

use crate::admitting::is_admitted;
use crate::frames::{put_closing, put_foot, put_head, put_opening};
use crate::missing::answers_status;
use pep440_version::Version;
use pep508_environment::MarkerEnvironment;
use reqs_io_faults::Status;
use reqs_json::Format;
use reqs_pieces::Pieces;
use reqs_rows::{Answering, Query};
use reqtable_answer::Admission;
use reqtable_table::Table;
use reqtable_table::lent::package_count;
use std::alloc::{AllocError, Global};

/// The text of all answers, and the status with which the command ends after it.
#[derive(Drop)]
pub(crate) struct Judged {
    pub(crate) status: Status,
    pub(crate) text: Pieces,
}

/// The answers of a table for all environments.
pub(crate) fn answers_text(
    alloc: Global,
    table: Table,
    query: &Query<'_>,
    environments: &[MarkerEnvironment],
    strict: bool,
) -> Result<Judged, AllocError>
    requires { AllByRecursion (HasItsCases (nodes_in query.now)) table }
    ensures text { IfOk result (λ judged. (said : List LineRecord) →
        KeepsAll (nodes_in query.now) table said →
        IsMatrixIn query.now.format on_request query.now.extras.now said query.now.candidates.now
        environments.now judged.text.whole) }
    ensures status { IfOk result (λ judged. (said : List LineRecord) →
        KeepsAll (nodes_in query.now) table said →
        HasStatus strict query.now.extras.now said query.now.candidates.now environments.now
        judged.status) }
{
    let ordered = query.candidates.in_order(alloc)?;
    let runs = table.runs(alloc, &ordered)?;
    let room = room_for(query.format, package_count(&table), environments.len());
    let mut run = Answering::new(alloc, table, runs, room)?;
    let admission = Admission::new(|version, named| is_admitted(version, named));
    let status = answers_status(alloc, &mut run, query, environments, &admission, strict)?;
    put_answers(alloc, &mut run, query, environments, &admission)?;
    let text = run.text;
    Ok(Judged { status, text })
}

/// The most pieces that the answers for these numbers of packages and environments can have, or the greatest
/// number on overflow.
fn room_for(format: Format, packages: usize, environments: usize) -> usize {
    let rows = match format {
        Format::Text => packages,
        Format::Json => packages.saturating_mul(2),
    };
    rows.saturating_add(2)
        .saturating_mul(environments)
        .saturating_add(2)
}

/// Appends the answers for all environments to an empty text.
fn put_answers<F: Fn(&Version, bool) -> bool>(
    alloc: Global,
    run: &mut Answering<'_, '_>,
    query: &Query<'_>,
    environments: &[MarkerEnvironment],
    admission: &Admission<F>,
) -> Result<(), AllocError>
    requires ready { IsReadyOnRequest (F.IsAlwaysCallable admission.now) (F.post admission.now)
        query.now run.old }
    requires empty { run.old.text.whole ≡ [] }
    ensures { OnOk result ((said : List LineRecord) → KeepsAll (nodes_in query.now) run.old.table said →
        IsMatrixIn query.now.format on_request query.now.extras.now said query.now.candidates.now
        environments.now run.new.text.whole) }
{
    put_opening(alloc, query.format, &mut run.text)?;
    for (place, environment) in environments.iter().enumerate() {
        put_environment(alloc, run, query, environment, place + 1, admission)?;
    }
    put_closing(alloc, query.format, &mut run.text)
}

/// Appends the answer for an environment with this number.
fn put_environment<F: Fn(&Version, bool) -> bool>(
    alloc: Global,
    run: &mut Answering<'_, '_>,
    query: &Query<'_>,
    environment: &MarkerEnvironment,
    number: usize,
    admission: &Admission<F>,
) -> Result<(), AllocError>
    requires { IsReadyOnRequest (F.IsAlwaysCallable admission.now) (F.post admission.now) query.now run.old }
    ensures ready { OnOk result
        (IsReadyOnRequest (F.IsAlwaysCallable admission.now) (F.post admission.now) query.now run.new) }
    ensures put { OnOk result ((said : List LineRecord) → KeepsAll (nodes_in query.now) run.old.table said →
        PutsEnvironment query.now environment.now number said run.old.text.whole run.new.text.whole) }
    ensures kept { OnOk result (AllZip SamePackage run.new.table run.old.table) }
{
    put_head(alloc, query.format, &mut run.text, number)?;
    run.put_answer(alloc, query, environment, admission)?;
    put_foot(alloc, query.format, &mut run.text)
}
