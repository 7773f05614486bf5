//! The answers of a table as a text of pieces, environment after environment.
//!
//! A row's text depends on the package's case alone, so it is made in the first environment of the case,
//! and each other environment takes four bytes for it, or eight with a separator: 1,000 environments take
//! little more memory than one. Room for these is reserved at once, one place for each environment and
//! package, or two, since a list that doubles is in memory twice for a moment and up to half empty; room that
//! is never written takes none of the system's memory. If that reservation is refused, the list grows on
//! demand, so many packages that mostly do not apply are still answered.

ghost use Rattle.std.specs.Prelude.{◌≡◌, ◌≤◌, ◌+◌, List, [], IfOk, OnOk};
ghost use Rattle.std.specs.List.{AllZip, AllByRecursion};
ghost use Rattle.pep508_evaluation.specs.Valuations.{valuation_of};
ghost use Rattle.reqtable_answer.specs.Admission.{Admits, AnswersBy};
ghost use Rattle.reqtable_requirements.specs.Asks.{asks_of};
ghost use Rattle.reqtable_requirements.specs.LineReading.{LineRecord};
ghost use Rattle.reqtable_table.specs.Answers.{most_tests_of, LiesIn, SamePackage};
ghost use Rattle.reqtable_table.specs.Counts.{all_tests};
ghost use Rattle.reqtable_table.specs.Kept.{KeepsAll};
ghost use Rattle.reqtable_table.specs.Standing.{HasItsLines};
ghost use Rattle.reqs_rows.specs.Asked.{nodes_in, valuation_in, candidates_in, format_in};
ghost use Rattle.reqs_rows.specs.Ready.{IsReadyFor, IsReadyIn, KeepsRuns};
ghost use Rattle.reqs_rows.specs.Texts.{HasSeparator, PutsAnswer, PutsRows};

use crate::known::Known;
use crate::row::put_row;
use crate::row_query::{Asked, Query};
use crate::separating::separate;
use pep440_version::Version;
use pep508_environment::MarkerEnvironment;
use reqs_pieces::Pieces;
use reqtable_answer::Admission;
use reqtable_table::lent::places;
use reqtable_table::{Runs, Table};
use std::alloc::{AllocError, Global};

/// What answering changes: the table, the candidates of its packages with the outcomes decided so far, the
/// pieces that are the rows of packages in their cases, and the text of the answers.
#[derive(Drop)]
pub struct Answering<'o, 'a> {
    pub table: Table,
    pub runs: Runs<'o, 'a>,
    pub(crate) known: Vec<Known>,
    pub text: Pieces,
}

impl<'o, 'a> Answering<'o, 'a> {
    /// An empty text and no rows for a table. Reserves memory for `room` occurrences of rows and
    /// separators in the text, if there is that much: so that this many need memory for new rows alone.
    ///
    /// # Errors
    ///
    /// `AllocError` when memory runs out.
    pub fn new(
        alloc: Global,
        table: Table,
        runs: Runs<'o, 'a>,
        room: usize,
    ) -> Result<Answering<'o, 'a>, AllocError>
        ensures table { IfOk result (λ run. run.table ≡ table) }
        ensures runs { IfOk result (λ run. run.runs ≡ runs.entry) }
        ensures known { IfOk result (λ run. run.known.items ≡ []) }
        ensures whole { IfOk result (λ run. run.text.whole ≡ []) }
        ensures separated { IfOk result (λ run. HasSeparator run.text.texts) }
    {
        let mut text = Pieces::new(alloc, room);
        let separator = String::from_str(alloc, ",")?;
        let _ = text.add(separator)?;
        Ok(Answering {
            table,
            runs,
            known: Vec::new(alloc),
            text,
        })
    }

    /// Appends the rows of the table's answer in an environment to the text, each in the query's format, and
    /// separated: as lines what `Answer::text` returns for the answer of `answer_among`, and as objects the
    /// items of `answer_text`'s array.
    ///
    /// Finds the case of each package (`reqtable_table::lent::places`). A row and its text are made in the
    /// first environment with its case; from then on it needs a few steps, and the memory of `Pieces` for one
    /// occurrence, or two where rows are separated. All environments have to use the query and the admission
    /// with which the rows so far were made.
    ///
    /// # Errors
    ///
    /// `AllocError` when memory runs out.
    pub fn put_answer<F: Fn(&Version, bool) -> bool>(
        &mut self,
        alloc: Global,
        query: &Query<'_>,
        environment: &MarkerEnvironment,
        admission: &Admission<F>,
    ) -> Result<(), AllocError>
        requires { IsReadyFor (F.IsAlwaysCallable admission.now) (F.post admission.now) query.now self.old }
        ensures ready { OnOk result
            (IsReadyFor (F.IsAlwaysCallable admission.now) (F.post admission.now) query.now self.new) }
        ensures put { OnOk result ((said : List LineRecord) (admits : Admits) →
            KeepsAll query.now.interner.now.nodes self.old.table said →
            AnswersBy (F.post admission.now) admits →
            PutsAnswer query.now.format admits
            (asks_of (valuation_of environment.now query.now.extras.now) said) query.now.candidates.now
            self.old.text.whole self.new.text.whole) }
        ensures kept { AllZip SamePackage self.new.table self.old.table }
        ensures runs { KeepsRuns (F.post admission.now) self.old self.new }
        ensures tests { all_tests self.new.table ≤ all_tests self.old.table
            + most_tests_of query.now.interner.now.nodes
            (valuation_of environment.now query.now.extras.now) query.now.candidates.now self.old.table }
    {
        let places = places(
            alloc,
            &self.table,
            query.interner,
            environment,
            query.extras,
        )?;
        let asked = Asked {
            interner: query.interner,
            environment,
            extras: query.extras,
            candidates: query.candidates,
            format: query.format,
        };
        put_rows(alloc, self, &places, &asked, admission)
    }
}

/// Appends the rows of all packages to the text, in their active cases, which are at these indices.
fn put_rows<F: Fn(&Version, bool) -> bool>(
    alloc: Global,
    run: &mut Answering<'_, '_>,
    places: &[Option<usize>],
    asked: &Asked<'_>,
    admission: &Admission<F>,
) -> Result<(), AllocError>
    requires lie { AllZip (LiesIn (nodes_in asked.now) (valuation_in asked.now)) run.old.table places.now }
    requires lines { AllByRecursion HasItsLines run.old.table }
    requires ready { IsReadyIn (F.IsAlwaysCallable admission.now) (F.post admission.now) asked.now run.old }
    ensures ready { OnOk result
        (IsReadyIn (F.IsAlwaysCallable admission.now) (F.post admission.now) asked.now run.new) }
    ensures put { OnOk result ((admits : Admits) → AnswersBy (F.post admission.now) admits →
        PutsRows (format_in asked.now) admits (nodes_in asked.now) (valuation_in asked.now)
        (candidates_in asked.now) run.old.table run.old.text.whole run.new.text.whole) }
    ensures kept { AllZip SamePackage run.new.table run.old.table }
    ensures runs { KeepsRuns (F.post admission.now) run.old run.new }
    ensures tests { all_tests run.new.table ≤ all_tests run.old.table + most_tests_of (nodes_in asked.now)
        (valuation_in asked.now) (candidates_in asked.now) run.old.table }
{
    let mut later = false;
    for (index, place) in places.iter().enumerate() {
        later = separate(&mut run.text, asked.format, later, *place)?;
        put_row(alloc, run, index, *place, asked, admission)?;
    }
    Ok(())
}
