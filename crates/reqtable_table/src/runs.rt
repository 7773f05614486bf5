//! The candidates of a table's packages, which are found once for all environments, and the outcomes of their
//! cases, each of which is decided once.
//!
//! A search by name for each package and environment would take longer than everything else that an answer
//! does. The candidates are borrowed from `Ordered`, so the table keeps none. What a case selects rests on
//! its lines, the candidates and the admission test alone, so all environments of the case share it. It is
//! kept here and not in the table, which serves other candidates and tests too; that the test is the one by
//! which the rest was decided is a condition (`AreTold`).

ghost use Rattle.std.specs.Prelude.{◌≡◌, ℕ, get_or, set, Some, None, IfOk};
ghost use Rattle.reqtable_table.specs.Runs.{AreRunsOf, AreUntold};

use crate::table::Table;
use reqtable_answer::Outcome;
use reqtable_candidates::Ordered;
use reqtable_search::Run;
use std::alloc::{AllocError, Global};
use std::marker::Model;

/// The known outcomes of a package, by the indices of its cases; `None` for a case that wasn't decided yet.
#[derive(Drop)]
pub(crate) struct Told {
    pub(crate) outcomes: Vec<Option<Outcome>>,
}

/// The candidates of each package of a table, and the outcomes of the cases that were decided so far.
#[derive(Drop)]
pub struct Runs<'o, 'a> {
    pub(crate) ordered: &'o Ordered<'a>,
    pub(crate) runs: Vec<Run<'o, 'a>>,
    pub(crate) told: Vec<Told>,
}

impl<'o, 'a> Model for Runs<'o, 'a> {
    ghost use Rattle.reqtable_table.specs.Owns.{runs_of};
    ghost use Rattle.reqtable_table.specs.Runs.{RunsRecord, AreOrdered};

    ghost Value = { RunsRecord };

    ghost view = { λ r. runs_of r.ordered.now r.runs.items r.told.items };

    ghost invariant = { λ r. AreOrdered r.ordered.now.candidates r.ordered.now.placed };
}

impl Table {
    /// The candidates of each package of the table, for `answer_among`, without any known outcome. For n
    /// packages and m candidates that are O(n log m) comparisons of names, and each candidate of these
    /// packages is visited twice. Needs memory for each package and each case, and for one index per
    /// candidate with a local part or a post-release.
    ///
    /// # Errors
    ///
    /// `AllocError` when memory runs out.
    pub fn runs<'o, 'a>(
        &self,
        alloc: Global,
        ordered: &'o Ordered<'a>,
    ) -> Result<Runs<'o, 'a>, AllocError>
        ensures candidates { IfOk result (λ runs. runs.candidates ≡ ordered.now.candidates) }
        ensures are { IfOk result (λ runs. AreRunsOf self.now runs) }
        ensures untold { IfOk result AreUntold }
    {
        let _ = ordered.placed();
        let mut runs = Vec::with_capacity(alloc, self.packages.len())?;
        let mut told = Vec::with_capacity(alloc, self.packages.len())?;
        for kept in &self.packages {
            told.push(untold(alloc, kept.cases.len())?)?;
            runs.push(Run::of(alloc, ordered, &kept.name)?)?;
        }
        Ok(Runs {
            ordered,
            runs,
            told,
        })
    }
}

/// The known outcomes of `count` cases before any is decided.
fn untold(alloc: Global, count: usize) -> Result<Told, AllocError>
    ensures { IfOk result (λ told. (place : ℕ) → get_or told.outcomes.items place None ≡ None) }
{
    let mut outcomes = Vec::new(alloc);
    outcomes.resize(count, None)?;
    Ok(Told { outcomes })
}

impl Told {
    /// The outcome of the package in the case at an index, if it is known.
    pub(crate) fn outcome(&self, place: usize) -> Option<Outcome>
        ensures { result ≡ get_or self.now.outcomes.items place None }
    {
        if place < self.outcomes.len() {
            self.outcomes[place]
        } else {
            None
        }
    }

    /// Keeps the outcome of the package in the case at an index.
    pub(crate) fn tell(&mut self, place: usize, outcome: Outcome)
        ensures { self.new.outcomes.items ≡ set self.old.outcomes.items place (Some outcome) }
    {
        if place < self.outcomes.len() {
            self.outcomes[place] = Some(outcome);
        }
    }
}
