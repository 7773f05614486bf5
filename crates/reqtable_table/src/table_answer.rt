//! The answer of a table.
//!
//! `answer` makes all rows anew; `lent` has the calls by which a row that many environments share is made
//! once.

ghost use Rattle.std.specs.Prelude.{◌≡◌, ◌≤◌, ◌<◌, ◌+◌, List, [], length, map, get_or, option_map, All, IfOk};
ghost use Rattle.std.specs.Prelude.{IfSome};
ghost use Rattle.std.specs.List.{AllZip, AllByRecursion};
ghost use Rattle.pep508_evaluation.specs.Valuations.{valuation_of};
ghost use Rattle.pep508_tree.specs.Meaning.{NodeRecord, Extends};
ghost use Rattle.reqtable_answer.specs.Admission.{Admits, AnswersBy};
ghost use Rattle.reqtable_answer.specs.Answer.{IsAnswer};
ghost use Rattle.reqtable_answer.specs.Rows.{row_seen, IsTakenBelow};
ghost use Rattle.reqtable_requirements.specs.Asks.{asks_of};
ghost use Rattle.reqtable_requirements.specs.LineReading.{LineRecord};
ghost use Rattle.reqtable_table.specs.Answers.{most_tests_in, most_tests_of};
ghost use Rattle.reqtable_table.specs.Answers.{IsRowIf, LiesIn, SamePackage};
ghost use Rattle.reqtable_table.specs.Cases.{HasItsCases};
ghost use Rattle.reqtable_table.specs.Counts.{all_tests};
ghost use Rattle.reqtable_table.specs.Kept.{KeepsAll, KeptPackage};
ghost use Rattle.reqtable_table.specs.Lasting.{StillServes};
ghost use Rattle.reqtable_table.specs.Runs.{AreRunsOf, AreTold, IsToldIn};
ghost use Rattle.reqtable_table.specs.Standing.{IsTable};

use crate::row::rows_of;
use crate::runs::Runs;
use crate::table::Table;
use pep440_version::Version;
use pep508_environment::MarkerEnvironment;
use pep508_name::ExtraName;
use pep508_tree::Interner;
use reqtable_answer::{Admission, Answer};
use reqtable_candidates::Candidates;
use reqtable_marker_cache::Setting;
use std::alloc::{AllocError, Global};

impl Table {
    /// The answer for the lines that the table was built from, in an environment with extras. Equals that of
    /// `Requirements::judge`.
    ///
    /// `interner` is the one that the table was built with. Sorts the candidates, finds those of each
    /// package, and answers as `answer_among` does.
    ///
    /// # Errors
    ///
    /// `AllocError` when memory runs out.
    pub fn answer<F: Fn(&Version, bool) -> bool>(
        &mut self,
        alloc: Global,
        interner: &Interner,
        environment: &MarkerEnvironment,
        extras: &[ExtraName],
        candidates: &Candidates,
        admission: &Admission<F>,
    ) -> Result<Answer, AllocError>
        requires callable { F.IsAlwaysCallable admission.now }
        requires cases { AllByRecursion (HasItsCases interner.now.nodes) self.old }
        ensures answered { IfOk result (λ answer. (said : List LineRecord) (admits : Admits) →
            KeepsAll interner.now.nodes self.old said → AnswersBy (F.post admission.now) admits →
            IsAnswer admits (asks_of (valuation_of environment.now extras.now) said) candidates.now
            (map row_seen answer.rows.items)) }
        ensures places { IfOk result (λ answer.
            All (λ row. IsTakenBelow (length candidates.now) row.outcome) answer.rows.items) }
        ensures kept { AllZip SamePackage self.new self.old }
        ensures serves { StillServes interner.now.nodes interner.now.nodes self.old self.new }
        ensures lasts { (later : List NodeRecord) → Extends interner.now.nodes later →
            StillServes interner.now.nodes later self.old self.new }
        ensures tests { all_tests self.new ≤ all_tests self.old
            + most_tests_of interner.now.nodes (valuation_of environment.now extras.now) candidates.now
            self.old }
    {
        let ordered = candidates.in_order(alloc)?;
        let mut runs = self.runs(alloc, &ordered)?;
        self.answer_among(alloc, interner, environment, extras, &mut runs, admission)
    }

    /// The answer in an environment with extras, among the candidates that `runs` found for the packages. The
    /// same `runs` serve any number of environments, if `admission` is always the one with which they were
    /// used before.
    ///
    /// Evaluates each marker once, however many lines have it or its negation, and finds a package's case in
    /// as many steps as the logarithm of its cases. The outcome of a case is decided once, from the highest
    /// version down to the candidate that is selected. For this the case's range is made, if the package has
    /// candidates (`range`). It decides candidates without a local part that are no post-releases, and
    /// post-releases too if no line of the case has `<` or `>`. Those of them that lie between two of its
    /// intervals are skipped together, in as many steps as the logarithms of the number of intervals and of
    /// the package's candidates; each one inside an interval is admitted or not. The specifiers are tested
    /// for all other candidates, or for all candidates if the case has no range: line by line, up to the
    /// first line that rejects the candidate, beginning with the one that rejected the last candidate tested.
    ///
    /// # Errors
    ///
    /// `AllocError` when memory runs out.
    pub fn answer_among<F: Fn(&Version, bool) -> bool>(
        &mut self,
        alloc: Global,
        interner: &Interner,
        environment: &MarkerEnvironment,
        extras: &[ExtraName],
        runs: &mut Runs<'_, '_>,
        admission: &Admission<F>,
    ) -> Result<Answer, AllocError>
        requires callable { F.IsAlwaysCallable admission.now }
        requires cases { AllByRecursion (HasItsCases interner.now.nodes) self.old }
        requires runs { AreRunsOf self.old runs.old }
        requires told { AreTold (F.post admission.now) self.old runs.old }
        ensures answered { IfOk result (λ answer. (said : List LineRecord) (admits : Admits) →
            KeepsAll interner.now.nodes self.old said → AnswersBy (F.post admission.now) admits →
            IsAnswer admits (asks_of (valuation_of environment.now extras.now) said) runs.old.candidates
            (map row_seen answer.rows.items)) }
        ensures places { IfOk result (λ answer.
            All (λ row. IsTakenBelow (length runs.old.candidates) row.outcome) answer.rows.items) }
        ensures kept { AllZip SamePackage self.new self.old }
        ensures serves { StillServes interner.now.nodes interner.now.nodes self.old self.new }
        ensures lasts { (later : List NodeRecord) → Extends interner.now.nodes later →
            StillServes interner.now.nodes later self.old self.new }
        ensures candidates { runs.new.candidates ≡ runs.old.candidates }
        ensures runs { AreRunsOf self.new runs.new }
        ensures told { AreTold (F.post admission.now) self.new runs.new }
        ensures tests { all_tests self.new ≤ all_tests self.old + most_tests_of interner.now.nodes
            (valuation_of environment.now extras.now) runs.old.candidates self.old }
    {
        let setting = Setting::new(interner, environment, extras);
        let packages = &mut self.packages;
        let told = &mut runs.told;
        let rows = rows_of(
            alloc,
            packages,
            self.slots,
            &setting,
            runs.ordered,
            &runs.runs,
            told,
            admission,
        )?;
        Ok(Answer { rows })
    }
}
