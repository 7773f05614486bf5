//! Calls on a table for `reqs`, which writes the answers for many environments: where each package's case
//! lies, and the row of one package. `reqtable` doesn't pass them on.

ghost use Rattle.std.specs.Prelude.{◌≡◌, ◌≤◌, ◌<◌, ◌+◌, List, [], length, get_or, option_map, IfOk, IfSome};
ghost use Rattle.std.specs.List.{AllZip, AllByRecursion};
ghost use Rattle.pep508_evaluation.specs.Valuations.{valuation_of};
ghost use Rattle.pep508_tree.specs.Meaning.{NodeRecord, Extends};
ghost use Rattle.reqtable_answer.specs.Admission.{Admits, AnswersBy};
ghost use Rattle.reqtable_answer.specs.Rows.{row_seen, IsTakenBelow};
ghost use Rattle.reqtable_table.specs.Answers.{most_tests_in, IsRowIf, LiesIn, SamePackage};
ghost use Rattle.reqtable_table.specs.Cases.{HasItsCases};
ghost use Rattle.reqtable_table.specs.Counts.{all_tests};
ghost use Rattle.reqtable_table.specs.Kept.{KeptPackage};
ghost use Rattle.reqtable_table.specs.Lasting.{StillServes};
ghost use Rattle.reqtable_table.specs.Runs.{AreRunsOf, AreTold, IsToldIn};
ghost use Rattle.reqtable_table.specs.Standing.{IsTable};

use crate::active_case::places_of;
use crate::row::row_at;
use crate::runs::Runs;
use crate::table::Table;
use pep440_version::Version;
use pep508_environment::MarkerEnvironment;
use pep508_name::ExtraName;
use pep508_tree::Interner;
use reqtable_answer::{Admission, Row};
use reqtable_marker_cache::Setting;
use std::alloc::{AllocError, Global};

/// The number of packages.
pub fn package_count(table: &Table) -> usize
    ensures { result ≡ length table.now }
{
    table.packages.len()
}

/// For each package the index of its active case in an environment with extras, or `None` where no line
/// of it applies; found as by `answer_among`. Needs memory for the list, and for the lines of one
/// package.
///
/// # Errors
///
/// `AllocError` when memory runs out.
pub fn places(
    alloc: Global,
    table: &Table,
    interner: &Interner,
    environment: &MarkerEnvironment,
    extras: &[ExtraName],
) -> Result<Vec<Option<usize>>, AllocError>
    requires { AllByRecursion (HasItsCases interner.now.nodes) table.now }
    ensures lie { IfOk result (λ places. AllZip
        (LiesIn interner.now.nodes (valuation_of environment.now extras.now)) table.now places.items) }
    ensures stands { IsTable table.now }
{
    let setting = Setting::new(interner, environment, extras);
    places_of(alloc, &table.packages, table.slots, &setting)
}

/// The row of the package at an index in an environment with extras, or `None` if no line of it applies.
/// Equals its row in the answer of `answer_among`, at the cost that is stated there for one package.
///
/// # Errors
///
/// `AllocError` when memory runs out.
pub fn row_among<F: Fn(&Version, bool) -> bool>(
    alloc: Global,
    table: &mut Table,
    index: usize,
    interner: &Interner,
    environment: &MarkerEnvironment,
    extras: &[ExtraName],
    runs: &mut Runs<'_, '_>,
    admission: &Admission<F>,
) -> Result<Option<Row>, AllocError>
    requires within { index < length table.old }
    requires callable { F.IsAlwaysCallable admission.now }
    requires cases { AllByRecursion (HasItsCases interner.now.nodes) table.old }
    requires runs { AreRunsOf table.old runs.old }
    requires told { AreTold (F.post admission.now) table.old runs.old }
    ensures row { IfOk result (λ row. (admits : Admits) (other : KeptPackage) →
        AnswersBy (F.post admission.now) admits →
        IsRowIf admits interner.now.nodes (valuation_of environment.now extras.now) runs.old.candidates
        (get_or table.old index other) (option_map row_seen row)) }
    ensures below { IfOk result (λ row.
        IfSome row (λ row. IsTakenBelow (length runs.old.candidates) row.outcome)) }
    ensures kept { AllZip SamePackage table.new table.old }
    ensures serves { StillServes interner.now.nodes interner.now.nodes table.old table.new }
    ensures lasts { (later : List NodeRecord) → Extends interner.now.nodes later →
        StillServes interner.now.nodes later table.old table.new }
    ensures candidates { runs.new.candidates ≡ runs.old.candidates }
    ensures runs { AreRunsOf table.new runs.new }
    ensures told { AreTold (F.post admission.now) table.new runs.new }
    ensures tests { (other : KeptPackage) → all_tests table.new ≤ all_tests table.old
        + most_tests_in interner.now.nodes (valuation_of environment.now extras.now)
        runs.old.candidates (get_or table.old index other) }
    ensures once { (other : KeptPackage) →
        IsToldIn interner.now.nodes (valuation_of environment.now extras.now)
        (get_or table.old index other) (get_or runs.old.told index []) →
        all_tests table.new ≤ all_tests table.old }
{
    let setting = Setting::new(interner, environment, extras);
    let packages = &mut table.packages;
    let told = &mut runs.told;
    row_at(
        alloc,
        packages,
        index,
        &setting,
        runs.ordered,
        &runs.runs,
        told,
        admission,
    )
}
