//! The row of a package of which a line applies.

ghost use Rattle.std.specs.Prelude.{◌≡◌, ◌≤◌, ◌<◌, ◌+◌, ℕ, ◌++◌, ◌∷◌, []};
ghost use Rattle.std.specs.Prelude.{length, map, get_or, set, option_map, Some, None, All, IfOk, OnOk};
ghost use Rattle.std.specs.Prelude.{IfSome};
ghost use Rattle.std.specs.Option.{option_map_or};
ghost use Rattle.std.specs.List.{AllZip, AllByRecursion};
ghost use Rattle.std.specs.List.Sorted.{IsStrictlySortedBy};
ghost use Rattle.std.specs.Ordering.{nat_cmp};
ghost use Rattle.pep440_range.specs.Agreement.{IsSaid};
ghost use Rattle.reqtable_candidates.specs.Ordered.{placed_seen};
ghost use Rattle.reqtable_answer.specs.Admission.{Admits, AnswersBy};
ghost use Rattle.reqtable_answer.specs.Rows.{row_seen, IsTakenBelow};
ghost use Rattle.pep508_cases.specs.Sets.{marked};
ghost use Rattle.reqtable_marker_cache.specs.Known.{AreKnown};
ghost use Rattle.reqtable_marker_cache.specs.Settings.{nodes_in, valuation_in};
ghost use Rattle.reqtable_table.specs.Answers.{kept_asked, most_tests, most_tests_in, most_tests_of};
ghost use Rattle.reqtable_table.specs.Answers.{AreRowsFor, IsRowIf, SameLine, SamePackage};
ghost use Rattle.reqtable_table.specs.Cases.{HasItsCases};
ghost use Rattle.reqtable_table.specs.Choosing.{case_asks, outcome_in_order, IsCaseFor, IsRowInOrder};
ghost use Rattle.reqtable_table.specs.Counts.{tests_of, all_tests};
ghost use Rattle.reqtable_table.specs.Kept.{KeptCase, KeptPackage};
ghost use Rattle.reqtable_table.specs.declared.table.Case.{Case};
ghost use Rattle.reqtable_table.specs.KeptLines.{line_record, package_record};
ghost use Rattle.reqtable_table.specs.Owns.{own_record, runs_of};
ghost use Rattle.reqtable_table.specs.Runs.{AreOrdered, AreRunsOf, IsTold, AreTold, IsToldIn};
ghost use Rattle.reqtable_table.specs.Standing.{HasItsFlags, IsOfTexts, HasItsLines};

use crate::active_case::{extras_of, mark, place_of};
use crate::case_range::range_at;
use crate::choosing_by_case::{any_marked, chosen};
use crate::kept::TableLine;
use crate::runs::Told;
use crate::table::{Case, Package};
use pep440_version::Version;
use pep508_cases::TreeSet;
use reqtable_answer::{Admission, Outcome, Row};
use reqtable_candidates::Ordered;
use reqtable_marker_cache::{Known, Setting};
use reqtable_search::Run;
use std::alloc::{AllocError, Global};

/// The rows of the packages of which a line applies; `slots` is the number of distinct markers.
pub(crate) fn rows_of<F: Fn(&Version, bool) -> bool>(
    alloc: Global,
    packages: &mut [Package],
    slots: usize,
    setting: &Setting<'_>,
    ordered: &Ordered<'_>,
    runs: &[Run<'_, '_>],
    told: &mut [Told],
    admission: &Admission<F>,
) -> Result<Vec<Row>, AllocError>
    requires callable { F.IsAlwaysCallable admission.now }
    requires lines { AllByRecursion HasItsLines (map package_record packages.old) }
    requires cases { AllByRecursion (HasItsCases (nodes_in setting.now)) (map package_record packages.old) }
    requires ordered { AreOrdered ordered.now.candidates ordered.now.placed }
    requires runs { AreRunsOf (map package_record packages.old) (runs_of ordered.now runs.now told.old) }
    requires told { AreTold (F.post admission.now) (map package_record packages.old)
        (runs_of ordered.now runs.now told.old) }
    ensures rows { IfOk result (λ rows. (admits : Admits) → AnswersBy (F.post admission.now) admits →
        AreRowsFor admits (nodes_in setting.now) (valuation_in setting.now) ordered.now.candidates
        (map package_record packages.old) (map row_seen rows.items)) }
    ensures places { IfOk result (λ rows.
        All (λ row. IsTakenBelow (length ordered.now.candidates) row.outcome) rows.items) }
    ensures kept { AllZip SamePackage (map package_record packages.new) (map package_record packages.old) }
    ensures told { AreTold (F.post admission.now) (map package_record packages.new)
        (runs_of ordered.now runs.now told.new) }
    ensures tests { all_tests (map package_record packages.new) ≤ all_tests (map package_record packages.old)
        + most_tests_of (nodes_in setting.now) (valuation_in setting.now) ordered.now.candidates
        (map package_record packages.old) }
{
    let mut rows = Vec::new(alloc);
    let mut known = Known::new(alloc, slots)?;
    for (index, kept) in packages.iter_mut().enumerate() {
        let row = row_of(
            alloc,
            kept,
            setting,
            &mut known,
            &runs[index],
            &mut told[index],
            admission,
        )?;
        add_row(&mut rows, row)?;
    }
    Ok(rows)
}

/// The row of the package at an index, or `None` if no line of it applies.
pub(crate) fn row_at<F: Fn(&Version, bool) -> bool>(
    alloc: Global,
    packages: &mut [Package],
    index: usize,
    setting: &Setting<'_>,
    ordered: &Ordered<'_>,
    runs: &[Run<'_, '_>],
    told: &mut [Told],
    admission: &Admission<F>,
) -> Result<Option<Row>, AllocError>
    requires within { index < length packages.old }
    requires callable { F.IsAlwaysCallable admission.now }
    requires lines { AllByRecursion HasItsLines (map package_record packages.old) }
    requires cases { AllByRecursion (HasItsCases (nodes_in setting.now)) (map package_record packages.old) }
    requires ordered { AreOrdered ordered.now.candidates ordered.now.placed }
    requires runs { AreRunsOf (map package_record packages.old) (runs_of ordered.now runs.now told.old) }
    requires told { AreTold (F.post admission.now) (map package_record packages.old)
        (runs_of ordered.now runs.now told.old) }
    ensures row { IfOk result (λ row. (admits : Admits) (other : KeptPackage) →
        AnswersBy (F.post admission.now) admits →
        IsRowIf admits (nodes_in setting.now) (valuation_in setting.now) ordered.now.candidates
        (get_or (map package_record packages.old) index other) (option_map row_seen row)) }
    ensures below { IfOk result (λ row.
        IfSome row (λ row. IsTakenBelow (length ordered.now.candidates) row.outcome)) }
    ensures kept { AllZip SamePackage (map package_record packages.new) (map package_record packages.old) }
    ensures told { AreTold (F.post admission.now) (map package_record packages.new)
        (runs_of ordered.now runs.now told.new) }
    ensures tests { (other : KeptPackage) → all_tests (map package_record packages.new)
        ≤ all_tests (map package_record packages.old) + most_tests_in (nodes_in setting.now)
        (valuation_in setting.now) ordered.now.candidates
        (get_or (map package_record packages.old) index other) }
    ensures once { (other : KeptPackage) → IsToldIn (nodes_in setting.now) (valuation_in setting.now)
        (get_or (map package_record packages.old) index other)
        (get_or (runs_of ordered.now runs.now told.old).told index []) →
        all_tests (map package_record packages.new) ≤ all_tests (map package_record packages.old) }
{
    row_of(
        alloc,
        &mut packages[index],
        setting,
        &mut Known::nothing(alloc),
        &runs[index],
        &mut told[index],
        admission,
    )
}

/// Appends a row, if there is one.
fn add_row(rows: &mut Vec<Row>, row: Option<Row>) -> Result<(), AllocError>
    ensures { OnOk result (rows.new.items ≡ rows.old.items ++ option_map_or (λ row. row ∷ []) row []) }
{
    if let Some(row) = row {
        rows.push(row)?;
    }
    Ok(())
}

/// The row of a package from its candidates, or `None` if no line of it applies.
fn row_of<F: Fn(&Version, bool) -> bool>(
    alloc: Global,
    kept: &mut Package,
    setting: &Setting<'_>,
    known: &mut Known,
    own: &Run<'_, '_>,
    told: &mut Told,
    admission: &Admission<F>,
) -> Result<Option<Row>, AllocError>
    requires callable { F.IsAlwaysCallable admission.now }
    requires lines { HasItsLines (package_record kept.old) }
    requires cases { HasItsCases (nodes_in setting.now) (package_record kept.old) }
    requires known { AreKnown (nodes_in setting.now) (valuation_in setting.now) known.old }
    requires said { AllByRecursion (λ c. IsSaid c.1.version) (map placed_seen own.now) }
    requires told { IsTold (F.post admission.now) (package_record kept.old) (own_record own.now told.old) }
    ensures row { IfOk result (λ row. (admits : Admits) → AnswersBy (F.post admission.now) admits →
        IsRowInOrder admits (nodes_in setting.now) (valuation_in setting.now) (map placed_seen own.now)
        (package_record kept.old) (option_map row_seen row)) }
    ensures below { IfOk result (λ row. (count : ℕ) →
        AllByRecursion (λ c. c.0 < count) (map placed_seen own.now) →
        IfSome row (λ row. IsTakenBelow count row.outcome)) }
    ensures same { SamePackage (package_record kept.new) (package_record kept.old) }
    ensures told { IsTold (F.post admission.now) (package_record kept.old) (own_record own.now told.new) }
    ensures known { AreKnown (nodes_in setting.now) (valuation_in setting.now) known.new }
    ensures tests { tests_of (map line_record kept.new.lines.items)
        ≤ tests_of (map line_record kept.old.lines.items)
        + most_tests (kept_asked (nodes_in setting.now) (valuation_in setting.now)
        (map line_record kept.old.lines.items)) (map placed_seen own.now) }
    ensures once { IsToldIn (nodes_in setting.now) (valuation_in setting.now) (package_record kept.old)
        told.old.outcomes.items →
        tests_of (map line_record kept.new.lines.items) ≤ tests_of (map line_record kept.old.lines.items) }
{
    let mut marks = Vec::new(alloc);
    mark(&mut marks, &kept.lines, setting, known)?;
    if !marks.contains(&true) {
        return Ok(None);
    }
    let mut set = TreeSet::new(alloc);
    let place = place_of(kept, &marks, &mut set)?;
    let name = kept.name.try_clone(alloc)?;
    let extras = extras_of(alloc, &kept.lines, &marks)?;
    match outcome_in(alloc, kept, &marks, place, own, told, admission) {
        Ok(outcome) => Ok(Some(Row {
            package: name,
            extras,
            outcome,
        })),
        Err(error) => Err(error),
    }
}

/// The outcome of a package in the case at an index, whose lines are marked: the known one, or decided if
/// there is none.
#[tactic(auto, using(crate::proofs::Told::told_outcome, crate::proofs::AskedLines::same_all))]
fn outcome_in<F: Fn(&Version, bool) -> bool>(
    alloc: Global,
    kept: &mut Package,
    marks: &[bool],
    place: usize,
    own: &Run<'_, '_>,
    told: &mut Told,
    admission: &Admission<F>,
) -> Result<Outcome, AllocError>
    requires callable { F.IsAlwaysCallable admission.now }
    requires lines { HasItsLines (package_record kept.old) }
    requires marks { length marks.now ≡ length kept.old.lines.items }
    requires within { place < length kept.old.cases.items }
    requires numbers { (other : KeptCase) → (get_or (package_record kept.old).cases place other).numbers
        ≡ map (λ line. line.number) (marked marks.now (package_record kept.old).lines) }
    requires asked { (other : Case) → IsCaseFor marks.now (map line_record kept.old.lines.items)
        (get_or kept.old.cases.items place other) }
    requires said { AllByRecursion (λ c. IsSaid c.1.version) (map placed_seen own.now) }
    requires told { IsTold (F.post admission.now) (package_record kept.old) (own_record own.now told.old) }
    ensures outcome { IfOk result (λ outcome. (admits : Admits) → AnswersBy (F.post admission.now) admits →
        outcome ≡ outcome_in_order admits (case_asks marks.now (map line_record kept.old.lines.items))
        (map placed_seen own.now)) }
    ensures below { IfOk result (λ outcome. (count : ℕ) →
        AllByRecursion (λ c. c.0 < count) (map placed_seen own.now) → IsTakenBelow count outcome) }
    ensures same { SamePackage (package_record kept.new) (package_record kept.old) }
    ensures told { IsTold (F.post admission.now) (package_record kept.old) (own_record own.now told.new) }
    ensures tests { tests_of (map line_record kept.new.lines.items)
        ≤ tests_of (map line_record kept.old.lines.items)
        + most_tests (case_asks marks.now (map line_record kept.old.lines.items)) (map placed_seen own.now) }
    ensures once { (get_or told.old.outcomes.items place None ≡ None → ⊥) →
        tests_of (map line_record kept.new.lines.items) ≤ tests_of (map line_record kept.old.lines.items) }
{
    match told.outcome(place) {
        Some(outcome) => Ok(outcome),
        None => decided(alloc, kept, marks, place, own, told, admission),
    }
}

/// The outcome of a package in the case at an index, whose lines are marked: decided, and kept in `told`.
fn decided<F: Fn(&Version, bool) -> bool>(
    alloc: Global,
    kept: &mut Package,
    marks: &[bool],
    place: usize,
    own: &Run<'_, '_>,
    told: &mut Told,
    admission: &Admission<F>,
) -> Result<Outcome, AllocError>
    requires callable { F.IsAlwaysCallable admission.now }
    requires lines { HasItsLines (package_record kept.old) }
    requires marks { length marks.now ≡ length kept.old.lines.items }
    requires within { place < length kept.old.cases.items }
    requires numbers { (other : KeptCase) → (get_or (package_record kept.old).cases place other).numbers
        ≡ map (λ line. line.number) (marked marks.now (package_record kept.old).lines) }
    requires asked { (other : Case) → IsCaseFor marks.now (map line_record kept.old.lines.items)
        (get_or kept.old.cases.items place other) }
    requires said { AllByRecursion (λ c. IsSaid c.1.version) (map placed_seen own.now) }
    requires told { IsTold (F.post admission.now) (package_record kept.old) (own_record own.now told.old) }
    ensures outcome { IfOk result (λ outcome. (admits : Admits) → AnswersBy (F.post admission.now) admits →
        outcome ≡ outcome_in_order admits (case_asks marks.now (map line_record kept.old.lines.items))
        (map placed_seen own.now)) }
    ensures below { IfOk result (λ outcome. (count : ℕ) →
        AllByRecursion (λ c. c.0 < count) (map placed_seen own.now) → IsTakenBelow count outcome) }
    ensures same { SamePackage (package_record kept.new) (package_record kept.old) }
    ensures told { IsTold (F.post admission.now) (package_record kept.old) (own_record own.now told.new) }
    ensures keeps { IfOk result (λ outcome.
        told.new.outcomes.items ≡ set told.old.outcomes.items place (Some outcome)) }
    ensures tests { tests_of (map line_record kept.new.lines.items)
        ≤ tests_of (map line_record kept.old.lines.items)
        + most_tests (case_asks marks.now (map line_record kept.old.lines.items)) (map placed_seen own.now) }
{
    let case = &kept.cases[place];
    match outcome(alloc, &mut kept.lines, marks, case, own, admission) {
        Ok(outcome) => {
            told.tell(place, outcome);
            Ok(outcome)
        }
        Err(error) => Err(error),
    }
}

/// The outcome of a package by its marked lines, which are those of `case`.
fn outcome<F: Fn(&Version, bool) -> bool>(
    alloc: Global,
    lines: &mut [TableLine],
    marks: &[bool],
    case: &Case,
    own: &Run<'_, '_>,
    admission: &Admission<F>,
) -> Result<Outcome, AllocError>
    requires callable { F.IsAlwaysCallable admission.now }
    requires marks { length marks.now ≡ length lines.old }
    requires rising { IsStrictlySortedBy nat_cmp (map (λ line. line.number) (map line_record lines.old)) }
    requires asked { IsCaseFor marks.now (map line_record lines.old) case.now }
    requires flags { AllByRecursion HasItsFlags (map line_record lines.old) }
    requires read { AllByRecursion IsOfTexts (map line_record lines.old) }
    requires said { AllByRecursion (λ c. IsSaid c.1.version) (map placed_seen own.now) }
    ensures outcome { IfOk result (λ outcome. (admits : Admits) → AnswersBy (F.post admission.now) admits →
        outcome ≡ outcome_in_order admits (case_asks marks.now (map line_record lines.old))
        (map placed_seen own.now)) }
    ensures below { IfOk result (λ outcome. (count : ℕ) →
        AllByRecursion (λ c. c.0 < count) (map placed_seen own.now) → IsTakenBelow count outcome) }
    ensures kept { AllZip SameLine (map line_record lines.new) (map line_record lines.old) }
    ensures tests { tests_of (map line_record lines.new) ≤ tests_of (map line_record lines.old)
        + most_tests (case_asks marks.now (map line_record lines.old)) (map placed_seen own.now) }
{
    if any_marked(lines, marks, |line: &TableLine| line.is_url) {
        return Ok(Outcome::Direct);
    }
    if own.len() == 0 {
        return Ok(Outcome::Nothing);
    }
    let numbers = case.lines(alloc)?;
    let range = range_at(alloc, lines, &numbers)?;
    match chosen(alloc, lines, marks, &range, case.pre, own, admission) {
        Ok(Some(place)) => Ok(Outcome::Taken(place)),
        Ok(None) => Ok(Outcome::Nothing),
        Err(error) => Err(error),
    }
}
