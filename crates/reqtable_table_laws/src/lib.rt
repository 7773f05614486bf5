//! Laws about tables, over the definitions that the contracts of `reqtable_table` cite. The functions do
//! nothing: each one's contract is its law.
#![tactic(auto)]

ghost use Rattle.std.specs.Prelude.{◌≡◌, false, ℕ, List, length, map, filter, Option, Some, None};
ghost use Rattle.std.specs.List.{AllZip, AllByRecursion};
ghost use Rattle.std.specs.List.Sorted.{IsStrictlySortedBy};
ghost use Rattle.std.specs.Ordering.{nat_cmp};
ghost use Rattle.version_ranges.specs.Point.{Point};
ghost use Rattle.pep440_version.specs.Record.{VersionRecord};
ghost use Rattle.pep508_diagram.specs.Question.{Valuation};
ghost use Rattle.pep508_tree.specs.Meaning.{NodeRecord, Extends, holds};
ghost use Rattle.pep508_tree.specs.Tree.{Tree};
ghost use Rattle.pep508_cases.specs.Cases.{Marks};
ghost use Rattle.reqtable_candidates.specs.declared.candidates.Candidate.{Candidate};
ghost use Rattle.reqtable_answer.specs.Answer.{Admits, RowRecord, IsAnswer};
ghost use Rattle.reqtable_requirements.specs.Asks.{lines_of, asks_of};
ghost use Rattle.reqtable_requirements.specs.LineReading.{LineRecord};
ghost use Rattle.reqtable_cases.specs.Lines.{is_named, asked_by};
ghost use Rattle.reqtable_cases.specs.Usable.{IsRangeOf};
ghost use Rattle.reqtable_table.specs.Answers.{AreRowsFor, SamePackage};
ghost use Rattle.reqtable_table.specs.Cases.{HasItsCases, IsCaseOfLines, AreCasesOf, cases_under};
ghost use Rattle.reqtable_table.specs.Cases.{IsRenumbered, SameCase};
ghost use Rattle.reqtable_table.specs.Kept.{KeptCase, KeptPackage, KeepsAll, kept_under};
ghost use Rattle.reqtable_table.specs.Numbered.{asks_at};
ghost use Rattle.reqtable_table.specs.Runs.{RunsRecord, AreRunsOf, AreTold, AreUntold};

use pep440_version::Version;
use reqtable_answer::Admission;

/// The cases under a name are those of the lines that the table keeps of it; there are none exactly if no
/// line names it.
pub fn cases_are_those_of_the_lines()
    ensures some { (nodes : List NodeRecord) (table : List KeptPackage) (said : List LineRecord)
        (name : List ℕ) (cases : List KeptCase) → KeepsAll nodes table said →
        AllByRecursion (HasItsCases nodes) table →
        cases_under name table ≡ Some cases → AreCasesOf nodes (lines_of name said) cases }
    ensures none { (nodes : List NodeRecord) (table : List KeptPackage) (said : List LineRecord)
        (name : List ℕ) → KeepsAll nodes table said → cases_under name table ≡ None →
        is_named name said ≡ false }
{}

/// The range of the lines that have a case's numbers, of those that a table keeps of a package, is the range
/// of what the case's lines require.
pub fn ranges_are_those_of_the_lines()
    ensures { (nodes : List NodeRecord) (table : List KeptPackage) (said : List LineRecord) (name : List ℕ)
        (case : KeptCase) (set : Marks × Tree) (range : Option (List (Point VersionRecord))) →
        KeepsAll nodes table said →
        IsStrictlySortedBy nat_cmp (map (λ (line : LineRecord). line.number) said) →
        IsCaseOfLines (lines_of name said) case set →
        IsRangeOf (asks_at case.numbers (kept_under name table)) range →
        IsRangeOf (asked_by set.0 (lines_of name said)) range }
{}

/// An environment with extras has exactly one case of each package: under a valuation the tree of one case
/// holds.
pub fn a_valuation_lies_in_one_case()
    ensures { (nodes : List NodeRecord) (lines : List LineRecord) (cases : List KeptCase) (v : Valuation) →
        AreCasesOf nodes lines cases → length (filter (λ case. holds nodes case.tree v) cases) ≡ 1 }
{}

/// Lines of other packages don't change the cases of a package except for the numbers of its lines.
pub fn other_packages_change_no_case()
    ensures { (nodes : List NodeRecord) (name : List ℕ) (said other : List LineRecord)
        (cases : List KeptCase) → AllZip IsRenumbered (lines_of name said) (lines_of name other) →
        AreCasesOf nodes (lines_of name said) cases →
        (found : List KeptCase) × AreCasesOf nodes (lines_of name other) found × AllZip SameCase cases found }
{}

/// A package's cases remain its cases when nodes are added to the interner.
#[tactic(auto, using(reqtable_table::proofs::Packages::has_kept))]
pub fn cases_are_kept()
    ensures { (old new : List NodeRecord) (kept : KeptPackage) → Extends old new →
        HasItsCases old kept → HasItsCases new kept }
{}

/// When nodes are added to the interner, a table's cases remain its cases, and it keeps the lines that it
/// kept.
pub fn tables_are_kept()
    ensures cases { (old new : List NodeRecord) (table : List KeptPackage) → Extends old new →
        AllByRecursion (HasItsCases old) table → AllByRecursion (HasItsCases new) table }
    ensures lines { (old new : List NodeRecord) (table : List KeptPackage) (said : List LineRecord) →
        Extends old new → KeepsAll old table said → KeepsAll new table said }
{}

/// A table that was queried has the cases that it had and keeps the lines that it kept, and the candidates
/// that were found for it are still those of its packages.
pub fn asking_changes_no_table()
    ensures cases { (nodes : List NodeRecord) (table before : List KeptPackage) →
        AllZip SamePackage table before → AllByRecursion (HasItsCases nodes) before →
        AllByRecursion (HasItsCases nodes) table }
    ensures lines { (nodes : List NodeRecord) (table before : List KeptPackage) (said : List LineRecord) →
        AllZip SamePackage table before → KeepsAll nodes before said → KeepsAll nodes table said }
    ensures runs { (all : RunsRecord) (table before : List KeptPackage) →
        AllZip SamePackage table before → AreRunsOf before all → AreRunsOf table all }
{}

/// What is known of a table's cases under an admission is right if nothing is known yet, and remains so when
/// the table is queried further.
pub fn what_is_told_lasts<F: Fn(&Version, bool) -> bool>(admission: &Admission<F>)
    ensures first { (all : RunsRecord) (table : List KeptPackage) → AreRunsOf table all → AreUntold all →
        AreTold (F.post admission.now) table all }
    ensures later { (all : RunsRecord) (table before : List KeptPackage) →
        AllZip SamePackage table before → AreTold (F.post admission.now) before all →
        AreTold (F.post admission.now) table all }
{
    let _ = admission;
}

/// A row for each package of which a line applies, by what these lines require, is the answer to the
/// applicable lines of the text.
pub fn rows_for_packages_are_the_answer()
    ensures { (nodes : List NodeRecord) (v : Valuation) (table : List KeptPackage) (said : List LineRecord) →
        KeepsAll nodes table said → (admits : Admits) (candidates : List Candidate) (rows : List RowRecord) →
        AreRowsFor admits nodes v candidates table rows → IsAnswer admits (asks_of v said) candidates rows }
{}
