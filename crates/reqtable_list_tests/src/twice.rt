//! Types that are kept over several calls, each used twice, proved from the public contracts and laws. For
//! tables that is in `reqtable_tests/src/again.rt`.

ghost use Rattle.std.specs.Prelude.{◌≡◌, ◌&&◌, [], List, IfOk, map};
ghost use Rattle.std.specs.List.{AllZip};
ghost use Rattle.version_ranges.specs.Point.{Point};
ghost use Rattle.version_ranges.specs.Held.{holds_at};
ghost use Rattle.pep440_version.specs.Record.{VersionRecord};
ghost use Rattle.pep440_version.specs.Order.{version_cmp};
ghost use Rattle.pep440_specifier_list.specs.Lists.{asked, counted};
ghost use Rattle.pep508_evaluation.specs.Valuations.{valuation_of};
ghost use Rattle.pep508_formula.specs.Postfix.{formula_of};
ghost use Rattle.pep508_marker_parser.specs.MarkerOutcome.{IsTreeOf};
ghost use Rattle.pep508_url.specs.Vars.{Variables};
ghost use Rattle.reqtable_answer.specs.Admission.{Admits, AnswersBy};
ghost use Rattle.reqtable_answer.specs.Answer.{IsAnswer};
ghost use Rattle.reqtable_answer.specs.Rows.{row_seen};
ghost use Rattle.reqtable_requirements.specs.Asks.{AreOfNodes, asks_of};
ghost use Rattle.reqtable_requirements.specs.LineReading.{LineRecord};
ghost use Rattle.reqtable_requirements.specs.Requirements.{StandsFor};

use pep440_specifier_list::CountedSpecifiers;
use pep440_version::Version;
use pep508_environment::MarkerEnvironment;
use pep508_formula::MarkerFormula;
use pep508_marker_parser::tree_of;
use pep508_tree::{Interner, MarkerTree};
use pep508_tree_laws::earlier_trees_keep;
use pep508_url::Vars;
use reqtable_answer::{Admission, Answer};
use reqtable_candidates::Candidates;
use reqtable_requirements::Requirements;
use reqtable_requirements::laws::lines_last_while_nodes_are_added;
use std::alloc::{AllocError, Global};
use version_ranges::Ranges;

/// The trees of two formulas, made one after the other in one interner.
fn two_trees(
    alloc: Global,
    interner: &mut Interner,
    one: &MarkerFormula,
    other: &MarkerFormula,
) -> Result<(MarkerTree, MarkerTree), AllocError>
    ensures first { IfOk result (λ trees. IsTreeOf interner.new.nodes trees.0 (formula_of one.now)) }
    ensures second { IfOk result (λ trees. IsTreeOf interner.new.nodes trees.1 (formula_of other.now)) }
{
    earlier_trees_keep();
    let first = tree_of(alloc, interner, one)?;
    let second = tree_of(alloc, interner, other)?;
    Ok((first, second))
}

/// The answers to requirements in two environments among the same candidates, with another list read by their
/// interner in between.
fn judged_twice<F: Fn(&Version, bool) -> bool>(
    alloc: Global,
    requirements: &Requirements,
    interner: &mut Interner,
    lines: &str,
    environments: (&MarkerEnvironment, &MarkerEnvironment),
    candidates: &Candidates,
    admission: &Admission<F>,
) -> Result<(Answer, Answer), AllocError>
    requires trees { AreOfNodes interner.old.nodes requirements.now }
    requires callable { F.IsAlwaysCallable admission.now }
    ensures first { IfOk result (λ both. (vars : Variables) (said : List LineRecord) (admits : Admits) →
        AllZip (StandsFor vars interner.old.nodes) requirements.now said →
        AnswersBy (F.post admission.now) admits →
        IsAnswer admits (asks_of (valuation_of environments.entry.0.now []) said) candidates.now
        (map row_seen both.0.rows.items)) }
    ensures second { IfOk result (λ both. (vars : Variables) (said : List LineRecord) (admits : Admits) →
        AllZip (StandsFor vars interner.old.nodes) requirements.now said →
        AnswersBy (F.post admission.now) admits →
        IsAnswer admits (asks_of (valuation_of environments.entry.1.now []) said) candidates.now
        (map row_seen both.1.rows.items)) }
{
    lines_last_while_nodes_are_added();
    let (one, other) = environments;
    let vars = Vars::new(alloc, &[], "/w")?;
    let first = requirements.judge(alloc, interner, one, &[], candidates, admission)?;
    let _ = Requirements::parse(alloc, lines.as_bytes(), interner, &vars);
    let second = requirements.judge(alloc, interner, other, &[], candidates, admission)?;
    Ok((first, second))
}

/// How many specifiers were tested once a list was asked of two versions.
fn tests_of_both(
    alloc: Global,
    list: &mut CountedSpecifiers,
    first: &Version,
    second: &Version,
) -> Result<u64, AllocError>
    ensures { IfOk result (λ tests. tests
        ≡ (counted (counted list.old (asked list.old.members first.now))
        (asked list.old.members second.now)).tests) }
{
    list.contains_counted(alloc, first)?;
    list.contains_counted(alloc, second)?;
    Ok(list.tests())
}

/// What a set has in common with two others.
fn met_twice(
    alloc: Global,
    set: &Ranges<Version>,
    first: &Ranges<Version>,
    second: &Ranges<Version>,
) -> Result<Ranges<Version>, AllocError>
    ensures { IfOk result (λ met. (point : Point VersionRecord) → holds_at version_cmp met point
        ≡ (holds_at version_cmp set.now point
        && holds_at version_cmp first.now point && holds_at version_cmp second.now point)) }
{
    let one = set.intersection(alloc, first)?;
    let other = set.intersection(alloc, second)?;
    one.intersection(alloc, &other)
}
