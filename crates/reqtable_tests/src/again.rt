//! A table that is queried more than once, proved from the public contracts and laws.

ghost use Rattle.std.specs.Prelude.{◌≡◌, [], List, IfOk, map};
ghost use Rattle.std.specs.List.{AllByRecursion, AllZip};
ghost use Rattle.pep508_evaluation.specs.Valuations.{valuation_of};
ghost use Rattle.reqtable_answer.specs.Admission.{Admits, AnswersBy};
ghost use Rattle.reqtable_answer.specs.Answer.{IsAnswer};
ghost use Rattle.reqtable_answer.specs.Rows.{row_seen};
ghost use Rattle.reqtable_requirements.specs.Asks.{AreOfNodes, asks_of};
ghost use Rattle.reqtable_requirements.specs.LineReading.{LineRecord};
ghost use Rattle.reqtable_table.specs.Cases.{HasItsCases};
ghost use Rattle.reqtable_table.specs.Kept.{KeepsAll};

use pep440_version::Version;
use pep508_environment::MarkerEnvironment;
use pep508_name::ExtraName;
use pep508_tree::Interner;
use pep508_url::Vars;
use reqtable_answer::{Admission, Answer};
use reqtable_candidates::Candidates;
use reqtable_requirements::Requirements;
use reqtable_table::{Table, TableError};
use reqtable_table_laws::what_is_told_lasts;
use std::alloc::{AllocError, Global};

/// The answers for two environments, one after the other.
fn both_answers<F: Fn(&Version, bool) -> bool>(
    alloc: Global,
    table: &mut Table,
    interner: &Interner,
    environments: (&MarkerEnvironment, &MarkerEnvironment),
    candidates: &Candidates,
    admission: &Admission<F>,
) -> Result<(Answer, Answer), AllocError>
    requires callable { F.IsAlwaysCallable admission.now }
    requires cases { AllByRecursion (HasItsCases interner.now.nodes) table.old }
    ensures first { IfOk result (λ both. (said : List LineRecord) (admits : Admits) →
        KeepsAll interner.now.nodes table.old said → AnswersBy (F.post admission.now) admits →
        IsAnswer admits (asks_of (valuation_of environments.entry.0.now []) said) candidates.now
        (map row_seen both.0.rows.items)) }
    ensures second { IfOk result (λ both. (said : List LineRecord) (admits : Admits) →
        KeepsAll interner.now.nodes table.old said → AnswersBy (F.post admission.now) admits →
        IsAnswer admits (asks_of (valuation_of environments.entry.1.now []) said) candidates.now
        (map row_seen both.1.rows.items)) }
{
    let (one, other) = environments;
    let first = table.answer(alloc, interner, one, &[], candidates, admission)?;
    let second = table.answer(alloc, interner, other, &[], candidates, admission)?;
    Ok((first, second))
}

/// The answers for environments with extras, one after the other, among candidates that were found once: the
/// loop of the first page of `reqtable`.
fn answers_among<F: Fn(&Version, bool) -> bool>(
    alloc: Global,
    table: &mut Table,
    interner: &Interner,
    environments: &[MarkerEnvironment],
    extras: &[ExtraName],
    candidates: &Candidates,
    admission: &Admission<F>,
) -> Result<Vec<Answer>, AllocError>
    requires callable { F.IsAlwaysCallable admission.now }
    requires cases { AllByRecursion (HasItsCases interner.now.nodes) table.old }
    ensures { IfOk result (λ answers. (said : List LineRecord) (admits : Admits) →
        KeepsAll interner.now.nodes table.old said → AnswersBy (F.post admission.now) admits →
        AllZip (λ environment answer. IsAnswer admits (asks_of (valuation_of environment extras.now) said)
        candidates.now (map row_seen answer.rows.items)) environments.now answers.items) }
{
    what_is_told_lasts(admission);
    let ordered = candidates.in_order(alloc)?;
    let mut runs = table.runs(alloc, &ordered)?;
    let mut answers = Vec::new(alloc);
    for environment in environments {
        let answer = table.answer_among(
            alloc,
            interner,
            environment,
            extras,
            &mut runs,
            admission,
        )?;
        answers.push(answer)?;
    }
    Ok(answers)
}

/// The answer after an earlier one, with another list read in between.
fn answer_after_reading<F: Fn(&Version, bool) -> bool>(
    alloc: Global,
    table: &mut Table,
    interner: &mut Interner,
    lines: &str,
    environment: &MarkerEnvironment,
    candidates: &Candidates,
    admission: &Admission<F>,
) -> Result<Answer, AllocError>
    requires callable { F.IsAlwaysCallable admission.now }
    requires cases { AllByRecursion (HasItsCases interner.old.nodes) table.old }
    ensures { IfOk result (λ answer. (said : List LineRecord) (admits : Admits) →
        KeepsAll interner.old.nodes table.old said → AnswersBy (F.post admission.now) admits →
        IsAnswer admits (asks_of (valuation_of environment.now []) said) candidates.now
        (map row_seen answer.rows.items)) }
{
    let vars = Vars::new(alloc, &[], "/w")?;
    let _ = table.answer(alloc, interner, environment, &[], candidates, admission)?;
    let _ = Requirements::parse(alloc, lines.as_bytes(), interner, &vars);
    table.answer(alloc, interner, environment, &[], candidates, admission)
}

/// The number of specifiers tested by a table that wasn't queried yet.
fn tests_at_first(
    alloc: Global,
    requirements: Requirements,
    interner: &mut Interner,
) -> Result<u64, TableError>
    requires { AreOfNodes interner.old.nodes requirements }
    ensures { IfOk result (λ tests. tests ≡ 0) }
{
    let table = Table::build(alloc, requirements, interner, 8)?;
    Ok(table.tests())
}
