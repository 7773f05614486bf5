//! Answers on a table of requirements where memory runs out as another one is built.

ghost use Rattle.std.specs.Prelude.{IfOk};
ghost use Rattle.std.specs.List.{AllByRecursion};
ghost use Rattle.pep508_tree.specs.Meaning.{Extends};
ghost use Rattle.reqtable_table.specs.Cases.{HasItsCases};

use crate::meant::environment;
use pep440_version::Version;
use pep508_environment::MarkerEnvironment;
use pep508_name::PackageName;
use pep508_tree::Interner;
use pep508_url::Vars;
use reqtable_answer::{Admission, Answer};
use reqtable_candidates::Candidates;
use reqtable_requirements::Requirements;
use reqtable_table::{Case, Table};
use std::alloc::{AllocError, Global};
use std::fmt::Write;

/// The candidates of which a table is asked.
const CANDIDATES: &[u8] = b"foo 1\nfoo 2\n";

/// The most cases of a package.
const LIMIT: u64 = 4096;

/// Returns the answer of a list's table in the environment, and the cases of the package `foo` in the table
/// of another list, which is built by the same interner. Before that it is built once, which may run out of
/// memory; `lost` is the answer if the first table then answers otherwise.
pub fn keeps(alloc: Global, vars: &Vars, lines: &str, other: &str) -> Result<String, AllocError> {
    let mut interner = Interner::new(alloc);
    let table = built(alloc, &mut interner, vars, lines)?;
    beside(alloc, &mut interner, vars, table, other)
}

/// Returns the table of a list. An invalid one is returned as running out of memory, which no question has.
fn built(
    alloc: Global,
    interner: &mut Interner,
    vars: &Vars,
    lines: &str,
) -> Result<Table, AllocError>
    ensures cases { IfOk result (AllByRecursion (HasItsCases interner.new.nodes)) }
    ensures keeps { Extends interner.old.nodes interner.new.nodes }
{
    let Ok(read) = Requirements::parse(alloc, lines.as_bytes(), interner, vars) else {
        return Err(AllocError);
    };
    match Table::build(alloc, read, interner, LIMIT) {
        Ok(table) => Ok(table),
        Err(_) => Err(AllocError),
    }
}

fn beside(
    alloc: Global,
    interner: &mut Interner,
    vars: &Vars,
    table: Table,
    other: &str,
) -> Result<String, AllocError>
    requires { AllByRecursion (HasItsCases interner.old.nodes) table }
{
    let mut table = table;
    let candidates = Candidates::parse(alloc, CANDIDATES).or(Err(AllocError))?;
    let environment = environment(alloc)?;
    told(
        alloc,
        &mut table,
        interner,
        vars,
        &environment,
        &candidates,
        other,
    )
}

fn told(
    alloc: Global,
    table: &mut Table,
    interner: &mut Interner,
    vars: &Vars,
    environment: &MarkerEnvironment,
    candidates: &Candidates,
    other: &str,
) -> Result<String, AllocError>
    requires { AllByRecursion (HasItsCases interner.old.nodes) table.old }
{
    let admission = Admission::new(|_: &Version, _: bool| true);
    let before = table.answer(alloc, interner, environment, &[], candidates, &admission)?;
    let text = before.text(alloc, candidates)?;
    let after = answer_after_building(
        alloc,
        table,
        interner,
        vars,
        other,
        environment,
        candidates,
        &admission,
    )?;
    if before != after {
        return String::from_str(alloc, "lost");
    }
    with_cases(alloc, interner, vars, text.as_str().trim_end(), other)
}

/// Returns a table's answer after the table of another list was built or memory ran out for it.
fn answer_after_building<F: Fn(&Version, bool) -> bool>(
    alloc: Global,
    table: &mut Table,
    interner: &mut Interner,
    vars: &Vars,
    other: &str,
    environment: &MarkerEnvironment,
    candidates: &Candidates,
    admission: &Admission<F>,
) -> Result<Answer, AllocError>
    requires callable { F.IsAlwaysCallable admission.now }
    requires cases { AllByRecursion (HasItsCases interner.old.nodes) table.old }
{
    let _ = table.answer(alloc, interner, environment, &[], candidates, admission)?;
    let _ = built(alloc, interner, vars, other);
    table.answer(alloc, interner, environment, &[], candidates, admission)
}

/// Returns an answer with the cases of the package `foo` in the table of a list.
fn with_cases(
    alloc: Global,
    interner: &mut Interner,
    vars: &Vars,
    answer: &str,
    other: &str,
) -> Result<String, AllocError> {
    let table = built(alloc, interner, vars, other)?;
    let name = PackageName::from_str(alloc, "foo").or(Err(AllocError))?;
    let mut text = format!(in alloc; "{answer} / ")?;
    push_cases(alloc, &mut text, table.cases(&name).unwrap_or(&[]))?;
    Ok(text)
}

/// Appends the numbers of the lines of each case.
fn push_cases(alloc: Global, text: &mut String, cases: &[Case]) -> Result<(), AllocError> {
    for case in cases {
        write!(text, "{:?}", case.lines(alloc)?)?;
    }
    Ok(())
}
