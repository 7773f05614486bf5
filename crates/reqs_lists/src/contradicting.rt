//! `conflicts`: the lines of a list that contradict each other.

ghost use Rattle.std.specs.Prelude.{◌≡◌, ◌≢◌, ◌≤◌, ◌∷◌, [], List, true, length, map, IfErr};
ghost use Rattle.std.specs.List.{AllZip};
ghost use Rattle.pep508_url.specs.Vars.{Variables};
ghost use Rattle.reqtable_requirements.specs.Asks.{AreOfNodes};
ghost use Rattle.reqtable_requirements.specs.LineReading.{LineRecord};
ghost use Rattle.reqtable_requirements.specs.Requirements.{StandsFor};
ghost use Rattle.reqs_io_faults.specs.declared.fault.Input.TheVariants.{First};
ghost use Rattle.reqs_io_faults.specs.Inputs.{lines_from};
ghost use Rattle.reqs_io_faults.specs.Within.{Bounded};
ghost use Rattle.reqs_lists.specs.Lists.{IsOfLists, AnswersLists, Gives};
ghost use Rattle.reqtable_conflicts.specs.Contradictions.{conflict_record};
ghost use Rattle.reqs_lists.specs.Contradictions.{RunsConflicts, RunsConflictsWithin, RunsConflictsBy};
ghost use Rattle.reqs_lists.specs.Contradictions.{IsConflictsBy, conflicts_status};
ghost use Rattle.reqs_lists.specs.Contradictions.{FindsOrRefuses, HasTooManyWithin};
ghost use Rattle.reqs_lists.specs.Contradictions.{OutgrowsOrCases, ConflictsPass};

use crate::answer::Answer;
use crate::conflict_lines::conflicts_in;
use pep508_tree::Interner;
use pep508_url::Vars;
use reqs_io_faults::{
    Bounds, Excess, Input, RunFault, Status, read_input, requirements_within, write_answer,
};
use reqs_json::Format;
use reqtable_conflicts::Conflict;
use reqtable_requirements::Requirements;
use reqtable_table::TableError;
use std::alloc::Global;
use std::io::{Read, Write};

/// The options of a run.
#[derive(Clone, Copy)]
pub struct Request {
    pub limit: u64,
    pub format: Format,
    pub bounds: Bounds,
    pub strict: bool,
}

/// Reads a list of requirements, and writes a line for each conflict that `reqtable_conflicts::conflicts`
/// finds: the package, and the numbers of the lines that contradict each other when just they apply, as
/// `name 1,3`; and then ` pre` if a specifier of these lines names a pre-release, so that pre-releases would
/// be candidates.
///
/// No plain version, one without a local part that is no post-release, is accepted by all lines of a
/// conflict. Other versions may be: `torch==2.0+cu118` and `torch<=2.0` are written, and both accept
/// 2.0+cu118.
///
/// Lines are in the order of the packages' names, and those of a package in the order of its cases; in the
/// other format they are in one object (`docs/COMMANDS.md`). The list is read whole, and the whole text is
/// made before the first write.
///
/// # Errors
///
/// A `RunFault` for a list that can't be read whole or is invalid, and then `RunFault::TooManyCases` for the
/// first package by name that has more cases than `limit`; nothing is written then. `RunFault::Memory` when
/// memory runs out, before the first write. `RunFault::Write` if the output fails.
pub fn conflicts<R: Read, W: Write>(
    alloc: Global,
    requirements: &mut R,
    vars: &Vars,
    limit: u64,
    format: Format,
    output: &mut W,
) -> Result<Status, RunFault>
    ensures runs { RunsConflicts format limit vars.now (R.remaining requirements.old)
        W.contents output.old output.new result }
    // A refused command has written nothing.
    ensures unwritten { IfErr result (λ fault. fault ≢ RunFault.Write → output.new ≡ output.old) }
{
    let mut interner = Interner::new(alloc);
    let none = Bounds::none();
    // (says that there are no more nodes than a number can count)
    let _ = interner.node_count();
    match conflicts_within(
        alloc,
        requirements,
        vars,
        limit,
        format,
        none,
        &mut interner,
        output,
    ) {
        Ok(status) => Ok(status),
        Err(fault) => Err(fault.unbounded()),
    }
}

/// Writes the conflicts of a list as `conflicts` does, unless that passes a bound. Only the bounds on nodes
/// and cases matter.
///
/// The trees are made in `interner`, best a fresh one by `Interner::with_most(alloc, bounds.nodes)`, which
/// also stops in the middle of a tree.
///
/// # Errors
///
/// Those of `conflicts`; and in `RunFault::TooMany`, once the whole list is known to be valid,
/// `Excess::NodesAt` for the first line after whose tree there are more than `bounds.nodes` nodes, or
/// `Excess::Nodes` if there are more once the cases are made; and otherwise `Excess::Cases` only if the
/// packages up to some package, by name, have more than `bounds.cases` cases together, and none before it has
/// more than `limit`, as `reqtable_conflicts::conflicts_within` counts them. Nothing is written then.
pub fn conflicts_within<R: Read, W: Write>(
    alloc: Global,
    requirements: &mut R,
    vars: &Vars,
    limit: u64,
    format: Format,
    bounds: Bounds,
    interner: &mut Interner,
    output: &mut W,
) -> Result<Status, RunFault>
    requires { length interner.old.nodes ≤ bounds.nodes }
    ensures runs { RunsConflictsWithin bounds interner.new.nodes format limit vars.now
        (R.remaining requirements.old) W.contents output.old output.new result }
    // A refused command has written nothing.
    ensures unwritten { IfErr result (λ fault. fault ≢ RunFault.Write → output.new ≡ output.old) }
{
    let request = Request {
        limit,
        format,
        bounds,
        strict: false,
    };
    conflicts_by(alloc, requirements, vars, request, interner, output)
}

/// Writes the conflicts of a list as `conflicts_within` does, and ends with `Status::Unsatisfied` if there
/// are any.
///
/// # Errors
///
/// Those of `conflicts_within`.
pub fn conflicts_strict<R: Read, W: Write>(
    alloc: Global,
    requirements: &mut R,
    vars: &Vars,
    limit: u64,
    format: Format,
    bounds: Bounds,
    interner: &mut Interner,
    output: &mut W,
) -> Result<Status, RunFault>
    requires { length interner.old.nodes ≤ bounds.nodes }
    ensures runs { RunsConflictsBy true bounds interner.new.nodes format limit vars.now
        (R.remaining requirements.old) W.contents output.old output.new result }
    // A refused command has written nothing.
    ensures unwritten { IfErr result (λ fault. fault ≢ RunFault.Write → output.new ≡ output.old) }
{
    let request = Request {
        limit,
        format,
        bounds,
        strict: true,
    };
    conflicts_by(alloc, requirements, vars, request, interner, output)
}

/// Writes the conflicts of a list.
fn conflicts_by<R: Read, W: Write>(
    alloc: Global,
    requirements: &mut R,
    vars: &Vars,
    request: Request,
    interner: &mut Interner,
    output: &mut W,
) -> Result<Status, RunFault>
    requires { length interner.old.nodes ≤ request.bounds.nodes }
    ensures runs { RunsConflictsBy request.strict request.bounds interner.new.nodes request.format
        request.limit vars.now (R.remaining requirements.old) W.contents output.old output.new result }
    ensures unwritten { IfErr result (λ fault. fault ≢ RunFault.Write → output.new ≡ output.old) }
{
    let mut requirements = read_input(alloc, Input::First, requirements)?;
    let answer = conflicts_answer(alloc, &mut requirements, vars, request, interner)?;
    write_answer(output, answer.text.as_str(), answer.status)
}

/// The answer on a list. Drops its bytes once they are parsed.
fn conflicts_answer(
    alloc: Global,
    requirements: &mut Vec<u8>,
    vars: &Vars,
    request: Request,
    interner: &mut Interner,
) -> Result<Answer, RunFault>
    requires { length interner.old.nodes ≤ request.bounds.nodes }
    ensures { Bounded (AnswersLists (IsOfLists vars.now (requirements.old.items ∷ []))
        (IsConflictsBy request.strict request.format request.limit request.bounds.cases)
        (HasTooManyWithin request.limit request.bounds.cases)
        (lines_from vars.now First requirements.old.items))
        (length interner.new.nodes ≤ request.bounds.nodes)
        (ConflictsPass request.bounds interner.new.nodes request.limit vars.now
        (requirements.old.items ∷ [])) result }
{
    let most = request.bounds.nodes;
    let first = Input::First;
    let requirements = requirements_within(alloc, first, requirements, interner, vars, most)?;
    conflicts_of(alloc, &requirements, interner, request)
}

/// The answer on a parsed list, which was read with this interner.
///
/// # Errors
///
/// Those of `conflicts_within` for a list that is valid.
pub fn conflicts_of(
    alloc: Global,
    requirements: &Requirements,
    interner: &mut Interner,
    request: Request,
) -> Result<Answer, RunFault>
    requires { AreOfNodes interner.old.nodes requirements.now }
    ensures { (vars : Variables) (said : List LineRecord) →
        AllZip (StandsFor vars interner.old.nodes) requirements.now said →
        Bounded (Gives
        (IsConflictsBy request.strict request.format request.limit request.bounds.cases)
        (HasTooManyWithin request.limit request.bounds.cases) said)
        (length interner.new.nodes ≤ request.bounds.nodes)
        (OutgrowsOrCases request.bounds interner.new.nodes request.limit said) result }
{
    let limit = request.limit;
    let conflicts = found_within(alloc, requirements, interner, limit, request.bounds)?;
    let status = conflicts_status(request.strict, &conflicts);
    let text = conflicts_in(alloc, request.format, &conflicts)?;
    Ok(Answer { status, text })
}

/// The status after these conflicts.
fn conflicts_status(strict: bool, conflicts: &[Conflict]) -> Status
    ensures { result ≡ conflicts_status strict (map conflict_record conflicts.now) }
{
    match conflicts.split_first() {
        Some(_) => Status::of_answer(strict),
        None => Status::Answered,
    }
}

/// The conflicts of a parsed list.
fn found_within(
    alloc: Global,
    requirements: &Requirements,
    interner: &mut Interner,
    limit: u64,
    bounds: Bounds,
) -> Result<Vec<Conflict>, RunFault>
    requires { AreOfNodes interner.old.nodes requirements.now }
    ensures { (vars : Variables) (said : List LineRecord) →
        AllZip (StandsFor vars interner.old.nodes) requirements.now said →
        Bounded (FindsOrRefuses limit bounds.cases said) (length interner.new.nodes ≤ bounds.nodes)
        (OutgrowsOrCases bounds interner.new.nodes limit said) result }
{
    let nodes = bounds.nodes;
    let cases = bounds.cases;
    let found = reqtable_conflicts::conflicts_within(alloc, requirements, interner, limit, cases);
    if interner.node_count() > nodes {
        return Err(RunFault::TooMany(Excess::Nodes { most: nodes }));
    }
    match found {
        Ok(conflicts) => Ok(conflicts),
        Err(TableError::TooManyCases { package }) => Err(RunFault::TooManyCases {
            input: Input::First,
            limit,
            package,
        }),
        Err(TableError::TooManyCasesInAll) => Err(RunFault::TooMany(Excess::Cases {
            input: Input::First,
            most: cases,
        })),
        Err(TableError::Memory) => Err(RunFault::Memory),
    }
}
