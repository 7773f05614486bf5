//! `matrix`: the answers for many environments, from one table of the requirements.
//!
//! Too many cases refuse a list whatever the environments are, even none, and after all texts are read:
//! that depends on the requirements and the limit alone. The text is stated environment by environment by
//! the very definition by which `check` is stated; that it is what `check` writes is then a law, since an
//! answer has one text.

ghost use Rattle.std.specs.Prelude.{◌≡◌, ◌≢◌, ◌≤◌, List, true, length, map, IfErr};
ghost use Rattle.std.specs.List.{AllZip};
ghost use Rattle.pep508_url.specs.Vars.{Variables};
ghost use Rattle.reqtable_requirements.specs.Asks.{AreOfNodes};
ghost use Rattle.reqtable_requirements.specs.LineReading.{LineRecord};
ghost use Rattle.reqtable_requirements.specs.Requirements.{StandsFor};
ghost use Rattle.reqs_io_faults.specs.declared.fault.Input.TheVariants.{First, Second};
ghost use Rattle.reqs_io_faults.specs.Faults.{IsPlain, IsOfTexts};
ghost use Rattle.reqs_io_faults.specs.Inputs.{environments_from};
ghost use Rattle.reqs_io_faults.specs.Within.{Bounded};
ghost use Rattle.reqs_answers.specs.Matrix.{AreRead, AnswersAll, TablesWithin, RunsMatrix, WritesText};
ghost use Rattle.reqs_answers.specs.Matrix.{IsRead, PassesIn};
ghost use Rattle.reqs_answers.specs.Matrix.{OutgrowsOrOver, unbuilt, RunsMatrixWithin, RunsMatrixBy};
ghost use Rattle.reqs_answers.specs.Texts.{behind_lines, texts_of};

use crate::environments::{Judged, answers_text};
use pep508_name::ExtraName;
use pep508_tree::Interner;
use pep508_url::Vars;
use reqs_io_faults::{
    Bounds, Excess, Input, RunFault, Status, read_candidates, read_environments, read_extras,
    read_input, requirements_within,
};
use reqs_json::Format;
use reqs_pieces::Pieces;
use reqs_rows::Query;
use reqtable_requirements::Requirements;
use reqtable_table::{Table, TableError};
use std::alloc::Global;
use std::io::{Read, Write};

/// The size of the output buffer, in bytes.
const WAITING_BYTES: usize = 65_536;

/// The options of a run.
#[derive(Clone, Copy)]
struct Request {
    limit: u64,
    format: Format,
    bounds: Bounds,
    strict: bool,
}

/// Reads a list of requirements, a list of environments and a list of candidates, and writes for each
/// environment its number, as `env 1`, on a line, and then what `check` writes for it; or one object with the
/// rows of all (`docs/COMMANDS.md`).
///
/// All inputs are read whole, in this order; then the extras are parsed as names, and then each input. Then
/// one table of the requirements is built, by `Table::build`, from which all environments are answered.
/// Before the first write everything is decided, and all memory for writing is allocated: each distinct row
/// is kept once, however many environments have it.
///
/// # Errors
///
/// A `RunFault` for an input that can't be read whole, for the first extra that is not a name, or for the
/// first input that is invalid; then `RunFault::TooManyCases` for the first package by name with more cases
/// than `limit`, whatever the environments are. Nothing is written then. `RunFault::Memory` when memory runs
/// out, before the first write. `RunFault::Write` if the output fails; a prefix of the answers may be written
/// then.
pub fn matrix<L: Read, E: Read, C: Read, W: Write>(
    alloc: Global,
    requirements: &mut L,
    environments: &mut E,
    candidates: &mut C,
    extras: &[&str],
    vars: &Vars,
    limit: u64,
    format: Format,
    output: &mut W,
) -> Result<Status, RunFault>
    ensures runs { RunsMatrix format limit vars.now (map (λ e. e.now) extras.now)
        (L.remaining requirements.old) (E.remaining environments.old) (C.remaining candidates.old)
        W.contents output.old output.new result }
    // A refused command has written nothing.
    ensures unwritten { IfErr result (λ fault. fault ≢ RunFault.Write → output.new ≡ output.old) }
{
    let mut interner = Interner::new(alloc);
    let none = Bounds::none();
    // (says that there are no more nodes than a number can count)
    let _ = interner.node_count();
    match matrix_within(
        alloc,
        requirements,
        environments,
        candidates,
        extras,
        vars,
        limit,
        format,
        none,
        &mut interner,
        output,
    ) {
        Ok(status) => Ok(status),
        Err(fault) => Err(fault.unbounded()),
    }
}

/// Writes the answers for environments as `matrix` does, unless that passes a bound. Only the bounds on nodes
/// and cases matter.
///
/// The trees are made in `interner`, best a fresh one by `Interner::with_most(alloc, bounds.nodes)`, which
/// also stops in the middle of a tree. The table is built by `Table::build_within`, so that no more than
/// `bounds.cases` cases are kept, whatever `limit` is.
///
/// # Errors
///
/// Those of `matrix`; and in `RunFault::TooMany`, once the whole list of requirements is known to be valid,
/// `Excess::NodesAt` for the first line after whose tree there are more than `bounds.nodes` nodes; or, once
/// all texts are, `Excess::Nodes` if there are more once the table is made, and otherwise `Excess::Cases` if
/// the packages up to some package, by name, have more than `bounds.cases` cases together, and none before it
/// has more than `limit`. Where that package has more than `limit` too, the fault is `RunFault::TooManyCases`
/// if those before it leave `limit` cases or more, and otherwise `Excess::Cases`. Nothing is written then.
pub fn matrix_within<L: Read, E: Read, C: Read, W: Write>(
    alloc: Global,
    requirements: &mut L,
    environments: &mut E,
    candidates: &mut C,
    extras: &[&str],
    vars: &Vars,
    limit: u64,
    format: Format,
    bounds: Bounds,
    interner: &mut Interner,
    output: &mut W,
) -> Result<Status, RunFault>
    requires { length interner.old.nodes ≤ bounds.nodes }
    ensures runs { RunsMatrixWithin bounds interner.new.nodes format limit vars.now
        (map (λ e. e.now) extras.now) (L.remaining requirements.old) (E.remaining environments.old)
        (C.remaining candidates.old) W.contents output.old output.new result }
    // A refused command has written nothing.
    ensures unwritten { IfErr result (λ fault. fault ≢ RunFault.Write → output.new ≡ output.old) }
{
    let request = Request {
        limit,
        format,
        bounds,
        strict: false,
    };
    matrix_by(
        alloc,
        requirements,
        environments,
        candidates,
        extras,
        vars,
        request,
        interner,
        output,
    )
}

/// Writes what `matrix_within` writes, and ends with `Status::Unsatisfied` if a row of an environment is
/// `none`. Asks the table for each environment twice.
///
/// # Errors
///
/// Those of `matrix_within`.
pub fn matrix_strict<L: Read, E: Read, C: Read, W: Write>(
    alloc: Global,
    requirements: &mut L,
    environments: &mut E,
    candidates: &mut C,
    extras: &[&str],
    vars: &Vars,
    limit: u64,
    format: Format,
    bounds: Bounds,
    interner: &mut Interner,
    output: &mut W,
) -> Result<Status, RunFault>
    requires { length interner.old.nodes ≤ bounds.nodes }
    ensures runs { RunsMatrixBy true bounds interner.new.nodes format limit vars.now
        (map (λ e. e.now) extras.now) (L.remaining requirements.old) (E.remaining environments.old)
        (C.remaining candidates.old) W.contents output.old output.new result }
    // A refused command has written nothing.
    ensures unwritten { IfErr result (λ fault. fault ≢ RunFault.Write → output.new ≡ output.old) }
{
    let request = Request {
        limit,
        format,
        bounds,
        strict: true,
    };
    matrix_by(
        alloc,
        requirements,
        environments,
        candidates,
        extras,
        vars,
        request,
        interner,
        output,
    )
}

/// Writes the answers, and returns their status.
fn matrix_by<L: Read, E: Read, C: Read, W: Write>(
    alloc: Global,
    requirements: &mut L,
    environments: &mut E,
    candidates: &mut C,
    extras: &[&str],
    vars: &Vars,
    request: Request,
    interner: &mut Interner,
    output: &mut W,
) -> Result<Status, RunFault>
    requires { length interner.old.nodes ≤ request.bounds.nodes }
    ensures runs { RunsMatrixBy request.strict request.bounds interner.new.nodes request.format
        request.limit vars.now (map (λ e. e.now) extras.now) (L.remaining requirements.old)
        (E.remaining environments.old) (C.remaining candidates.old) W.contents output.old output.new result }
    ensures unwritten { IfErr result (λ fault. fault ≢ RunFault.Write → output.new ≡ output.old) }
{
    let mut requirements = read_input(alloc, Input::First, requirements)?;
    let mut environments = read_input(alloc, Input::Second, environments)?;
    let mut candidates = read_input(alloc, Input::Third, candidates)?;
    let judged = matrix_text(
        alloc,
        &mut requirements,
        &mut environments,
        &mut candidates,
        extras,
        vars,
        request,
        interner,
    )?;
    write_text(alloc, &judged.text, judged.status, output)
}

/// Writes the text of all answers through a buffer, which is allocated before the first write.
fn write_text<W: Write>(
    alloc: Global,
    text: &Pieces,
    status: Status,
    output: &mut W,
) -> Result<Status, RunFault>
    ensures { WritesText W.contents output.old output.new text.now.whole status result }
{
    let Ok(buffer) = Vec::with_capacity(alloc, WAITING_BYTES) else {
        return Err(RunFault::Memory);
    };
    let mut buffer = buffer;
    match text.write_through(&mut buffer, output) {
        Ok(()) => Ok(status),
        Err(_) => Err(RunFault::Write),
    }
}

/// All answers. Drops the bytes of each input once they are parsed.
fn matrix_text(
    alloc: Global,
    requirements: &mut Vec<u8>,
    environments: &mut Vec<u8>,
    candidates: &mut Vec<u8>,
    extras: &[&str],
    vars: &Vars,
    request: Request,
    interner: &mut Interner,
) -> Result<Judged, RunFault>
    requires { length interner.old.nodes ≤ request.bounds.nodes }
    ensures { let texts = texts_of (environments_from Second) vars.now (map (λ e. e.now) extras.now)
        requirements.old.items environments.old.items candidates.old.items in
        Bounded (λ judged. AnswersAll (IsOfTexts vars.now First requirements.old.items)
        request.strict request.format request.limit request.bounds.cases judged texts)
        (length interner.new.nodes ≤ request.bounds.nodes)
        (PassesIn request.bounds interner.new.nodes request.limit vars.now requirements.old.items texts)
        result }
{
    let extras = read_extras(alloc, extras)?;
    let requirements = requirements_within(
        alloc,
        Input::First,
        requirements,
        interner,
        vars,
        request.bounds.nodes,
    )?;
    matrix_behind(
        alloc,
        requirements,
        interner,
        &extras,
        environments,
        candidates,
        request,
    )
}

/// All answers for parsed requirements and extras.
fn matrix_behind(
    alloc: Global,
    requirements: Requirements,
    interner: &mut Interner,
    extras: &[ExtraName],
    environments: &mut Vec<u8>,
    candidates: &mut Vec<u8>,
    request: Request,
) -> Result<Judged, RunFault>
    requires { AreRead interner.old.nodes requirements }
    ensures { (vars : Variables) (said : List LineRecord) →
        AllZip (StandsFor vars interner.old.nodes) requirements said →
        let texts = behind_lines (environments_from Second) extras.now said
        environments.old.items candidates.old.items in
        Bounded (λ judged. AnswersAll IsPlain request.strict request.format request.limit
        request.bounds.cases judged texts)
        (length interner.new.nodes ≤ request.bounds.nodes)
        (λ fault. IsRead texts (λ read.
        OutgrowsOrOver request.bounds interner.new.nodes request.limit read.lines fault)) result }
{
    let environments = read_environments(alloc, Input::Second, environments)?;
    let candidates = read_candidates(alloc, Input::Third, candidates)?;
    let table = table_of(alloc, requirements, interner, request.limit, request.bounds)?;
    let query = Query {
        interner,
        extras,
        candidates: &candidates,
        format: request.format,
    };
    match answers_text(alloc, table, &query, &environments, request.strict) {
        Ok(judged) => Ok(judged),
        Err(_) => Err(RunFault::Memory),
    }
}

/// The table of the first input's requirements.
fn table_of(
    alloc: Global,
    requirements: Requirements,
    interner: &mut Interner,
    limit: u64,
    bounds: Bounds,
) -> Result<Table, RunFault>
    requires { AreOfNodes interner.old.nodes requirements }
    ensures { (vars : Variables) (said : List LineRecord) →
        AllZip (StandsFor vars interner.old.nodes) requirements said →
        Bounded (TablesWithin limit bounds.cases interner.new.nodes said)
        (length interner.new.nodes ≤ bounds.nodes) (OutgrowsOrOver bounds interner.new.nodes limit said)
        result }
{
    let most = bounds.nodes;
    let built = Table::build_within(alloc, requirements, interner, limit, bounds.cases);
    if interner.node_count() > most {
        return Err(RunFault::TooMany(Excess::Nodes { most }));
    }
    match built {
        Ok(table) => Ok(table),
        Err(error) => Err(unbuilt(error, limit, bounds.cases)),
    }
}

/// The fault for the first input's requirements of which no table was built.
fn unbuilt(error: TableError, limit: u64, most: u64) -> RunFault
    ensures { result ≡ unbuilt limit most error }
{
    let input = Input::First;
    match error {
        TableError::TooManyCases { package } => RunFault::TooManyCases {
            input,
            limit,
            package,
        },
        TableError::TooManyCasesInAll => RunFault::TooMany(Excess::Cases { input, most }),
        TableError::Memory => RunFault::Memory,
    }
}
