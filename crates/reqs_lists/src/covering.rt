//! `covers`: whether one list requires whatever another does, as a lock file should.
//!
//! What `same` can't compare, as a line with a URL or with `===`, is refused here too.

ghost use Rattle.std.specs.Prelude.{◌≡◌, ◌≢◌, ◌≤◌, ◌∷◌, [], List, length, IfErr};
ghost use Rattle.std.specs.List.{AllZip};
ghost use Rattle.pep508_url.specs.Vars.{Variables};
ghost use Rattle.reqtable_requirements.specs.LineReading.{LineRecord};
ghost use Rattle.reqtable_requirements.specs.Requirements.{StandsFor};
ghost use Rattle.reqs_io_faults.specs.Within.{Bounded};
ghost use Rattle.reqs_lists.specs.Lists.{IsOfLists, AreBothRead, AnswersLists, Gives, two_lists};
ghost use Rattle.reqs_lists.specs.Comparison.{CantBeWithin, OutgrowsOrCases};
ghost use Rattle.reqs_lists.specs.Covered.{CoversOrRefuses, CoversPasses, RunsCovers, RunsCoversWithin};
ghost use Rattle.reqs_lists.specs.Covered.{IsFewCovers, OutgrowsOrUncovered};

use crate::answer::Answer;
use crate::comparing::{fault_of, input_of};
use crate::uncovered_lines::{covers_in, uncovered_within};
use pep508_tree::Interner;
use pep508_url::Vars;
use reqs_io_faults::{
    Bounds, Excess, Input, RunFault, Status, read_input, requirements_within, write_answer,
};
use reqs_json::Format;
use reqtable_compare::SameError;
use reqtable_covers::Covers;
use reqtable_requirements::Requirements;
use std::alloc::Global;
use std::io::{Read, Write};

/// Reads two lists of requirements, and writes `yes` if the first, the lock, covers the second: in every
/// environment with any extras it requires each package that the second requires there, with at least those
/// extras, and only versions of their ranges, as decided by `reqtable_covers::covers`. What only the lock
/// requires makes no difference. Otherwise it writes four lines: `no`, the first package that isn't covered,
/// the marker of the first place where it isn't, or `all environments` if that always holds, and the numbers
/// of the second list's lines that apply there, with commas; and ends with `Status::Different`. That marker
/// may hold for no real interpreter. In the other format it writes one object (`docs/COMMANDS.md`).
///
/// Both lists are read whole, and then parsed, the lock first. The whole text is made before the first
/// write.
///
/// # Errors
///
/// A `RunFault` for a list that can't be read whole or is invalid, then for the first line that can't be
/// compared, as one with a URL or with `===`, and then `RunFault::TooManyCases` for a package that has more
/// cases than `limit`; nothing is written then. `RunFault::Memory` when memory runs out, before the first
/// write. `RunFault::Write` if the output fails.
pub fn covers<L: Read, R: Read, W: Write>(
    alloc: Global,
    lock: &mut L,
    requirements: &mut R,
    vars: &Vars,
    limit: u64,
    format: Format,
    output: &mut W,
) -> Result<Status, RunFault>
    ensures runs { RunsCovers format limit vars.now (L.remaining lock.old) (R.remaining requirements.old)
        W.contents output.old output.new result }
    // A refused command has written nothing.
    ensures unwritten { IfErr result (λ fault. fault ≢ RunFault.Write → output.new ≡ output.old) }
{
    let mut interner = Interner::new(alloc);
    let none = Bounds::none();
    // (says that there are no more nodes than a number can count)
    let _ = interner.node_count();
    match covers_within(
        alloc,
        lock,
        requirements,
        vars,
        limit,
        format,
        none,
        &mut interner,
        output,
    ) {
        Ok(status) => Ok(status),
        Err(fault) => Err(fault.unbounded()),
    }
}

/// Writes whether a lock covers requirements as `covers` does, unless that passes a bound.
///
/// The trees are made in `interner`, best a fresh one by `Interner::with_most(alloc, bounds.nodes)`, which
/// also stops in the middle of a tree. The nodes of both lists count together, their cases apart.
///
/// # Errors
///
/// Those of `covers`; and in `RunFault::TooMany`, once a whole list is known to be valid, `Excess::NodesAt`
/// for its first line after whose tree there are more than `bounds.nodes` nodes, the lock before the second
/// list is parsed; or `Excess::Nodes` if there are more once the lists are compared; and otherwise
/// `Excess::Cases` only if all packages of a list together have more than `bounds.cases` cases, as
/// `reqtable_covers::covers_within` counts them; and otherwise `Excess::ClausesFor` if the marker of the
/// first place that isn't covered has more than `bounds.clauses` clauses, counted as
/// `pep508_marker_display::has_more_clauses` does. Nothing is written then.
pub fn covers_within<L: Read, R: Read, W: Write>(
    alloc: Global,
    lock: &mut L,
    requirements: &mut R,
    vars: &Vars,
    limit: u64,
    format: Format,
    bounds: Bounds,
    interner: &mut Interner,
    output: &mut W,
) -> Result<Status, RunFault>
    requires { length interner.old.nodes ≤ bounds.nodes }
    ensures runs { RunsCoversWithin bounds interner.new.nodes format limit vars.now
        (L.remaining lock.old) (R.remaining requirements.old) W.contents output.old output.new result }
    // A refused command has written nothing.
    ensures unwritten { IfErr result (λ fault. fault ≢ RunFault.Write → output.new ≡ output.old) }
{
    let mut left = read_input(alloc, Input::First, lock)?;
    let mut right = read_input(alloc, Input::Second, requirements)?;
    let answer = covers_answer(
        alloc, &mut left, &mut right, vars, limit, format, bounds, interner,
    )?;
    write_answer(output, answer.text.as_str(), answer.status)
}

/// The answer on a lock and requirements. Drops the bytes of each once they are parsed.
fn covers_answer(
    alloc: Global,
    left: &mut Vec<u8>,
    right: &mut Vec<u8>,
    vars: &Vars,
    limit: u64,
    format: Format,
    bounds: Bounds,
    interner: &mut Interner,
) -> Result<Answer, RunFault>
    requires { length interner.old.nodes ≤ bounds.nodes }
    ensures { Bounded (AnswersLists (IsOfLists vars.now (left.old.items ∷ right.old.items ∷ []))
        (IsFewCovers format limit bounds.clauses) (CantBeWithin limit bounds.cases)
        (two_lists vars.now (left.old.items ∷ right.old.items ∷ [])))
        (length interner.new.nodes ≤ bounds.nodes)
        (CoversPasses bounds interner.new.nodes limit vars.now (left.old.items ∷ right.old.items ∷ []))
        result }
{
    let most = bounds.nodes;
    let left = requirements_within(alloc, Input::First, left, interner, vars, most)?;
    let right = requirements_within(alloc, Input::Second, right, interner, vars, most)?;
    covers_of(alloc, &left, &right, interner, limit, format, bounds)
}

/// The answer on a parsed lock and parsed requirements, which were read with this interner.
///
/// # Errors
///
/// Those of `covers_within` for lists that are valid.
pub fn covers_of(
    alloc: Global,
    left: &Requirements,
    right: &Requirements,
    interner: &mut Interner,
    limit: u64,
    format: Format,
    bounds: Bounds,
) -> Result<Answer, RunFault>
    requires { AreBothRead interner.old.nodes left.now right.now }
    ensures { (vars : Variables) (said others : List LineRecord) →
        AllZip (StandsFor vars interner.old.nodes) left.now said →
        AllZip (StandsFor vars interner.old.nodes) right.now others →
        Bounded (Gives (IsFewCovers format limit bounds.clauses) (CantBeWithin limit bounds.cases)
        (said, others))
        (length interner.new.nodes ≤ bounds.nodes)
        (OutgrowsOrUncovered bounds interner.new.nodes limit (said, others)) result }
{
    let most = bounds.clauses;
    match found_within(alloc, left, right, interner, limit, bounds)? {
        Covers::Yes => Ok(Answer {
            status: Status::Answered,
            text: covers_in(alloc, format)?,
        }),
        Covers::No {
            package,
            tree,
            lines,
        } => Ok(Answer {
            status: Status::Different,
            text: uncovered_within(alloc, format, package, tree, &lines, interner, most)?,
        }),
    }
}

/// What is found of a parsed lock and parsed requirements.
fn found_within(
    alloc: Global,
    left: &Requirements,
    right: &Requirements,
    interner: &mut Interner,
    limit: u64,
    bounds: Bounds,
) -> Result<Covers, RunFault>
    requires { AreBothRead interner.old.nodes left.now right.now }
    ensures { (vars : Variables) (said others : List LineRecord) →
        AllZip (StandsFor vars interner.old.nodes) left.now said →
        AllZip (StandsFor vars interner.old.nodes) right.now others →
        Bounded (CoversOrRefuses limit bounds.cases interner.new.nodes (said, others))
        (length interner.new.nodes ≤ bounds.nodes)
        (OutgrowsOrCases bounds interner.new.nodes limit (said, others)) result }
{
    let nodes = bounds.nodes;
    let cases = bounds.cases;
    let found = reqtable_covers::covers_within(alloc, left, right, interner, limit, cases);
    if interner.node_count() > nodes {
        return Err(RunFault::TooMany(Excess::Nodes { most: nodes }));
    }
    match found {
        Ok(covers) => Ok(covers),
        Err(SameError::TooManyCasesInAll { side }) => Err(RunFault::TooMany(Excess::Cases {
            input: input_of(side),
            most: cases,
        })),
        Err(error) => Err(fault_of(error, limit)),
    }
}
