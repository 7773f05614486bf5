//! `normal`: the normal form of a list.
//!
//! In JSON the answer is an array of the normal text's lines, each of which is one requirement.

ghost use Rattle.std.specs.Prelude.{◌≡◌, ◌≢◌, ◌≤◌, ◌∷◌, [], List, length, IfErr, IfOk, string_bytes};
ghost use Rattle.std.specs.List.{AllZip};
ghost use Rattle.pep508_url.specs.Vars.{Variables};
ghost use Rattle.reqtable_requirements.specs.Asks.{AreOfNodes};
ghost use Rattle.reqtable_requirements.specs.LineReading.{LineRecord};
ghost use Rattle.reqtable_requirements.specs.Requirements.{StandsFor};
ghost use Rattle.reqs_io_faults.specs.declared.fault.Input.TheVariants.{First};
ghost use Rattle.reqs_io_faults.specs.Inputs.{lines_from};
ghost use Rattle.reqs_io_faults.specs.Within.{Bounded};
ghost use Rattle.reqs_lists.specs.Lists.{IsOfLists, AnswersLists, Gives};
ghost use Rattle.serde_json.specs.View.{view};
ghost use Rattle.reqs_json.specs.Lines.{line_of};
ghost use Rattle.reqs_lists.specs.Normal.{refused_for, RunsNormal};
ghost use Rattle.reqs_lists.specs.Normal.{normal_value, normal_in, NormalPasses, RunsNormalWithin};
ghost use Rattle.reqs_lists.specs.Normal.{IsFewNormal, HasFaultyLine, HasLongLine};

use crate::answer::Answer;
use pep508_tree::Interner;
use pep508_url::Vars;
use reqs_io_faults::{
    Bounds, Excess, Input, RefusedCause, RunFault, Status, read_input, requirements_within,
    write_answer,
};
use reqs_json::{Format, line_of, lines_value};
use reqtable_normal::{NormalCause, NormalError};
use reqtable_requirements::Requirements;
use serde_json::{Value, json};
use std::alloc::{AllocError, Global};
use std::io::{Read, Write};

/// Reads a list of requirements, and writes it in the normal form of `reqtable_normal::normal`: a line for
/// each of its lines whose marker can hold; in the other format one object of these lines
/// (`docs/COMMANDS.md`).
///
/// The list is read whole, and the whole text is made before the first write.
///
/// # Errors
///
/// A `RunFault` for a list that can't be read whole or is invalid, and then `RunFault::Refused` for the first
/// line that has no normal form; nothing is written then. `RunFault::Memory` when memory runs out, before the
/// first write. `RunFault::Write` if the output fails.
pub fn normal<R: Read, W: Write>(
    alloc: Global,
    requirements: &mut R,
    vars: &Vars,
    format: Format,
    output: &mut W,
) -> Result<Status, RunFault>
    ensures runs { RunsNormal format vars.now (R.remaining requirements.old)
        W.contents output.old output.new result }
    // A refused command has written nothing.
    ensures unwritten { IfErr result (λ fault. fault ≢ RunFault.Write → output.new ≡ output.old) }
{
    let mut interner = Interner::new(alloc);
    let none = Bounds::none();
    // (says that there are no more nodes than a number can count)
    let _ = interner.node_count();
    match normal_within(
        alloc,
        requirements,
        vars,
        format,
        none,
        &mut interner,
        output,
    ) {
        Ok(status) => Ok(status),
        Err(fault) => Err(fault.unbounded()),
    }
}

/// Writes a list in its normal form as `normal` does, unless that passes a bound. Only the bounds on nodes
/// and clauses matter.
///
/// The trees are made in `interner`, best a fresh one by `Interner::with_most(alloc, bounds.nodes)`, which
/// also stops in the middle of a line's tree.
///
/// # Errors
///
/// Those of `normal`; and in `RunFault::TooMany`, once the whole list is known to be valid, `Excess::NodesAt`
/// for the first line after whose tree there are more than `bounds.nodes` nodes, and otherwise
/// `Excess::ClausesAt` if the first line that can't be printed has a normal form, and a marker of more than
/// `bounds.clauses` clauses, counted as `reqtable_normal::normal_within` does. Nothing is written then.
pub fn normal_within<R: Read, W: Write>(
    alloc: Global,
    requirements: &mut R,
    vars: &Vars,
    format: Format,
    bounds: Bounds,
    interner: &mut Interner,
    output: &mut W,
) -> Result<Status, RunFault>
    requires { length interner.old.nodes ≤ bounds.nodes }
    ensures runs { RunsNormalWithin bounds interner.new.nodes format vars.now (R.remaining requirements.old)
        W.contents output.old output.new result }
    // A refused command has written nothing.
    ensures unwritten { IfErr result (λ fault. fault ≢ RunFault.Write → output.new ≡ output.old) }
{
    let mut requirements = read_input(alloc, Input::First, requirements)?;
    let answer = normal_answer(alloc, &mut requirements, vars, format, bounds, interner)?;
    write_answer(output, answer.text.as_str(), answer.status)
}

/// The answer on a list. Drops its bytes once they are parsed.
fn normal_answer(
    alloc: Global,
    requirements: &mut Vec<u8>,
    vars: &Vars,
    format: Format,
    bounds: Bounds,
    interner: &mut Interner,
) -> Result<Answer, RunFault>
    requires { length interner.old.nodes ≤ bounds.nodes }
    ensures { Bounded (AnswersLists (IsOfLists vars.now (requirements.old.items ∷ []))
        (IsFewNormal format bounds.clauses) (HasFaultyLine bounds.clauses)
        (lines_from vars.now First requirements.old.items)) (length interner.new.nodes ≤ bounds.nodes)
        (NormalPasses bounds interner.new.nodes vars.now (requirements.old.items ∷ [])) result }
{
    let most = bounds.nodes;
    let first = Input::First;
    let requirements = requirements_within(alloc, first, requirements, interner, vars, most)?;
    normal_of(alloc, &requirements, interner, format, bounds.clauses)
}

/// The answer on a parsed list.
fn normal_of(
    alloc: Global,
    requirements: &Requirements,
    interner: &Interner,
    format: Format,
    most: usize,
) -> Result<Answer, RunFault>
    requires { AreOfNodes interner.now.nodes requirements.now }
    ensures { (vars : Variables) (said : List LineRecord) →
        AllZip (StandsFor vars interner.now.nodes) requirements.now said →
        Bounded (Gives (IsFewNormal format most) (HasFaultyLine most) said) (Unit {0}) (HasLongLine most said)
        result }
{
    match reqtable_normal::normal_within(alloc, requirements, interner, most) {
        Ok(text) => Ok(Answer {
            status: Status::Answered,
            text: normal_in(alloc, format, text)?,
        }),
        Err(NormalError::Line { number, cause }) => Err(RunFault::Refused {
            input: Input::First,
            number,
            cause: refused_for(cause),
        }),
        Err(NormalError::TooManyClauses { number }) => Err(RunFault::TooMany(Excess::ClausesAt {
            input: Input::First,
            number,
            most,
        })),
        Err(NormalError::Memory) => Err(RunFault::Memory),
    }
}

/// A normal text in a format.
fn normal_in(alloc: Global, format: Format, text: String) -> Result<String, AllocError>
    ensures { IfOk result (λ answer. string_bytes answer ≡ normal_in format (string_bytes text)) }
{
    match format {
        Format::Text => Ok(text),
        Format::Json => normal_line(alloc, text.as_str()),
    }
}

/// The object of a normal text, as a line.
fn normal_line(alloc: Global, text: &str) -> Result<String, AllocError>
    ensures { IfOk result (λ line. string_bytes line ≡ line_of (normal_value text.now)) }
{
    let object = normal_value(alloc, text)?;
    line_of(alloc, &object)
}

/// The object of a normal text.
fn normal_value(alloc: Global, text: &str) -> Result<Value, AllocError>
    ensures { IfOk result (λ value. view value ≡ normal_value text.now) }
{
    let lines = lines_value(alloc, text)?;
    json!(in alloc; {"requirements": lines})
}

/// The cause of the command's fault for this cause.
fn refused_for(cause: NormalCause) -> RefusedCause
    ensures { result ≡ refused_for cause }
{
    match cause {
        NormalCause::Url => RefusedCause::Url,
        NormalCause::SingleQuote => RefusedCause::SingleQuote,
        NormalCause::DeprecatedKey => RefusedCause::DeprecatedKey,
        NormalCause::Bound => RefusedCause::Bound,
    }
}
