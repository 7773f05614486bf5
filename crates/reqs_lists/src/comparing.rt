//! `same`: whether two lists require the same.
//!
//! The marker of a difference that is everywhere is null in JSON: a text that is no marker would be taken
//! for one.

ghost use Rattle.std.specs.Prelude.{◌≡◌, ◌≢◌, ◌≤◌, ◌∷◌, ◌++◌, [], List, length, codes, IfErr, IfOk};
ghost use Rattle.std.specs.Prelude.{string_bytes};
ghost use Rattle.std.specs.List.{AllZip};
ghost use Rattle.pep508_url.specs.Vars.{Variables};
ghost use Rattle.pep508_diagram.specs.Question.{IsCanonical};
ghost use Rattle.pep508_diagram.specs.Shortened.{HasShortVersions};
ghost use Rattle.pep508_tree.specs.Meaning.{IsTree, diagram_of};
ghost use Rattle.reqtable_requirements.specs.LineReading.{LineRecord};
ghost use Rattle.reqtable_requirements.specs.Requirements.{StandsFor};
ghost use Rattle.reqs_io_faults.specs.Within.{Bounded};
ghost use Rattle.reqs_lists.specs.Lists.{IsOfLists, AreBothRead, AnswersLists, Gives, two_lists};
ghost use Rattle.serde_json.specs.View.{view};
ghost use Rattle.serde_json.specs.Data.{string};
ghost use Rattle.pep508_marker_text_laws.specs.MarkerText.{marker_text};
ghost use Rattle.reqs_json.specs.Lines.{line_of, value_or_null};
ghost use Rattle.reqs_lists.specs.Comparison.{difference_text, CantBeWithin, OutgrowsOrCases};
ghost use Rattle.reqs_lists.specs.Comparison.{same_value, difference_value, same_in, difference_in};
ghost use Rattle.reqs_lists.specs.Comparison.{input_of, line_fault, fault_of, RunsSame};
ghost use Rattle.reqs_lists.specs.Comparison.{ComparesOrRefuses, SamePasses, RunsSameWithin};
ghost use Rattle.reqs_lists.specs.Comparison.{IsFewSame, TellsWithin, OutgrowsOrLong};

use crate::answer::Answer;
use pep508_marker_display::{MarkerTreeText, has_more_clauses};
use pep508_name::PackageName;
use pep508_tree::{Interner, MarkerTree};
use pep508_url::Vars;
use reqs_io_faults::{
    Bounds, Excess, Input, RefusedCause, RunFault, Status, read_input, requirements_within,
    write_answer,
};
use reqs_json::{Format, line_of};
use reqtable_compare::{LineCause, Same, SameError, Side};
use reqtable_requirements::Requirements;
use serde_json::{Value, json};
use std::alloc::{AllocError, Global};
use std::io::{Read, Write};

/// What is written for a marker that always holds, which has no text.
const EVERYWHERE: &str = "all environments";

/// Reads two lists of requirements, and writes `yes` if they require the same of every package in every
/// environment with any extras, as decided by `reqtable_compare::same`. Otherwise it writes three lines:
/// `no`, the first package that differs, and the marker of its first difference, or `all environments` if
/// that always holds; and ends with `Status::Different`. That marker may hold for no real interpreter. In the
/// other format it writes one object (`docs/COMMANDS.md`). Intervals decide plain versions alone, so lists
/// that require the same can still select different builds.
///
/// Both lists are read whole, and then parsed, the left one first. The whole text is made before the first
/// write.
///
/// # Errors
///
/// A `RunFault` for a list that can't be read whole or is invalid, then for the first line that can't be
/// compared, and then `RunFault::TooManyCases` for a package that has more cases than `limit`; nothing is
/// written then. `RunFault::Memory` when memory runs out, before the first write. `RunFault::Write` if the
/// output fails.
pub fn same<L: Read, R: Read, W: Write>(
    alloc: Global,
    left: &mut L,
    right: &mut R,
    vars: &Vars,
    limit: u64,
    format: Format,
    output: &mut W,
) -> Result<Status, RunFault>
    ensures runs { RunsSame format limit vars.now (L.remaining left.old) (R.remaining right.old)
        W.contents output.old output.new result }
    // A refused command has written nothing.
    ensures unwritten { IfErr result (λ fault. fault ≢ RunFault.Write → output.new ≡ output.old) }
{
    let mut interner = Interner::new(alloc);
    let none = Bounds::none();
    // (says that there are no more nodes than a number can count)
    let _ = interner.node_count();
    match same_within(
        alloc,
        left,
        right,
        vars,
        limit,
        format,
        none,
        &mut interner,
        output,
    ) {
        Ok(status) => Ok(status),
        Err(fault) => Err(fault.unbounded()),
    }
}

/// Writes whether two lists require the same as `same` does, unless that passes a bound.
///
/// The trees are made in `interner`, best a fresh one by `Interner::with_most(alloc, bounds.nodes)`, which
/// also stops in the middle of a tree. The nodes of both lists count together, their cases apart.
///
/// # Errors
///
/// Those of `same`; and in `RunFault::TooMany`, once a whole list is known to be valid, `Excess::NodesAt` for
/// its first line after whose tree there are more than `bounds.nodes` nodes, the left list before the right
/// one is parsed; or `Excess::Nodes` if there are more once the lists are compared; and otherwise
/// `Excess::Cases` only if all packages of a list together have more than `bounds.cases` cases, as
/// `reqtable_compare::same_within` counts them; and otherwise `Excess::ClausesFor` if the marker of the first
/// difference has more than `bounds.clauses` clauses, counted as `pep508_marker_display::has_more_clauses`
/// does. Nothing is written then.
pub fn same_within<L: Read, R: Read, W: Write>(
    alloc: Global,
    left: &mut L,
    right: &mut R,
    vars: &Vars,
    limit: u64,
    format: Format,
    bounds: Bounds,
    interner: &mut Interner,
    output: &mut W,
) -> Result<Status, RunFault>
    requires { length interner.old.nodes ≤ bounds.nodes }
    ensures runs { RunsSameWithin bounds interner.new.nodes format limit vars.now
        (L.remaining left.old) (R.remaining right.old) W.contents output.old output.new result }
    // A refused command has written nothing.
    ensures unwritten { IfErr result (λ fault. fault ≢ RunFault.Write → output.new ≡ output.old) }
{
    let mut left = read_input(alloc, Input::First, left)?;
    let mut right = read_input(alloc, Input::Second, right)?;
    let answer = same_answer(
        alloc, &mut left, &mut right, vars, limit, format, bounds, interner,
    )?;
    write_answer(output, answer.text.as_str(), answer.status)
}

/// The answer on two lists. Drops the bytes of each once they are parsed.
fn same_answer(
    alloc: Global,
    left: &mut Vec<u8>,
    right: &mut Vec<u8>,
    vars: &Vars,
    limit: u64,
    format: Format,
    bounds: Bounds,
    interner: &mut Interner,
) -> Result<Answer, RunFault>
    requires { length interner.old.nodes ≤ bounds.nodes }
    ensures { Bounded (AnswersLists (IsOfLists vars.now (left.old.items ∷ right.old.items ∷ []))
        (IsFewSame format limit bounds.clauses) (CantBeWithin limit bounds.cases)
        (two_lists vars.now (left.old.items ∷ right.old.items ∷ [])))
        (length interner.new.nodes ≤ bounds.nodes)
        (SamePasses bounds interner.new.nodes limit vars.now (left.old.items ∷ right.old.items ∷ [])) result }
{
    let most = bounds.nodes;
    let left = requirements_within(alloc, Input::First, left, interner, vars, most)?;
    let right = requirements_within(alloc, Input::Second, right, interner, vars, most)?;
    same_of(alloc, &left, &right, interner, limit, format, bounds)
}

/// The answer on two parsed lists, which were read with this interner.
///
/// # Errors
///
/// Those of `same_within` for lists that are valid.
pub fn same_of(
    alloc: Global,
    left: &Requirements,
    right: &Requirements,
    interner: &mut Interner,
    limit: u64,
    format: Format,
    bounds: Bounds,
) -> Result<Answer, RunFault>
    requires { AreBothRead interner.old.nodes left.now right.now }
    ensures { (vars : Variables) (said others : List LineRecord) →
        AllZip (StandsFor vars interner.old.nodes) left.now said →
        AllZip (StandsFor vars interner.old.nodes) right.now others →
        Bounded (Gives (IsFewSame format limit bounds.clauses) (CantBeWithin limit bounds.cases)
        (said, others))
        (length interner.new.nodes ≤ bounds.nodes)
        (OutgrowsOrLong bounds interner.new.nodes limit (said, others)) result }
{
    match compared_within(alloc, left, right, interner, limit, bounds)? {
        Same::Yes => Ok(Answer {
            status: Status::Answered,
            text: same_in(alloc, format)?,
        }),
        Same::No { package, tree } => Ok(Answer {
            status: Status::Different,
            text: difference_within(alloc, format, package, tree, interner, bounds.clauses)?,
        }),
    }
}

/// What is found of two parsed lists.
fn compared_within(
    alloc: Global,
    left: &Requirements,
    right: &Requirements,
    interner: &mut Interner,
    limit: u64,
    bounds: Bounds,
) -> Result<Same, RunFault>
    requires { AreBothRead interner.old.nodes left.now right.now }
    ensures { (vars : Variables) (said others : List LineRecord) →
        AllZip (StandsFor vars interner.old.nodes) left.now said →
        AllZip (StandsFor vars interner.old.nodes) right.now others →
        Bounded (ComparesOrRefuses limit bounds.cases interner.new.nodes (said, others))
        (length interner.new.nodes ≤ bounds.nodes)
        (OutgrowsOrCases bounds interner.new.nodes limit (said, others)) result }
{
    let nodes = bounds.nodes;
    let cases = bounds.cases;
    let compared = reqtable_compare::same_within(alloc, left, right, interner, limit, cases);
    if interner.node_count() > nodes {
        return Err(RunFault::TooMany(Excess::Nodes { most: nodes }));
    }
    match compared {
        Ok(same) => Ok(same),
        Err(SameError::TooManyCasesInAll { side }) => Err(RunFault::TooMany(Excess::Cases {
            input: input_of(side),
            most: cases,
        })),
        Err(error) => Err(fault_of(error, limit)),
    }
}

/// The text, in a format, for two lists that require the same.
fn same_in(alloc: Global, format: Format) -> Result<String, AllocError>
    ensures { IfOk result (λ text. string_bytes text ≡ same_in format) }
{
    match format {
        Format::Text => Ok(String::from_str(alloc, "yes\n")?),
        Format::Json => same_line(alloc),
    }
}

/// The object, on a line, for two lists that require the same.
fn same_line(alloc: Global) -> Result<String, AllocError>
    ensures { IfOk result (λ text. string_bytes text ≡ line_of same_value) }
{
    let object = same_value(alloc)?;
    line_of(alloc, &object)
}

/// The object for two lists that require the same.
fn same_value(alloc: Global) -> Result<Value, AllocError>
    ensures { IfOk result (λ value. view value ≡ same_value) }
{
    json!(in alloc; {"same": true})
}

/// The text of a difference in a format, whose marker has at most `most` clauses.
#[tactic(auto, using(crate::proofs::Trees::canonical, crate::proofs::Trees::short))]
fn difference_within(
    alloc: Global,
    format: Format,
    name: PackageName,
    tree: MarkerTree,
    interner: &Interner,
    most: usize,
) -> Result<String, RunFault>
    requires { IsTree interner.now.nodes tree }
    ensures told { TellsWithin format most name (diagram_of interner.now.nodes tree) result }
    ensures canonical { IsCanonical (diagram_of interner.now.nodes tree) }
    ensures short { HasShortVersions (diagram_of interner.now.nodes tree) }
{
    interner.are_sound();
    if has_more_clauses(alloc, tree, interner, most)? {
        return Err(RunFault::TooMany(Excess::ClausesFor {
            package: name,
            most,
        }));
    }
    Ok(difference_in(alloc, format, &name, tree, interner)?)
}

/// The text of a difference in a format: the package, and where the tree holds.
#[tactic(auto, using(crate::proofs::Trees::canonical, crate::proofs::Trees::short))]
fn difference_in(
    alloc: Global,
    format: Format,
    name: &PackageName,
    tree: MarkerTree,
    interner: &Interner,
) -> Result<String, AllocError>
    requires { IsTree interner.now.nodes tree }
    ensures text { IfOk result (λ text. string_bytes text
        ≡ difference_in format name.now (diagram_of interner.now.nodes tree)) }
    ensures canonical { IsCanonical (diagram_of interner.now.nodes tree) }
    ensures short { HasShortVersions (diagram_of interner.now.nodes tree) }
{
    interner.are_sound();
    match format {
        Format::Text => difference_text(alloc, name, tree, interner),
        Format::Json => difference_line(alloc, name, tree, interner),
    }
}

/// A difference as an object, on a line.
fn difference_line(
    alloc: Global,
    name: &PackageName,
    tree: MarkerTree,
    interner: &Interner,
) -> Result<String, AllocError>
    requires { IsTree interner.now.nodes tree }
    ensures { IfOk result (λ text. string_bytes text
        ≡ line_of (difference_value name.now (diagram_of interner.now.nodes tree))) }
{
    let object = difference_value(alloc, name, tree, interner)?;
    line_of(alloc, &object)
}

/// A difference as an object.
fn difference_value(
    alloc: Global,
    name: &PackageName,
    tree: MarkerTree,
    interner: &Interner,
) -> Result<Value, AllocError>
    requires { IsTree interner.now.nodes tree }
    ensures { IfOk result (λ value.
        view value ≡ difference_value name.now (diagram_of interner.now.nodes tree)) }
{
    let marker = marker_value(alloc, tree, interner)?;
    json!(in alloc; {
        "marker": marker,
        "package": name.as_str(),
        "same": false,
    })
}

/// The text of a tree, or null if it always holds.
pub(crate) fn marker_value(
    alloc: Global,
    tree: MarkerTree,
    interner: &Interner,
) -> Result<Value, AllocError>
    requires { IsTree interner.now.nodes tree }
    ensures { IfOk result (λ value.
        view value ≡ value_or_null string (marker_text (diagram_of interner.now.nodes tree))) }
{
    match tree.try_to_string(alloc, interner)? {
        Some(marker) => Ok(Value::String(marker)),
        None => Ok(Value::Null),
    }
}

/// The text of a difference, as lines.
pub(crate) fn difference_text(
    alloc: Global,
    name: &PackageName,
    tree: MarkerTree,
    interner: &Interner,
) -> Result<String, AllocError>
    requires { IsTree interner.now.nodes tree }
    ensures { IfOk result (λ text. string_bytes text
        ≡ difference_text name.now (diagram_of interner.now.nodes tree)) }
{
    match tree.try_to_string(alloc, interner)? {
        Some(marker) => difference_lines(alloc, name, marker.as_str()),
        None => difference_lines(alloc, name, EVERYWHERE),
    }
}

/// The lines of a difference: `no`, the package and the place.
fn difference_lines(alloc: Global, name: &PackageName, place: &str) -> Result<String, AllocError>
    ensures { IfOk result (λ text. string_bytes text
        ≡ codes "no\n" ++ (name.now ++ (codes "\n" ++ (place.now ++ codes "\n")))) }
{
    format!(in alloc; "no\n{name}\n{place}\n")
}

/// The fault for two lists that were not compared.
pub(crate) fn fault_of(error: SameError, limit: u64) -> RunFault
    ensures { result ≡ fault_of limit error }
{
    match error {
        SameError::Line {
            side,
            number,
            cause,
        } => line_fault(input_of(side), number, cause),
        SameError::TooManyCases { side, package } => RunFault::TooManyCases {
            input: input_of(side),
            limit,
            package,
        },
        SameError::TooManyCasesInAll { .. } | SameError::Memory => RunFault::Memory,
    }
}

/// The input of a side.
pub(crate) fn input_of(side: Side) -> Input
    ensures { result ≡ input_of side }
{
    match side {
        Side::Left => Input::First,
        Side::Right => Input::Second,
    }
}

/// The fault for a line that can't be compared.
fn line_fault(input: Input, number: usize, cause: LineCause) -> RunFault
    ensures { result ≡ line_fault input number cause }
{
    let cause = match cause {
        LineCause::Url => RefusedCause::Url,
        LineCause::ExactEqual => RefusedCause::ExactEqual,
        LineCause::PostAfterBound => RefusedCause::PostAfterBound,
        LineCause::NumberAtEnd => return RunFault::NumberAtEnd { input, number },
    };
    RunFault::Refused {
        input,
        number,
        cause,
    }
}
