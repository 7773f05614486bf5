//! Reading chains of comparisons, and brackets.
//!
//! A chain ends where no connective follows: before `)`, the end and `or` no `and` can follow, so a part
//! needs no condition on what follows it. The fuel of a chain is the length of the rest, since each joint
//! shortens it.

ghost use Rattle.std.specs.Prelude.{◌≡◌, ℕ, ◌*◌, ◌<◌, ◌≤◌, List, length, Ok};
ghost use Rattle.std.specs.Prelude.{IfOk, IfErr, MatchResult};
ghost use Rattle.pep508_error.specs.Cursors.{IsBehind, behind};
ghost use Rattle.pep508_error.specs.declared.cursor.Cursor.{Cursor};
ghost use Rattle.pep508_error.specs.Refusals.{IsOf, StaysIn};
ghost use Rattle.pep508_marker.specs.declared.warnings.MarkerWarningKind.{MarkerWarningKind};
ghost use Rattle.pep508_comparison_parser.specs.SideReading.{Reading, TooDeep};
ghost use Rattle.pep508_comparison_parser.specs.Outcome.{Fits, Tells};
ghost use Rattle.pep508_marker_parser.specs.MarkerReading.{Marker, Or, closed};
ghost use Rattle.pep508_marker_parser.specs.TreeReading.{chain_at};
ghost use Rattle.pep508_marker_parser.specs.FormulaReading.{ReadsFormula};
ghost use Rattle.pep508_marker_parser.specs.Levels.{IsAtPart, IsBehindPart, IsBehindFormula, StepsTo};
ghost use Rattle.pep508_marker_parser.specs.Levels.{WarnsAndStepsTo, left_at};

use crate::compared::read_compared;
use crate::levels::Levels;
use crate::word::Word;
use pep508_comparison_parser::{expect, malformed};
use pep508_error::{Cursor, Refusal};
use pep508_formula::{FormulaBuilder, MarkerFormula};
use pep508_marker::Reporter;
use std::alloc::Global;

/// A place in a formula, by what is read there next.
#[derive(Clone, Copy)]
pub(crate) enum Step<'a> {
    /// Before a piece of a chain of `and`.
    Part(Cursor<'a>),
    /// After a piece.
    Read(Cursor<'a>),
    /// After the whole formula.
    End(Cursor<'a>),
}

/// Reads chains of `and` with `or` between them, and returns their formula and the place after them and
/// white space. Brackets may nest `deepest` deep; they take memory and no stack.
pub(crate) fn read_chains<'a, R: Reporter>(
    alloc: Global,
    deepest: usize,
    start: Cursor<'a>,
    reporter: &mut R,
) -> Result<(MarkerFormula, Cursor<'a>), Refusal<'a>>
    requires { R.can_report reporter.old }
    ensures read { ReadsFormula R.takes reporter.old reporter.new result
        (chain_at Or deepest (behind start.entry)) }
    ensures stays { StaysIn start.entry result }
    ensures again { R.can_report reporter.new }
{
    let mut levels = Levels {
        builder: FormulaBuilder::new(alloc),
        openings: Vec::new(alloc),
    };
    let mut step = Step::Part(start);
    'steps: loop {
        step = match step {
            Step::Part(place) => read_part(alloc, deepest, &mut levels, place, reporter)?,
            Step::Read(place) => go_on(alloc, &mut levels, place)?,
            Step::End(place) => return Ok((levels.builder.finish(), place)),
        };
    }
}

/// Reads a comparison, or the beginning of a formula in brackets.
fn read_part<'a, R: Reporter>(
    alloc: Global,
    deepest: usize,
    levels: &mut Levels<'a>,
    place: Cursor<'a>,
    reporter: &mut R,
) -> Result<Step<'a>, Refusal<'a>>
    requires { R.can_report reporter.old }
    ensures read { (start : Cursor) (reading : Reading Marker) (warned : List MarkerWarningKind)
        → IsAtPart deepest start reading warned levels.old place.entry
        → WarnsAndStepsTo R.takes reporter.old reporter.new deepest start reading warned levels.new result }
    ensures shorter { IfOk result (λ step. left_at step < left_at (Step.Part place.entry)) }
    ensures again { R.can_report reporter.new }
{
    let place = place.after_whitespace();
    match place.strip('(') {
        Some(inner) => {
            if levels.openings.len() >= deepest {
                return Err(refuse_depth(alloc, place));
            }
            levels.builder.open()?;
            levels.openings.push(place)?;
            Ok(Step::Part(inner))
        }
        None => {
            let later = read_compared(alloc, &mut levels.builder, place, reporter)?;
            Ok(Step::Read(later))
        }
    }
}

/// Adds a piece to the others, and reads the word that follows.
fn go_on<'a>(
    alloc: Global,
    levels: &mut Levels<'a>,
    place: Cursor<'a>,
) -> Result<Step<'a>, Refusal<'a>>
    ensures read { (deepest : ℕ) (start : Cursor) (reading : Reading Marker) (warned : List MarkerWarningKind)
        → IsBehindPart deepest start reading warned levels.old place.entry
        → StepsTo deepest start reading warned levels.new result }
    ensures shorter { IfOk result (λ step. left_at step < left_at (Step.Read place.entry)) }
{
    levels.builder.take()?;
    if let Some(later) = Word::And.pass(place) {
        return Ok(Step::Part(later));
    }
    levels.builder.end_chain()?;
    let end = place.after_whitespace();
    match Word::Or.pass(end) {
        Some(later) => Ok(Step::Part(later)),
        None => leave(alloc, levels, end.after_whitespace()),
    }
}

/// Leaves the innermost brackets of a formula that has ended, if it is in any.
fn leave<'a>(
    alloc: Global,
    levels: &mut Levels<'a>,
    end: Cursor<'a>,
) -> Result<Step<'a>, Refusal<'a>>
    ensures read { (deepest : ℕ) (start : Cursor) (reading : Reading Marker) (warned : List MarkerWarningKind)
        → IsBehindFormula deepest start reading warned levels.old end.entry
        → StepsTo deepest start reading warned levels.new result }
    ensures shorter { IfOk result (λ step. left_at step ≤ 2 * length (behind end.entry)) }
{
    match levels.openings.pop() {
        None => Ok(Step::End(end)),
        Some(opening) => {
            let later = close(alloc, opening, end)?;
            levels.builder.close();
            Ok(Step::Read(later))
        }
    }
}

/// Returns the place after the bracket that closes another.
fn close<'a>(alloc: Global, opening: Cursor<'a>, end: Cursor<'a>) -> Result<Cursor<'a>, Refusal<'a>>
    ensures read { (marker : Marker) → MatchResult result
        (λ later. closed (marker, behind end.entry) ≡ Ok (marker, behind later))
        (λ refusal. Tells refusal.kind (closed (marker, behind end.entry))) }
    ensures shorter { IfOk result (λ later. length (behind later) < length (behind end.entry)) }
    ensures stays { IfOk result (IsBehind end.entry) }
    ensures of { opening.entry.input.now ≡ end.entry.input.now → IfErr result (IsOf end.entry) }
{
    if end.peek().is_none() {
        return Err(opening.refuse_char(malformed(String::from_str(
            alloc,
            "Expected ')', found end of dependency specification",
        ))));
    }
    expect(alloc, end, ')')
}

/// Returns the refusal of a bracket that is nested too deep.
fn refuse_depth<'a>(alloc: Global, opening: Cursor<'a>) -> Refusal<'a>
    ensures fits { Fits result.kind TooDeep }
    ensures of { IsOf opening.entry result }
{
    opening.refuse_char(malformed(String::from_str(alloc, "Brackets are nested deeper than 256")))
}
