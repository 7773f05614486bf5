//! Reading markers at a place in a text.

ghost use Rattle.std.specs.Prelude.{◌≡◌, chars, IfErr};
ghost use Rattle.pep508_error.specs.Cursors.{rest_of};
ghost use Rattle.pep508_tree.specs.Meaning.{Extends};
ghost use Rattle.pep508_error.specs.Refusals.{IsOf};
ghost use Rattle.pep508_marker_parser.specs.MarkerReading.{marker_at};
ghost use Rattle.pep508_marker_parser.specs.MarkerOutcome.{ReadsMarker, SaysMarker};

use crate::chain::read_chains;
use crate::formula_tree::tree_of;
use pep508_comparison_parser::{malformed, refuse_rest};
use pep508_error::{Cursor, Refusal};
use pep508_formula::MarkerFormula;
use pep508_marker::Reporter;
use pep508_tree::{Interner, MarkerTree};
use std::alloc::Global;

/// The deepest nesting of brackets.
const DEEPEST: usize = 256;

/// Reads the formula of the marker at a place, up to the text's end (PEP 508, "Environment Markers"). A
/// meaningless comparison is left out. The warnings are reported in their order, also where the text is
/// refused after them.
///
/// Brackets nest at most 256 deep, and take no stack. Linear in the text but for the versions that a key is
/// compared with at once, of which n take O(n log n). Takes memory for the formula, for the texts of the
/// warnings that are wanted, and for a refusal.
///
/// # Errors
/// The part at fault where there is no marker, where brackets nest deeper, or where a version number can't
/// be raised; or lack of memory.
#[tactic(auto, unfolding(crate::specs::MarkerReading::marker_at))]
pub fn read_formula<'a, R: Reporter>(
    alloc: Global,
    start: Cursor<'a>,
    reporter: &mut R,
) -> Result<MarkerFormula, Refusal<'a>>
    requires { R.can_report reporter.old }
    ensures read { SaysMarker R.takes reporter.old reporter.new result
        (marker_at (chars (rest_of start.entry))) }
    ensures of { IfErr result (IsOf start.entry) }
    ensures again { R.can_report reporter.new }
{
    let (formula, later) = read_chains(alloc, DEEPEST, start, reporter)?;
    let end = later.after_whitespace();
    match end.peek() {
        None => Ok(formula),
        Some(c) => Err(refuse_rest(
            end,
            malformed(format!(in alloc;
                "Unexpected character '{c}', expected 'and', 'or' or end of input"
            )),
        )),
    }
}

/// Reads the tree of the marker at a place, up to the text's end (PEP 508, "Environment Markers"). A
/// meaningless comparison is ignored; where all are, the marker holds. The warnings are reported in their
/// order, also where the text is refused after them.
///
/// Brackets nest at most 256 deep, and take no stack. Linear in the text but for joining the trees of
/// comparisons: those of a chain of `and` or `or` cost what `conjunction_of_all` does. None of that counts
/// as one of the interner's conjunctions. Takes memory for the trees, for the texts of the warnings that
/// are wanted, and for a refusal.
///
/// # Errors
/// The part at fault where there is no marker, where brackets nest deeper, or where a version number can't
/// be raised; or lack of memory.
pub fn read_marker<'a, R: Reporter>(
    alloc: Global,
    interner: &mut Interner,
    start: Cursor<'a>,
    reporter: &mut R,
) -> Result<MarkerTree, Refusal<'a>>
    requires { R.can_report reporter.old }
    ensures read { ReadsMarker R.takes reporter.old reporter.new interner.new.nodes result
        (marker_at (chars (rest_of start.entry))) }
    ensures of { IfErr result (IsOf start.entry) }
    ensures again { R.can_report reporter.new }
    ensures keeps { Extends interner.old.nodes interner.new.nodes }
    ensures counts { interner.new.conjunctions ≡ interner.old.conjunctions }
{
    let formula = read_formula(alloc, start, reporter)?;
    Ok(tree_of(alloc, interner, &formula)?)
}
