//! `same` where a marker holds.

ghost use Rattle.std.specs.Prelude.{◌∷◌, []};
ghost use Rattle.pep508_formula.specs.Postfix.{formula_of};
ghost use Rattle.reqs_c_reply.specs.Endings.{RepliesAs, ending_of};
ghost use Rattle.reqs_c_assuming.specs.Assuming.{SameEndsWhere, SameEndsUnder};

use pep508_tree::Interner;
use reqs_assuming::Terms;
use reqs_c_lists::lent::{NO_EXTRAS, SAME_NAMES, ended};
use reqs_c_markers::{no_variables, read_formula};
use reqs_c_reply::{Ended, Reply};
use reqs_io_faults::Bounds;
use reqs_json::Format;
use std::alloc::Global;

/// The number of the argument with the assumption.
const ASSUMPTION: u32 = 3;

/// Replies with what `reqs_assuming::same_where` writes in this format where the marker `assumption` holds,
/// with at most `limit` cases for a package and within the bounds. Ends with `Ended::Different` for lists
/// that don't require the same there. Needs memory for copies of the lists, in addition to what the command
/// needs.
///
/// # Errors
///
/// Refuses an assumption that is not a marker, at the byte where it stops being one, before a list is read;
/// then what `reqs_assuming::same_where` refuses, with its message as text and the place of what is wrong.
/// Status 3 when memory runs out.
pub fn same_where(
    alloc: Global,
    left: &[u8],
    right: &[u8],
    assumption: &[u8],
    limit: u64,
    bounds: Bounds,
    format: Format,
    out: &mut [u8],
) -> Reply
    ensures { RepliesAs (SameEndsWhere format limit bounds left.now right.now assumption.now)
        out.old out.new result }
{
    compared(alloc, left, right, assumption, limit, bounds, format).reply(out)
}

/// How the call ends.
fn compared(
    alloc: Global,
    left: &[u8],
    right: &[u8],
    assumption: &[u8],
    limit: u64,
    bounds: Bounds,
    format: Format,
) -> Ended
    ensures { SameEndsWhere format limit bounds left.now right.now assumption.now (ending_of result) }
{
    let condition = match read_formula(alloc, ASSUMPTION, assumption) {
        Ok(formula) => formula,
        Err(ended) => return ended,
    };
    let Ok(vars) = no_variables(alloc) else {
        return Ended::OutOfMemory;
    };
    let terms = Terms {
        vars: &vars,
        condition: &condition,
        format,
        bounds,
    };
    compared_with(alloc, left, right, limit, &terms)
}

/// How the call ends on these terms.
fn compared_with(alloc: Global, left: &[u8], right: &[u8], limit: u64, terms: &Terms<'_>) -> Ended
    ensures { SameEndsUnder terms.now.format limit terms.now.bounds (left.now ∷ right.now ∷ [])
        terms.now.vars.now (formula_of terms.now.condition.now) (ending_of result) }
{
    let (mut left, mut right) = (left, right);
    let mut interner = Interner::with_most(alloc, terms.bounds.nodes);
    let mut text = Vec::new(alloc);
    let ran = reqs_assuming::same_where(
        alloc,
        &mut left,
        &mut right,
        limit,
        terms,
        &mut interner,
        &mut text,
    );
    interner.are_sound();
    ended(alloc, ran, text, &SAME_NAMES, NO_EXTRAS)
}
