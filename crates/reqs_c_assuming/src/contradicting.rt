//! `conflicts` where a marker holds.

ghost use Rattle.std.specs.Prelude.{◌∷◌, []};
ghost use Rattle.pep508_formula.specs.Postfix.{formula_of};
ghost use Rattle.reqs_c_reply.specs.Endings.{RepliesAs, ending_of};
ghost use Rattle.reqs_c_assuming.specs.Assuming.{ConflictsEndWhere, ConflictsEndUnder};

use pep508_tree::Interner;
use reqs_assuming::Terms;
use reqs_c_lists::lent::{LIST_NAMES, NO_EXTRAS, ended};
use reqs_c_markers::{no_variables, read_formula};
use reqs_c_reply::{Ended, Reply};
use reqs_io_faults::Bounds;
use reqs_json::Format;
use std::alloc::Global;

/// The number of the argument with the assumption.
const ASSUMPTION: u32 = 2;

/// Replies with what `reqs_assuming::conflicts_where` writes in this format where the marker `assumption`
/// holds, with at most `limit` cases for a package and within the bounds, of which those on nodes and cases
/// matter. Needs memory for a copy of the list, in addition to what the command needs.
///
/// # Errors
///
/// Refuses an assumption that is not a marker, at the byte where it stops being one, before the list is read;
/// then what `reqs_assuming::conflicts_where` refuses, with its message as text and the place of what is
/// wrong. Status 3 when memory runs out.
pub fn conflicts_where(
    alloc: Global,
    requirements: &[u8],
    assumption: &[u8],
    limit: u64,
    bounds: Bounds,
    format: Format,
    out: &mut [u8],
) -> Reply
    ensures { RepliesAs (ConflictsEndWhere format limit bounds requirements.now assumption.now)
        out.old out.new result }
{
    contradicted(alloc, requirements, assumption, limit, bounds, format).reply(out)
}

/// How the call ends.
fn contradicted(
    alloc: Global,
    requirements: &[u8],
    assumption: &[u8],
    limit: u64,
    bounds: Bounds,
    format: Format,
) -> Ended
    ensures { ConflictsEndWhere format limit bounds requirements.now assumption.now (ending_of result) }
{
    let condition = match read_formula(alloc, ASSUMPTION, assumption) {
        Ok(formula) => formula,
        Err(ended) => return ended,
    };
    let Ok(vars) = no_variables(alloc) else {
        return Ended::OutOfMemory;
    };
    let terms = Terms {
        vars: &vars,
        condition: &condition,
        format,
        bounds,
    };
    contradicted_with(alloc, requirements, limit, &terms)
}

/// How the call ends on these terms.
fn contradicted_with(alloc: Global, requirements: &[u8], limit: u64, terms: &Terms<'_>) -> Ended
    ensures { ConflictsEndUnder terms.now.format limit terms.now.bounds (requirements.now ∷ [])
        terms.now.vars.now (formula_of terms.now.condition.now) (ending_of result) }
{
    let mut requirements = requirements;
    let mut interner = Interner::with_most(alloc, terms.bounds.nodes);
    let mut text = Vec::new(alloc);
    let ran = reqs_assuming::conflicts_where(
        alloc,
        &mut requirements,
        limit,
        false,
        terms,
        &mut interner,
        &mut text,
    );
    interner.are_sound();
    ended(alloc, ran, text, &LIST_NAMES, NO_EXTRAS)
}
