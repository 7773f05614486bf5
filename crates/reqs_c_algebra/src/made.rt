//! Normal texts of markers that are derived from others.

ghost use Rattle.reqs_c_reply.specs.Endings.{RepliesAs, ending_of};
ghost use Rattle.reqs_c_algebra.specs.Made.{NegatedEnds};

use pep508_tree::Interner;
use pep508_tree_laws::negation_means_not;
use reqs_c_markers::{Bounds, normal_text, read_marker};
use reqs_c_reply::{Ended, Reply};
use std::alloc::Global;

/// Replies with the normal text of the negation of a marker: it holds exactly where the marker doesn't.
///
/// Needs time and memory for as many nodes and clauses as `bounds` allow, and both may grow exponentially
/// with the text.
///
/// # Errors
///
/// Refuses, in this order: a text that is not a marker, at the byte where it stops being one; a marker with
/// more nodes than the bound; and one whose negation has no normal text, or more clauses than the bound, as
/// `reqs_c_markers::marker` does. Status 3 when memory runs out.
pub fn marker_negated(alloc: Global, bytes: &[u8], bounds: Bounds, out: &mut [u8]) -> Reply
    ensures { RepliesAs (NegatedEnds bounds bytes.now) out.old out.new result }
{
    negated(alloc, bytes, bounds).reply(out)
}

/// Negates a marker, and returns how the call ends.
fn negated(alloc: Global, bytes: &[u8], bounds: Bounds) -> Ended
    ensures { NegatedEnds bounds bytes.now (ending_of result) }
{
    negation_means_not();
    let mut interner = Interner::with_most(alloc, bounds.nodes);
    match read_marker(alloc, &mut interner, 1, bytes, bounds.nodes) {
        Ok(tree) => normal_text(alloc, &interner, tree.negate(), bounds.clauses),
        Err(ended) => ended,
    }
}
