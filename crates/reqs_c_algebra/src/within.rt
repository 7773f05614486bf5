//! Markers simplified for a range of versions of Python.

ghost use Rattle.std.specs.Prelude.{ℕ, List};
ghost use Rattle.pep508_tree.specs.Meaning.{IsTree};
ghost use Rattle.reqs_c_reply.specs.Endings.{RepliesAs, ending_of};
ghost use Rattle.reqs_c_markers.specs.Markers.{IsMarkerTree, TextEnds};
ghost use Rattle.reqs_c_algebra.specs.Simplified.{HoldsBetween, SimplifiedPythonEnds};

use crate::bounds::{lower_bound, read_bound, upper_bound};
use pep440_version::Version;
use pep508_simplification::MarkerTreeSimplification;
use pep508_tree::{Interner, MarkerTree};
use reqs_c_markers::{Bounds, normal_text, read_marker, tree_within};
use reqs_c_reply::{Ended, Reply};
use std::alloc::Global;

/// Replies with the normal text of a marker, simplified under the assumption that `python_full_version` is at
/// least the version in `lower` and below the one in `upper`; an empty argument is no bound. Within these
/// bounds the text holds exactly where the marker does, and it tests `python_full_version` no more than that
/// needs.
///
/// Compares each boundary of a version of Python with both bounds. Needs time and memory for as many nodes
/// and clauses as `bounds` allow, and both may grow exponentially with the text.
///
/// # Errors
///
/// Refuses, in this order: a text that is not a marker; a marker with more nodes than the bound; a bound that
/// is not a version; more nodes, once it is simplified; and a simplified marker without a normal text, or
/// with more clauses than the bound, as `reqs_c_markers::marker` does. Status 3 when memory runs out.
pub fn marker_simplify_python(
    alloc: Global,
    bytes: &[u8],
    lower: &[u8],
    upper: &[u8],
    bounds: Bounds,
    out: &mut [u8],
) -> Reply
    ensures { RepliesAs (SimplifiedPythonEnds bounds bytes.now lower.now upper.now) out.old out.new result }
{
    simplified(alloc, bytes, lower, upper, bounds).reply(out)
}

/// Simplifies a marker within Python versions, and returns how the call ends.
fn simplified(alloc: Global, bytes: &[u8], lower: &[u8], upper: &[u8], bounds: Bounds) -> Ended
    ensures { SimplifiedPythonEnds bounds bytes.now lower.now upper.now (ending_of result) }
{
    let mut interner = Interner::with_most(alloc, bounds.nodes);
    let tree = match read_marker(alloc, &mut interner, 1, bytes, bounds.nodes) {
        Ok(tree) => tree,
        Err(ended) => return ended,
    };
    let least = match read_bound(alloc, 2, lower) {
        Ok(least) => least,
        Err(ended) => return ended,
    };
    match read_bound(alloc, 3, upper) {
        Ok(end) => text_between(alloc, &mut interner, tree, &least, &end, bounds),
        Err(ended) => ended,
    }
}

/// The end of a call that replies with the normal text of a tree that is simplified to these bounds.
fn text_between(
    alloc: Global,
    interner: &mut Interner,
    tree: MarkerTree,
    least: &Option<Version>,
    end: &Option<Version>,
    bounds: Bounds,
) -> Ended
    requires { IsTree interner.old.nodes tree }
    ensures { (bytes : List ℕ) → IsMarkerTree interner.old.nodes bytes tree →
        TextEnds bounds bytes (HoldsBetween least.now end.now) (ending_of result) }
{
    let lower = lower_bound(least);
    let upper = upper_bound(end);
    let made = tree.simplify_python_versions(alloc, interner, lower, upper);
    match tree_within(alloc, interner, 1, bounds.nodes, made) {
        Ok(simple) => normal_text(alloc, interner, simple, bounds.clauses),
        Err(ended) => ended,
    }
}
