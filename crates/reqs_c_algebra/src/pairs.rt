//! Relations between two markers.

ghost use Rattle.std.specs.Prelude.{◌≡◌, ◌↔◌, IsTrue, IfOk, IfErr, MatchResult};
ghost use Rattle.pep508_tree.specs.Meaning.{IsTree, holds};
ghost use Rattle.reqs_c_reply.specs.Endings.{EndsIn, NoAnswer, NoRefusal, OutOfMemory, RepliesAs};
ghost use Rattle.reqs_c_reply.specs.Endings.{ending_of, yes_or_no};
ghost use Rattle.reqs_c_markers.specs.Markers.{AreFew, IsMarkerTree};
ghost use Rattle.reqs_c_algebra.specs.Relations.{DisjointEnds, Implies, ImpliesEnds, RefusesEither};

use crate::truths::said;
use pep508_disjointness::MarkerTreeDisjointness;
use pep508_tree::{Interner, MarkerTree};
use pep508_tree_laws::{earlier_trees_keep, negation_means_not};
use reqs_c_markers::read_marker;
use reqs_c_reply::{Ended, Reply};
use std::alloc::{AllocError, Global};

/// Replies with `1` if both markers hold together under no valuation, and so in no environment with any
/// extras, otherwise with `0`.
///
/// The trees of both markers may have at most `nodes` nodes together, and may otherwise grow exponentially
/// with the texts. Visits pairs of a node of one marker's tree and a node of the other's, each at most once.
///
/// # Errors
///
/// Refuses, at the first argument before the second, a text that is not a marker, at the byte where it stops
/// being one, and then more nodes. Status 3 when memory runs out.
pub fn markers_disjoint(
    alloc: Global,
    left: &[u8],
    right: &[u8],
    nodes: usize,
    out: &mut [u8],
) -> Reply
    ensures { RepliesAs (DisjointEnds nodes left.now right.now) out.old out.new result }
{
    disjoint(alloc, left, right, nodes).reply(out)
}

/// Decides whether two markers are disjoint, and returns how the call ends.
fn disjoint(alloc: Global, left: &[u8], right: &[u8], nodes: usize) -> Ended
    ensures { DisjointEnds nodes left.now right.now (ending_of result) }
{
    let mut interner = Interner::with_most(alloc, nodes);
    match read_two(alloc, &mut interner, left, right, nodes) {
        Ok(trees) => said_whether(alloc, trees.0.is_disjoint(alloc, &interner, trees.1)),
        Err(ended) => ended,
    }
}

/// Replies with `1` if the second marker holds under each valuation under which the first one does, and so in
/// each such environment with any extras, otherwise with `0`.
///
/// Costs what `markers_disjoint` does.
///
/// # Errors
///
/// Refuses what `markers_disjoint` does. Status 3 when memory runs out.
pub fn marker_implies(
    alloc: Global,
    left: &[u8],
    right: &[u8],
    nodes: usize,
    out: &mut [u8],
) -> Reply
    ensures { RepliesAs (ImpliesEnds nodes left.now right.now) out.old out.new result }
{
    implied(alloc, left, right, nodes).reply(out)
}

/// Decides whether a marker implies another, and returns how the call ends.
fn implied(alloc: Global, left: &[u8], right: &[u8], nodes: usize) -> Ended
    ensures { ImpliesEnds nodes left.now right.now (ending_of result) }
{
    let mut interner = Interner::with_most(alloc, nodes);
    match read_two(alloc, &mut interner, left, right, nodes) {
        Ok(trees) => said_whether(alloc, implies(alloc, &interner, trees.0, trees.1)),
        Err(ended) => ended,
    }
}

/// Whether the second tree holds wherever the first one does: the first is disjoint from the negation of the
/// second.
fn implies(
    alloc: Global,
    interner: &Interner,
    first: MarkerTree,
    second: MarkerTree,
) -> Result<bool, AllocError>
    requires first { IsTree interner.now.nodes first }
    requires second { IsTree interner.now.nodes second }
    ensures { IfOk result (λ yes.
        IsTrue yes ↔ Implies (holds interner.now.nodes first) (holds interner.now.nodes second)) }
{
    negation_means_not();
    first.is_disjoint(alloc, interner, second.negate())
}

/// The trees of the markers in both arguments.
///
/// # Errors
///
/// How the call ends: refused for the first argument that is not a marker or makes more than `most` nodes, or
/// out of memory.
fn read_two(
    alloc: Global,
    interner: &mut Interner,
    left: &[u8],
    right: &[u8],
    most: usize,
) -> Result<(MarkerTree, MarkerTree), Ended>
    ensures first { IfOk result (λ trees. IsMarkerTree interner.new.nodes left.now trees.0) }
    ensures second { IfOk result (λ trees. IsMarkerTree interner.new.nodes right.now trees.1) }
    ensures few { IfOk result (λ trees. AreFew most interner.new.nodes) }
    ensures none { IfErr result (λ ended.
        EndsIn NoAnswer (RefusesEither most left.now right.now) (ending_of ended)) }
{
    earlier_trees_keep();
    let first = read_marker(alloc, interner, 1, left, most)?;
    let second = read_marker(alloc, interner, 2, right, most)?;
    Ok((first, second))
}

/// The end of a call that replies with `1` or `0`, or is out of memory.
fn said_whether(alloc: Global, yes: Result<bool, AllocError>) -> Ended
    ensures { MatchResult yes (λ yes. EndsIn (λ text. text ≡ yes_or_no yes) NoRefusal (ending_of result))
        (λ error. ending_of result ≡ OutOfMemory) }
{
    match yes {
        Ok(true) => said(alloc, "1"),
        Ok(false) => said(alloc, "0"),
        Err(_) => Ended::OutOfMemory,
    }
}
