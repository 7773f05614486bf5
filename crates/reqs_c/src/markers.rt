//! Markers (PEP 508, "Environment Markers").
//!
//! `nodes` is the number of nodes that the trees of a call's markers may have together, and `clauses` the
//! number of clauses that a printed marker may have; `usize::MAX` is no bound.

ghost use Rattle.reqs_c_reply.specs.Endings.{RepliesAs};
ghost use Rattle.reqs_c_markers.specs.Markers.{CheckedEnds, MarkerEnds};
ghost use Rattle.reqs_c_algebra.specs.Keys.{KeyEnds};
ghost use Rattle.reqs_c_algebra.specs.Relations.{TruthEnds, DisjointEnds, ImpliesEnds};
ghost use Rattle.reqs_c_algebra.specs.Made.{NegatedEnds};
ghost use Rattle.reqs_c_algebra.specs.Simplified.{SimplifiedPythonEnds, SimplifiedExtrasEnds};
ghost use Rattle.reqs_c_lists.specs.Holding.{HoldEnds};

use reqs_c_markers::Bounds;
use reqs_c_reply::Reply;
use std::alloc::Global;

/// Whether a text is a marker: the answer is empty, and a text that is not is refused.
#[unsafe(no_mangle)]
pub extern "C" fn reqs_marker_check(alloc: Global, text: &[u8], out: &mut [u8]) -> Reply
    ensures { RepliesAs (CheckedEnds text.now) out.old out.new result }
{
    reqs_c_markers::marker_check(alloc, text, out)
}

/// The normal text of a marker, which is empty if it always holds.
#[unsafe(no_mangle)]
pub extern "C" fn reqs_marker(
    alloc: Global,
    text: &[u8],
    nodes: usize,
    clauses: usize,
    out: &mut [u8],
) -> Reply
    ensures { RepliesAs (MarkerEnds (record { nodes = nodes; clauses = clauses }) text.now)
        out.old out.new result }
{
    reqs_c_markers::marker(alloc, text, Bounds { nodes, clauses }, out)
}

/// The key of a marker: equal bytes exactly if two markers hold under the same valuations.
#[unsafe(no_mangle)]
pub extern "C" fn reqs_marker_key(alloc: Global, text: &[u8], nodes: usize, out: &mut [u8]) -> Reply
    ensures { RepliesAs (KeyEnds nodes text.now) out.old out.new result }
{
    reqs_c_algebra::marker_key(alloc, text, nodes, out)
}

/// Whether a marker always holds, never, or sometimes: `1`, `0` or `-`.
#[unsafe(no_mangle)]
pub extern "C" fn reqs_marker_truth(
    alloc: Global,
    text: &[u8],
    nodes: usize,
    out: &mut [u8],
) -> Reply
    ensures { RepliesAs (TruthEnds nodes text.now) out.old out.new result }
{
    reqs_c_algebra::marker_truth(alloc, text, nodes, out)
}

/// Whether two markers never hold together: `1` or `0`.
#[unsafe(no_mangle)]
pub extern "C" fn reqs_markers_disjoint(
    alloc: Global,
    left: &[u8],
    right: &[u8],
    nodes: usize,
    out: &mut [u8],
) -> Reply
    ensures { RepliesAs (DisjointEnds nodes left.now right.now) out.old out.new result }
{
    reqs_c_algebra::markers_disjoint(alloc, left, right, nodes, out)
}

/// Whether the right marker holds wherever the left one does: `1` or `0`.
#[unsafe(no_mangle)]
pub extern "C" fn reqs_marker_implies(
    alloc: Global,
    left: &[u8],
    right: &[u8],
    nodes: usize,
    out: &mut [u8],
) -> Reply
    ensures { RepliesAs (ImpliesEnds nodes left.now right.now) out.old out.new result }
{
    reqs_c_algebra::marker_implies(alloc, left, right, nodes, out)
}

/// The normal text of a marker's negation, which holds where the marker doesn't.
#[unsafe(no_mangle)]
pub extern "C" fn reqs_marker_negated(
    alloc: Global,
    text: &[u8],
    nodes: usize,
    clauses: usize,
    out: &mut [u8],
) -> Reply
    ensures { RepliesAs (NegatedEnds (record { nodes = nodes; clauses = clauses }) text.now)
        out.old out.new result }
{
    reqs_c_algebra::marker_negated(alloc, text, Bounds { nodes, clauses }, out)
}

/// The normal text of a marker, simplified for versions of Python from a bound on and below another.
#[unsafe(no_mangle)]
pub extern "C" fn reqs_marker_simplify_python(
    alloc: Global,
    text: &[u8],
    lower: &[u8],
    upper: &[u8],
    nodes: usize,
    clauses: usize,
    out: &mut [u8],
) -> Reply
    ensures { RepliesAs
        (SimplifiedPythonEnds (record { nodes = nodes; clauses = clauses }) text.now lower.now upper.now)
        out.old out.new result }
{
    let bounds = Bounds { nodes, clauses };
    reqs_c_algebra::marker_simplify_python(alloc, text, lower, upper, bounds, out)
}

/// The normal text of a marker, under the assumption that the extras, one per line, are present.
#[unsafe(no_mangle)]
pub extern "C" fn reqs_marker_simplify_extras(
    alloc: Global,
    text: &[u8],
    extras: &[u8],
    nodes: usize,
    clauses: usize,
    out: &mut [u8],
) -> Reply
    ensures { RepliesAs
        (SimplifiedExtrasEnds (record { nodes = nodes; clauses = clauses }) text.now extras.now)
        out.old out.new result }
{
    reqs_c_algebra::marker_simplify_extras(alloc, text, extras, Bounds { nodes, clauses }, out)
}

/// Which markers, one per line, hold in an environment with extras: a byte `1`, `0` or `?` for each line.
#[unsafe(no_mangle)]
pub extern "C" fn reqs_markers_hold(
    alloc: Global,
    markers: &[u8],
    environment: &[u8],
    extras: &[u8],
    out: &mut [u8],
) -> Reply
    ensures { RepliesAs (HoldEnds markers.now environment.now extras.now) out.old out.new result }
{
    reqs_c_lists::markers_hold(alloc, markers, environment, extras, out)
}
