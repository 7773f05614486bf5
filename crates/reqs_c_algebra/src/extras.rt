//! Markers simplified for extras that are present.

ghost use Rattle.std.specs.Prelude.{ℕ, List};
ghost use Rattle.pep508_tree.specs.Meaning.{IsTree};
ghost use Rattle.reqs_c_reply.specs.Endings.{RepliesAs, ending_of};
ghost use Rattle.reqs_c_markers.specs.Markers.{IsMarkerTree, TextEnds};
ghost use Rattle.reqs_c_algebra.specs.Simplified.{HoldsWith, SimplifiedExtrasEnds};

use crate::names::read_names;
use pep508_name::ExtraName;
use pep508_simplification::MarkerTreeSimplification;
use pep508_tree::{Interner, MarkerTree};
use reqs_c_markers::{Bounds, normal_text, read_marker, tree_within};
use reqs_c_reply::{Ended, Reply};
use std::alloc::Global;

/// Replies with the normal text of a marker under the assumption that some extras are present: those on the
/// lines of `extras`, of which empty lines are skipped.
///
/// Compares each extra in the marker with all that are given. Needs time and memory for as many nodes and
/// clauses as `bounds` allow, and both may grow exponentially with the text.
///
/// # Errors
///
/// Refuses, in this order: a text that is not a marker; a marker with more nodes than the bound; the first
/// extra that is not a name; more nodes, once it is simplified; and a simplified marker without a normal
/// text, or with more clauses than the bound, as `reqs_c_markers::marker` does. Status 3 when memory runs
/// out.
pub fn marker_simplify_extras(
    alloc: Global,
    bytes: &[u8],
    extras: &[u8],
    bounds: Bounds,
    out: &mut [u8],
) -> Reply
    ensures { RepliesAs (SimplifiedExtrasEnds bounds bytes.now extras.now) out.old out.new result }
{
    simplified(alloc, bytes, extras, bounds).reply(out)
}

/// Simplifies a marker under extras, and returns how the call ends.
fn simplified(alloc: Global, bytes: &[u8], extras: &[u8], bounds: Bounds) -> Ended
    ensures { SimplifiedExtrasEnds bounds bytes.now extras.now (ending_of result) }
{
    let mut interner = Interner::with_most(alloc, bounds.nodes);
    let tree = match read_marker(alloc, &mut interner, 1, bytes, bounds.nodes) {
        Ok(tree) => tree,
        Err(ended) => return ended,
    };
    match read_names(alloc, 2, extras) {
        Ok(names) => text_with(alloc, &mut interner, tree, &names, bounds),
        Err(ended) => ended,
    }
}

/// The end of a call that replies with the normal text of a tree with these extras present.
fn text_with(
    alloc: Global,
    interner: &mut Interner,
    tree: MarkerTree,
    names: &[ExtraName],
    bounds: Bounds,
) -> Ended
    requires { IsTree interner.old.nodes tree }
    ensures { (bytes : List ℕ) → IsMarkerTree interner.old.nodes bytes tree →
        TextEnds bounds bytes (HoldsWith names.now) (ending_of result) }
{
    let made = tree.simplify_extras(alloc, interner, names);
    match tree_within(alloc, interner, 1, bounds.nodes, made) {
        Ok(simple) => normal_text(alloc, interner, simple, bounds.clauses),
        Err(ended) => ended,
    }
}
