//! Bounds on what is made of a marker.

ghost use Rattle.std.specs.Prelude.{◌≡◌, ◌<◌, List, length, Ok, IfOk, IfErr};
ghost use Rattle.pep508_tree.specs.Meaning.{NodeRecord};
ghost use Rattle.pep508_tree.specs.Nodes.{AreSound};
ghost use Rattle.reqs_c_reply.specs.Endings.{EndsIn, NoAnswer, ending_of};
ghost use Rattle.reqs_c_markers.specs.Markers.{AreFew, AreMore};

use pep508_tree::{Interner, MarkerTree};
use reqs_c_reply::{Ended, Place};
use std::alloc::{AllocError, Global};

/// How much a call may make of a marker; `usize::MAX` is no bound.
#[derive(Clone, Copy, Debug, PartialEq, Eq)]
pub struct Bounds {
    /// The number of nodes that its trees may have together.
    pub nodes: usize,
    /// The number of clauses that a printed tree may have before they are simplified.
    pub clauses: usize,
}

/// The tree that was made of argument `input` in an interner with the bound `most`.
///
/// # Errors
///
/// How the call ends: refused if the interner has more than `most` nodes, also if the tree could not be made
/// then; or out of memory.
pub fn tree_within(
    alloc: Global,
    interner: &Interner,
    input: u32,
    most: usize,
    made: Result<MarkerTree, AllocError>,
) -> Result<MarkerTree, Ended>
    ensures same { IfOk result (λ tree. made ≡ Ok tree) }
    ensures few { IfOk result (λ tree. AreFew most interner.now.nodes) }
    ensures none { IfErr result (λ ended.
        EndsIn NoAnswer (AreMore input most interner.now.nodes) (ending_of ended)) }
{
    interner.are_sound();
    if interner.node_count() > most {
        return Err(more_nodes(alloc, input, most));
    }
    match made {
        Ok(tree) => Ok(tree),
        Err(_) => Err(Ended::OutOfMemory),
    }
}

/// The end of a call that made more than `most` nodes of an argument.
fn more_nodes(alloc: Global, input: u32, most: usize) -> Ended
    ensures { (nodes : List NodeRecord) → AreSound nodes → most < length nodes →
        EndsIn NoAnswer (AreMore input most nodes) (ending_of result) }
{
    Ended::refused(
        Place::span(input, 0, 0),
        format!(in alloc; "more than {most} nodes"),
    )
}
