//! The key of a marker.

ghost use Rattle.std.specs.Prelude.{IfOk};
ghost use Rattle.pep508_tree.specs.Meaning.{IsTree, holds};
ghost use Rattle.reqs_c_reply.specs.Endings.{RepliesAs, ending_of};
ghost use Rattle.reqs_c_algebra.specs.Keys.{IsKeyOf, KeyEnds};

use pep508_marker_key::MarkerTreeKey;
use pep508_tree::{Interner, MarkerTree};
use reqs_c_markers::read_marker;
use reqs_c_reply::{Ended, Reply};
use std::alloc::{AllocError, Global};

/// Replies with the key of a marker: bytes that are equal exactly if two markers hold under the same
/// valuations (`laws::keys_are_of_meanings`), however they are written. So keys can be compared, hashed and
/// sorted instead of markers; their order means nothing more.
///
/// Linear in the text except for combining the marker's trees, which may have at most `nodes` nodes together
/// and may otherwise grow exponentially with the text; then O(n log n) in the nodes of the tree.
///
/// # Errors
///
/// Refuses a text that is not a marker, at the byte where it stops being one, and then a marker with more
/// nodes. Status 3 when memory runs out.
pub fn marker_key(alloc: Global, bytes: &[u8], nodes: usize, out: &mut [u8]) -> Reply
    ensures { RepliesAs (KeyEnds nodes bytes.now) out.old out.new result }
{
    key(alloc, bytes, nodes).reply(out)
}

/// Makes the key of a marker, and returns how the call ends.
fn key(alloc: Global, bytes: &[u8], nodes: usize) -> Ended
    ensures { KeyEnds nodes bytes.now (ending_of result) }
{
    let mut interner = Interner::with_most(alloc, nodes);
    match read_marker(alloc, &mut interner, 1, bytes, nodes) {
        Ok(tree) => match key_of(alloc, &interner, tree) {
            Ok(key) => Ended::Answered(key),
            Err(_) => Ended::OutOfMemory,
        },
        Err(ended) => ended,
    }
}

/// The key of a tree.
fn key_of(alloc: Global, interner: &Interner, tree: MarkerTree) -> Result<Vec<u8>, AllocError>
    requires { IsTree interner.now.nodes tree }
    ensures { IfOk result (λ key. IsKeyOf (holds interner.now.nodes tree) key.items) }
{
    tree.key(alloc, interner)
}
