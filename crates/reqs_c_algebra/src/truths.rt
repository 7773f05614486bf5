//! Whether a marker always holds, or never.

ghost use Rattle.std.specs.Prelude.{◌≡◌};
ghost use Rattle.pep508_tree.specs.Meaning.{IsTree, holds};
ghost use Rattle.reqs_c_reply.specs.Endings.{EndsIn, NoRefusal, RepliesAs, ending_of};
ghost use Rattle.reqs_c_algebra.specs.Relations.{IsTruthOf, TruthEnds};

use pep508_tree::{Interner, MarkerTree};
use pep508_tree_laws::constants_are_named;
use reqs_c_markers::read_marker;
use reqs_c_reply::{Ended, Reply};
use std::alloc::Global;

/// Replies with `1` if the marker holds under every valuation, and so in every environment with any extras,
/// with `0` if it holds under none, and otherwise with `-`.
///
/// Linear in the text except for combining the marker's trees, which may have at most `nodes` nodes together
/// and may otherwise grow exponentially with the text. After that the answer takes constant time.
///
/// # Errors
///
/// Refuses a text that is not a marker, at the byte where it stops being one, and then a marker with more
/// nodes. Status 3 when memory runs out.
pub fn marker_truth(alloc: Global, bytes: &[u8], nodes: usize, out: &mut [u8]) -> Reply
    ensures { RepliesAs (TruthEnds nodes bytes.now) out.old out.new result }
{
    truth(alloc, bytes, nodes).reply(out)
}

/// Decides whether a marker always or never holds, and returns how the call ends.
fn truth(alloc: Global, bytes: &[u8], nodes: usize) -> Ended
    ensures { TruthEnds nodes bytes.now (ending_of result) }
{
    let mut interner = Interner::with_most(alloc, nodes);
    match read_marker(alloc, &mut interner, 1, bytes, nodes) {
        Ok(tree) => said(alloc, truth_of(&interner, tree)),
        Err(ended) => ended,
    }
}

/// The reply for a tree: `1` if it always holds, `0` if it never holds, otherwise `-`.
fn truth_of(interner: &Interner, tree: MarkerTree) -> &'static str
    requires { IsTree interner.now.nodes tree }
    ensures { IsTruthOf (holds interner.now.nodes tree) result.now }
{
    constants_are_named(interner);
    if tree.is_true() {
        "1"
    } else if tree.is_false() {
        "0"
    } else {
        "-"
    }
}

/// The end of a call that replies with a text, or is out of memory.
pub(crate) fn said(alloc: Global, text: &str) -> Ended
    ensures { EndsIn (λ answer. answer ≡ text.now) NoRefusal (ending_of result) }
{
    Ended::answered(String::from_str(alloc, text))
}
