//! Views of trees that first test a text.

ghost use Rattle.std.specs.Prelude.{◌≡◌, ℕ, ◌<◌, ◌^◌, List, length};
ghost use Rattle.std.specs.Map.Iter.{ShowsInOrder};
ghost use Rattle.std.specs.Ordering.{on};
ghost use Rattle.std.specs.Cmp.{on_equiv, partial_equiv_from_equiv};
ghost use Rattle.pep508_view.specs.Edges.{lent_edge};
ghost use Rattle.pep508_view.specs.Sameness.{tree_eq};
ghost use Rattle.pep508_view.specs.SamenessLaws.{tree_eq_equiv};
ghost use Rattle.pep508_view.specs.Views.{text_node, text_edges};

use crate::edges::{Edges, TextEdges};
use pep508_diagram::{Branch, MarkerText};
use pep508_marker::MarkerValueString;
use pep508_tree::MarkerTree;

/// A view of a tree that first tests a key's text. It borrows the interner, takes no memory, and equals the
/// views of the same tree.
#[derive(Clone, Copy)]
pub struct StringMarkerTree<'a> {
    tree: MarkerTree,
    key: MarkerValueString,
    first: MarkerTree,
    later: &'a [Branch<MarkerText, MarkerTree>],
    negated: bool,
}

impl PartialEq for StringMarkerTree<'_> {
    ghost eq = { on (λ view. view.tree) tree_eq };

    ghost laws = { partial_equiv_from_equiv (on_equiv (λ view. view.tree) tree_eq_equiv) };

    fn eq(&self, other: &Self) -> bool {
        self.tree == other.tree
    }
}

impl Eq for StringMarkerTree<'_> {
    ghost laws = { on_equiv (λ view. view.tree) tree_eq_equiv };
}

impl<'a> StringMarkerTree<'a> {
    pub(crate) fn new(
        tree: MarkerTree,
        key: MarkerValueString,
        first: MarkerTree,
        later: &'a [Branch<MarkerText, MarkerTree>],
        negated: bool,
    ) -> StringMarkerTree<'a>
        ensures { result ≡ record {
          tree = tree;
          key = key;
          first = first;
          later = later.entry;
          negated = negated;
        } }
    {
        StringMarkerTree {
            tree,
            key,
            first,
            later,
            negated,
        }
    }

    /// Returns the key; the old names of PEP 345 are keys of their own.
    pub fn key(&self) -> MarkerValueString
        ensures { result ≡ self.now.key }
    {
        self.key
    }

    /// Returns an iterator over the subtrees with the texts that bound each, upwards by the texts' bytes.
    /// Takes no memory; each step takes constant time.
    pub fn children(&self) -> TextEdges<'a>
        ensures edges { result ≡ text_edges (text_node self.now) }
        ensures runs { ShowsInOrder (lent_edge {T = List ℕ}) }
        ensures fits { length result < 2 ^ 64 }
    {
        TextEdges::new(Edges::new(self.first, self.later, self.negated))
    }
}
