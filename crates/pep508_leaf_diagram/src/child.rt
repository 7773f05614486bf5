//! What an edge of a diagram leads to.

ghost use Rattle.std.specs.Prelude.{◌≡◌};
ghost use Rattle.pep508_leaf_diagram.specs.Leaves.{child_of};

use pep508_tree::MarkerTree;

/// What an edge leads to: a leaf, by its number; a node of the diagram, by its index; or a whole marker tree,
/// which stands for leaf 1 where it holds and for leaf 0 where it fails.
#[derive(Clone, Copy, PartialEq, Eq, Hash)]
pub enum Child {
    Leaf(usize),
    Node(usize),
    Whole(MarkerTree),
}

/// A child in each of two diagrams.
pub(crate) type Pair = (Child, Child);

/// Returns the child for a tree: a leaf where the tree is constant.
pub(crate) fn child_of(tree: MarkerTree) -> Child
    ensures { result ≡ child_of tree }
{
    if tree.place() != 0 {
        return Child::Whole(tree);
    }
    if tree.is_negated() {
        Child::Leaf(0)
    } else {
        Child::Leaf(1)
    }
}
