//! Pairs of trees that are known to have the same diagram, so that none is walked twice.

ghost use Rattle.std.specs.Prelude.{◌≡◌, List, IsTrue};
ghost use Rattle.std.specs.List.{AllByRecursion};
ghost use Rattle.std.specs.declared.cmp.Ordering.TheVariants.{Equal};
ghost use Rattle.pep508_tree.specs.Meaning.{NodeRecord, diagram_of};
ghost use Rattle.pep508_tree_ref.specs.Ties.{Name, named, AreTied};
ghost use Rattle.pep508_tree_ref.specs.TreeOrder.{diagram_cmp};

use pep508_tree::MarkerTree;
use std::cmp::Ordering;
use std::collections::BTreeSet;

/// A tree by its place in its interner, and whether it is negated.
pub(crate) type Name = (usize, bool);

fn name(tree: MarkerTree) -> Name
    ensures { result ≡ named tree }
{
    (tree.place(), tree.is_negated())
}

/// Returns whether two trees, of which the first is not constant, are known to have the same diagram.
pub(crate) fn is_known(known: &BTreeSet<(Name, Name)>, tree: MarkerTree, other: MarkerTree) -> bool
    ensures { IsTrue result → (nodes others : List NodeRecord) →
        AllByRecursion (AreTied nodes others) known.now.keys →
        diagram_cmp (diagram_of nodes tree) (diagram_of others other) ≡ Equal }
{
    tree.place() > 0 && known.contains(&(name(tree), name(other)))
}

/// Remembers two trees that compare as `order`, where they are equal and not constant. Where memory for
/// that runs out, they are walked again.
pub(crate) fn keep(
    known: &mut BTreeSet<(Name, Name)>,
    tree: MarkerTree,
    other: MarkerTree,
    order: Ordering,
)
    ensures { (nodes others : List NodeRecord) →
        AllByRecursion (AreTied nodes others) known.old.keys →
        order ≡ diagram_cmp (diagram_of nodes tree) (diagram_of others other) →
        AllByRecursion (AreTied nodes others) known.new.keys }
{
    if order.is_eq() && tree.place() > 0 {
        let _ = known.insert((name(tree), name(other)));
    }
}
