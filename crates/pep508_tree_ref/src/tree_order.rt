//! The order of two trees by their diagrams, found by recursion, which can do without memory.

ghost use Rattle.std.specs.Prelude.{◌≡◌, option_map};
ghost use Rattle.std.specs.List.{AllByRecursion, slice_get};
ghost use Rattle.pep508_tree.specs.Meaning.{IsTree, diagram_of};
ghost use Rattle.pep508_tree.specs.Roots.{root_of};
ghost use Rattle.pep508_tree_ref.specs.Ties.{AreTied};
ghost use Rattle.pep508_tree_ref.specs.Sides.{ends_of, end_cmp};
ghost use Rattle.pep508_tree_ref.specs.TreeOrder.{diagram_cmp};

use crate::end::{cmp_ends, end_at};
use crate::known::{Name, is_known, keep};
use pep508_evaluation::{root_child, root_child_count};
use pep508_tree::{Interner, MarkerTree};
use std::alloc::Global;
use std::cmp::Ordering;
use std::collections::BTreeSet;

/// Compares two trees, each in its own interner, by recursion: for `cmp`, where memory for the list of
/// `try_cmp_trees` is refused.
pub(crate) fn cmp_trees(
    alloc: Global,
    tree: MarkerTree,
    interner: &Interner,
    other: MarkerTree,
    other_interner: &Interner,
) -> Ordering
    requires tree { IsTree interner.now.nodes tree }
    requires other { IsTree other_interner.now.nodes other }
    ensures { result ≡ diagram_cmp (diagram_of interner.now.nodes tree)
        (diagram_of other_interner.now.nodes other) }
{
    let mut known = BTreeSet::new(alloc);
    cmp_beside(&mut known, tree, interner, other, other_interner)
}

/// Compares the ends of two trees' edges, by the edges' place.
pub(crate) fn cmp_ends_at(
    tree: MarkerTree,
    interner: &Interner,
    other: MarkerTree,
    other_interner: &Interner,
    index: usize,
) -> Ordering
    requires tree { IsTree interner.now.nodes tree }
    requires other { IsTree other_interner.now.nodes other }
    ensures { result ≡ end_cmp (slice_get (ends_of (root_of interner.now.nodes tree)) index)
        (slice_get (ends_of (root_of other_interner.now.nodes other)) index) }
{
    cmp_ends(
        end_at(tree, interner, index),
        end_at(other, other_interner, index),
    )
}

/// Compares two trees, with pairs that are known to be equal. It recurses as deep as a path from the root
/// is long.
fn cmp_beside(
    known: &mut BTreeSet<(Name, Name)>,
    tree: MarkerTree,
    interner: &Interner,
    other: MarkerTree,
    other_interner: &Interner,
) -> Ordering
    requires tree { IsTree interner.now.nodes tree }
    requires other { IsTree other_interner.now.nodes other }
    requires known { AllByRecursion (AreTied interner.now.nodes other_interner.now.nodes) known.old.keys }
    ensures order { result ≡ diagram_cmp (diagram_of interner.now.nodes tree)
        (diagram_of other_interner.now.nodes other) }
    ensures known { AllByRecursion (AreTied interner.now.nodes other_interner.now.nodes) known.new.keys }
{
    if is_known(known, tree, other) {
        return Ordering::Equal;
    }
    interner.are_sound();
    other_interner.are_sound();
    let count = root_child_count(tree, interner);
    let other_count = root_child_count(other, other_interner);
    for index in 0..count {
        if other_count <= index {
            return Ordering::Greater;
        }
        let Some(child) = root_child(tree, interner, index) else {
            unreachable!()
        };
        let Some(other_child) = root_child(other, other_interner, index) else {
            unreachable!()
        };
        let order = cmp_ends_at(tree, interner, other, other_interner, index);
        if order.is_ne() {
            return order;
        }
        let order = cmp_beside(known, child, interner, other_child, other_interner);
        if order.is_ne() {
            return order;
        }
    }
    if count < other_count {
        return Ordering::Less;
    }
    let order = tree.is_false().cmp(&other.is_false());
    keep(known, tree, other, order);
    order
}
