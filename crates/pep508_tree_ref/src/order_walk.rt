//! The comparison of two trees as a walk over both, whose way back is kept in a list.

ghost use Rattle.std.specs.Prelude.{◌≡◌, IfOk, IsTrue, List};
ghost use Rattle.std.specs.List.{AllByRecursion};
ghost use Rattle.std.specs.declared.cmp.Ordering.TheVariants.{Equal};
ghost use Rattle.pep508_tree.specs.Meaning.{IsTree, NodeRecord, diagram_of};
ghost use Rattle.pep508_tree_ref.specs.Besides.{TieBefore, Tells};
ghost use Rattle.pep508_tree_ref.specs.Ties.{AreTied};
ghost use Rattle.pep508_tree_ref.specs.TreeOrder.{diagram_cmp};

use crate::known::{Name, is_known, keep};
use crate::tree_order::cmp_ends_at;
use pep508_evaluation::{root_child, root_child_count};
use pep508_tree::{Interner, MarkerTree};
use std::alloc::{AllocError, Global};
use std::cmp::Ordering;
use std::collections::BTreeSet;

/// Two trees of which the edges before a place are equal.
#[derive(Clone, Copy)]
pub(crate) struct Beside {
    tree: MarkerTree,
    other: MarkerTree,
    edge: usize,
}

/// What the edges at a place tell of two trees.
#[derive(Clone, Copy)]
pub(crate) enum Step {
    /// Their order.
    Decided(Ordering),
    /// The ends are equal, and the order is that of these two children, unless they are equal too.
    Down(MarkerTree, MarkerTree),
}

/// Compares two trees, each in its own interner. The only error is lack of memory for the way back: where
/// memory for a pair that was found equal is refused, the pair is walked again. No recursion, however deep
/// the trees are.
pub(crate) fn try_cmp_trees(
    alloc: Global,
    tree: MarkerTree,
    interner: &Interner,
    other: MarkerTree,
    other_interner: &Interner,
) -> Result<Ordering, AllocError>
    requires tree { IsTree interner.now.nodes tree }
    requires other { IsTree other_interner.now.nodes other }
    ensures { IfOk result (λ order. order ≡ diagram_cmp (diagram_of interner.now.nodes tree)
        (diagram_of other_interner.now.nodes other)) }
{
    interner.are_sound();
    other_interner.are_sound();
    let mut known = BTreeSet::new(alloc);
    let mut above = Vec::new(alloc);
    let mut tree = tree;
    let mut other = other;
    let mut edge = 0;
    'walk: loop {
        match next_step(&known, tree, interner, other, other_interner, edge) {
            Step::Down(child, other_child) => {
                above.push(Beside {
                    tree,
                    other,
                    edge: edge + 1,
                })?;
                tree = child;
                other = other_child;
                edge = 0;
            }
            Step::Decided(order) => {
                keep(&mut known, tree, other, order);
                if order.is_ne() {
                    return Ok(order);
                }
                let Some(back) = above.pop() else {
                    return Ok(order);
                };
                tree = back.tree;
                other = back.other;
                edge = back.edge;
            }
        }
    }
}

/// Returns whether two trees, none of whose edges was compared, are known to be equal.
fn is_met_again(
    known: &BTreeSet<(Name, Name)>,
    tree: MarkerTree,
    other: MarkerTree,
    edge: usize,
) -> bool
    ensures { IsTrue result → (nodes others : List NodeRecord) →
        AllByRecursion (AreTied nodes others) known.now.keys →
        diagram_cmp (diagram_of nodes tree) (diagram_of others other) ≡ Equal }
{
    edge == 0 && is_known(known, tree, other)
}

/// Looks at two trees' edges at a place.
fn next_step(
    known: &BTreeSet<(Name, Name)>,
    tree: MarkerTree,
    interner: &Interner,
    other: MarkerTree,
    other_interner: &Interner,
    edge: usize,
) -> Step
    requires tree { IsTree interner.now.nodes tree }
    requires other { IsTree other_interner.now.nodes other }
    requires tie { TieBefore interner.now.nodes other_interner.now.nodes tree other edge }
    requires known { AllByRecursion (AreTied interner.now.nodes other_interner.now.nodes) known.now.keys }
    ensures { Tells interner.now.nodes other_interner.now.nodes tree other edge result }
{
    if is_met_again(known, tree, other, edge) {
        return Step::Decided(Ordering::Equal);
    }
    interner.are_sound();
    other_interner.are_sound();
    let count = root_child_count(tree, interner);
    let other_count = root_child_count(other, other_interner);
    if edge < count {
        if other_count <= edge {
            return Step::Decided(Ordering::Greater);
        }
        let Some(child) = root_child(tree, interner, edge) else {
            unreachable!()
        };
        let Some(other_child) = root_child(other, other_interner, edge) else {
            unreachable!()
        };
        let order = cmp_ends_at(tree, interner, other, other_interner, edge);
        if order.is_ne() {
            return Step::Decided(order);
        }
        return Step::Down(child, other_child);
    }
    if edge < other_count {
        return Step::Decided(Ordering::Less);
    }
    Step::Decided(tree.is_false().cmp(&other.is_false()))
}
