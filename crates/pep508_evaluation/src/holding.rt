//! Whether a tree can hold with just the listed extras.

ghost use Rattle.std.specs.Prelude.{◌≡◌, ◌≤◌, ◌<◌, ◌↔◌, IsTrue, IfSome, MatchOption, length, map, ◌∷◌};
ghost use Rattle.std.specs.Prelude.{option_map, IfOk, OnOk};
ghost use Rattle.std.specs.List.{slice_get};
ghost use Rattle.pep508_diagram.specs.Question.{Valuation};
ghost use Rattle.pep508_tree.specs.Meaning.{Flagged, IsTree};
ghost use Rattle.pep508_tree.specs.Nodes.{chosen, turned};
ghost use Rattle.pep508_tree.specs.Roots.{root_of};
ghost use Rattle.pep508_evaluation.specs.Steps.{AsksNoExtra, GoesPast, children_of, with_trees};
ghost use Rattle.pep508_evaluation.specs.Valuations.{HasJust, CanHold};

use crate::reached::Reached;
use pep508_diagram::Flag;
use pep508_name::ExtraName;
use pep508_tree::{Children, Interner, MarkerTree, TreeNode};
use std::alloc::{AllocError, Global};
use std::collections::BTreeSet;

/// Returns the child for the extras under a flag that tests one; `None` under another flag.
fn extra_side(
    flag: &Flag,
    set: MarkerTree,
    unset: MarkerTree,
    extras: &[ExtraName],
) -> Option<MarkerTree>
    ensures { MatchOption result (AsksNoExtra (Flagged flag.now set unset))
        (λ child. (v : Valuation) → HasJust extras.now v → chosen (Flagged flag.now set unset) v ≡ child) }
{
    match flag {
        Flag::In(_, _) => None,
        Flag::Contains(_, _) => None,
        Flag::Extra(name) => {
            if extras.contains(name) {
                Some(set)
            } else {
                Some(unset)
            }
        }
        Flag::Arbitrary(_) => Some(unset),
    }
}

/// Returns the child for the extras, where the tree first tests an extra.
fn extra_child(tree: MarkerTree, interner: &Interner, extras: &[ExtraName]) -> Option<MarkerTree>
    requires { IsTree interner.now.nodes tree }
    ensures { MatchOption result (IfSome (root_of interner.now.nodes tree) AsksNoExtra)
        (GoesPast interner.now.nodes extras.now tree) }
{
    match tree.node(interner) {
        TreeNode::Constant(_) => None,
        TreeNode::Versions(_, _) => None,
        TreeNode::Texts(_, _) => None,
        TreeNode::Flagged(flag, set, unset) => extra_side(flag, set, unset, extras),
    }
}

/// Returns the child between two endpoints, by its place.
fn child_between<T>(children: Children<T>, index: usize) -> Option<MarkerTree>
    ensures { result ≡ option_map (turned children.entry.negated)
        (slice_get (children.entry.first ∷ map (λ branch. branch.child) children.entry.later.now) index) }
{
    if index == 0 {
        return Some(children.first.turned(children.negated));
    }
    match children.later.get(index - 1) {
        Some(branch) => Some(branch.child.turned(children.negated)),
        None => None,
    }
}

/// Returns a child of the node at a tree's root, by its place.
#[tactic(auto, using(crate::proofs::Choosing::version_child_at, crate::proofs::Choosing::text_child_at))]
fn child_at(tree: MarkerTree, interner: &Interner, index: usize) -> Option<MarkerTree>
    requires { IsTree interner.now.nodes tree }
    ensures { result ≡ slice_get (children_of (root_of interner.now.nodes tree)) index }
{
    match tree.node(interner) {
        TreeNode::Constant(_) => None,
        TreeNode::Versions(_, children) => child_between(children, index),
        TreeNode::Texts(_, children) => child_between(children, index),
        TreeNode::Flagged(_, set, unset) => [set, unset].get(index).copied(),
    }
}

/// Returns a child of the node at a tree's root, by its place from 0; `None` past the last child. Each was
/// made before the tree.
pub fn root_child(tree: MarkerTree, interner: &Interner, index: usize) -> Option<MarkerTree>
    requires { IsTree interner.now.nodes tree }
    ensures child { result ≡ slice_get (children_of (root_of interner.now.nodes tree)) index }
    ensures falls { MatchOption result (length (children_of (root_of interner.now.nodes tree)) ≤ index)
        (λ child. IsTree interner.now.nodes child × (child.place < tree.place)) }
{
    interner.are_sound();
    child_at(tree, interner, index)
}

/// Returns the number of children of the node at a tree's root.
pub fn root_child_count(tree: MarkerTree, interner: &Interner) -> usize
    requires { IsTree interner.now.nodes tree }
    ensures { result ≡ length (children_of (root_of interner.now.nodes tree)) }
{
    match tree.node(interner) {
        TreeNode::Constant(_) => 0,
        TreeNode::Versions(_, children) => children.later.len() + 1,
        TreeNode::Texts(_, children) => children.later.len() + 1,
        TreeNode::Flagged(_, _, _) => 2,
    }
}

/// Adds the children of the node at a tree's root to the trees that are reached.
fn reach_children(
    reached: &mut BTreeSet<Reached>,
    tree: MarkerTree,
    interner: &Interner,
) -> Result<(), AllocError>
    requires { IsTree interner.now.nodes tree }
    ensures { OnOk result (reached.new.keys
        ≡ with_trees reached.old.keys (children_of (root_of interner.now.nodes tree))) }
{
    for index in 0..root_child_count(tree, interner) {
        let Some(child) = root_child(tree, interner, index) else {
            unreachable!()
        };
        reached.insert(Reached::new(child))?;
    }
    Ok(())
}

/// Returns whether some valuation with just the listed extras makes a tree hold. Of the trees that are
/// reached the one that was made last is looked at first, so that none comes again.
pub(crate) fn can_hold(
    alloc: Global,
    tree: MarkerTree,
    interner: &Interner,
    extras: &[ExtraName],
) -> Result<bool, AllocError>
    requires { IsTree interner.now.nodes tree }
    ensures { IfOk result (λ yes. IsTrue yes ↔ CanHold interner.now.nodes tree extras.now) }
{
    interner.are_sound();
    let mut reached = BTreeSet::new(alloc);
    reached.insert(Reached::new(tree))?;
    while let Some(latest) = reached.pop_last() {
        let next = latest.tree();
        match extra_child(next, interner, extras) {
            Some(child) => {
                reached.insert(Reached::new(child))?;
            }
            None => {
                if next.is_true() {
                    return Ok(true);
                }
                reach_children(&mut reached, next, interner)?;
            }
        }
    }
    Ok(false)
}
