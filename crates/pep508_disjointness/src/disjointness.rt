//! Whether two trees never hold together, as a trait of trees.
//!
//! The pairs that are left are one ordered set, by the sum of their two places, from which the last is
//! removed until none is left: what is in a pair has a lesser sum, so no pair comes again, nothing else is
//! remembered and no stack is used. That the walk ends is shown by a number for each pair
//! (`proofs/Ranks.antt`). Only borrowed nodes are read (`MarkerTree::node`), so this is a crate of its own.

ghost use Rattle.std.specs.Prelude.{◌≡◌, ◌↔◌, ◌<◌, IsTrue, List, MatchOption, IfOk, OnOk, true};
ghost use Rattle.pep508_tree.specs.Tree.{Tree};
ghost use Rattle.pep508_tree.specs.Meaning.{NodeRecord, IsTree};
ghost use Rattle.pep508_tree.specs.Nodes.{AreSound};
ghost use Rattle.pep508_tree.specs.Disjoint.{AreDisjoint};
ghost use Rattle.pep508_disjointness.specs.Left.{IsAsked, IsApart, Replaced, with_pairs};

use crate::child_pairs::{Pair, pairs};
use pep508_tree::{Interner, MarkerTree, TreePair};
use std::alloc::{AllocError, Global};
use std::collections::BTreeSet;

/// Returns whether two trees are disjoint, where one is constant, or they are one tree or its negation.
fn plain_disjointness(a: MarkerTree, b: MarkerTree) -> Option<bool>
    ensures { MatchOption result ((0 < a.place) × (0 < b.place)) (λ apart. (nodes : List NodeRecord) →
        AreSound nodes → IsTree nodes a → IsTree nodes b → IsTrue apart ↔ AreDisjoint nodes a b) }
{
    if a.place() == 0 {
        return Some(a.is_negated() || b.is_false());
    }
    if b.place() == 0 {
        return Some(b.is_negated());
    }
    if a.place() != b.place() {
        return None;
    }
    Some(a.is_negated() != b.is_negated())
}

/// Adds pairs to those left to look at.
fn add_pairs(left: &mut BTreeSet<TreePair>, pairs: &[Pair]) -> Result<(), AllocError>
    ensures { OnOk result (left.new.keys ≡ with_pairs left.old.keys pairs.now) }
{
    for pair in pairs {
        left.insert(TreePair::new(pair.0, pair.1))?;
    }
    Ok(())
}

/// Returns whether a pair may be disjoint. It is disjoint if all pairs that this adds to those left to look
/// at are.
fn look_at(
    alloc: Global,
    interner: &Interner,
    left: &mut BTreeSet<TreePair>,
    asked: TreePair,
) -> Result<bool, AllocError>
    requires made { IsAsked interner.now.nodes asked }
    ensures on { IfOk result (λ may. IsTrue may →
        Replaced interner.now.nodes asked left.old.keys left.new.keys) }
    ensures over { IfOk result (λ may. IsApart interner.now.nodes asked → IsTrue may) }
{
    interner.are_sound();
    match plain_disjointness(asked.first, asked.second) {
        Some(apart) => Ok(apart),
        None => {
            let pairs = pairs(alloc, interner, asked.first, asked.second)?;
            add_pairs(left, &pairs)?;
            Ok(true)
        }
    }
}

/// Returns whether two trees never hold together: each pair is replaced by the pairs of its children, the
/// pairs of the highest places first, so that no pair comes again.
fn are_disjoint(
    alloc: Global,
    interner: &Interner,
    a: MarkerTree,
    b: MarkerTree,
) -> Result<bool, AllocError>
    requires a { IsTree interner.now.nodes a }
    requires b { IsTree interner.now.nodes b }
    ensures { IfOk result (λ apart. IsTrue apart ↔ AreDisjoint interner.now.nodes a b) }
{
    let mut left = BTreeSet::new(alloc);
    left.insert(TreePair::new(a, b))?;
    while let Some(asked) = left.pop_last() {
        if !look_at(alloc, interner, &mut left, asked)? {
            return Ok(false);
        }
    }
    Ok(true)
}

/// Marker trees that can be tested for disjointness.
pub trait MarkerTreeDisjointness {
    ghost use Rattle.pep508_tree.specs.Tree.{Tree};

    /// The tree that a value is.
    ghost tree: { Self → Tree };

    /// Returns whether no environment and no extras make both trees hold. Makes no tree and counts nothing;
    /// the only error is lack of memory for the pairs that were looked at.
    ///
    /// Looks at each pair of a node of the one and a node of the other at most once, the pairs of the
    /// highest places first, and ends at the first that can hold together. A pair takes as many steps as
    /// its two nodes have endpoints, of which none is copied. No recursion, however deep the trees are.
    fn is_disjoint(
        self,
        alloc: Global,
        interner: &Interner,
        other: Self,
    ) -> Result<bool, AllocError>
        requires made { IsTree interner.now.nodes (tree self) }
        requires other_made { IsTree interner.now.nodes (tree other) }
        ensures { IfOk result (λ apart.
            IsTrue apart ↔ AreDisjoint interner.now.nodes (tree self) (tree other)) };
}

impl MarkerTreeDisjointness for MarkerTree {
    ghost tree = { λ tree. tree };

    fn is_disjoint(
        self,
        alloc: Global,
        interner: &Interner,
        other: MarkerTree,
    ) -> Result<bool, AllocError> {
        are_disjoint(alloc, interner, self, other)
    }
}
