//! Diagrams whose leaves are sets of trees, by halves of the trees.

ghost use Rattle.std.specs.Prelude.{◌≡◌, ◌≤◌, ◌+◌, ◌∷◌, [], ◌++◌, List, length, map, IfOk, IfSome, OnOk};
ghost use Rattle.std.specs.List.{AllByRecursion};
ghost use Rattle.pep508_tree.specs.Tree.{Tree};
ghost use Rattle.pep508_tree.specs.Meaning.{NodeRecord, IsTree};
ghost use Rattle.pep508_leaf_diagram.specs.Pairing.{IsDiagram};
ghost use Rattle.pep508_cases.specs.Marked.{set_at, united, IsMarked, IsRooted, AreShort};

use crate::set::TreeSet;
use pep508_leaf_diagram::{Diagram, merge_diagrams};
use pep508_tree::{Interner, MarkerTree};
use std::alloc::{AllocError, Global};

/// A diagram, and for each of its leaves which of some trees hold where it is reached.
#[derive(Drop)]
pub(crate) struct Marked {
    pub diagram: Diagram,
    pub sets: Vec<TreeSet>,
    /// How many trees there are.
    pub count: usize,
}

/// Returns the one set of no trees.
pub(crate) fn of_none(alloc: Global) -> Result<Marked, AllocError>
    ensures marked { IfOk result (λ m. (nodes : List NodeRecord) → IsMarked nodes [] m × IsRooted m) }
    ensures short { IfOk result AreShort }
    ensures count { IfOk result (λ m. m.count ≡ 0) }
{
    let mut sets = Vec::new(alloc);
    sets.push(TreeSet::new(alloc))?;
    Ok(Marked {
        diagram: Diagram::one_leaf(alloc),
        sets,
        count: 0,
    })
}

/// Returns the sets of one tree.
fn of_one(alloc: Global, tree: MarkerTree) -> Result<Marked, AllocError>
    ensures marked { IfOk result (λ m. (nodes : List NodeRecord) →
        IsTree nodes tree → IsMarked nodes (tree ∷ []) m) }
    ensures short { IfOk result AreShort }
    ensures count { IfOk result (λ m. m.count ≡ 1) }
{
    let mut sets = Vec::new(alloc);
    sets.push(TreeSet::of_one(alloc, false)?)?;
    sets.push(TreeSet::of_one(alloc, true)?)?;
    Ok(Marked {
        diagram: Diagram::of_tree(alloc, tree),
        sets,
        count: 1,
    })
}

/// Returns a copy of the set at an index, or the set of no trees.
pub(crate) fn copied_set(
    alloc: Global,
    sets: &[TreeSet],
    place: usize,
) -> Result<TreeSet, AllocError>
    ensures { IfOk result (λ set. set ≡ set_at sets.now place) }
{
    match sets.get(place) {
        Some(set) => set.try_clone(alloc),
        None => Ok(TreeSet::new(alloc)),
    }
}

/// Appends the set at an index of others to a set.
fn extend_by(set: &mut TreeSet, others: &[TreeSet], place: usize) -> Result<(), AllocError>
    requires { length set.old + length (set_at others.now place) ≤ usize.MAX }
    ensures { OnOk result (set.new ≡ set.old ++ set_at others.now place) }
{
    match others.get(place) {
        Some(later) => set.extend(later),
        None => Ok(()),
    }
}

/// Returns the set at an index, with that at an index of others after it.
fn unite(
    alloc: Global,
    sets: &[TreeSet],
    others: &[TreeSet],
    first: usize,
    second: usize,
) -> Result<TreeSet, AllocError>
    requires { length (set_at sets.now first) + length (set_at others.now second) ≤ usize.MAX }
    ensures { IfOk result (λ set. set ≡ united sets.now others.now (first, second)) }
{
    let mut set = copied_set(alloc, sets, first)?;
    extend_by(&mut set, others, second)?;
    Ok(set)
}

/// Returns the united sets of pairs of leaves.
fn unite_all(
    alloc: Global,
    first: &Marked,
    second: &Marked,
    leaves: &[(usize, usize)],
) -> Result<Vec<TreeSet>, AllocError>
    requires first { AreShort first.now }
    requires second { AreShort second.now }
    requires count { first.now.count + second.now.count ≤ usize.MAX }
    ensures { IfOk result (λ all. all.items
        ≡ map (united first.now.sets.items second.now.sets.items) leaves.now) }
{
    let mut all = Vec::with_capacity(alloc, leaves.len())?;
    for places in leaves {
        all.push(unite(alloc, &first.sets, &second.sets, places.0, places.1)?)?;
    }
    Ok(all)
}

/// Returns the sets of some trees and of others after them, or `None` where there are more than `most`.
fn joined(
    alloc: Global,
    interner: &Interner,
    a: &Marked,
    b: &Marked,
    most: u64,
) -> Result<Option<Marked>, AllocError>
    requires a { IsDiagram interner.now.nodes a.now.diagram }
    requires b { IsDiagram interner.now.nodes b.now.diagram }
    requires first { AreShort a.now }
    requires second { AreShort b.now }
    requires count { a.now.count + b.now.count ≤ usize.MAX }
    ensures marked { IfOk result (λ m. IfSome m (λ m.
        (xs ys : List Tree) → IsMarked interner.now.nodes xs a.now →
        IsMarked interner.now.nodes ys b.now → IsMarked interner.now.nodes (xs ++ ys) m × IsRooted m)) }
    ensures short { IfOk result (λ m. IfSome m AreShort) }
    ensures count { IfOk result (λ m. IfSome m (λ m. m.count ≡ a.now.count + b.now.count)) }
{
    let Some(merged) = merge_diagrams(alloc, interner, &a.diagram, &b.diagram, most)? else {
        return Ok(None);
    };
    let sets = unite_all(alloc, a, b, &merged.leaves)?;
    Ok(Some(Marked {
        diagram: merged.diagram,
        sets,
        count: a.count + b.count,
    }))
}

/// Returns the sets of some trees, joined by halves, or `None` where there are more than `most`.
pub(crate) fn of_trees(
    alloc: Global,
    interner: &Interner,
    trees: &[MarkerTree],
    most: u64,
) -> Result<Option<Marked>, AllocError>
    requires { AllByRecursion (IsTree interner.now.nodes) trees.now }
    ensures marked { IfOk result (λ m. IfSome m (IsMarked interner.now.nodes trees.now)) }
    ensures short { IfOk result (λ m. IfSome m AreShort) }
    ensures count { IfOk result (λ m. IfSome m (λ m. m.count ≡ length trees.now)) }
{
    if trees.is_empty() {
        let none = of_none(alloc)?;
        return Ok(Some(none));
    }
    if trees.len() == 1 {
        let one = of_one(alloc, trees[0])?;
        return Ok(Some(one));
    }
    let (front, back) = trees.split_at(trees.len() / 2);
    let Some(first) = of_trees(alloc, interner, front, most)? else {
        return Ok(None);
    };
    let Some(second) = of_trees(alloc, interner, back, most)? else {
        return Ok(None);
    };
    let Some(all) = joined(alloc, interner, &first, &second, most)? else {
        return Ok(None);
    };
    Ok(Some(all))
}

/// Returns the sets of some trees and of more trees after them, or `None` where there are more than `most`.
pub(crate) fn joined_with(
    alloc: Global,
    interner: &Interner,
    marked: &Marked,
    trees: &[MarkerTree],
    most: u64,
) -> Result<Option<Marked>, AllocError>
    requires marked { IsDiagram interner.now.nodes marked.now.diagram }
    requires short { AreShort marked.now }
    requires trees { AllByRecursion (IsTree interner.now.nodes) trees.now }
    requires count { marked.now.count + length trees.now ≤ usize.MAX }
    ensures marked { IfOk result (λ m. IfSome m (λ m.
        (xs : List Tree) → IsMarked interner.now.nodes xs marked.now →
        IsMarked interner.now.nodes (xs ++ trees.now) m × IsRooted m)) }
    ensures short { IfOk result (λ m. IfSome m AreShort) }
    ensures count { IfOk result (λ m. IfSome m (λ m. m.count ≡ marked.now.count + length trees.now)) }
{
    let Some(others) = of_trees(alloc, interner, trees, most)? else {
        return Ok(None);
    };
    let Some(all) = joined(alloc, interner, marked, &others, most)? else {
        return Ok(None);
    };
    Ok(Some(all))
}
