//! Sorting trees by the variables that they test first.
//!
//! Many trees are sorted by their first variable before they are halved, so that those of one key stand
//! together. Flags are one below another in a tree: where each tree tests one, the last are joined first,
//! and each makes one node above those after it, where halves in any order make n log n. A sort is known
//! only to move trees, and the conjunction of moved trees is the same, so nothing has to be proved of the
//! order. Four trees or fewer are not sorted.

ghost use Rattle.std.specs.Prelude.{◌≡◌, IfOk, IsPermutation, map};
ghost use Rattle.std.specs.List.{AllByRecursion};
ghost use Rattle.pep508_tree.specs.Meaning.{IsTree};
ghost use Rattle.pep508_conjunctions.specs.Orders.{tree_at, indexed};

use pep508_diagram::{VersionVariable, text_rank};
use pep508_tree::{Interner, MarkerTree, TreeNode};
use std::alloc::{AllocError, Global};

/// The rank and the text of the variable that a tree tests first, and the tree's index.
#[derive(Clone, Copy)]
pub(crate) struct Placed<'a> {
    pub rank: u8,
    pub text: &'a str,
    pub index: usize,
}

/// Returns the place of the variable that the tree tests first; its text is borrowed from the interner.
fn first_place<'a>(interner: &'a Interner, tree: MarkerTree, index: usize) -> Placed<'a>
    requires { IsTree interner.now.nodes tree }
    ensures { result.index ≡ index }
{
    let (rank, text) = match tree.node(interner) {
        TreeNode::Constant(_) => (0, ""),
        TreeNode::Versions(VersionVariable::ImplementationVersion, _) => (0, ""),
        TreeNode::Versions(VersionVariable::PythonFullVersion, _) => (1, ""),
        TreeNode::Texts(key, _) => (text_rank(key), ""),
        TreeNode::Flagged(flag, _, _) => (flag.rank(), flag.text()),
    };
    Placed { rank, text, index }
}

/// Returns the places of the variables that trees test first.
fn first_places<'a>(
    alloc: Global,
    interner: &'a Interner,
    trees: &[MarkerTree],
) -> Result<Vec<Placed<'a>>, AllocError>
    requires { AllByRecursion (IsTree interner.now.nodes) trees.now }
    ensures { IfOk result (λ places. map (indexed trees.now) places.items ≡ trees.now) }
{
    let mut places = Vec::with_capacity(alloc, trees.len())?;
    for (index, tree) in trees.iter().enumerate() {
        places.push(first_place(interner, *tree, index))?;
    }
    Ok(places)
}

/// Returns the tree of an index; the tree that always holds where there is none.
fn tree_at(trees: &[MarkerTree], index: usize) -> MarkerTree
    ensures { result ≡ tree_at trees.now index }
{
    match trees.get(index) {
        Some(tree) => *tree,
        None => MarkerTree::TRUE,
    }
}

/// Returns the trees of places.
fn trees_of<'a>(
    alloc: Global,
    trees: &[MarkerTree],
    places: &[Placed<'a>],
) -> Result<Vec<MarkerTree>, AllocError>
    ensures { IfOk result (λ moved. moved.items ≡ map (indexed trees.now) places.now) }
{
    let mut moved = Vec::with_capacity(alloc, places.len())?;
    for place in places {
        moved.push(tree_at(trees, place.index))?;
    }
    Ok(moved)
}

/// Returns the trees sorted by the variables that they test first.
pub(crate) fn in_order(
    alloc: Global,
    interner: &Interner,
    trees: &[MarkerTree],
) -> Result<Vec<MarkerTree>, AllocError>
    requires { AllByRecursion (IsTree interner.now.nodes) trees.now }
    ensures { IfOk result (λ sorted. IsPermutation trees.now sorted.items) }
{
    let mut places = first_places(alloc, interner, trees)?;
    places.sort_by(|a, b| a.rank.cmp(&b.rank).then(a.text.cmp(b.text)))?;
    trees_of(alloc, trees, &places)
}
