//! The children of a node, in order, and branches with other trees in place of theirs. Crates that change
//! trees node by node use them too.

ghost use Rattle.std.specs.Prelude.{◌≡◌, ◌∷◌, map, IfOk};
ghost use Rattle.pep508_tree.specs.Joining.{joined, head, tail};

use crate::tree::MarkerTree;
use pep508_diagram::{Branch, add_children, rejoined};
use std::alloc::{AllocError, Global};

/// Returns the first child, and the child of each branch after it.
///
/// # Errors
///
/// `AllocError` when memory runs out.
pub fn children_of<T, C: Copy>(
    alloc: Global,
    first: C,
    later: &[Branch<T, C>],
) -> Result<Vec<C>, AllocError>
    ensures { IfOk result (λ children. children.items ≡ first ∷ map (λ branch. branch.child) later.now) }
{
    let mut children = Vec::new(alloc);
    children.push(first)?;
    add_children(&mut children, later)?;
    Ok(children)
}

/// Returns branches between the same endpoints with other trees. Equal neighbours are joined.
///
/// # Errors
///
/// `AllocError` when memory runs out.
pub fn joined<T: Drop, C: Drop>(
    alloc: Global,
    first: MarkerTree,
    later: Vec<Branch<T, C>>,
    trees: &[MarkerTree],
) -> Result<Vec<Branch<T, MarkerTree>>, AllocError>
    ensures { IfOk result (λ branches. branches.items ≡ joined first later.items trees.now) }
{
    rejoined(alloc, first, later, trees)
}

/// Returns the first of trees, and the others; of none the tree that always holds.
pub fn first_and_others(trees: &[MarkerTree]) -> (MarkerTree, &[MarkerTree])
    ensures first { result.0 ≡ head trees.now }
    ensures others { result.1.now ≡ tail trees.now }
{
    match trees.split_first() {
        Some((first, others)) => (*first, others),
        None => (MarkerTree::TRUE, trees),
    }
}
