//! Truths with endpoints of their own instead of borrowed ones, and as constant trees.

ghost use Rattle.std.specs.Prelude.{◌≡◌, IfOk, map};
ghost use Rattle.pep508_tree.specs.Tree.{constant};
ghost use Rattle.pep508_tree.specs.Leaves.{constant_branch};
ghost use Rattle.pep508_conjunctions.specs.Meets.{AreSame};

use crate::borrowed_value::LentValue;
use crate::meet::Truths;
use pep508_diagram::{Branch, NodeValue};
use pep508_tree::MarkerTree;
use std::alloc::{AllocError, Global};
use version_ranges::Boundary;

/// Returns an identical copy of an endpoint.
fn owned_boundary<'a, T: NodeValue>(
    alloc: Global,
    boundary: &Boundary<LentValue<'a, T>>,
) -> Result<Boundary<T>, AllocError>
    ensures { IfOk result (λ copy. copy ≡ boundary.now) }
{
    Ok(match boundary {
        Boundary::At(value) => Boundary::At(value.value().copied(alloc)?),
        Boundary::JustAbove(value) => Boundary::JustAbove(value.value().copied(alloc)?),
    })
}

/// Returns the truths with copies of the endpoints.
pub(crate) fn owned<'a, T: NodeValue>(
    alloc: Global,
    truths: &Truths<LentValue<'a, T>>,
) -> Result<Truths<T>, AllocError>
    ensures { IfOk result (λ copy. AreSame copy truths.now) }
{
    let mut later = Vec::with_capacity(alloc, truths.later.len())?;
    for branch in &truths.later {
        later.push(Branch {
            boundary: owned_boundary(alloc, &branch.boundary)?,
            child: branch.child,
        })?;
    }
    Ok(Truths {
        first: truths.first,
        later,
    })
}

/// Returns the tree that always holds, or the one that never does.
pub(crate) fn constant(truth: bool) -> MarkerTree
    ensures { result ≡ constant truth }
{
    if truth {
        MarkerTree::TRUE
    } else {
        MarkerTree::FALSE
    }
}

/// Returns the branches with constant trees in place of truths.
pub(crate) fn constants<T: Drop>(
    alloc: Global,
    later: Vec<Branch<T, bool>>,
) -> Result<Vec<Branch<T, MarkerTree>>, AllocError>
    ensures { IfOk result (λ branches. branches.items ≡ map constant_branch later.items) }
{
    let mut branches = Vec::with_capacity(alloc, later.len())?;
    for branch in later {
        branches.push(Branch {
            boundary: branch.boundary,
            child: constant(branch.child),
        })?;
    }
    Ok(branches)
}
