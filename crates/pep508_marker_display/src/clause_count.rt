//! The number of a tree's clauses, as far as a bound.
//!
//! The walk is that from a tree to its clauses (`clause_walk.rt`), but keeps no terms: of a path only the
//! tree is known to which it leads, and whether it has terms. It ends where one clause more is found than
//! the bound allows.

ghost use Rattle.std.specs.Prelude.{◌≡◌, ◌≢◌, ◌<◌, ◌↔◌, ◌++◌, IsTrue, IfOk, IfErr, OnOk};
ghost use Rattle.pep508_tree.specs.Meaning.{IsTree, diagram_of};
ghost use Rattle.pep508_tree.specs.Tree.{always, never};
ghost use Rattle.pep508_tree.specs.Roots.{root_of};
ghost use Rattle.pep508_marker_display.specs.Counted.{clause_count};
ghost use Rattle.pep508_marker_display.specs.Ends.{ends_by};
ghost use Rattle.pep508_marker_display.specs.Steps.{root_steps, steps_shown};

use crate::steps::{Step, root_steps};
use pep508_tree::{Interner, MarkerTree, TreeNode};
use std::alloc::{AllocError, Global};

/// The tree to which a path leads, and whether the path has terms.
#[derive(Clone, Copy)]
pub(crate) struct End {
    tree: MarkerTree,
    has_terms: bool,
}

/// Returns whether a path to a tree is a clause.
fn is_clause(tree: MarkerTree, has_terms: bool) -> bool
    ensures { IsTrue result ↔ ((tree ≡ always) × (IsTrue has_terms)) }
{
    has_terms && tree.is_true()
}

/// Adds the end of each path that goes on by one of these steps.
fn push_ends(waiting: &mut Vec<End>, has_terms: bool, steps: &[Step]) -> Result<(), AllocError>
    ensures { OnOk result (waiting.new.items
        ≡ waiting.old.items ++ ends_by has_terms (steps_shown steps.now)) }
{
    for step in steps {
        waiting.push(End {
            tree: step.tree,
            has_terms: has_terms || !step.terms.is_empty(),
        })?;
    }
    Ok(())
}

/// Adds the end of each path that goes on from a tree by one step. No terms are made of a flag, of which
/// there are most.
#[tactic(auto, using(crate::proofs::Counting::flagged_ends))]
fn add_ends(
    alloc: Global,
    waiting: &mut Vec<End>,
    has_terms: bool,
    tree: MarkerTree,
    interner: &Interner,
) -> Result<(), AllocError>
    requires { IsTree interner.now.nodes tree }
    ensures { OnOk result (waiting.new.items
        ≡ waiting.old.items ++ ends_by has_terms (root_steps (root_of interner.now.nodes tree))) }
{
    if let TreeNode::Flagged(_, set, unset) = tree.node(interner) {
        waiting.push(End {
            tree: set,
            has_terms: true,
        })?;
        waiting.push(End {
            tree: unset,
            has_terms: true,
        })?;
        return Ok(());
    }
    let steps = root_steps(alloc, tree, interner)?;
    push_ends(waiting, has_terms, &steps)
}

/// Returns whether a tree has more than `most` clauses, as its text has them before they are simplified:
/// one for each path from the root to where the tree holds.
///
/// Ends with the clause that is one too many, so that it walks at most `most + 1` paths, and keeps no
/// clause: needs memory for the steps beside one path. No recursion, however deep the tree is.
///
/// # Errors
///
/// `AllocError` when memory runs out.
pub fn has_more_clauses(
    alloc: Global,
    tree: MarkerTree,
    interner: &Interner,
    most: usize,
) -> Result<bool, AllocError>
    requires { IsTree interner.now.nodes tree }
    ensures more { IfOk result (λ more.
        IsTrue more ↔ (most < clause_count (diagram_of interner.now.nodes tree))) }
    ensures grown { IfErr result (λ error. (tree ≢ always) × (tree ≢ never)) }
{
    interner.are_sound();
    if tree.is_true() || tree.is_false() {
        return Ok(false);
    }
    let mut found: usize = 0;
    let mut waiting = vec![in alloc;
        End {
            tree,
            has_terms: false
        },
    ]?;
    while let Some(end) = waiting.pop() {
        let End {
            tree: at,
            has_terms,
        } = end;
        if is_clause(at, has_terms) {
            if found == most {
                return Ok(true);
            }
            found += 1;
        } else {
            add_ends(alloc, &mut waiting, has_terms, at, interner)?;
        }
    }
    Ok(false)
}
