//! The walk from a tree to its clauses.
//!
//! The steps that wait are a list, so nothing recurses. A step adds its terms to one list, which is cut
//! back where the next step begins, so that a clause costs its own terms alone; it is copied where the walk
//! ends. That the walk ends is shown by the number of steps on all paths, which the program never counts
//! (`proofs/Walking.antt`).

ghost use Rattle.std.specs.Prelude.{◌≡◌, [], ◌∷◌, ◌++◌, take, reverse, IfOk, OnOk};
ghost use Rattle.std.specs.List.{filter};
ghost use Rattle.pep508_clauses.specs.Terms.{clause_of, clauses_shown};
ghost use Rattle.pep508_marker_text_laws.specs.Clauses.{clauses_of};
ghost use Rattle.pep508_marker_text_laws.specs.Simplified.{has_some};
ghost use Rattle.pep508_tree.specs.Meaning.{IsTree, diagram_of};
ghost use Rattle.pep508_marker_display.specs.Steps.{steps_shown};
ghost use Rattle.pep508_marker_display.specs.Pending.{all_at, waits_shown};

use crate::steps::{Step, root_steps};
use pep508_marker::MarkerExpression;
use pep508_tree::{Interner, MarkerTree};
use std::alloc::{AllocError, Global};

fn copy_of(alloc: Global, terms: &[MarkerExpression]) -> Result<Vec<MarkerExpression>, AllocError>
    ensures { IfOk result (λ copies. clause_of copies.items ≡ clause_of terms.now) }
{
    let mut copies = Vec::with_capacity(alloc, terms.len())?;
    for term in terms {
        copies.push(term.try_clone(alloc)?)?;
    }
    Ok(copies)
}

/// Adds a clause of these terms, where there are any.
fn add_clause(
    alloc: Global,
    terms: &[MarkerExpression],
    clauses: &mut Vec<Vec<MarkerExpression>>,
) -> Result<(), AllocError>
    ensures { OnOk result (clauses_shown clauses.new.items
        ≡ clauses_shown clauses.old.items ++ filter has_some (clause_of terms.now ∷ [])) }
{
    if terms.is_empty() {
        return Ok(());
    }
    let clause = copy_of(alloc, terms)?;
    clauses.push(clause)?;
    Ok(())
}

/// A step left to do, and the number of terms on the path that lead up to it.
#[derive(Drop)]
pub(crate) struct Pending {
    depth: usize,
    step: Step,
}

/// Pushes steps onto those left to do, the first one last.
fn add_steps(waiting: &mut Vec<Pending>, depth: usize, steps: Vec<Step>) -> Result<(), AllocError>
    ensures { OnOk result (waits_shown waiting.new.items
        ≡ waits_shown waiting.old.items ++ all_at depth (reverse (steps_shown steps.items))) }
{
    let mut left = steps;
    while let Some(step) = left.pop() {
        waiting.push(Pending { depth, step })?;
    }
    Ok(())
}

/// Cuts the path to the terms that lead up to a step, and appends the step's terms.
fn go_on(
    path: &mut Vec<MarkerExpression>,
    depth: usize,
    terms: Vec<MarkerExpression>,
) -> Result<(), AllocError>
    ensures { OnOk result (clause_of path.new.items
        ≡ take depth (clause_of path.old.items) ++ clause_of terms.items) }
{
    let mut terms = terms;
    path.truncate(depth);
    path.append(&mut terms)?;
    Ok(())
}

/// Returns the clauses of a tree, but for one without terms. The steps left to do are kept in a list, those
/// of one path after one another, so that a long path takes memory and no stack.
pub(crate) fn clauses_of(
    alloc: Global,
    tree: MarkerTree,
    interner: &Interner,
) -> Result<Vec<Vec<MarkerExpression>>, AllocError>
    requires { IsTree interner.now.nodes tree }
    ensures { IfOk result (λ clauses. clauses_shown clauses.items
        ≡ filter has_some (clauses_of (diagram_of interner.now.nodes tree))) }
{
    interner.are_sound();
    let mut path = Vec::new(alloc);
    let mut clauses = Vec::new(alloc);
    let step = Step {
        terms: Vec::new(alloc),
        tree,
    };
    let mut waiting = vec![in alloc; Pending { depth: 0, step }]?;
    while let Some(next) = waiting.pop() {
        let Pending { depth, step } = next;
        let Step { terms, tree: at } = step;
        go_on(&mut path, depth, terms)?;
        if at.is_true() {
            add_clause(alloc, &path, &mut clauses)?;
        } else {
            let steps = root_steps(alloc, at, interner)?;
            add_steps(&mut waiting, path.len(), steps)?;
        }
    }
    Ok(clauses)
}
