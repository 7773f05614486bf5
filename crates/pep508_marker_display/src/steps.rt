//! The steps from a tree to its subtrees, each with its terms.
//!
//! The node at a root gives its steps, each some terms and a subtree; what they say is proved of one node.
//! Subtrees are grouped by comparing each with those found before, at most as often as the simplification
//! compares clauses. Two subtrees are one where their names are, by the law that a diagram has one place.

ghost use Rattle.std.specs.Prelude.{◌≡◌, [], ◌∷◌, ◌++◌, cond, map, IfOk, OnOk};
ghost use Rattle.std.specs.List.{list_any};
ghost use Rattle.pep508_clauses.specs.Terms.{clauses_shown};
ghost use Rattle.pep508_marker_text_laws.specs.Terms.{set_term, unset_term};
ghost use Rattle.pep508_marker_text_laws.specs.Groups.{firsts, standing};
ghost use Rattle.pep508_tree.specs.Meaning.{IsTree, Flagged};
ghost use Rattle.pep508_tree.specs.Nodes.{turned};
ghost use Rattle.pep508_tree.specs.Roots.{root_of};
ghost use Rattle.pep508_marker_display.specs.Steps.{step_of, steps_shown, steps_to, turned_step};
ghost use Rattle.pep508_marker_display.specs.Steps.{branch_steps};
ghost use Rattle.pep508_marker_display.specs.Steps.{node_steps, root_steps};
ghost use Rattle.pep508_marker_display.specs.Trees.{same_tree, with_tree};

use crate::child_clauses::set_clauses;
use crate::intervals::is_same;
use crate::says::{Says, SaysTexts, SaysVersions, flag_term};
use pep508_diagram::{Branch, Flag};
use pep508_marker::MarkerExpression;
use pep508_tree::{Interner, MarkerTree, TreeNode};
use std::alloc::{AllocError, Global};

/// Terms, and the subtree to which they lead.
#[derive(Drop)]
pub(crate) struct Step {
    pub terms: Vec<MarkerExpression>,
    pub tree: MarkerTree,
}

fn contains(trees: &[MarkerTree], tree: MarkerTree) -> bool
    ensures { result ≡ list_any (λ other. same_tree other tree) trees.now }
{
    for other in trees {
        if is_same(*other, tree) {
            return true;
        }
    }
    false
}

/// Adds a tree unless it is there already.
fn add_new(trees: &mut Vec<MarkerTree>, tree: MarkerTree) -> Result<(), AllocError>
    ensures { OnOk result (trees.new.items ≡ with_tree trees.old.items tree) }
{
    if contains(trees, tree) {
        return Ok(());
    }
    trees.push(tree)?;
    Ok(())
}

/// Returns the children of branches, each once.
#[tactic(auto, using(crate::proofs::Grouping::found_first))]
fn groups<T>(
    alloc: Global,
    first: MarkerTree,
    later: &[Branch<T, MarkerTree>],
) -> Result<Vec<MarkerTree>, AllocError>
    ensures { IfOk result (λ trees. trees.items ≡ firsts same_tree (standing first later.now)) }
{
    let mut trees = vec![in alloc; first]?;
    for branch in later {
        add_new(&mut trees, branch.child)?;
    }
    Ok(trees)
}

/// Adds a step to one tree for each clause.
fn add_all(
    clauses: Vec<Vec<MarkerExpression>>,
    tree: MarkerTree,
    steps: &mut Vec<Step>,
) -> Result<(), AllocError>
    ensures { OnOk result (steps_shown steps.new.items ≡ steps_shown steps.old.items
        ++ steps_to tree (clauses_shown clauses.items)) }
{
    for terms in clauses {
        steps.push(Step { terms, tree })?;
    }
    Ok(())
}

/// Returns the steps to the children of a key's node; the children are negated where `negated`.
fn branch_steps<T, S: Says<T>>(
    alloc: Global,
    says: &S,
    first: MarkerTree,
    later: &[Branch<T, MarkerTree>],
    negated: bool,
) -> Result<Vec<Step>, AllocError>
    ensures { IfOk result (λ steps. steps_shown steps.items
        ≡ map (turned_step negated) (branch_steps (S.saying says.now) first later.now)) }
{
    let trees = groups(alloc, first, later)?;
    let mut steps = Vec::new(alloc);
    for tree in &trees {
        let clauses = set_clauses(alloc, says, *tree, first, later)?;
        add_all(clauses, tree.turned(negated), &mut steps)?;
    }
    Ok(steps)
}

/// Returns the steps of a flag: where it is set, and where it is not.
fn flag_steps(
    alloc: Global,
    flag: &Flag,
    set: MarkerTree,
    unset: MarkerTree,
) -> Result<Vec<Step>, AllocError>
    ensures { IfOk result (λ steps. steps_shown steps.items ≡ node_steps (Flagged flag.now set unset)) }
{
    let set = flag_step(alloc, flag, true, set)?;
    let unset = flag_step(alloc, flag, false, unset)?;
    Ok(vec![in alloc; set, unset]?)
}

/// Returns the step of a flag that is set, or that is not.
fn flag_step(alloc: Global, flag: &Flag, set: bool, tree: MarkerTree) -> Result<Step, AllocError>
    ensures { IfOk result (λ step. step_of step
        ≡ record { clause = cond set (set_term flag.now) (unset_term flag.now) ∷ []; tree = tree }) }
{
    let term = flag_term(alloc, flag, set)?;
    let terms = vec![in alloc; term]?;
    Ok(Step { terms, tree })
}

/// Returns the steps from a tree to the children of its root node; a constant has none.
#[tactic(auto, using(crate::proofs::Stepping::shown_versions, crate::proofs::Stepping::shown_texts))]
pub(crate) fn root_steps(
    alloc: Global,
    tree: MarkerTree,
    interner: &Interner,
) -> Result<Vec<Step>, AllocError>
    requires { IsTree interner.now.nodes tree }
    ensures { IfOk result (λ steps.
        steps_shown steps.items ≡ root_steps (root_of interner.now.nodes tree)) }
{
    match tree.node(interner) {
        TreeNode::Constant(_) => Ok(Vec::new(alloc)),
        TreeNode::Versions(variable, children) => {
            let says = SaysVersions { variable };
            let steps = branch_steps(
                alloc,
                &says,
                children.first,
                children.later,
                children.negated,
            )?;
            Ok(steps)
        }
        TreeNode::Texts(key, children) => {
            let says = SaysTexts { key };
            let steps = branch_steps(
                alloc,
                &says,
                children.first,
                children.later,
                children.negated,
            )?;
            Ok(steps)
        }
        TreeNode::Flagged(flag, set, unset) => flag_steps(alloc, flag, set, unset),
    }
}
