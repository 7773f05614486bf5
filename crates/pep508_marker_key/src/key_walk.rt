//! A walk over a tree that writes its key. The steps left to do are kept in a list, the next at its end, so
//! that a deep tree takes memory and no stack.
//!
//! The definition is a recursion over the diagram in which `is_alike` finds what was written before; the
//! code is a loop over nodes with a map from places to numbers. A diagram gets its number when all of it is
//! written, since two keys can be compared from the front only by parts that are whole. A tree and its
//! negation have numbers of their own: sharing one would halve some keys, and put a sign into each step of
//! the law.

ghost use Rattle.std.specs.Prelude.{◌≡◌, ◌<◌, ◌++◌, length, IfOk, OnOk};
ghost use Rattle.std.proofs.Common.{drop};
ghost use Rattle.pep508_tree.specs.Meaning.{IsTree, diagram_of};
ghost use Rattle.pep508_tree.specs.Roots.{root_of};
ghost use Rattle.pep508_marker_key.specs.Numbering.{AreNumbers};
ghost use Rattle.pep508_marker_key.specs.Left.{sides, first_of, HasQuestion, IsStep, IsAsked, IsMade};
ghost use Rattle.pep508_marker_key.specs.Key.{diagram_key};

use crate::question::{push_flag_question, push_text_question, push_version_question};
use crate::tree_numbers::Numbers;
use pep440_key::push_number;
use pep508_diagram::Branch;
use pep508_tree::{Interner, MarkerTree, TreeNode};
use std::alloc::{AllocError, Global};

/// The byte before the number of a tree that was written before.
const AGAIN: u8 = 3;

/// A step left to do.
#[derive(Clone, Copy)]
pub(crate) enum Step {
    /// Writes a tree.
    Enter(MarkerTree),
    /// Writes the questions of a tree's node from an index on: the tree, the child below the endpoint at
    /// the index, and the index.
    Branch(MarkerTree, MarkerTree, usize),
    /// Writes nothing, but gives a tree that was written its number.
    Close(MarkerTree),
}

/// Pushes the steps for both sides of an endpoint, the side below it as the next one. The side above it
/// includes the node's later endpoints, where there are some.
fn push_sides<T>(
    steps: &mut Vec<Step>,
    tree: MarkerTree,
    low: MarkerTree,
    index: usize,
    negated: bool,
    later: &[Branch<T, MarkerTree>],
) -> Result<(), AllocError>
    requires { index < length later.now }
    ensures { OnOk result
        (steps.new.items ≡ steps.old.items ++ sides tree low index negated (drop index later.now)) }
{
    let left = &later[index..];
    match left.split_first() {
        None => unreachable!(),
        Some((branch, others)) => {
            let high = branch.child.turned(negated);
            let next = if others.is_empty() {
                Step::Enter(high)
            } else {
                Step::Branch(tree, high, index + 1)
            };
            steps.push(next)?;
            steps.push(Step::Enter(low))?;
            Ok(())
        }
    }
}

/// Writes the question of a tree's node at an index; `low` is the child below the endpoint there.
fn push_branch(
    alloc: Global,
    interner: &Interner,
    key: &mut Vec<u8>,
    steps: &mut Vec<Step>,
    tree: MarkerTree,
    low: MarkerTree,
    index: usize,
) -> Result<(), AllocError>
    requires made { IsTree interner.now.nodes tree }
    requires low { IsTree interner.now.nodes low }
    requires inside { HasQuestion (root_of interner.now.nodes tree) index }
    ensures { OnOk result (IsAsked interner.now.nodes tree low index key.old.items key.new.items
        steps.old.items steps.new.items) }
{
    interner.are_sound();
    match tree.node(interner) {
        TreeNode::Constant(_) => unreachable!(),
        TreeNode::Versions(variable, children) => {
            push_version_question(alloc, key, variable, &children.later[index].boundary)?;
            push_sides(steps, tree, low, index, children.negated, children.later)
        }
        TreeNode::Texts(variable, children) => {
            push_text_question(key, variable, &children.later[index].boundary)?;
            push_sides(steps, tree, low, index, children.negated, children.later)
        }
        TreeNode::Flagged(flag, _, unset) => {
            push_flag_question(key, flag)?;
            steps.push(Step::Enter(unset))?;
            steps.push(Step::Enter(low))?;
            Ok(())
        }
    }
}

/// Returns the first child of a tree's node, where it has one.
fn first_child(interner: &Interner, tree: MarkerTree) -> Option<MarkerTree>
    requires { IsTree interner.now.nodes tree }
    ensures { result ≡ first_of (root_of interner.now.nodes tree) }
{
    match tree.node(interner) {
        TreeNode::Constant(_) => None,
        TreeNode::Versions(_, children) => Some(children.first.turned(children.negated)),
        TreeNode::Texts(_, children) => Some(children.first.turned(children.negated)),
        TreeNode::Flagged(_, set, _) => Some(set),
    }
}

/// Writes the number of a tree that was written before, or else begins with its node.
fn push_tree(
    alloc: Global,
    interner: &Interner,
    key: &mut Vec<u8>,
    steps: &mut Vec<Step>,
    numbers: &Numbers,
    tree: MarkerTree,
) -> Result<(), AllocError>
    requires made { IsTree interner.now.nodes tree }
    requires numbers { AreNumbers numbers.now.trees.items numbers.now.places }
    ensures { OnOk result (IsMade interner.now.nodes (Step.Enter tree) key.old.items key.new.items
        steps.old.items steps.new.items numbers.now.trees.items numbers.now.trees.items) }
{
    interner.are_sound();
    let first = match first_child(interner, tree) {
        Some(first) => first,
        None => {
            key.push(u8::from(!tree.is_negated()))?;
            return Ok(());
        }
    };
    if let Some(number) = numbers.number_of(tree) {
        key.push(AGAIN)?;
        return push_number(key, number);
    }
    steps.push(Step::Close(tree))?;
    push_branch(alloc, interner, key, steps, tree, first, 0)
}

fn make_step(
    alloc: Global,
    interner: &Interner,
    key: &mut Vec<u8>,
    steps: &mut Vec<Step>,
    numbers: &mut Numbers,
    next: Step,
) -> Result<(), AllocError>
    requires step { IsStep interner.now.nodes next }
    requires numbers { AreNumbers numbers.old.trees.items numbers.old.places }
    ensures made { OnOk result (IsMade interner.now.nodes next key.old.items key.new.items
        steps.old.items steps.new.items numbers.old.trees.items numbers.new.trees.items) }
    ensures numbers { OnOk result (AreNumbers numbers.new.trees.items numbers.new.places) }
{
    match next {
        Step::Enter(tree) => push_tree(alloc, interner, key, steps, numbers, tree),
        Step::Branch(tree, low, index) => {
            push_branch(alloc, interner, key, steps, tree, low, index)
        }
        Step::Close(tree) => numbers.add(tree),
    }
}

/// Returns the key of a tree's meaning.
pub(crate) fn key_of_tree(
    alloc: Global,
    interner: &Interner,
    tree: MarkerTree,
) -> Result<Vec<u8>, AllocError>
    requires { IsTree interner.now.nodes tree }
    ensures { IfOk result (λ key. key.items ≡ diagram_key (diagram_of interner.now.nodes tree)) }
{
    let mut key = Vec::new(alloc);
    let mut numbers = Numbers::new(alloc);
    let mut steps = vec![in alloc; Step::Enter(tree)]?;
    while let Some(next) = steps.pop() {
        make_step(alloc, interner, &mut key, &mut steps, &mut numbers, next)?;
    }
    Ok(key)
}
