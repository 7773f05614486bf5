//! A walk over a tree's nodes, those of the highest places first, so that none comes again.

ghost use Rattle.std.specs.Prelude.{◌≡◌, [], ◌∷◌, map, IfOk, OnOk};
ghost use Rattle.pep508_tree.specs.Meaning.{IsTree, diagram_of};
ghost use Rattle.pep508_questions.specs.Asks.{asked_by};
ghost use Rattle.pep508_questions.specs.Looked.{either, with_trees, Looked};

use crate::kinds::{asked_of_flag, asked_of_texts, asked_of_versions};
use crate::questions::Asked;
use pep508_diagram::Branch;
use pep508_tree::{Interner, MarkerTree, TreeNode};
use std::alloc::{AllocError, Global};
use std::collections::BTreeMap;

/// Trees that are left to look at, by their places.
type Left = BTreeMap<usize, MarkerTree>;

/// Returns the kinds of questions in either of two.
fn either(a: Asked, b: Asked) -> Asked
    ensures { result ≡ either a b }
{
    Asked {
        single_quote: a.single_quote || b.single_quote,
        deprecated_key: a.deprecated_key || b.deprecated_key,
        other_bound: a.other_bound || b.other_bound,
    }
}

/// Adds the children between endpoints to the trees that are left.
fn add_branches<T>(
    left: &mut Left,
    first: MarkerTree,
    later: &[Branch<T, MarkerTree>],
) -> Result<(), AllocError>
    ensures { OnOk result (left.new.entries
        ≡ with_trees left.old.entries (first ∷ map (λ branch. branch.child) later.now)) }
{
    left.insert(first.place(), first)?;
    for branch in later {
        left.insert(branch.child.place(), branch.child)?;
    }
    Ok(())
}

/// Adds the children under a flag to the trees that are left.
fn add_two(left: &mut Left, set: MarkerTree, unset: MarkerTree) -> Result<(), AllocError>
    ensures { OnOk result (left.new.entries ≡ with_trees left.old.entries (set ∷ unset ∷ [])) }
{
    left.insert(set.place(), set)?;
    left.insert(unset.place(), unset)?;
    Ok(())
}

/// Returns the kinds of the questions of a tree's node, and adds its children to the trees that are left.
fn look_at(interner: &Interner, left: &mut Left, tree: MarkerTree) -> Result<Asked, AllocError>
    requires { IsTree interner.now.nodes tree }
    ensures { IfOk result (λ asked. Looked interner.now.nodes tree left.old.entries left.new.entries asked) }
{
    interner.are_sound();
    match tree.node(interner) {
        TreeNode::Constant(_) => Ok(Asked::NOTHING),
        TreeNode::Versions(_, children) => {
            add_branches(left, children.first, children.later)?;
            Ok(asked_of_versions(children.later))
        }
        TreeNode::Texts(key, children) => {
            add_branches(left, children.first, children.later)?;
            Ok(asked_of_texts(key, children.later))
        }
        TreeNode::Flagged(flag, set, unset) => {
            add_two(left, set, unset)?;
            Ok(asked_of_flag(flag))
        }
    }
}

/// Returns the kinds of a tree's questions.
pub(crate) fn asked_of_tree(
    alloc: Global,
    interner: &Interner,
    tree: MarkerTree,
) -> Result<Asked, AllocError>
    requires { IsTree interner.now.nodes tree }
    ensures { IfOk result (λ asked. asked ≡ asked_by (diagram_of interner.now.nodes tree)) }
{
    let mut left = BTreeMap::new(alloc);
    left.insert(tree.place(), tree)?;
    let mut asked = Asked::NOTHING;
    while let Some((_, next)) = left.pop_last() {
        asked = either(asked, look_at(interner, &mut left, next)?);
    }
    Ok(asked)
}
