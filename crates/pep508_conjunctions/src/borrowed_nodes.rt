//! Trees that test one key and nothing else, as borrowed parts of their nodes.

ghost use Rattle.std.specs.Prelude.{◌≡◌, IsTrue, IfOk, IfSome};
ghost use Rattle.std.specs.List.{AllByRecursion};
ghost use Rattle.pep440_version.specs.Order.{version_cmp};
ghost use Rattle.pep508_diagram.specs.Text.{text_cmp};
ghost use Rattle.pep508_diagram.specs.Branches.{AllBranches};
ghost use Rattle.pep508_tree.specs.Meaning.{IsTree};
ghost use Rattle.pep508_tree.specs.Conjunctions.{Meet};
ghost use Rattle.pep508_conjunctions.specs.Meets.{truth_in};
ghost use Rattle.pep508_conjunctions.specs.Sources.{IsSource};

use pep440_version::Version;
use pep508_diagram::{Branch, MarkerText, VersionVariable, text_rank};
use pep508_marker::MarkerValueString;
use pep508_tree::{Interner, MarkerTree, TreeNode};
use std::alloc::{AllocError, Global};

/// Constant trees between borrowed endpoints of a node, each negated where `negated`; the first is given by
/// its truth.
#[derive(Drop)]
pub(crate) struct Source<'a, T> {
    pub first: bool,
    pub later: &'a [Branch<T, MarkerTree>],
    pub negated: bool,
}

/// Returns the truth of a constant tree, negated where `negated`.
pub(crate) fn truth_in(negated: bool, tree: MarkerTree) -> bool
    ensures { result ≡ truth_in negated tree }
{
    tree.is_negated() == negated
}

/// Returns whether each child is a constant tree.
fn are_constant<T>(first: MarkerTree, later: &[Branch<T, MarkerTree>]) -> bool
    ensures { IsTrue result → AllBranches (λ child. child.place ≡ 0) first later.now }
{
    let mut child = first;
    let mut left = later;
    loop {
        if child.place() != 0 {
            return false;
        }
        match left.split_first() {
            None => return true,
            Some((branch, rest)) => {
                child = branch.child;
                left = rest;
            }
        }
    }
}

fn is_same(a: VersionVariable, b: VersionVariable) -> bool
    ensures { IsTrue result → a ≡ b }
{
    match (a, b) {
        (VersionVariable::ImplementationVersion, VersionVariable::ImplementationVersion) => true,
        (VersionVariable::PythonFullVersion, VersionVariable::PythonFullVersion) => true,
        _ => false,
    }
}

/// Returns the borrowed parts of a tree's node, if the tree tests this key's version and nothing else.
fn version_source<'a>(
    interner: &'a Interner,
    key: VersionVariable,
    tree: MarkerTree,
    negated: bool,
) -> Option<Source<'a, Version>>
    requires { IsTree interner.now.nodes tree }
    ensures { IfSome result (IsSource version_cmp (λ v. v.version key) interner.now.nodes negated tree) }
{
    match tree.turned(negated).node(interner) {
        TreeNode::Versions(own, children) => {
            if is_same(own, key) && are_constant(children.first, children.later) {
                Some(Source {
                    first: truth_in(children.negated, children.first),
                    later: children.later,
                    negated: children.negated,
                })
            } else {
                None
            }
        }
        _ => None,
    }
}

/// Returns the borrowed parts of a tree's node, if the tree tests this key's text and nothing else.
fn text_source<'a>(
    interner: &'a Interner,
    key: MarkerValueString,
    tree: MarkerTree,
    negated: bool,
) -> Option<Source<'a, MarkerText>>
    requires { IsTree interner.now.nodes tree }
    ensures { IfSome result (IsSource text_cmp (λ v. v.text key) interner.now.nodes negated tree) }
{
    match tree.turned(negated).node(interner) {
        TreeNode::Texts(own, children) => {
            if text_rank(own) == text_rank(key) && are_constant(children.first, children.later) {
                Some(Source {
                    first: truth_in(children.negated, children.first),
                    later: children.later,
                    negated: children.negated,
                })
            } else {
                None
            }
        }
        _ => None,
    }
}

/// Returns the borrowed parts of the trees' nodes, if each tests this key's version and nothing else.
pub(crate) fn version_sources<'a>(
    alloc: Global,
    interner: &'a Interner,
    key: VersionVariable,
    trees: &[MarkerTree],
    negated: bool,
) -> Result<Option<Vec<Source<'a, Version>>>, AllocError>
    requires { AllByRecursion (IsTree interner.now.nodes) trees.now }
    ensures { IfOk result (λ found. IfSome found (λ sources.
        Meet (IsSource version_cmp (λ v. v.version key) interner.now.nodes negated) trees.now
        sources.items)) }
{
    let mut sources = Vec::new(alloc);
    for tree in trees {
        let Some(source) = version_source(interner, key, *tree, negated) else {
            return Ok(None);
        };
        sources.push(source)?;
    }
    Ok(Some(sources))
}

/// Returns the borrowed parts of the trees' nodes, if each tests this key's text and nothing else.
pub(crate) fn text_sources<'a>(
    alloc: Global,
    interner: &'a Interner,
    key: MarkerValueString,
    trees: &[MarkerTree],
    negated: bool,
) -> Result<Option<Vec<Source<'a, MarkerText>>>, AllocError>
    requires { AllByRecursion (IsTree interner.now.nodes) trees.now }
    ensures { IfOk result (λ found. IfSome found (λ sources.
        Meet (IsSource text_cmp (λ v. v.text key) interner.now.nodes negated) trees.now sources.items)) }
{
    let mut sources = Vec::new(alloc);
    for tree in trees {
        let Some(source) = text_source(interner, key, *tree, negated) else {
            return Ok(None);
        };
        sources.push(source)?;
    }
    Ok(Some(sources))
}
