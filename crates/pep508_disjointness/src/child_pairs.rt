//! Pairs of the children of two trees.
//!
//! Pairs are read off both nodes' branches side by side (`paired_children`). Only a conjunction copies
//! boundaries (`paired`), since it makes a node of them.

ghost use Rattle.std.specs.Prelude.{◌≡◌, ◌<◌, [], ◌∷◌, false, map, IfOk};
ghost use Rattle.pep440_version.specs.Order.{version_cmp};
ghost use Rattle.pep508_diagram.specs.Text.{text_cmp};
ghost use Rattle.pep508_diagram.specs.Branches.{RisingBranches};
ghost use Rattle.pep508_tree.specs.Meaning.{IsTree};
ghost use Rattle.pep508_tree.specs.Nodes.{first_place};
ghost use Rattle.pep508_disjointness.specs.Sides.{ShowsNode, AreSidePairs};
ghost use Rattle.pep508_disjointness.specs.Pairs.{turned_pair, ArePaired};

use pep440_version::Version;
use pep508_diagram::{Branch, MarkerText, VersionVariable, paired_children, text_rank};
use pep508_tree::{Interner, MarkerTree, TreeNode};
use std::alloc::{AllocError, Global};
use std::cmp::Ordering;

/// The children of two trees for one value of a variable.
pub(crate) type Pair = (MarkerTree, MarkerTree);

fn turn_pairs(pairs: &mut [Pair], first: bool, second: bool)
    ensures { pairs.new ≡ map (turned_pair first second) pairs.old }
{
    for pair in pairs.iter_mut() {
        *pair = (pair.0.turned(first), pair.1.turned(second));
    }
}

/// Returns the pairs with their first trees negated where `first`, and their second ones where `second`.
fn turned_pairs(pairs: Vec<Pair>, first: bool, second: bool) -> Vec<Pair>
    ensures { result.items ≡ map (turned_pair first second) pairs.items }
{
    let mut pairs = pairs;
    turn_pairs(&mut pairs, first, second);
    pairs
}

/// Returns the rank of a tree's first variable among the kinds of variables and their keys, and the text
/// that it is about.
fn variable<'a>(interner: &'a Interner, tree: MarkerTree) -> (u8, &'a str)
    requires made { IsTree interner.now.nodes tree }
    requires some { 0 < tree.place }
    ensures { result.0 ∷ result.1.now ≡ first_place interner.now.nodes tree }
{
    match tree.node(interner) {
        TreeNode::Constant(_) => (0, ""),
        TreeNode::Versions(VersionVariable::ImplementationVersion, _) => (0, ""),
        TreeNode::Versions(VersionVariable::PythonFullVersion, _) => (1, ""),
        TreeNode::Texts(key, _) => (text_rank(key), ""),
        TreeNode::Flagged(flag, _, _) => (flag.rank(), flag.text()),
    }
}

/// Compares two trees by their first variables.
fn cmp_variables(interner: &Interner, a: MarkerTree, b: MarkerTree) -> Ordering
    requires a { IsTree interner.now.nodes a }
    requires b { IsTree interner.now.nodes b }
    requires a_node { 0 < a.place }
    requires b_node { 0 < b.place }
    ensures { result
        ≡ text_cmp (first_place interner.now.nodes a) (first_place interner.now.nodes b) }
{
    let (rank, text) = variable(interner, a);
    let (other_rank, other_text) = variable(interner, b);
    rank.cmp(&other_rank).then(text.cmp(other_text))
}

/// The children of a tree for each value of a variable, and whether they are to be negated.
#[derive(Clone, Copy)]
pub(crate) struct Side<'a> {
    first: MarkerTree,
    versions: &'a [Branch<Version, MarkerTree>],
    texts: &'a [Branch<MarkerText, MarkerTree>],
    second: MarkerTree,
    negated: bool,
}

/// Returns the side of a tree that does not test the variable.
fn side_of_tree<'a>(tree: MarkerTree) -> Side<'a>
    ensures first { result.first ≡ tree }
    ensures versions { result.versions.now ≡ [] }
    ensures texts { result.texts.now ≡ [] }
    ensures second { result.second ≡ tree }
    ensures negated { result.negated ≡ false }
{
    Side {
        first: tree,
        versions: &[],
        texts: &[],
        second: tree,
        negated: false,
    }
}

/// Returns the side of a tree that tests the variable first.
fn side_of_node<'a>(interner: &'a Interner, tree: MarkerTree) -> Side<'a>
    requires made { IsTree interner.now.nodes tree }
    requires some { 0 < tree.place }
    ensures { ShowsNode interner.now.nodes tree result }
{
    match tree.node(interner) {
        TreeNode::Constant(_) => side_of_tree(tree),
        TreeNode::Versions(_, children) => Side {
            first: children.first,
            versions: children.later,
            texts: &[],
            second: children.first,
            negated: children.negated,
        },
        TreeNode::Texts(_, children) => Side {
            first: children.first,
            versions: &[],
            texts: children.later,
            second: children.first,
            negated: children.negated,
        },
        TreeNode::Flagged(_, set, unset) => Side {
            first: set,
            versions: &[],
            texts: &[],
            second: unset,
            negated: false,
        },
    }
}

/// Returns the pairs of the children of a tree's node and of a side of the same variable, in order.
fn pairs_with(
    alloc: Global,
    interner: &Interner,
    tree: MarkerTree,
    side: Side<'_>,
) -> Result<Vec<Pair>, AllocError>
    requires made { IsTree interner.now.nodes tree }
    requires some { 0 < tree.place }
    requires versions { RisingBranches version_cmp side.versions.now }
    requires texts { RisingBranches text_cmp side.texts.now }
    ensures { IfOk result (λ pairs. AreSidePairs interner.now.nodes tree side.entry pairs.items) }
{
    match tree.node(interner) {
        TreeNode::Constant(_) => Ok(Vec::new(alloc)),
        TreeNode::Versions(_, children) => {
            let pairs = paired_children(
                alloc,
                children.first,
                children.later,
                side.first,
                side.versions,
            )?;
            Ok(turned_pairs(pairs, children.negated, side.negated))
        }
        TreeNode::Texts(_, children) => {
            let pairs = paired_children(
                alloc,
                children.first,
                children.later,
                side.first,
                side.texts,
            )?;
            Ok(turned_pairs(pairs, children.negated, side.negated))
        }
        TreeNode::Flagged(_, set, unset) => {
            let pairs = vec![in alloc; (set, side.first), (unset, side.second)]?;
            Ok(turned_pairs(pairs, false, side.negated))
        }
    }
}

/// Returns the pairs of the children of two trees for each value of the variable that comes first in them,
/// each with a tree of the one and a tree of the other. The only error is lack of memory. Takes as many
/// steps as the two trees' nodes have endpoints, of which it copies none.
pub(crate) fn pairs(
    alloc: Global,
    interner: &Interner,
    a: MarkerTree,
    b: MarkerTree,
) -> Result<Vec<Pair>, AllocError>
    requires a { IsTree interner.now.nodes a }
    requires b { IsTree interner.now.nodes b }
    requires a_node { 0 < a.place }
    requires b_node { 0 < b.place }
    ensures { IfOk result (λ pairs. ArePaired interner.now.nodes a b pairs.items) }
{
    interner.are_sound();
    match cmp_variables(interner, a, b) {
        Ordering::Less => pairs_with(alloc, interner, a, side_of_tree(b)),
        Ordering::Equal => pairs_with(alloc, interner, a, side_of_node(interner, b)),
        Ordering::Greater => pairs_with(alloc, interner, b, side_of_tree(a)),
    }
}
