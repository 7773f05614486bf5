//! Conjunctions of many trees.
//!
//! Trees of one key become one node: their boundaries are merged by halves, borrowed from the nodes, and
//! only the node of all of them is made. Joined two at a time, each half on each level would be a node that
//! is kept, with copies of its boundaries. Where trees test several keys the conjunctions of both halves
//! are made and joined, and a half may be of one key again.

ghost use Rattle.std.specs.Prelude.{◌≡◌, ◌<◌, length, IfOk, IfSome};
ghost use Rattle.std.specs.List.{AllByRecursion};
ghost use Rattle.pep440_version.specs.Order.{version_cmp};
ghost use Rattle.pep508_diagram.specs.Text.{text_cmp};
ghost use Rattle.pep508_diagram.specs.Question.{Valuation};
ghost use Rattle.pep508_tree.specs.Meaning.{IsTree, Extends, holds};
ghost use Rattle.pep508_conjunctions.specs.Sources.{AreMeet, all_hold};

use crate::borrowed_nodes::{text_sources, version_sources};
use crate::meet::{Truths, meet_all};
use crate::owned::{constant, constants, owned};
use crate::variable_order::in_order;
use pep440_version::Version;
use pep508_diagram::{MarkerText, VersionVariable};
use pep508_marker::MarkerValueString;
use pep508_tree::{Interner, MarkerTree, TreeNode, uncounted_conjunction};
use std::alloc::{AllocError, Global};

/// Returns where all of the trees hold, if each tests this key's version and nothing else.
fn version_truths(
    alloc: Global,
    interner: &Interner,
    key: VersionVariable,
    trees: &[MarkerTree],
    negated: bool,
) -> Result<Option<Truths<Version>>, AllocError>
    requires { AllByRecursion (IsTree interner.now.nodes) trees.now }
    ensures { IfOk result (λ found. IfSome found (AreMeet version_cmp (λ v. v.version key)
        interner.now.nodes negated trees.now)) }
{
    let Some(sources) = version_sources(alloc, interner, key, trees, negated)? else {
        return Ok(None);
    };
    let truths = meet_all(alloc, &sources)?;
    let copy = owned(alloc, &truths)?;
    Ok(Some(copy))
}

/// Returns where all of the trees hold, if each tests this key's text and nothing else.
fn text_truths(
    alloc: Global,
    interner: &Interner,
    key: MarkerValueString,
    trees: &[MarkerTree],
    negated: bool,
) -> Result<Option<Truths<MarkerText>>, AllocError>
    requires { AllByRecursion (IsTree interner.now.nodes) trees.now }
    ensures { IfOk result (λ found. IfSome found (AreMeet text_cmp (λ v. v.text key)
        interner.now.nodes negated trees.now)) }
{
    let Some(sources) = text_sources(alloc, interner, key, trees, negated)? else {
        return Ok(None);
    };
    let truths = meet_all(alloc, &sources)?;
    let copy = owned(alloc, &truths)?;
    Ok(Some(copy))
}

/// Returns the conjunction of the trees, if each tests this key's version and nothing else.
fn of_versions(
    alloc: Global,
    interner: &mut Interner,
    key: VersionVariable,
    trees: &[MarkerTree],
    negated: bool,
) -> Result<Option<MarkerTree>, AllocError>
    requires { AllByRecursion (IsTree interner.old.nodes) trees.now }
    ensures made { IfOk result (λ found. IfSome found (IsTree interner.new.nodes)) }
    ensures truth { IfOk result (λ found. IfSome found (λ tree. (v : Valuation) →
        holds interner.new.nodes tree v ≡ all_hold interner.old.nodes negated trees.now v)) }
    ensures keeps { Extends interner.old.nodes interner.new.nodes }
    ensures counts { interner.new.conjunctions ≡ interner.old.conjunctions }
{
    let Some(truths) = version_truths(alloc, interner, key, trees, negated)? else {
        return Ok(None);
    };
    let later = constants(alloc, truths.later)?;
    let tree = interner.versions_node(key, constant(truths.first), later)?;
    Ok(Some(tree))
}

/// Returns the conjunction of the trees, if each tests this key's text and nothing else.
fn of_texts(
    alloc: Global,
    interner: &mut Interner,
    key: MarkerValueString,
    trees: &[MarkerTree],
    negated: bool,
) -> Result<Option<MarkerTree>, AllocError>
    requires { AllByRecursion (IsTree interner.old.nodes) trees.now }
    ensures made { IfOk result (λ found. IfSome found (IsTree interner.new.nodes)) }
    ensures truth { IfOk result (λ found. IfSome found (λ tree. (v : Valuation) →
        holds interner.new.nodes tree v ≡ all_hold interner.old.nodes negated trees.now v)) }
    ensures keeps { Extends interner.old.nodes interner.new.nodes }
    ensures counts { interner.new.conjunctions ≡ interner.old.conjunctions }
{
    let Some(truths) = text_truths(alloc, interner, key, trees, negated)? else {
        return Ok(None);
    };
    let later = constants(alloc, truths.later)?;
    let tree = interner.texts_node(key, constant(truths.first), later)?;
    Ok(Some(tree))
}

/// A key that may be all that some trees test.
#[derive(Clone, Copy)]
enum Key {
    Versions(VersionVariable),
    Texts(MarkerValueString),
    Neither,
}

/// Returns the key that the first tree tests first.
fn first_key(interner: &Interner, trees: &[MarkerTree]) -> Key
    requires { AllByRecursion (IsTree interner.now.nodes) trees.now }
{
    match trees.split_first() {
        Some((tree, _)) => match tree.node(interner) {
            TreeNode::Versions(key, _) => Key::Versions(key),
            TreeNode::Texts(key, _) => Key::Texts(key),
            _ => Key::Neither,
        },
        None => Key::Neither,
    }
}

/// Returns the conjunction of the trees, if all test one key and nothing else.
fn of_one_key(
    alloc: Global,
    interner: &mut Interner,
    trees: &[MarkerTree],
    negated: bool,
) -> Result<Option<MarkerTree>, AllocError>
    requires { AllByRecursion (IsTree interner.old.nodes) trees.now }
    ensures made { IfOk result (λ found. IfSome found (IsTree interner.new.nodes)) }
    ensures truth { IfOk result (λ found. IfSome found (λ tree. (v : Valuation) →
        holds interner.new.nodes tree v ≡ all_hold interner.old.nodes negated trees.now v)) }
    ensures keeps { Extends interner.old.nodes interner.new.nodes }
    ensures counts { interner.new.conjunctions ≡ interner.old.conjunctions }
{
    match first_key(interner, trees) {
        Key::Versions(key) => of_versions(alloc, interner, key, trees, negated),
        Key::Texts(key) => of_texts(alloc, interner, key, trees, negated),
        Key::Neither => Ok(None),
    }
}

/// Returns the conjunction of one tree, or of none.
fn of_one(interner: &Interner, trees: &[MarkerTree], negated: bool) -> MarkerTree
    requires made { AllByRecursion (IsTree interner.now.nodes) trees.now }
    requires few { length trees.now < 2 }
    ensures made { IsTree interner.now.nodes result }
    ensures truth { (v : Valuation) →
        holds interner.now.nodes result v ≡ all_hold interner.now.nodes negated trees.now v }
{
    let _nodes = interner;
    match trees.first() {
        Some(tree) => tree.turned(negated),
        None => MarkerTree::TRUE,
    }
}

/// Returns whether each tree tests one flag and nothing else.
fn are_flags(interner: &Interner, trees: &[MarkerTree]) -> bool
    requires { AllByRecursion (IsTree interner.now.nodes) trees.now }
{
    for tree in trees {
        match tree.node(interner) {
            TreeNode::Flagged(_, set, unset) if set.place() == 0 && unset.place() == 0 => {}
            _ => return false,
        }
    }
    true
}

/// Returns the conjunction of the trees, joined one by one from the last to the first.
fn from_behind(
    alloc: Global,
    interner: &mut Interner,
    trees: &[MarkerTree],
    negated: bool,
) -> Result<MarkerTree, AllocError>
    requires { AllByRecursion (IsTree interner.old.nodes) trees.now }
    ensures made { IfOk result (IsTree interner.new.nodes) }
    ensures truth { IfOk result (λ tree. (v : Valuation) →
        holds interner.new.nodes tree v ≡ all_hold interner.old.nodes negated trees.now v) }
    ensures keeps { Extends interner.old.nodes interner.new.nodes }
    ensures counts { interner.new.conjunctions ≡ interner.old.conjunctions }
{
    let mut whole = MarkerTree::TRUE;
    let mut left = trees;
    while let Some((last, front)) = left.split_last() {
        whole = uncounted_conjunction(alloc, interner, last.turned(negated), whole)?;
        left = front;
    }
    Ok(whole)
}

/// Returns the conjunction of the trees. Those of one key become one node. Where each tests one flag, the
/// last are joined first, so that n flags in their order make n nodes. Otherwise the conjunctions of both
/// halves are made, and then theirs.
fn by_halves(
    alloc: Global,
    interner: &mut Interner,
    trees: &[MarkerTree],
    negated: bool,
) -> Result<MarkerTree, AllocError>
    requires { AllByRecursion (IsTree interner.old.nodes) trees.now }
    ensures made { IfOk result (IsTree interner.new.nodes) }
    ensures truth { IfOk result (λ tree. (v : Valuation) →
        holds interner.new.nodes tree v ≡ all_hold interner.old.nodes negated trees.now v) }
    ensures keeps { Extends interner.old.nodes interner.new.nodes }
    ensures counts { interner.new.conjunctions ≡ interner.old.conjunctions }
{
    if trees.len() < 2 {
        return Ok(of_one(interner, trees, negated));
    }
    if let Some(tree) = of_one_key(alloc, interner, trees, negated)? {
        return Ok(tree);
    }
    if are_flags(interner, trees) {
        return from_behind(alloc, interner, trees, negated);
    }
    let (front, back) = trees.split_at(trees.len() / 2);
    let first = by_halves(alloc, interner, front, negated)?;
    let second = by_halves(alloc, interner, back, negated)?;
    uncounted_conjunction(alloc, interner, first, second)
}

/// Up to this many trees are joined in the given order, without sorting them by their variables.
const FEW: usize = 4;

/// Returns the tree that holds where all of the trees do, or where all their negations do if `negated`; the
/// tree that always holds where there are none. The only error is lack of memory, and earlier trees keep
/// their meaning, also after an error. Counts nothing.
///
/// Where all test one key and nothing else, n endpoints take O(n log n) comparisons, and one node is made.
/// Otherwise the trees are sorted by the variables that they test first, and of those that test one key, or
/// one flag each, one node for each variable is made; of others the conjunctions of both halves, and then
/// theirs.
///
/// # Errors
///
/// `AllocError` when memory runs out.
pub fn conjunction_of_all(
    alloc: Global,
    interner: &mut Interner,
    trees: &[MarkerTree],
    negated: bool,
) -> Result<MarkerTree, AllocError>
    requires { AllByRecursion (IsTree interner.old.nodes) trees.now }
    ensures made { IfOk result (IsTree interner.new.nodes) }
    ensures truth { IfOk result (λ tree. (v : Valuation) →
        holds interner.new.nodes tree v ≡ all_hold interner.old.nodes negated trees.now v) }
    ensures keeps { Extends interner.old.nodes interner.new.nodes }
    ensures counts { interner.new.conjunctions ≡ interner.old.conjunctions }
{
    if trees.len() <= FEW {
        return by_halves(alloc, interner, trees, negated);
    }
    if let Some(tree) = of_one_key(alloc, interner, trees, negated)? {
        return Ok(tree);
    }
    let sorted = in_order(alloc, interner, trees)?;
    by_halves(alloc, interner, &sorted, negated)
}
