//! Conjunctions of marker trees, by a walk over pairs of trees.
//!
//! A conjunction walks over a list of the pairs that wait for others, so it uses no stack. A waiting pair
//! keeps what is in its two trees and the conjunctions of the first of these pairs; where the next is
//! unknown it is pushed, and where none is left the node is made and remembered, so each pair is split
//! once. The walk ends because of the number of unknown pairs and then the sum of the two places of the
//! last that waits (`proofs/Walking.antt`): the first falls with each node that is made, the second with
//! each pair that is pushed. The conjunctions of a node's children are a list of pairs that is joined with
//! the boundaries afterwards, so the walk knows neither versions nor texts; that costs two short lists a
//! pair of nodes.
//!
//! Two trees are ordered by their first variables, and those of one variable by which was made first,
//! before their conjunction is looked up, so that a pair and its reverse are one entry. The entry's key has
//! both signs.

ghost use Rattle.std.specs.Prelude.{◌≡◌, ◌⊎◌, ◌+◌, ◌<◌, ◌≤◌, false, List, length, take, Some};
ghost use Rattle.std.specs.Prelude.{MatchOption, IfOk, IfErr};
ghost use Rattle.std.specs.Ordering.{is_gt};
ghost use Rattle.std.specs.List.{AllByRecursion};
ghost use Rattle.std.specs.BTreeMap.{Updates};
ghost use Rattle.pep508_diagram.specs.Text.{text_cmp};
ghost use Rattle.pep508_tree.specs.Meaning.{NodeRecord, IsTree, Extends};
ghost use Rattle.pep508_tree.specs.Nodes.{first_place};
ghost use Rattle.pep508_tree.specs.Known.{AreKnown};
ghost use Rattle.pep508_tree.specs.PairOrder.{pair_cmp, places};
ghost use Rattle.pep508_tree.specs.Conjunctions.{Conjunction, ArePairs, Meet};
ghost use Rattle.pep508_tree.specs.Pending.{AreInOrder, IsAsked, IsEither, IsPending};

use crate::node::{Form, Pair};
use crate::table::NodeTable;
use crate::{MarkerTree, TreePair};
use std::alloc::{AllocError, Global};
use std::collections::BTreeMap;

/// Returns the conjunction of two trees where one is constant, or they are one tree or its negation.
fn plain_conjunction(a: MarkerTree, b: MarkerTree) -> Option<MarkerTree>
    ensures { MatchOption result ((0 < a.place) × (0 < b.place)) (λ tree.
        (nodes : List NodeRecord) → IsTree nodes a → IsTree nodes b → Conjunction nodes nodes a b tree) }
{
    if a.place() == 0 {
        return Some(if a.is_negated() { a } else { b });
    }
    if b.place() == 0 {
        return Some(if b.is_negated() { b } else { a });
    }
    if a.place() != b.place() {
        return None;
    }
    Some(if a.is_negated() == b.is_negated() {
        a
    } else {
        MarkerTree::FALSE
    })
}

/// Returns the two trees in the order of their first variables; of one variable the tree comes first that
/// was made first, so that a pair and its reverse are one.
fn in_order(table: &NodeTable, a: MarkerTree, b: MarkerTree) -> (MarkerTree, MarkerTree)
    requires a { IsTree table.now a }
    requires b { IsTree table.now b }
    requires a_node { 0 < a.place }
    requires b_node { 0 < b.place }
    ensures either { (result ≡ (a, b)) ⊎ (result ≡ (b, a)) }
    ensures ordered { is_gt (text_cmp (first_place table.now result.0) (first_place table.now result.1))
        ≡ false }
{
    if a.cmp_places(b).is_gt() {
        table.in_order(b, a)
    } else {
        table.in_order(a, b)
    }
}

/// Returns the conjunction of two trees, where it is plain or known, or else the pair by which it is to be
/// remembered.
fn look_up(
    table: &NodeTable,
    known: &BTreeMap<TreePair, MarkerTree>,
    a: MarkerTree,
    b: MarkerTree,
) -> Result<MarkerTree, TreePair>
    requires known { AreKnown table.now known.now }
    requires a { IsTree table.now a }
    requires b { IsTree table.now b }
    ensures found { IfOk result (λ tree. Conjunction table.now table.now a b tree) }
    ensures asked { IfErr result (λ asked. IsEither a b asked × IsAsked table.now known.now asked) }
{
    if let Some(tree) = plain_conjunction(a, b) {
        return Ok(tree);
    }
    let (first, second) = in_order(table, a, b);
    let asked = TreePair::new(first, second);
    match known.get(&asked) {
        Some(tree) => Ok(*tree),
        None => Err(asked),
    }
}

/// A conjunction that waits for those of the pairs of its two trees' children. The first of these are
/// there.
#[derive(Drop)]
pub(crate) struct Pending {
    asked: TreePair,
    pairs: Form<Pair>,
    children: Vec<Pair>,
    trees: Vec<MarkerTree>,
}

/// Returns a conjunction that waits for all pairs of its trees' children.
fn begun(alloc: Global, table: &NodeTable, asked: TreePair) -> Result<Pending, AllocError>
    requires { AreInOrder table.now asked }
    ensures asked { IfOk result (λ pending. pending.asked ≡ asked) }
    ensures begun { IfOk result (IsPending table.now) }
{
    let pairs = table.split(asked.first, asked.second)?;
    let children = pairs.children(alloc)?;
    Ok(Pending {
        asked,
        pairs,
        children,
        trees: Vec::new(alloc),
    })
}

/// Appends the conjunctions of further pairs of children to those that are there, up to the first pair
/// whose conjunction is unknown, and returns that pair.
fn next_unknown(
    table: &NodeTable,
    known: &BTreeMap<TreePair, MarkerTree>,
    a: MarkerTree,
    b: MarkerTree,
    children: &[Pair],
    trees: &mut Vec<MarkerTree>,
) -> Result<Option<TreePair>, AllocError>
    requires known { AreKnown table.now known.now }
    requires made { AllByRecursion (λ pair. IsTree table.now pair.0 × IsTree table.now pair.1) children.now }
    requires falls { AllByRecursion (λ pair. pair.0.place + pair.1.place < a.place + b.place) children.now }
    requires met { Meet (ArePairs table.now table.now a b) (take (length trees.old.items) children.now)
        trees.old.items }
    ensures met { Meet (ArePairs table.now table.now a b) (take (length trees.new.items) children.now)
        trees.new.items }
    ensures next { IfOk result (λ next. MatchOption next (length children.now ≤ length trees.new.items)
        (λ pair. IsAsked table.now known.now pair × places pair < a.place + b.place)) }
{
    for index in trees.len()..children.len() {
        let pair = children[index];
        let first = pair.0.turned(a.is_negated());
        let second = pair.1.turned(b.is_negated());
        let tree = match look_up(table, known, first, second) {
            Ok(tree) => tree,
            Err(asked) => return Ok(Some(asked)),
        };
        trees.push(tree)?;
    }
    Ok(None)
}

/// Returns the conjunction once all conjunctions are there that it waited for, and remembers it.
fn finished(
    table: &mut NodeTable,
    known: &mut BTreeMap<TreePair, MarkerTree>,
    done: Pending,
) -> Result<MarkerTree, AllocError>
    requires known { AreKnown table.old known.old }
    requires done { IsPending table.old done }
    requires all { length done.children.items ≤ length done.trees.items }
    ensures made { IfOk result (Conjunction table.new table.new done.asked.first done.asked.second) }
    ensures keeps { Extends table.old table.new }
    ensures known { AreKnown table.new known.new }
    ensures remembers { IfOk result (λ tree. Updates pair_cmp known.old known.new done.asked (Some tree)) }
{
    let form = done.pairs.joined(table.allocator(), &done.trees)?;
    let tree = table.store(form)?;
    known.insert(done.asked, tree)?;
    Ok(tree)
}

/// Returns the conjunction of a pair that is not known. The waiting conjunctions are kept in a list, each
/// after one of whose children it is, so that a long path takes memory and no stack.
fn walked(
    alloc: Global,
    table: &mut NodeTable,
    known: &mut BTreeMap<TreePair, MarkerTree>,
    asked: TreePair,
) -> Result<MarkerTree, AllocError>
    requires known { AreKnown table.old known.old }
    requires asked { IsAsked table.old known.old asked }
    ensures made { IfOk result (λ tree. Conjunction table.old table.new asked.first asked.second tree) }
    ensures keeps { Extends table.old table.new }
    ensures known { AreKnown table.new known.new }
{
    let mut waiting = Vec::new(alloc);
    waiting.push(begun(alloc, table, asked)?)?;
    let mut last = MarkerTree::TRUE;
    while let Some(top) = waiting.pop() {
        let Pending {
            asked: pair,
            pairs,
            children,
            mut trees,
        } = top;
        let unknown = next_unknown(table, known, pair.first, pair.second, &children, &mut trees)?;
        let again = Pending {
            asked: pair,
            pairs,
            children,
            trees,
        };
        match unknown {
            Some(next) => {
                let below = begun(alloc, table, next)?;
                waiting.push(again)?;
                waiting.push(below)?;
            }
            None => last = finished(table, known, again)?,
        }
    }
    Ok(last)
}

/// Returns the conjunction of two trees, in no more steps than the product of the numbers of their nodes,
/// each as long as the two nodes' endpoints. No recursion, however deep the trees are.
pub(crate) fn conjunction(
    alloc: Global,
    table: &mut NodeTable,
    known: &mut BTreeMap<TreePair, MarkerTree>,
    a: MarkerTree,
    b: MarkerTree,
) -> Result<MarkerTree, AllocError>
    requires known { AreKnown table.old known.old }
    requires a { IsTree table.old a }
    requires b { IsTree table.old b }
    ensures made { IfOk result (λ tree. Conjunction table.old table.new a b tree) }
    ensures keeps { Extends table.old table.new }
    ensures known { AreKnown table.new known.new }
{
    match look_up(table, known, a, b) {
        Ok(tree) => Ok(tree),
        Err(asked) => walked(alloc, table, known, asked),
    }
}
