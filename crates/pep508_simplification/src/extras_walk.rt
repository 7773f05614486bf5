//! Trees in which the named extras are assumed to be present, by a walk over trees without negation.
//!
//! A tree waits for those in its node as a conjunction does, on a list and not on the stack.

ghost use Rattle.std.specs.Prelude.{◌≡◌, ◌<◌, ◌≤◌, ◌++◌, ◌∷◌, [], length, take, None, Some};
ghost use Rattle.std.specs.Prelude.{IfOk, OnOk, MatchOption};
ghost use Rattle.std.specs.List.{AllByRecursion};
ghost use Rattle.std.specs.BTreeMap.{get, Updates};
ghost use Rattle.std.specs.Ordering.{nat_cmp};
ghost use Rattle.pep508_tree.specs.Meaning.{IsTree, Extends};
ghost use Rattle.pep508_tree.specs.Conjunctions.{Meet};
ghost use Rattle.pep508_simplification.specs.Named.{IsNamed, IsKnown, AreKnown, plain};
ghost use Rattle.pep508_simplification.specs.Pending.{IsPending, IsUnknown};

use crate::named::named_root;
use crate::root_copy::Root;
use pep508_name::ExtraName;
use pep508_tree::{Interner, MarkerTree};
use std::alloc::{AllocError, Global};
use std::collections::BTreeMap;

/// Returns the result for the plain tree at a place, if it is remembered.
fn recalled<F: Fn(&ExtraName) -> bool>(
    interner: &Interner,
    known: &BTreeMap<usize, MarkerTree>,
    predicate: &F,
    place: usize,
) -> Option<MarkerTree>
    requires { AreKnown (F.post predicate.now) interner.now.nodes known.now }
    ensures { MatchOption result (get nat_cmp known.now place ≡ None)
        (IsKnown (F.post predicate.now) interner.now.nodes place) }
{
    match known.get(&place) {
        Some(simple) => Some(*simple),
        None => None,
    }
}

/// Remembers the result for the plain tree at a place.
fn remember<F: Fn(&ExtraName) -> bool>(
    interner: &Interner,
    known: &mut BTreeMap<usize, MarkerTree>,
    predicate: &F,
    place: usize,
    simple: MarkerTree,
) -> Result<(), AllocError>
    requires known { AreKnown (F.post predicate.now) interner.now.nodes known.old }
    requires found { IsKnown (F.post predicate.now) interner.now.nodes place simple }
    ensures known { IfOk result (λ _. AreKnown (F.post predicate.now) interner.now.nodes known.new) }
    ensures updates { IfOk result (λ _. Updates nat_cmp known.old known.new place (Some simple)) }
{
    known.insert(place, simple)?;
    Ok(())
}

/// A plain tree that waits for the results of its children. Those of the first children are there.
#[derive(Drop)]
pub(crate) struct Pending {
    tree: MarkerTree,
    root: Root,
    children: Vec<MarkerTree>,
    trees: Vec<MarkerTree>,
}

/// Returns a plain tree that waits for the results of all its children.
fn begun<F: Fn(&ExtraName) -> bool>(
    alloc: Global,
    interner: &Interner,
    predicate: &F,
    tree: MarkerTree,
) -> Result<Pending, AllocError>
    requires callable { F.IsAlwaysCallable predicate.now }
    requires made { IsTree interner.now.nodes tree }
    requires plain { tree ≡ plain tree.place }
    ensures tree { IfOk result (λ pending. pending.tree ≡ tree) }
    ensures begun { IfOk result (IsPending (F.post predicate.now) interner.now.nodes) }
{
    let root = named_root(alloc, interner, predicate, tree)?;
    let children = root.children(alloc)?;
    Ok(Pending {
        tree,
        root,
        children,
        trees: Vec::new(alloc),
    })
}

/// Appends the known results of further children to those that are there, up to the first child without
/// one, and returns that child without its negation.
fn next_unknown<F: Fn(&ExtraName) -> bool>(
    interner: &Interner,
    known: &BTreeMap<usize, MarkerTree>,
    predicate: &F,
    tree: MarkerTree,
    children: &[MarkerTree],
    trees: &mut Vec<MarkerTree>,
) -> Result<Option<MarkerTree>, AllocError>
    requires known { AreKnown (F.post predicate.now) interner.now.nodes known.now }
    requires made { AllByRecursion (IsTree interner.now.nodes) children.now }
    requires falls { AllByRecursion (λ child. child.place < tree.place) children.now }
    requires met { Meet (IsNamed (F.post predicate.now) interner.now.nodes interner.now.nodes)
        (take (length trees.old.items) children.now) trees.old.items }
    ensures met { Meet (IsNamed (F.post predicate.now) interner.now.nodes interner.now.nodes)
        (take (length trees.new.items) children.now) trees.new.items }
    ensures next { IfOk result (λ next. MatchOption next (length children.now ≤ length trees.new.items)
        (IsUnknown interner.now.nodes known.now tree.place)) }
{
    for index in trees.len()..children.len() {
        let child = children[index];
        let place = child.place();
        let negated = child.is_negated();
        let simple = match recalled(interner, known, predicate, place) {
            Some(simple) => simple,
            None => return Ok(Some(child.turned(negated))),
        };
        let signed = simple.turned(negated);
        trees.push(signed)?;
    }
    Ok(None)
}

/// Appends the known results of further children of a waiting tree, up to the first child without one, and
/// returns that child without its negation.
fn look_on<F: Fn(&ExtraName) -> bool>(
    interner: &Interner,
    known: &BTreeMap<usize, MarkerTree>,
    predicate: &F,
    pending: &mut Pending,
) -> Result<Option<MarkerTree>, AllocError>
    requires known { AreKnown (F.post predicate.now) interner.now.nodes known.now }
    requires pending { IsPending (F.post predicate.now) interner.now.nodes pending.old }
    ensures pending { IsPending (F.post predicate.now) interner.now.nodes pending.new }
    ensures tree { pending.new.tree ≡ pending.old.tree }
    ensures next { IfOk result (λ next. MatchOption next
        (length pending.new.children.items ≤ length pending.new.trees.items)
        (IsUnknown interner.now.nodes known.now pending.old.tree.place)) }
{
    let children = &pending.children;
    next_unknown(
        interner,
        known,
        predicate,
        pending.tree,
        children,
        &mut pending.trees,
    )
}

/// Returns the result for a tree once all results are there that it waited for, and remembers it.
fn finished<F: Fn(&ExtraName) -> bool>(
    alloc: Global,
    interner: &mut Interner,
    known: &mut BTreeMap<usize, MarkerTree>,
    predicate: &F,
    done: Pending,
) -> Result<MarkerTree, AllocError>
    requires known { AreKnown (F.post predicate.now) interner.old.nodes known.old }
    requires done { IsPending (F.post predicate.now) interner.old.nodes done }
    requires all { length done.children.items ≤ length done.trees.items }
    ensures found { IfOk result (IsKnown (F.post predicate.now) interner.new.nodes done.tree.place) }
    ensures known { IfOk result (λ _. AreKnown (F.post predicate.now) interner.new.nodes known.new) }
    ensures remembers { IfOk result (λ simple.
        Updates nat_cmp known.old known.new done.tree.place (Some simple)) }
    ensures keeps { Extends interner.old.nodes interner.new.nodes }
    ensures counts { interner.new.conjunctions ≡ interner.old.conjunctions }
{
    let place = done.tree.place();
    let simple = done.root.rejoined(alloc, interner, done.tree, &done.trees)?;
    remember(interner, known, predicate, place, simple)?;
    Ok(simple)
}

/// Pushes a tree, and then one of its children.
fn put_behind(waiting: &mut Vec<Pending>, top: Pending, below: Pending) -> Result<(), AllocError>
    ensures { OnOk result (waiting.new.items ≡ (waiting.old.items ++ top ∷ []) ++ below ∷ []) }
{
    waiting.push(top)?;
    waiting.push(below)?;
    Ok(())
}

/// Returns the result for a plain tree. The waiting trees are kept in a list, each after one whose child it
/// is, so that a long path takes memory and no stack.
pub(crate) fn walked<F: Fn(&ExtraName) -> bool>(
    alloc: Global,
    interner: &mut Interner,
    predicate: &F,
    tree: MarkerTree,
) -> Result<MarkerTree, AllocError>
    requires callable { F.IsAlwaysCallable predicate.now }
    requires made { IsTree interner.old.nodes tree }
    requires plain { tree ≡ plain tree.place }
    ensures named { IfOk result
        (IsNamed (F.post predicate.now) interner.old.nodes interner.new.nodes tree) }
    ensures keeps { Extends interner.old.nodes interner.new.nodes }
    ensures counts { interner.new.conjunctions ≡ interner.old.conjunctions }
{
    let mut known = BTreeMap::new(alloc);
    let mut waiting = Vec::new(alloc);
    waiting.push(begun(alloc, interner, predicate, tree)?)?;
    let mut last = tree;
    while let Some(mut top) = waiting.pop() {
        match look_on(interner, &known, predicate, &mut top)? {
            Some(next) => {
                let below = begun(alloc, interner, predicate, next)?;
                put_behind(&mut waiting, top, below)?;
            }
            None => last = finished(alloc, interner, &mut known, predicate, top)?,
        }
    }
    Ok(last)
}
