//! The common refinement of two diagrams.
//!
//! Each pair of nodes is merged once, by a list of pending pairs and not by recursion.

ghost use Rattle.std.specs.Prelude.{◌≡◌, ◌∷◌, List, IfOk, IfSome};
ghost use Rattle.std.specs.List.{AllByRecursion};
ghost use Rattle.pep508_tree.specs.Meaning.{NodeRecord};
ghost use Rattle.pep508_tree.specs.Nodes.{first_child};
ghost use Rattle.pep508_leaf_diagram.specs.Forms.{record_of, others};
ghost use Rattle.pep508_leaf_diagram.specs.Pairing.{IsDiagram, MadeIn};
ghost use Rattle.pep508_leaf_diagram.specs.Walks.{IsWalk, IsWaiting, AreMerged};

use crate::child::{Child, Pair};
use crate::diagram::Diagram;
use crate::diagram_pairs::split;
use crate::form::Form;
use crate::merge_walk::Walk;
use pep508_tree::Interner;
use std::alloc::{AllocError, Global};

/// The common refinement of two diagrams, and for each of its leaves the leaves of both.
#[derive(Drop)]
pub struct Merged {
    pub diagram: Diagram,
    pub leaves: Vec<(usize, usize)>,
}

/// A pair whose node waits for its children: those before `seen` are merged.
#[derive(Drop)]
struct Waiting {
    first: Child,
    second: Child,
    form: Form<Pair>,
    pairs: Vec<Pair>,
    seen: usize,
}

/// Returns the pair with its children, or `None` where both are leaves.
fn begun(
    alloc: Global,
    interner: &Interner,
    a: &Diagram,
    b: &Diagram,
    first: &Child,
    second: &Child,
) -> Result<Option<Waiting>, AllocError>
    requires a { IsDiagram interner.now.nodes a.now }
    requires b { IsDiagram interner.now.nodes b.now }
    requires first { MadeIn interner.now.nodes a.now first.now }
    requires second { MadeIn interner.now.nodes b.now second.now }
    ensures { IfOk result (λ begun. IfSome begun (IsWaiting interner.now.nodes a.now b.now)) }
{
    match split(alloc, interner, a, b, *first, *second)? {
        None => Ok(None),
        Some(form) => {
            let pairs = all_pairs(alloc, &form)?;
            Ok(Some(Waiting {
                first: *first,
                second: *second,
                form,
                pairs,
                seen: 0,
            }))
        }
    }
}

/// Returns all children of a node of pairs, in order.
fn all_pairs(alloc: Global, form: &Form<Pair>) -> Result<Vec<Pair>, AllocError>
    ensures { IfOk result (λ pairs.
        pairs.items ≡ first_child (record_of form.now) ∷ others (record_of form.now)) }
{
    let mut pairs = Vec::new(alloc);
    pairs.push(form.first())?;
    let others = form.others(alloc)?;
    pairs.extend_from_slice(&others)?;
    Ok(pairs)
}

/// Returns the index of the first pair from `from` on that isn't merged, or the number of pairs.
fn next_missing(walk: &mut Walk, pairs: &[Pair], from: usize) -> Result<usize, AllocError>
    ensures { IfOk result (λ _. (inner : List NodeRecord) (a b : Diagram) → IsWalk inner a b walk.old →
        IsWalk inner a b walk.new) }
{
    for place in from..pairs.len() {
        let pair = pairs[place];
        if !walk.has(&pair.0, &pair.1)? {
            return Ok(place);
        }
    }
    Ok(pairs.len())
}

/// Returns the pending pair with another count of merged children.
fn up_to(waiting: Waiting, seen: usize) -> Waiting
    ensures { (inner : List NodeRecord) (a b : Diagram) →
        IsWaiting inner a b waiting → IsWaiting inner a b result }
{
    let Waiting {
        first,
        second,
        form,
        pairs,
        seen: _,
    } = waiting;
    Waiting {
        first,
        second,
        form,
        pairs,
        seen,
    }
}

/// Makes the node of the last pending pair, or has its next child be pending. Returns `false` where neither
/// can be done.
fn step(
    alloc: Global,
    interner: &Interner,
    a: &Diagram,
    b: &Diagram,
    walk: &mut Walk,
    waiting: &mut Vec<Waiting>,
) -> Result<bool, AllocError>
    requires a { IsDiagram interner.now.nodes a.now }
    requires b { IsDiagram interner.now.nodes b.now }
    requires waiting { AllByRecursion (IsWaiting interner.now.nodes a.now b.now) waiting.old.items }
    requires walk { IsWalk interner.now.nodes a.now b.now walk.old }
    ensures waiting { IfOk result (λ _.
        AllByRecursion (IsWaiting interner.now.nodes a.now b.now) waiting.new.items) }
    ensures walk { IfOk result (λ _. IsWalk interner.now.nodes a.now b.now walk.new) }
{
    let Some(top) = waiting.pop() else {
        return Ok(false);
    };
    let seen = next_missing(walk, &top.pairs, top.seen)?;
    if seen >= top.pairs.len() {
        let (first, second) = (top.first, top.second);
        let added = walk.add_node(alloc, &first, &second, top.form)?;
        return Ok(added);
    }
    let pair = top.pairs[seen];
    let Some(below) = begun(alloc, interner, a, b, &pair.0, &pair.1)? else {
        return Ok(false);
    };
    waiting.push(up_to(top, seen))?;
    waiting.push(below)?;
    Ok(true)
}

/// Merges the roots of two diagrams. Returns `None` where there are more than `most` leaves.
fn walked(
    alloc: Global,
    interner: &Interner,
    a: &Diagram,
    b: &Diagram,
    most: u64,
) -> Result<Option<Walk>, AllocError>
    requires a { IsDiagram interner.now.nodes a.now }
    requires b { IsDiagram interner.now.nodes b.now }
    ensures { IfOk result (λ walk. IfSome walk (IsWalk interner.now.nodes a.now b.now)) }
{
    let mut walk = Walk::new(alloc);
    if walk.has(&a.root, &b.root)? {
        return Ok(Some(walk));
    }
    let Some(all) = begun(alloc, interner, a, b, &a.root, &b.root)? else {
        return Ok(None);
    };
    let mut waiting = Vec::new(alloc);
    waiting.push(all)?;
    for _ in 0..u64::MAX {
        if walk.has(&a.root, &b.root)? {
            return Ok(Some(walk));
        }
        if !step(alloc, interner, a, b, &mut walk, &mut waiting)? {
            return Ok(None);
        }
        if walk.leaves.len() as u64 > most {
            return Ok(None);
        }
    }
    Ok(None)
}

/// Returns the common refinement of two diagrams: a valuation reaches in it the leaf that stands for the pair
/// of leaves that it reaches in both. Returns `None` where there are more than `most` leaves.
///
/// Each pair of nodes that some valuation reaches is merged once, in time linear in the edges that come out
/// of it.
///
/// # Errors
/// Where memory ran out.
pub fn merge_diagrams(
    alloc: Global,
    interner: &Interner,
    a: &Diagram,
    b: &Diagram,
    most: u64,
) -> Result<Option<Merged>, AllocError>
    requires a { IsDiagram interner.now.nodes a.now }
    requires b { IsDiagram interner.now.nodes b.now }
    ensures { IfOk result (λ merged. IfSome merged (AreMerged interner.now.nodes a.now b.now)) }
{
    let Some(walk) = walked(alloc, interner, a, b, most)? else {
        return Ok(None);
    };
    let Some(root) = walk.get(&a.root, &b.root) else {
        return Ok(None);
    };
    let leaves = walk.leaves.len();
    Ok(Some(Merged {
        diagram: Diagram {
            nodes: walk.nodes,
            root,
            leaves,
        },
        leaves: walk.leaves,
    }))
}
