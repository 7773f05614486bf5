//! Intersections of several sets that are given by a truth from each endpoint on.

ghost use Rattle.std.specs.Prelude.{◌≡◌, ◌&&◌, IfOk, map};
ghost use Rattle.std.specs.List.{AllByRecursion};
ghost use Rattle.version_ranges.specs.Point.{Point};
ghost use Rattle.pep508_diagram.specs.Branches.{RisingBranches, NeighboursDiffer, branch_at};
ghost use Rattle.pep508_conjunctions.specs.Meets.{met, truth_at, all_true, source_truth, AreLent, IsLeaf};

use crate::borrowed_nodes::{Source, truth_in};
use crate::borrowed_value::LentValue;
use pep508_diagram::{Branch, NodeValue, paired};
use std::alloc::{AllocError, Global};
use version_ranges::Boundary;

/// A truth below all endpoints, and from each of them on.
#[derive(Drop)]
pub(crate) struct Truths<T> {
    pub first: bool,
    pub later: Vec<Branch<T, bool>>,
}

/// Returns branches between the same endpoints that are true where both of a pair are. Equal neighbours are
/// joined.
fn met<T: Drop>(
    alloc: Global,
    first: bool,
    later: Vec<Branch<T, (bool, bool)>>,
) -> Result<Vec<Branch<T, bool>>, AllocError>
    ensures { IfOk result (λ branches. branches.items ≡ met first later.items) }
{
    let mut branches = Vec::new(alloc);
    let mut last = first;
    for branch in later {
        let child = branch.child.0 && branch.child.1;
        if child != last {
            last = child;
            branches.push(Branch {
                boundary: branch.boundary,
                child,
            })?;
        }
    }
    Ok(branches)
}

fn both(a: bool, b: bool) -> bool
    ensures { result ≡ (a && b) }
{
    a && b
}

/// Returns where both are true: one pass over both, which copies each endpoint once.
fn meet<T: NodeValue>(alloc: Global, a: &Truths<T>, b: &Truths<T>) -> Result<Truths<T>, AllocError>
    requires rising { RisingBranches T.cmp a.now.later.items }
    requires other_rising { RisingBranches T.cmp b.now.later.items }
    ensures points { IfOk result (λ both. (p : Point T) →
        truth_at T.cmp both p ≡ (truth_at T.cmp a.now p && truth_at T.cmp b.now p)) }
    ensures rises { IfOk result (λ both. RisingBranches T.cmp both.later.items) }
    ensures differ { IfOk result (λ both. NeighboursDiffer both.first both.later.items) }
{
    let first = both(a.first, b.first);
    let pairs = paired(alloc, a.first, &a.later, b.first, &b.later)?;
    let later = met(alloc, first, pairs)?;
    Ok(Truths { first, later })
}

/// Returns the endpoint with its value borrowed.
fn lent<'a, T>(boundary: &'a Boundary<T>) -> Boundary<LentValue<'a, T>>
    ensures { result ≡ boundary.now }
{
    match boundary {
        Boundary::At(value) => Boundary::At(LentValue::new(value)),
        Boundary::JustAbove(value) => Boundary::JustAbove(LentValue::new(value)),
    }
}

/// Returns the truths of constant children, with borrowed endpoints.
fn lent_truths<'a, T>(
    alloc: Global,
    source: &Source<'a, T>,
) -> Result<Truths<LentValue<'a, T>>, AllocError>
    ensures { IfOk result (λ truths. AreLent truths source.now) }
{
    let mut later = Vec::with_capacity(alloc, source.later.len())?;
    for branch in source.later {
        later.push(Branch {
            boundary: lent(&branch.boundary),
            child: truth_in(source.negated, branch.child),
        })?;
    }
    Ok(Truths {
        first: source.first,
        later,
    })
}

/// Returns where all of several sets of constant children are true, joined by halves.
pub(crate) fn meet_all<'a, T: NodeValue>(
    alloc: Global,
    sources: &[Source<'a, T>],
) -> Result<Truths<LentValue<'a, T>>, AllocError>
    requires { AllByRecursion (IsLeaf T.cmp) sources.now }
    ensures points { IfOk result (λ truths. (p : Point T) →
        truth_at T.cmp truths p ≡ all_true (map (λ source. source_truth T.cmp source p) sources.now)) }
    ensures rises { IfOk result (λ truths. RisingBranches T.cmp truths.later.items) }
    ensures differ { IfOk result (λ truths. NeighboursDiffer truths.first truths.later.items) }
{
    if sources.len() < 2 {
        return match sources.first() {
            Some(source) => lent_truths(alloc, source),
            None => Ok(Truths {
                first: true,
                later: Vec::new(alloc),
            }),
        };
    }
    let (front, back) = sources.split_at(sources.len() / 2);
    let first = meet_all(alloc, front)?;
    let second = meet_all(alloc, back)?;
    meet(alloc, &first, &second)
}
