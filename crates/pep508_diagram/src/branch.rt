//! Branches: what holds between rising endpoints.

ghost use Rattle.std.specs.Prelude.{◌≡◌, [], ◌++◌, map, IfOk, OnOk, MatchOption};
ghost use Rattle.version_ranges.specs.Point.{Point, At};
ghost use Rattle.pep508_diagram.specs.Branches.{RisingBranches, branch_at, AllBranches};
ghost use Rattle.pep508_diagram.specs.Chains.{IsChild};
ghost use Rattle.pep508_diagram.specs.Joining.{joined_by};
ghost use Rattle.pep508_diagram.specs.Pairing.{IsNext, AreChildPairs};

use crate::node_value::NodeValue;
use std::alloc::{AllocError, Global};
use std::cmp::Ordering;
use version_ranges::Boundary;

/// The child of a node from an endpoint on, up to the next one.
#[derive(Drop)]
pub struct Branch<T, C> {
    pub boundary: Boundary<T>,
    pub child: C,
}

/// Returns the child at a value. Compares as many endpoints as the logarithm of their number.
pub fn branch_at<T: Ord, C: Copy>(first: C, later: &[Branch<T, C>], value: &T) -> C
    requires { RisingBranches T.cmp later.now }
    ensures { result ≡ branch_at T.cmp first later.now (At value.now) }
{
    let reached = later.partition_point(|branch| branch.boundary.reaches(value));
    match reached.checked_sub(1) {
        Some(last) => later[last].child,
        None => first,
    }
}

/// The child at a place, and the branches after it.
type Rest<'a, T, C> = (C, &'a [Branch<T, C>]);

/// Returns the least endpoint of two rising lists of branches; and for each list the child from that
/// endpoint on, and the branches after it. Where both begin with equal endpoints, it is the first list's.
/// `None` where both are empty. Makes at most one comparison of endpoints.
fn next_branch<'a, T: Ord, C: Copy>(
    first: C,
    later: &'a [Branch<T, C>],
    other_first: C,
    other_later: &'a [Branch<T, C>],
) -> Option<(&'a Boundary<T>, Rest<'a, T, C>, Rest<'a, T, C>)>
    ensures { MatchOption result ((later.now ≡ []) × (other_later.now ≡ []))
        (λ next. IsNext T.cmp next.0.now first later.now next.1.0 next.1.1.now
        other_first other_later.now next.2.0 next.2.1.now) }
{
    match (later.split_first(), other_later.split_first()) {
        (None, None) => None,
        (Some((branch, left)), None) => Some((
            &branch.boundary,
            (branch.child, left),
            (other_first, other_later),
        )),
        (None, Some((other, rest))) => Some((&other.boundary, (first, later), (other.child, rest))),
        (Some((branch, left)), Some((other, rest))) => match branch.boundary.cmp(&other.boundary) {
            Ordering::Less => Some((
                &branch.boundary,
                (branch.child, left),
                (other_first, other_later),
            )),
            Ordering::Equal => Some((&branch.boundary, (branch.child, left), (other.child, rest))),
            Ordering::Greater => Some((&other.boundary, (first, later), (other.child, rest))),
        },
    }
}

/// Returns an identical copy of an endpoint.
///
/// # Errors
///
/// `AllocError` when memory runs out.
pub fn copy_of_boundary<T: NodeValue>(
    alloc: Global,
    boundary: &Boundary<T>,
) -> Result<Boundary<T>, AllocError>
    ensures { IfOk result (λ copy. copy ≡ boundary.now) }
{
    Ok(match boundary {
        Boundary::At(value) => Boundary::At(value.copied(alloc)?),
        Boundary::JustAbove(value) => Boundary::JustAbove(value.copied(alloc)?),
    })
}

/// Appends the child of each branch, in order.
///
/// # Errors
///
/// `AllocError` when memory runs out.
pub fn add_children<T, C: Copy>(
    children: &mut Vec<C>,
    later: &[Branch<T, C>],
) -> Result<(), AllocError>
    ensures { OnOk result (children.new.items
        ≡ children.old.items ++ map (λ branch. branch.child) later.now) }
{
    for branch in later {
        children.push(branch.child)?;
    }
    Ok(())
}

/// Returns branches at the same endpoints with other children. Where neighbours are equal, the endpoint
/// between them is left out; branches that no child is left for are too.
///
/// # Errors
///
/// `AllocError` when memory runs out.
#[tactic(auto, using(crate::proofs::Joined::joined_none))]
pub fn rejoined<T: Drop, C: Drop, D: Copy + PartialEq>(
    alloc: Global,
    first: D,
    later: Vec<Branch<T, C>>,
    children: &[D],
) -> Result<Vec<Branch<T, D>>, AllocError>
    ensures { IfOk result (λ branches. branches.items ≡ joined_by D.eq first later.items children.now) }
{
    let mut branches = Vec::new(alloc);
    let mut last = first;
    let mut left = children;
    for branch in later {
        let Some((next, rest)) = left.split_first() else {
            return Ok(branches);
        };
        left = rest;
        if *next == last {
            continue;
        }
        last = *next;
        branches.push(Branch {
            boundary: branch.boundary,
            child: last,
        })?;
    }
    Ok(branches)
}

/// Merges two lists of branches into one of pairs: at each point the child is the pair of the first list's
/// child and the second's. One pass over both, which copies each endpoint once.
///
/// # Errors
///
/// `AllocError` when memory runs out.
pub fn paired<T: NodeValue, C: Copy>(
    alloc: Global,
    first: C,
    later: &[Branch<T, C>],
    other_first: C,
    other_later: &[Branch<T, C>],
) -> Result<Vec<Branch<T, (C, C)>>, AllocError>
    requires rising { RisingBranches T.cmp later.now }
    requires other_rising { RisingBranches T.cmp other_later.now }
    ensures points { IfOk result (λ pairs. (p : Point T) →
        branch_at T.cmp (first, other_first) pairs.items p
        ≡ (branch_at T.cmp first later.now p, branch_at T.cmp other_first other_later.now p)) }
    ensures rises { IfOk result (λ pairs. RisingBranches T.cmp pairs.items) }
    ensures children { IfOk result (λ pairs.
        AllBranches (λ pair. IsChild pair.0 first later.now × IsChild pair.1 other_first other_later.now)
        (first, other_first) pairs.items) }
{
    let (mut child, mut left) = (first, later);
    let (mut other_child, mut other_left) = (other_first, other_later);
    let mut pairs = Vec::new(alloc);
    while let Some((boundary, next, other_next)) = next_branch(
        child,
        left,
        other_child,
        other_left,
    ) {
        (child, left) = next;
        (other_child, other_left) = other_next;
        pairs.push(Branch {
            boundary: copy_of_boundary(alloc, boundary)?,
            child: (child, other_child),
        })?;
    }
    Ok(pairs)
}

/// Returns the pairs of the children of two lists of branches, in order: the children of `paired`'s result.
/// One pass over both, which copies no endpoint.
///
/// # Errors
///
/// `AllocError` when memory runs out.
pub fn paired_children<T: Ord, C: Copy>(
    alloc: Global,
    first: C,
    later: &[Branch<T, C>],
    other_first: C,
    other_later: &[Branch<T, C>],
) -> Result<Vec<(C, C)>, AllocError>
    requires rising { RisingBranches T.cmp later.now }
    requires other_rising { RisingBranches T.cmp other_later.now }
    ensures { IfOk result (λ pairs.
        AreChildPairs T.cmp first later.now other_first other_later.now pairs.items) }
{
    let (mut child, mut left) = (first, later);
    let (mut other_child, mut other_left) = (other_first, other_later);
    let mut pairs = Vec::new(alloc);
    pairs.push((first, other_first))?;
    while let Some((_, next, other_next)) = next_branch(child, left, other_child, other_left) {
        (child, left) = next;
        (other_child, other_left) = other_next;
        pairs.push((child, other_child))?;
    }
    Ok(pairs)
}
