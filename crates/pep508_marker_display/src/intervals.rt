//! The intervals in which a child of a node applies, read off the node's branches.
//!
//! The intervals are read directly off where the tree is and where it is not; no list of boundaries is
//! made.

ghost use Rattle.std.specs.Prelude.{◌≡◌, ◌<◌, ◌≤◌, ◌+◌, [], ◌∷◌, true, false, not, cond, length, MatchOption};
ghost use Rattle.std.specs.Range.Bound.{bound_map};
ghost use Rattle.std.specs.declared.ops.Bound.{Bound};
ghost use Rattle.pep508_marker_text_laws.specs.Groups.{turning};
ghost use Rattle.pep508_marker_display.specs.Spans.{spans, spans_behind};
ghost use Rattle.pep508_marker_display.specs.Trees.{same_tree, is_at};

use pep508_diagram::Branch;
use pep508_tree::MarkerTree;
use std::ops::Bound;
use version_ranges::Boundary;

/// Returns whether two trees are the same.
pub(crate) fn is_same(tree: MarkerTree, other: MarkerTree) -> bool
    ensures { result ≡ same_tree tree other }
{
    tree == other
}

/// Returns whether a child is the given tree; with `outside`, whether it is another one.
fn is_at(tree: MarkerTree, outside: bool, child: MarkerTree) -> bool
    ensures { result ≡ is_at tree outside child }
{
    if outside {
        !is_same(tree, child)
    } else {
        is_same(tree, child)
    }
}

/// Returns the next endpoint from which on the tree is the child, or no longer is, and the branches after
/// it; with `outside` the other way round.
fn next_turn<'a, T>(
    tree: MarkerTree,
    outside: bool,
    held: bool,
    later: &'a [Branch<T, MarkerTree>],
) -> Option<(&'a Boundary<T>, &'a [Branch<T, MarkerTree>])>
    ensures { MatchOption result (turning (is_at tree outside) held later.now ≡ [])
        (λ next. (turning (is_at tree outside) held later.now
        ≡ next.0.now ∷ turning (is_at tree outside) (not held) next.1.now)
        × (length next.1.now < length later.now)) }
{
    let mut left = later;
    while let Some((branch, rest)) = left.split_first() {
        left = rest;
        let turns = if held {
            !is_at(tree, outside, branch.child)
        } else {
            is_at(tree, outside, branch.child)
        };
        if turns {
            return Some((&branch.boundary, rest));
        }
    }
    None
}

/// Returns the lower bound of the next interval, and the branches after that.
fn next_lower<'a, T>(
    tree: MarkerTree,
    outside: bool,
    held: bool,
    later: &'a [Branch<T, MarkerTree>],
) -> Option<(Bound<&'a T>, &'a [Branch<T, MarkerTree>])>
    ensures { MatchOption result (spans tree outside held later.now ≡ [])
        (λ next. (spans tree outside held later.now
        ≡ spans_behind tree outside (bound_map (λ v. v.now) next.0) next.1.now)
        × (length next.1.now < length later.now + cond held 1 0)) }
{
    if held {
        return Some((Bound::Unbounded, later));
    }
    let (boundary, left) = next_turn(tree, outside, false, later)?;
    Some((boundary.as_lower_bound(), left))
}

/// Returns the upper bound of an interval that has begun, and the branches after that.
fn next_upper<'a, T>(
    tree: MarkerTree,
    outside: bool,
    later: &'a [Branch<T, MarkerTree>],
) -> (Bound<&'a T>, &'a [Branch<T, MarkerTree>])
    ensures spans { (lower : Bound T) → spans_behind tree outside lower later.now
        ≡ (lower, bound_map (λ v. v.now) result.0) ∷ spans tree outside false result.1.now }
    ensures falls { length result.1.now ≤ length later.now }
{
    match next_turn(tree, outside, true, later) {
        Some((boundary, left)) => (boundary.as_upper_bound(), left),
        None => (Bound::Unbounded, later.split_at(later.len()).1),
    }
}

/// Returns the next interval in which the tree is the child, or with `outside` in which it is not, and the
/// branches after it.
pub(crate) fn next_interval<'a, T>(
    tree: MarkerTree,
    outside: bool,
    held: bool,
    later: &'a [Branch<T, MarkerTree>],
) -> Option<(Bound<&'a T>, Bound<&'a T>, &'a [Branch<T, MarkerTree>])>
    ensures { MatchOption result (spans tree outside held later.now ≡ [])
        (λ next. (spans tree outside held later.now
        ≡ (bound_map (λ v. v.now) next.0, bound_map (λ v. v.now) next.1)
        ∷ spans tree outside false next.2.now)
        × (length next.2.now < length later.now + cond held 1 0)) }
{
    let (lower, begun) = next_lower(tree, outside, held, later)?;
    let (upper, left) = next_upper(tree, outside, begun);
    Some((lower, upper, left))
}
