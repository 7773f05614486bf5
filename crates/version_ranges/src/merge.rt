//! One pass over the endpoints of two sets, and the intersection and union that it makes.
//!
//! Finding the next boundary of two lists is apart from what is done with it: `merged` writes a boundary
//! where membership in the combination changes.
ghost use Rattle.std.specs.Prelude.{◌≡◌, true, [], IfOk, OnOk, MatchOption};
ghost use Rattle.version_ranges.specs.Point.{Point};
ghost use Rattle.version_ranges.specs.Held.{holds_at};
ghost use Rattle.version_ranges.specs.Boundaries.{boundary_cmp};
ghost use Rattle.version_ranges.specs.Merging.{combined, IsFirst, Adds};

use crate::boundary::Boundary;
use crate::ranges::Ranges;
use crate::value::RangeValue;
use std::alloc::{AllocError, Global};
use std::cmp::Ordering;

/// The least endpoint of two rising lists, and what is left of both lists after it.
///
/// Where both lists begin with equal endpoints, `boundary` is the first list's, and both go on after it.
#[derive(Drop)]
pub struct NextBoundary<'a, T> {
    pub boundary: &'a Boundary<T>,
    /// Whether this endpoint, or one that equals it, was in the first list.
    pub in_first: bool,
    /// Whether this endpoint, or one that equals it, was in the second list.
    pub in_second: bool,
    /// The endpoints of the first list after it.
    pub first: &'a [Boundary<T>],
    /// The endpoints of the second list after it.
    pub second: &'a [Boundary<T>],
}

/// Returns the least endpoint of two rising lists, and what is left of each; `None` where both are empty.
/// It makes at most one comparison of endpoints, and takes no memory.
pub fn next_boundary<'a, T: Ord>(
    first: &'a [Boundary<T>],
    second: &'a [Boundary<T>],
) -> Option<NextBoundary<'a, T>>
    ensures { MatchOption result ((first.now ≡ []) × (second.now ≡ []))
        (λ next. IsFirst (boundary_cmp T.cmp) first.now second.now
        next.boundary.now next.in_first next.in_second next.first.now next.second.now) }
{
    match (first.split_first(), second.split_first()) {
        (None, None) => None,
        (Some((boundary, behind)), None) => Some(NextBoundary {
            boundary,
            in_first: true,
            in_second: false,
            first: behind,
            second,
        }),
        (None, Some((boundary, behind))) => Some(NextBoundary {
            boundary,
            in_first: false,
            in_second: true,
            first,
            second: behind,
        }),
        (Some((boundary, behind)), Some((other, other_behind))) => match boundary.cmp(other) {
            Ordering::Less => Some(NextBoundary {
                boundary,
                in_first: true,
                in_second: false,
                first: behind,
                second,
            }),
            Ordering::Equal => Some(NextBoundary {
                boundary,
                in_first: true,
                in_second: true,
                first: behind,
                second: other_behind,
            }),
            Ordering::Greater => Some(NextBoundary {
                boundary: other,
                in_first: false,
                in_second: true,
                first,
                second: other_behind,
            }),
        },
    }
}

/// Which points of two sets a combination holds: those in both, or those in either.
#[derive(Clone, Copy)]
pub(crate) enum Combination {
    Both,
    Either,
}

impl Combination {
    fn holds(self, in_first: bool, in_second: bool) -> bool
        ensures { result ≡ combined self in_first in_second }
    {
        match self {
            Combination::Both => in_first && in_second,
            Combination::Either => in_first || in_second,
        }
    }
}

/// Appends a copy of the endpoint, where membership changes there.
fn push_if<T: RangeValue>(
    alloc: Global,
    boundaries: &mut Vec<Boundary<T>>,
    boundary: &Boundary<T>,
    changed: bool,
) -> Result<(), AllocError>
    ensures { OnOk result
        (Adds (boundary_cmp T.cmp) boundary.now changed boundaries.old.items boundaries.new.items) }
{
    if changed {
        boundaries.push(boundary.try_clone(alloc)?)?;
    }
    Ok(())
}

/// Returns the combination of two sets, by one pass over the endpoints of both.
pub(crate) fn merged<T: RangeValue>(
    alloc: Global,
    combination: Combination,
    first: &Ranges<T>,
    second: &Ranges<T>,
) -> Result<Ranges<T>, AllocError>
    ensures { IfOk result (λ merged. (p : Point T) → holds_at T.cmp merged p ≡
        combined combination (holds_at T.cmp first.now p) (holds_at T.cmp second.now p)) }
{
    let (mut in_first, mut first_left) = first.turns();
    let (mut in_second, mut second_left) = second.turns();
    let starts_held = combination.holds(in_first, in_second);
    let mut inside = starts_held;
    let mut boundaries = Vec::new(alloc);
    while let Some(next) = next_boundary(first_left, second_left) {
        let was_inside = inside;
        in_first = in_first != next.in_first;
        in_second = in_second != next.in_second;
        inside = combination.holds(in_first, in_second);
        push_if(alloc, &mut boundaries, next.boundary, inside != was_inside)?;
        first_left = next.first;
        second_left = next.second;
    }
    Ok(Ranges {
        starts_held,
        boundaries,
    })
}
