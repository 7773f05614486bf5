//! The intervals of a set, as an iterator.
ghost use Rattle.std.specs.Prelude.{◌≡◌, ◌<◌, ◌+◌, ◌/◌, ◌%◌, ◌^◌, cond, length, [], ◌∷◌, map, MatchOption};
ghost use Rattle.std.specs.Iterator.{at_most};
ghost use Rattle.std.specs.Map.Iter.{TakesFirst, ShowsInOrder};
ghost use Rattle.std.specs.Range.Bound.{bound_map};
ghost use Rattle.version_ranges.specs.Point.{Point};
ghost use Rattle.version_ranges.specs.Boundaries.{point_of, turns_of};
ghost use Rattle.version_ranges.specs.Bounds.{intervals, lent_bounds, lower_bound_at};
ghost use Rattle.version_ranges.specs.Held.{IsNormal};

use crate::boundary::Boundary;
use crate::ranges::Ranges;
use crate::value::RangeValue;
use std::marker::Model;
use std::ops::Bound;

/// An iterator over the remaining intervals of a set in rising order, each as its lower and its upper
/// bound. It takes no memory.
#[derive(Drop)]
pub struct Iter<'a, T> {
    /// Whether the next interval has no lower bound.
    starts_held: bool,
    boundaries: &'a [Boundary<T>],
}

impl<'a, T> Model for Iter<'a, T> {
    ghost use Rattle.std.specs.Prelude.{List};
    ghost use Rattle.std.specs.declared.ops.Bound.{Bound};
    ghost use Rattle.version_ranges.specs.Boundaries.{turns_of};
    ghost use Rattle.version_ranges.specs.Bounds.{intervals};

    ghost Value = { List (Bound T × Bound T) };

    ghost view = { λ iter. intervals (turns_of iter.starts_held iter.boundaries.now) };
}

/// Returns the lower bound of the first interval, and the endpoints after it; `None` where no interval is
/// left.
fn split_lower<T>(
    starts_held: bool,
    boundaries: &[Boundary<T>],
) -> Option<(Bound<&T>, &[Boundary<T>])>
    ensures { MatchOption result (turns_of starts_held boundaries.now ≡ [])
        (λ r. (start : Point T) × (turns_of starts_held boundaries.now ≡ start ∷ map point_of r.1.now)
        × (bound_map (λ v. v.now) r.0 ≡ lower_bound_at start)) }
{
    if starts_held {
        return Some((Bound::Unbounded, boundaries));
    }
    let (start, later) = boundaries.split_first()?;
    Some((start.as_lower_bound(), later))
}

/// Returns the upper bound of an interval that has begun, and the endpoints after it.
fn split_upper<T>(boundaries: &[Boundary<T>]) -> (Bound<&T>, &[Boundary<T>])
    ensures { (start : Point T) → intervals (start ∷ map point_of boundaries.now)
        ≡ (lower_bound_at start, bound_map (λ v. v.now) result.0) ∷ intervals (map point_of result.1.now) }
{
    match boundaries.split_first() {
        None => (Bound::Unbounded, boundaries),
        Some((end, later)) => (end.as_upper_bound(), later),
    }
}

/// Returns the number of intervals that `boundaries` endpoints delimit, the first of which has no lower bound
/// where `starts_held`.
fn count_intervals(starts_held: bool, boundaries: usize) -> usize
    ensures { result ≡ boundaries / 2 + cond starts_held 1 (boundaries % 2) }
{
    if starts_held {
        boundaries / 2 + 1
    } else {
        boundaries / 2 + boundaries % 2
    }
}

impl<'a, T> Iterator for Iter<'a, T> {
    type Item = (Bound<&'a T>, Bound<&'a T>);

    ghost next_gives = { TakesFirst lent_bounds };

    ghost remaining = { λ left. at_most (length left) };

    fn next(&mut self) -> Option<(Bound<&'a T>, Bound<&'a T>)> {
        let (lower, begun) = split_lower(self.starts_held, self.boundaries)?;
        let (upper, later) = split_upper(begun);
        self.starts_held = false;
        self.boundaries = later;
        Some((lower, upper))
    }

    fn size_hint(&self) -> (usize, Option<usize>) {
        let left = count_intervals(self.starts_held, self.boundaries.len());
        (left, Some(left))
    }
}

impl<T: RangeValue> Ranges<T> {
    /// Returns an iterator over the intervals of the set, in rising order: none is empty, and no two of
    /// them touch. `size_hint` is exact. It takes no memory.
    pub fn iter(&self) -> Iter<'_, T>
        ensures intervals { result ≡ intervals self.now }
        ensures runs { ShowsInOrder (lent_bounds {T = T}) }
        ensures normal { IsNormal T.cmp self.now }
        ensures fits { length (intervals self.now) < 2 ^ 64 }
    {
        let (starts_held, boundaries) = self.turns();
        // As a `usize` counts the endpoints, it counts the intervals: clause `fits`.
        let _count = count_intervals(starts_held, boundaries.len());
        Iter {
            starts_held,
            boundaries,
        }
    }
}
