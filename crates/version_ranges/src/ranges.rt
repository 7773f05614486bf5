//! Sets of intervals: constructors, queries and combinations.
//!
//! The model of a set is the sorted list of endpoints at which membership flips. It is stored as a sign
//! (whether the point below all values is held) and a strictly rising list of boundaries; `Ranges::turns`
//! borrows both, since trees over versions are made of such lists. A complement is a copy with the other
//! sign. Which of two equal values a combination keeps is left open.
ghost use Rattle.std.specs.Prelude.{◌≡◌, true, false, not, ◌&&◌, ◌||◌, ◌↔◌, [], ◌∷◌, IfOk, IsTrue};
ghost use Rattle.std.specs.Prelude.{MatchOption, map};
ghost use Rattle.std.specs.Option.{option_map};
ghost use Rattle.std.specs.Cmp.Lexicographic.{slice_cmp};
ghost use Rattle.std.specs.Range.Bound.{bound_map};
ghost use Rattle.std.specs.declared.cmp.Ordering.TheVariants.{Less, Equal};
ghost use Rattle.std.specs.declared.ops.Bound.TheVariants.{Included, Excluded, Unbounded};
ghost use Rattle.version_ranges.specs.Point.{Point, At};
ghost use Rattle.version_ranges.specs.Turns.{Rising};
ghost use Rattle.version_ranges.specs.Held.{holds_at, HoldSamePoints, HoldsOnly, IsNormal};
ghost use Rattle.version_ranges.specs.Bounds.{starts_by, goes_on_to, is_within, single_value, intervals};
ghost use Rattle.version_ranges.specs.Bounds.{last_upper, hull, lent_bounds};
ghost use Rattle.version_ranges.specs.Boundaries.{point_of, boundary_cmp, turns_of};

use crate::boundary::Boundary;
use crate::merge::{Combination, merged};
use crate::value::RangeValue;
use std::alloc::{AllocError, Global};
use std::marker::Model;
use std::ops::Bound;

/// A set of points of an order, kept as the endpoints of its intervals.
///
/// The model of a set is the sorted list of endpoints at which membership flips. `holds_at` says which
/// points a set holds; two sets that hold the same points are equal.
#[derive(Drop)]
pub struct Ranges<T: RangeValue> {
    /// Whether the set holds the point below all.
    pub(crate) starts_held: bool,
    /// The endpoints at which membership flips, in rising order.
    pub(crate) boundaries: Vec<Boundary<T>>,
}

impl<T: RangeValue> Model for Ranges<T> {
    ghost use Rattle.std.specs.Prelude.{List};
    ghost use Rattle.version_ranges.specs.Point.{Point};
    ghost use Rattle.version_ranges.specs.Held.{IsNormal};
    ghost use Rattle.version_ranges.specs.Boundaries.{turns_of};

    ghost Value = { List (Point T) };

    ghost view = { λ set. turns_of set.starts_held set.boundaries.items };

    ghost invariant = { λ set. IsNormal T.cmp (turns_of set.starts_held set.boundaries.items) };
}

impl<T: RangeValue> Ranges<T> {
    /// Returns whether the set holds the point below all, and its endpoints, in rising order, at each of
    /// which membership flips. It takes no memory and constant time.
    pub fn turns(&self) -> (bool, &[Boundary<T>])
        ensures turns { turns_of result.0 result.1.now ≡ self.now }
        ensures normal { IsNormal T.cmp self.now }
        ensures rising { Rising (boundary_cmp T.cmp) result.1.now }
    {
        (self.starts_held, &self.boundaries)
    }

    /// Returns the set with one endpoint.
    fn with_turn(
        alloc: Global,
        starts_held: bool,
        boundary: Boundary<T>,
    ) -> Result<Self, AllocError>
        ensures { IfOk result (λ set. set ≡ turns_of starts_held (boundary ∷ [])) }
    {
        let mut boundaries = Vec::new(alloc);
        boundaries.push(boundary)?;
        Ok(Ranges {
            starts_held,
            boundaries,
        })
    }

    /// Returns the set whose endpoints are copies of these. Each value is cloned once.
    fn copied(
        alloc: Global,
        starts_held: bool,
        boundaries: &[Boundary<T>],
    ) -> Result<Self, AllocError>
        requires { Rising (boundary_cmp T.cmp) boundaries.now }
        ensures { IfOk result (λ set. HoldSamePoints T.cmp set (turns_of starts_held boundaries.now)) }
    {
        Ok(Ranges {
            starts_held,
            boundaries: copies(alloc, boundaries)?,
        })
    }

    /// Returns the set of all points from one endpoint on, up to another.
    fn between(alloc: Global, start: Boundary<T>, end: Boundary<T>) -> Result<Self, AllocError>
        requires { boundary_cmp T.cmp start end ≡ Less }
        ensures { IfOk result (λ set. set ≡ turns_of false (start ∷ end ∷ [])) }
    {
        let mut boundaries = Vec::with_capacity(alloc, 2)?;
        boundaries.push(start)?;
        boundaries.push(end)?;
        let starts_held = false;
        Ok(Ranges {
            starts_held,
            boundaries,
        })
    }
}

/// Constructors.
impl<T: RangeValue> Ranges<T> {
    /// Returns the set without a point. It takes no memory.
    pub fn empty(alloc: Global) -> Self
        ensures { (p : Point T) → holds_at T.cmp result p ≡ false }
    {
        Ranges {
            starts_held: false,
            boundaries: Vec::new(alloc),
        }
    }

    /// Returns the set of all points. It takes no memory.
    ///
    /// # Errors
    ///
    /// `AllocError` when memory runs out.
    pub fn full(alloc: Global) -> Result<Self, AllocError>
        ensures { IfOk result (λ set. (p : Point T) → holds_at T.cmp set p ≡ true) }
    {
        Ok(Ranges {
            starts_held: true,
            boundaries: Vec::new(alloc),
        })
    }

    /// Returns the set of one point, at the value. The value is cloned once, since it bounds the set on
    /// both sides.
    ///
    /// # Errors
    ///
    /// `AllocError` when memory runs out.
    pub fn singleton(alloc: Global, value: T) -> Result<Self, AllocError>
        ensures { IfOk result (λ set. HoldsOnly T.cmp value set) }
    {
        let copy = value.try_clone(alloc)?;
        Self::between(alloc, Boundary::At(value), Boundary::JustAbove(copy))
    }

    /// Returns the set of what is at the value or above it.
    ///
    /// # Errors
    ///
    /// `AllocError` when memory runs out.
    pub fn higher_than(alloc: Global, value: T) -> Result<Self, AllocError>
        ensures { IfOk result (λ set. (p : Point T) →
            holds_at T.cmp set p ≡ starts_by T.cmp (Included value) p) }
    {
        Self::from_range_bounds(alloc, (Bound::Included(value), Bound::Unbounded))
    }

    /// Returns the set of what is above the value.
    ///
    /// # Errors
    ///
    /// `AllocError` when memory runs out.
    pub fn strictly_higher_than(alloc: Global, value: T) -> Result<Self, AllocError>
        ensures { IfOk result (λ set. (p : Point T) →
            holds_at T.cmp set p ≡ starts_by T.cmp (Excluded value) p) }
    {
        Self::from_range_bounds(alloc, (Bound::Excluded(value), Bound::Unbounded))
    }

    /// Returns the set of what is at the value or below it.
    ///
    /// # Errors
    ///
    /// `AllocError` when memory runs out.
    pub fn lower_than(alloc: Global, value: T) -> Result<Self, AllocError>
        ensures { IfOk result (λ set. (p : Point T) →
            holds_at T.cmp set p ≡ goes_on_to T.cmp (Included value) p) }
    {
        Self::from_range_bounds(alloc, (Bound::Unbounded, Bound::Included(value)))
    }

    /// Returns the set of what is below the value.
    ///
    /// # Errors
    ///
    /// `AllocError` when memory runs out.
    pub fn strictly_lower_than(alloc: Global, value: T) -> Result<Self, AllocError>
        ensures { IfOk result (λ set. (p : Point T) →
            holds_at T.cmp set p ≡ goes_on_to T.cmp (Excluded value) p) }
    {
        Self::from_range_bounds(alloc, (Bound::Unbounded, Bound::Excluded(value)))
    }

    /// Returns the set of what lies between a lower and an upper bound; the empty set where the lower one
    /// is not below the upper one.
    ///
    /// # Errors
    ///
    /// `AllocError` when memory runs out.
    pub fn from_range_bounds(
        alloc: Global,
        bounds: (Bound<T>, Bound<T>),
    ) -> Result<Self, AllocError>
        ensures { IfOk result (λ set. (p : Point T) → holds_at T.cmp set p ≡ is_within T.cmp bounds p) }
    {
        let (lower, upper) = bounds;
        match (
            Boundary::from_lower_bound(lower),
            Boundary::from_upper_bound(upper),
        ) {
            (None, None) => Self::full(alloc),
            (Some(start), None) => Self::with_turn(alloc, false, start),
            (None, Some(end)) => Self::with_turn(alloc, true, end),
            (Some(start), Some(end)) => {
                if start < end {
                    Self::between(alloc, start, end)
                } else {
                    Ok(Self::empty(alloc))
                }
            }
        }
    }

    /// Returns a copy, which equals its source. Each value is cloned once.
    ///
    /// # Errors
    ///
    /// `AllocError` when memory runs out.
    pub fn try_clone(&self, alloc: Global) -> Result<Self, AllocError>
        ensures { IfOk result (λ copy. HoldSamePoints T.cmp copy self.now) }
    {
        let (starts_held, boundaries) = self.turns();
        Self::copied(alloc, starts_held, boundaries)
    }
}

/// Combinations: each makes one pass over its sets, and clones each endpoint that the result keeps once.
impl<T: RangeValue> Ranges<T> {
    /// Returns the set of the points that this one does not hold, with one copy of the endpoints.
    ///
    /// # Errors
    ///
    /// `AllocError` when memory runs out.
    pub fn complement(&self, alloc: Global) -> Result<Self, AllocError>
        ensures { IfOk result (λ set. (p : Point T) →
            holds_at T.cmp set p ≡ not (holds_at T.cmp self.now p)) }
    {
        let (starts_held, boundaries) = self.turns();
        Self::copied(alloc, !starts_held, boundaries)
    }

    /// Returns the set of the points that both sets hold. Linear in the endpoints of the two.
    ///
    /// # Errors
    ///
    /// `AllocError` when memory runs out.
    pub fn intersection(&self, alloc: Global, other: &Self) -> Result<Self, AllocError>
        ensures { IfOk result (λ set. (p : Point T) →
            holds_at T.cmp set p ≡ (holds_at T.cmp self.now p && holds_at T.cmp other.now p)) }
    {
        merged(alloc, Combination::Both, self, other)
    }

    /// Returns the set of the points that either set holds. Linear in the endpoints of the two.
    ///
    /// # Errors
    ///
    /// `AllocError` when memory runs out.
    pub fn union(&self, alloc: Global, other: &Self) -> Result<Self, AllocError>
        ensures { IfOk result (λ set. (p : Point T) →
            holds_at T.cmp set p ≡ (holds_at T.cmp self.now p || holds_at T.cmp other.now p)) }
    {
        merged(alloc, Combination::Either, self, other)
    }
}

/// Queries: none takes memory.
impl<T: RangeValue> Ranges<T> {
    /// Returns whether the set holds the point at the value, by binary search in the endpoints.
    pub fn contains(&self, value: &T) -> bool
        ensures { result ≡ holds_at T.cmp self.now (At value.now) }
    {
        let (starts_held, boundaries) = self.turns();
        let reached = boundaries.partition_point(|boundary| boundary.reaches(value));
        starts_held != (reached % 2 == 1)
    }

    /// Returns whether the set holds no point. A set may hold points and contain no value.
    pub fn is_empty(&self) -> bool
        ensures { IsTrue result ↔ ((p : Point T) → holds_at T.cmp self.now p ≡ false) }
    {
        let (starts_held, boundaries) = self.turns();
        if starts_held {
            return false;
        }
        boundaries.is_empty()
    }

    /// Returns the value, where the set holds the point at one value and no other.
    pub fn as_singleton(&self) -> Option<&T>
        ensures value { option_map (λ v. v.now) result ≡ single_value T.cmp self.now }
        ensures points { MatchOption result
            ((v : T) → ¬ (HoldsOnly T.cmp v self.now)) (λ v. HoldsOnly T.cmp v.now self.now) }
    {
        let (starts_held, boundaries) = self.turns();
        if starts_held {
            None
        } else {
            only_value(boundaries)
        }
    }

    /// Returns the lower bound of the first interval and the upper bound of the last; `None` for the empty
    /// set.
    pub fn bounding_range(&self) -> Option<(Bound<&T>, Bound<&T>)>
        ensures { option_map lent_bounds result ≡ hull (intervals self.now) }
    {
        let (starts_held, boundaries) = self.turns();
        let (lower, _) = self.iter().next()?;
        Some((lower, last_upper_bound(starts_held, boundaries)))
    }
}

/// Copies the endpoints: each copy equals its source.
fn copies<T: RangeValue>(
    alloc: Global,
    boundaries: &[Boundary<T>],
) -> Result<Vec<Boundary<T>>, AllocError>
    ensures { IfOk result (λ copies. slice_cmp (boundary_cmp T.cmp) copies.items boundaries.now ≡ Equal) }
{
    let mut copies = Vec::with_capacity(alloc, boundaries.len())?;
    for boundary in boundaries {
        copies.push(boundary.try_clone(alloc)?)?;
    }
    Ok(copies)
}

/// Returns the value, where there are exactly two endpoints, at it and just above it.
fn only_value<T: Ord>(boundaries: &[Boundary<T>]) -> Option<&T>
    ensures { option_map (λ v. v.now) result ≡ single_value T.cmp (map point_of boundaries.now) }
{
    match boundaries {
        [Boundary::At(value), Boundary::JustAbove(upper)] => {
            if value.cmp(upper).is_eq() {
                Some(value)
            } else {
                None
            }
        }
        _ => None,
    }
}

/// Returns the upper bound of the last interval; `Unbounded` where there is none.
fn last_upper_bound<T>(starts_held: bool, boundaries: &[Boundary<T>]) -> Bound<&T>
    ensures { bound_map (λ v. v.now) result ≡
        last_upper Unbounded (intervals (turns_of starts_held boundaries.now)) }
{
    match boundaries.split_last() {
        None => Bound::Unbounded,
        Some((last, _)) => {
            let ends_held = starts_held != (boundaries.len() % 2 == 1);
            if ends_held {
                Bound::Unbounded
            } else {
                last.as_upper_bound()
            }
        }
    }
}
