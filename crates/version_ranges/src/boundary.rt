//! The endpoints of a set's intervals: at a value, or just above one.
ghost use Rattle.std.specs.Prelude.{◌≡◌, [], ◌∷◌, IfOk, MatchOption, refl};
ghost use Rattle.std.specs.Ordering.{eq_by_cmp, as_partial_cmp};
ghost use Rattle.std.specs.Cmp.{eq_by_cmp_equiv, partial_equiv_from_equiv, partial_order_from_agreeing_total};
ghost use Rattle.std.specs.Range.Bound.{bound_map};
ghost use Rattle.std.specs.declared.cmp.Ordering.TheVariants.{Equal};
ghost use Rattle.version_ranges.specs.Point.{At, BelowAll, point_cmp};
ghost use Rattle.version_ranges.specs.Turns.{reaches};
ghost use Rattle.version_ranges.specs.Boundaries.{point_of, boundary_cmp};
ghost use Rattle.version_ranges.specs.Bounds.{lower_bound_at, upper_bound_at};
ghost use Rattle.version_ranges.specs.Order.{start_point, end_points};
ghost use Rattle.version_ranges.specs.OrderLaws.{boundaries_total};
ghost use Rattle.version_ranges.specs.Hashing.{boundary_input};
ghost use Rattle.version_ranges.specs.HashingLaws.{alike_boundaries};

use crate::value::RangeValue;
use std::alloc::{AllocError, Global};
use std::cmp::Ordering;
use std::hash::{Hash, Hasher};
use std::ops::Bound;

/// An endpoint of a set, at which membership flips: at a value, or just above one.
///
/// Equality, order and hash are those of the point: `At(v)` comes before `JustAbove(v)`, and that before
/// `At(w)` for every `w` above `v`. Each takes one comparison or one hash of values.
#[derive(Drop)]
pub enum Boundary<T> {
    At(T),
    JustAbove(T),
}

impl<T> Boundary<T> {
    /// Returns the lower bound of an interval that begins at this endpoint: `Included` of `At`, `Excluded`
    /// of `JustAbove`.
    pub fn as_lower_bound(&self) -> Bound<&T>
        ensures { bound_map (λ v. v.now) result ≡ lower_bound_at (point_of self.now) }
    {
        match self {
            Boundary::At(value) => Bound::Included(value),
            Boundary::JustAbove(value) => Bound::Excluded(value),
        }
    }

    /// Returns the upper bound of an interval that ends at this endpoint: `Excluded` of `At`, `Included` of
    /// `JustAbove`.
    pub fn as_upper_bound(&self) -> Bound<&T>
        ensures { bound_map (λ v. v.now) result ≡ upper_bound_at (point_of self.now) }
    {
        match self {
            Boundary::At(value) => Bound::Excluded(value),
            Boundary::JustAbove(value) => Bound::Included(value),
        }
    }

    /// Returns the endpoint at which an interval with this lower bound begins; `None` for `Unbounded`.
    pub(crate) fn from_lower_bound(bound: Bound<T>) -> Option<Self>
        ensures { MatchOption result (start_point bound ≡ BelowAll)
            (λ start. start_point bound ≡ point_of start) }
    {
        match bound {
            Bound::Included(value) => Some(Boundary::At(value)),
            Bound::Excluded(value) => Some(Boundary::JustAbove(value)),
            Bound::Unbounded => None,
        }
    }

    /// Returns the endpoint at which an interval with this upper bound ends; `None` for `Unbounded`.
    pub(crate) fn from_upper_bound(bound: Bound<T>) -> Option<Self>
        ensures { MatchOption result (end_points bound ≡ []) (λ end. end_points bound ≡ point_of end ∷ []) }
    {
        match bound {
            Bound::Included(value) => Some(Boundary::JustAbove(value)),
            Bound::Excluded(value) => Some(Boundary::At(value)),
            Bound::Unbounded => None,
        }
    }
}

impl<T: Ord> Boundary<T> {
    /// Returns whether the value lies at this endpoint or above it.
    pub fn reaches(&self, value: &T) -> bool
        ensures { result ≡ reaches (point_cmp T.cmp) (point_of self.now) (At value.now) }
    {
        match self {
            Boundary::At(bound) => bound.cmp(value).is_le(),
            Boundary::JustAbove(bound) => bound.cmp(value).is_lt(),
        }
    }
}

impl<T: RangeValue> Boundary<T> {
    /// Returns a copy, which equals its source: the value is cloned once. The only error is lack of memory.
    ///
    /// # Errors
    ///
    /// `AllocError` when memory runs out.
    pub fn try_clone(&self, alloc: Global) -> Result<Self, AllocError>
        ensures { IfOk result (λ copy. boundary_cmp T.cmp copy self.now ≡ Equal) }
    {
        Ok(match self {
            Boundary::At(value) => Boundary::At(value.try_clone(alloc)?),
            Boundary::JustAbove(value) => Boundary::JustAbove(value.try_clone(alloc)?),
        })
    }
}

impl<T: Ord> PartialEq for Boundary<T> {
    ghost eq = { eq_by_cmp (boundary_cmp T.cmp) };

    ghost laws = { partial_equiv_from_equiv (eq_by_cmp_equiv (boundaries_total T.cmp T.total)) };

    fn eq(&self, other: &Boundary<T>) -> bool {
        self.cmp(other).is_eq()
    }
}

impl<T: Ord> Eq for Boundary<T> {
    ghost laws = { eq_by_cmp_equiv (boundaries_total T.cmp T.total) };
}

impl<T: Ord> PartialOrd for Boundary<T> {
    ghost partial_cmp = { as_partial_cmp (boundary_cmp T.cmp) };

    ghost laws = { partial_order_from_agreeing_total (boundary_cmp T.cmp) (boundaries_total T.cmp T.total)
        (λ x y. refl) (λ x y. refl) };

    fn partial_cmp(&self, other: &Boundary<T>) -> Option<Ordering> {
        Some(self.cmp(other))
    }
}

impl<T: Ord> Ord for Boundary<T> {
    ghost cmp = { boundary_cmp T.cmp };

    ghost total = { boundaries_total T.cmp T.total };

    ghost matches_partial_cmp = { λ x y. refl };

    ghost matches_eq = { λ x y. refl };

    fn cmp(&self, other: &Boundary<T>) -> Ordering {
        match (self, other) {
            (Boundary::At(v), Boundary::At(w)) => v.cmp(w),
            (Boundary::At(v), Boundary::JustAbove(w)) => v.cmp(w).then(Ordering::Less),
            (Boundary::JustAbove(v), Boundary::At(w)) => v.cmp(w).then(Ordering::Greater),
            (Boundary::JustAbove(v), Boundary::JustAbove(w)) => v.cmp(w),
        }
    }
}

impl<T: Ord + Hash> Hash for Boundary<T> {
    ghost hash_input = { boundary_input T.hash_input };

    ghost respects_eq = { alike_boundaries T.cmp T.eq T.hash_input T.matches_eq T.respects_eq };

    fn hash<H: Hasher>(&self, state: &mut H) {
        match self {
            Boundary::At(value) => {
                state.write_u8(0);
                value.hash(state);
            }
            Boundary::JustAbove(value) => {
                state.write_u8(1);
                value.hash(state);
            }
        }
    }
}
