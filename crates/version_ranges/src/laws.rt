//! Laws of points and of sets. Each is the contract of a function, for a proof to cite; the functions do
//! nothing.
ghost use Rattle.std.specs.Prelude.{◌≡◌, ◌↔◌, List, [], ◌∷◌, ◌++◌, IsTrue, MatchOption};
ghost use Rattle.std.specs.List.{list_any};
ghost use Rattle.std.specs.Cmp.{IsTotalOrder};
ghost use Rattle.std.specs.Cmp.Lexicographic.{slice_cmp};
ghost use Rattle.std.specs.declared.cmp.Ordering.TheVariants.{Equal};
ghost use Rattle.std.specs.declared.ops.Bound.{Bound};
ghost use Rattle.version_ranges.specs.Point.{Point, point_cmp};
ghost use Rattle.version_ranges.specs.Held.{holds_at, HoldSamePoints, IsBetweenHeld, IsNormal};
ghost use Rattle.version_ranges.specs.Bounds.{is_within, intervals, hull};
ghost use Rattle.version_ranges.specs.Order.{ranges_cmp};
ghost use Rattle.version_ranges.specs.Hashing.{ranges_input};

use crate::ranges::Ranges;
use crate::value::RangeValue;

/// Points are totally ordered, as the values are.
pub fn points_are_ordered<T: Ord>()
    ensures { IsTotalOrder (point_cmp T.cmp) }
{}

/// Each set of points has one normal form: two rising lists of endpoints that hold the same points are
/// equal, endpoint by endpoint.
pub fn normal_form_is_unique<T: Ord>()
    ensures { (a b : List (Point T)) → IsNormal T.cmp a → IsNormal T.cmp b →
        HoldSamePoints T.cmp a b → slice_cmp (point_cmp T.cmp) a b ≡ Equal }
{}

/// Sets compare as equal exactly when they hold the same points.
pub fn order_agrees_with_points<T: Ord>()
    ensures { (a b : List (Point T)) → IsNormal T.cmp a → IsNormal T.cmp b →
        (ranges_cmp T.cmp a b ≡ Equal) ↔ HoldSamePoints T.cmp a b }
{}

/// Sets that hold the same points hash alike.
pub fn same_points_hash_alike<T: RangeValue>()
    ensures { (a b : List (Point T)) → IsNormal T.cmp a → IsNormal T.cmp b →
        HoldSamePoints T.cmp a b → ranges_input T.hash_input a ≡ ranges_input T.hash_input b }
{}

/// A set holds a point exactly where one of its intervals does.
pub fn intervals_hold_the_set<T: Ord>()
    ensures { (set : List (Point T)) (p : Point T) → IsNormal T.cmp set →
        list_any (λ i. is_within T.cmp i p) (intervals set) ≡ holds_at T.cmp set p }
{}

/// No point lies in two intervals of one set.
pub fn intervals_are_apart<T: Ord>()
    ensures { (set : List (Point T)) (before between after : List (Bound T × Bound T))
        (i j : Bound T × Bound T) (p : Point T) → IsNormal T.cmp set →
        intervals set ≡ before ++ i ∷ between ++ j ∷ after →
        IsTrue (is_within T.cmp i p) → ¬ (IsTrue (is_within T.cmp j p)) }
{}

/// The points between the first interval's lower bound and the last one's upper bound are just those with a
/// held point at or before them and one at or after them; only the empty set has no such bounds.
pub fn hull_spans_the_set<T: Ord>()
    ensures { (set : List (Point T)) → IsNormal T.cmp set →
        MatchOption (hull (intervals set)) (set ≡ [])
        (λ bounds. (p : Point T) → IsTrue (is_within T.cmp bounds p) ↔ IsBetweenHeld T.cmp set p) }
{}

/// The endpoints of every set rise strictly.
pub fn every_set_is_normal<T: RangeValue>(set: &Ranges<T>)
    ensures { IsNormal T.cmp set.now }
{
    let _ = &set.boundaries;
}
