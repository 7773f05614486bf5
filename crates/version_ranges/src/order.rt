//! Equality, order and hash of sets. None of them takes memory, and each is at most linear in the sets'
//! endpoints.
ghost use Rattle.std.specs.Prelude.{◌≡◌, true, false, cond, List, IsTrue, ◌↔◌, fold, refl};
ghost use Rattle.std.specs.Ordering.{eq_by_cmp, as_partial_cmp};
ghost use Rattle.std.specs.Range.Bound.{bound_map};
ghost use Rattle.std.specs.Cmp.{eq_by_cmp_equiv, partial_equiv_from_equiv, partial_order_from_agreeing_total};
ghost use Rattle.std.specs.declared.cmp.Ordering.TheVariants.{Less, Equal, Greater};
ghost use Rattle.version_ranges.specs.declared.boundary.Boundary.{Boundary};
ghost use Rattle.version_ranges.specs.Held.{HoldSamePoints};
ghost use Rattle.version_ranges.specs.Boundaries.{turns_of};
ghost use Rattle.version_ranges.specs.Order.{ranges_cmp};
ghost use Rattle.version_ranges.specs.OrderLaws.{ranges_total};
ghost use Rattle.version_ranges.specs.Hashing.{bound_input, ranges_input};
ghost use Rattle.version_ranges.specs.HashingLaws.{alike_ranges};

use crate::boundary::Boundary;
use crate::ranges::Ranges;
use crate::value::RangeValue;
use std::cmp::Ordering;
use std::hash::{Hash, Hasher};
use std::ops::Bound;

impl<T: RangeValue> PartialEq for Ranges<T> {
    ghost eq = { eq_by_cmp (ranges_cmp T.cmp) };

    ghost laws = { partial_equiv_from_equiv (eq_by_cmp_equiv (ranges_total T.cmp T.total)) };

    fn eq(&self, other: &Ranges<T>) -> bool
        ensures test { result ≡ eq_by_cmp (ranges_cmp T.cmp) self.now other.now }
        ensures points { IsTrue result ↔ HoldSamePoints T.cmp self.now other.now }
    {
        let (starts_held, boundaries) = self.turns();
        let (other_starts_held, other_boundaries) = other.turns();
        starts_held == other_starts_held && boundaries == other_boundaries
    }
}

impl<T: RangeValue> Eq for Ranges<T> {
    ghost laws = { eq_by_cmp_equiv (ranges_total T.cmp T.total) };
}

impl<T: RangeValue> PartialOrd for Ranges<T> {
    ghost partial_cmp = { as_partial_cmp (ranges_cmp T.cmp) };

    ghost laws = { partial_order_from_agreeing_total (ranges_cmp T.cmp) (ranges_total T.cmp T.total)
        (λ x y. refl) (λ x y. refl) };

    fn partial_cmp(&self, other: &Ranges<T>) -> Option<Ordering> {
        Some(self.cmp(other))
    }
}

/// Compares two sets that both hold the point below all, or both don't: the first endpoints that differ
/// decide. Where one set has no further endpoint, it comes last if an interval is open there, since that
/// has no end, and else first, since it has fewer intervals.
fn compare_boundaries<T: Ord>(
    starts_held: bool,
    boundaries: &[Boundary<T>],
    others: &[Boundary<T>],
) -> Ordering
    ensures { result ≡
        ranges_cmp T.cmp (turns_of starts_held boundaries.now) (turns_of starts_held others.now) }
{
    let mut inside = starts_held;
    let mut left = boundaries;
    let mut right = others;
    loop {
        match (left.split_first(), right.split_first()) {
            (None, None) => return Ordering::Equal,
            (None, Some(_)) => return when_first_ends(inside),
            (Some(_), None) => return when_first_ends(inside).reverse(),
            (Some((boundary, behind)), Some((other, other_behind))) => {
                match boundary.cmp(other) {
                    Ordering::Equal => {}
                    decided => return decided,
                }
                left = behind;
                right = other_behind;
                inside = !inside;
            }
        }
    }
}

/// Returns how the set whose endpoints end first compares with the other.
fn when_first_ends(inside: bool) -> Ordering
    ensures { result ≡ cond inside Greater Less }
{
    if inside {
        Ordering::Greater
    } else {
        Ordering::Less
    }
}

/// Compares a set that holds the point below all with one that doesn't, whose endpoints these are.
fn compare_from_below<T: Ord>(others: &[Boundary<T>]) -> Ordering
    ensures { (boundaries : List (Boundary T)) →
        result ≡ ranges_cmp T.cmp (turns_of true boundaries) (turns_of false others.now) }
{
    if others.is_empty() {
        Ordering::Greater
    } else {
        Ordering::Less
    }
}

impl<T: RangeValue> Ord for Ranges<T> {
    ghost cmp = { ranges_cmp T.cmp };

    ghost total = { ranges_total T.cmp T.total };

    ghost matches_partial_cmp = { λ x y. refl };

    ghost matches_eq = { λ x y. refl };

    fn cmp(&self, other: &Ranges<T>) -> Ordering
        ensures order { result ≡ ranges_cmp T.cmp self.now other.now }
        ensures points { (result ≡ Equal) ↔ HoldSamePoints T.cmp self.now other.now }
    {
        let (starts_held, boundaries) = self.turns();
        let (other_starts_held, other_boundaries) = other.turns();
        if starts_held == other_starts_held {
            compare_boundaries(starts_held, boundaries, other_boundaries)
        } else if starts_held {
            compare_from_below(other_boundaries)
        } else {
            compare_from_below(boundaries).reverse()
        }
    }
}

fn feed_bound<T: Hash, H: Hasher>(bound: Bound<&T>, state: &mut H)
    ensures { state.new ≡
        fold H.write state.old (bound_input T.hash_input (bound_map (λ v. v.now) bound.entry)) }
{
    match bound {
        Bound::Unbounded => state.write_u8(0),
        Bound::Included(value) => {
            state.write_u8(1);
            value.hash(state);
        }
        Bound::Excluded(value) => {
            state.write_u8(2);
            value.hash(state);
        }
    }
}

impl<T: RangeValue> Hash for Ranges<T> {
    ghost hash_input = { ranges_input T.hash_input };

    ghost respects_eq = { alike_ranges T.cmp T.eq T.hash_input T.matches_eq T.respects_eq };

    fn hash<H: Hasher>(&self, state: &mut H) {
        for (lower, upper) in self.iter() {
            feed_bound(lower, state);
            feed_bound(upper, state);
        }
        state.write_u8(3);
    }
}
