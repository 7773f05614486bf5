//! Interval sets, on a type whose equality leaves a field out, and on texts: what no clause says.
use std::alloc::{AllocError, Global};
use std::cmp::Ordering;
use std::hash::{DefaultHasher, Hash, Hasher};
use std::ops::Bound;
use std::test::Fail;
use version_ranges::{Boundary, RangeValue, Ranges};

/// A value that is compared by its rank alone.
#[derive(Drop)]
#[derive_where(PartialEq, Eq, PartialOrd, Ord, Hash)]
struct Spelled {
    rank: u32,
    #[derive_where(skip(EqHashOrd))]
    spelling: u32,
}

impl RangeValue for Spelled {
    fn try_clone(&self, _alloc: Global) -> Result<Spelled, AllocError> {
        Ok(Spelled {
            rank: self.rank,
            spelling: 0,
        })
    }
}

type Set = Ranges<Spelled>;

fn value(rank: u32, spelling: u32) -> Spelled {
    Spelled { rank, spelling }
}

fn at(rank: u32) -> Spelled {
    value(rank, 1)
}

fn hash_of(set: &Set) -> u64 {
    let mut hasher = DefaultHasher::new();
    set.hash(&mut hasher);
    hasher.finish()
}

/// Returns the set from `lower` on, up to and without `upper`.
fn span(alloc: Global, lower: u32, upper: u32) -> Result<Set, AllocError> {
    let bounds = (Bound::Included(at(lower)), Bound::Excluded(at(upper)));
    Ranges::from_range_bounds(alloc, bounds)
}

/// Returns the set from 1 to below 2, and from 3 to below 4.
fn two(alloc: Global) -> Result<Set, AllocError> {
    span(alloc, 1, 2)?.union(alloc, &span(alloc, 3, 4)?)
}

/// Returns the union of all up to a value and all above it.
fn joined(alloc: Global, rank: u32) -> Result<Set, AllocError> {
    let above = Ranges::strictly_higher_than(alloc, at(rank))?;
    Ranges::lower_than(alloc, at(rank))?.union(alloc, &above)
}

#[test]
fn touching_sets_join(rt: HostRuntime) -> Result<(), Fail> {
    let joined = joined(rt.alloc(), 1)?;
    let full = Ranges::full(rt.alloc())?;
    assert!(rt; joined == full);
    assert!(rt; hash_of(&joined) == hash_of(&full));
    assert!(rt; count_left(&joined) == Some(1));
    Ok(())
}

/// Returns the set of what lies above one value and below another.
fn gap(alloc: Global, lower: u32, upper: u32) -> Result<Set, AllocError> {
    let below = Ranges::strictly_lower_than(alloc, at(upper))?;
    Ranges::strictly_higher_than(alloc, at(lower))?.intersection(alloc, &below)
}

#[test]
fn sets_between_neighbours_are_not_empty(rt: HostRuntime) -> Result<(), Fail> {
    let gap = gap(rt.alloc(), 1, 2)?;
    assert!(rt; !gap.is_empty());
    assert!(rt; !gap.contains(&at(1)));
    assert!(rt; !gap.contains(&at(2)));
    Ok(())
}

fn text(alloc: Global, letters: &str) -> Result<String, AllocError> {
    String::from_str(alloc, letters)
}

/// Returns whether the set of all texts but one contains another.
fn is_other(alloc: Global, value: &str, other: &str) -> Result<bool, AllocError> {
    let others = Ranges::singleton(alloc, text(alloc, value)?)?.complement(alloc)?;
    Ok(others.contains(&text(alloc, other)?))
}

#[test]
fn complement_holds_the_others(rt: HostRuntime) -> Result<(), Fail> {
    for (other, held) in [("a", false), ("", true), ("a\0", true)] {
        assert!(rt; is_other(rt.alloc(), "a", other)? == held, "at {other:?}");
    }
    let others = Ranges::singleton(rt.alloc(), at(1))?.complement(rt.alloc())?;
    assert!(rt; count_left(&others) == Some(2));
    Ok(())
}

fn has_rank(found: Option<&Spelled>, rank: u32) -> bool {
    match found {
        Some(found) => found.rank == rank,
        None => false,
    }
}

#[test]
fn a_single_value_is_told(rt: HostRuntime) -> Result<(), Fail> {
    let alloc = rt.alloc();
    assert!(rt; has_rank(Ranges::singleton(alloc, at(2))?.as_singleton(), 2));
    let low = Ranges::higher_than(alloc, at(2))?;
    assert!(rt; low.as_singleton().is_none());
    assert!(rt; low.contains(&at(2)));
    assert!(rt; !low.contains(&at(1)));
    assert!(rt; two(alloc)?.as_singleton().is_none());
    Ok(())
}

/// Returns whether these bounds are those from one value on to below another.
fn are_bounds(bounds: Option<(Bound<&Spelled>, Bound<&Spelled>)>, lower: u32, upper: u32) -> bool {
    match bounds {
        Some((Bound::Included(start), Bound::Excluded(end))) => {
            start.rank == lower && end.rank == upper
        }
        _ => false,
    }
}

#[test]
fn bounds_and_intervals_are_told(rt: HostRuntime) -> Result<(), Fail> {
    let two = two(rt.alloc())?;
    assert!(rt; are_bounds(two.bounding_range(), 1, 4));
    let mut intervals = two.iter();
    assert!(rt; are_bounds(intervals.next(), 1, 2));
    assert!(rt; are_bounds(intervals.next(), 3, 4));
    assert!(rt; intervals.next().is_none());
    assert!(rt; Set::empty(rt.alloc()).bounding_range().is_none());
    assert!(rt; two.try_clone(rt.alloc())? == two);
    Ok(())
}

fn is_below(lower: &Set, higher: &Set) -> bool {
    lower.cmp(higher) == Ordering::Less && higher.partial_cmp(lower) == Some(Ordering::Greater)
}

/// Returns the set of a place among six sets, each of which is below the next.
fn in_order(alloc: Global, place: u8) -> Result<Set, AllocError> {
    match place {
        0 => Ok(Ranges::empty(alloc)),
        1 => Ranges::full(alloc),
        2 => span(alloc, 1, 2),
        3 => two(alloc),
        4 => span(alloc, 1, 3),
        _ => Ranges::higher_than(alloc, at(1)),
    }
}

#[test]
fn order_is_by_intervals(rt: HostRuntime) -> Result<(), Fail> {
    for place in 0..5u8 {
        let lower = in_order(rt.alloc(), place)?;
        let higher = in_order(rt.alloc(), place + 1)?;
        assert!(rt; is_below(&lower, &higher), "at {place}");
    }
    Ok(())
}

#[test]
fn values_are_compared_and_joined_by_their_order(rt: HostRuntime) -> Result<(), Fail> {
    let alloc = rt.alloc();
    let single = Ranges::singleton(alloc, value(1, 1))?;
    let other = Ranges::singleton(alloc, value(1, 2))?;
    assert!(rt; single == other);
    assert!(rt; hash_of(&single) == hash_of(&other));
    assert!(rt; single.contains(&value(1, 3)));
    assert!(rt; single.intersection(alloc, &other)? == single);
    assert!(rt; has_rank(single.union(alloc, &other)?.as_singleton(), 1));
    Ok(())
}

/// Returns the endpoints at a value and just above it.
fn ends(rank: u32) -> [Boundary<Spelled>; 2] {
    [Boundary::At(at(rank)), Boundary::JustAbove(at(rank))]
}

/// Returns whether the set starts with no point held and has exactly these endpoints.
fn is_kept(set: &Set, boundaries: &[Boundary<Spelled>]) -> bool {
    let (starts_held, kept) = set.turns();
    !starts_held && kept == boundaries
}

#[test]
fn a_value_is_kept_as_its_two_ends(rt: HostRuntime) -> Result<(), Fail> {
    let single = Ranges::singleton(rt.alloc(), at(1))?;
    assert!(rt; is_kept(&single, &ends(1)));
    Ok(())
}

#[test]
fn boundaries_are_ordered_as_points(rt: HostRuntime) -> Result<(), Fail> {
    let [at_one, above] = ends(1);
    let next = Boundary::At(at(2));
    assert!(rt; at_one < above && above < next);
    assert!(rt; at_one != above);
    assert!(rt; above.try_clone(rt.alloc())? == above);
    assert!(rt; at_one.reaches(&at(1)));
    assert!(rt; !above.reaches(&at(1)));
    assert!(rt; above.reaches(&at(2)));
    Ok(())
}

/// Returns the number of intervals that an iterator says it has left, where its lower and upper bound
/// agree.
fn count_left(set: &Set) -> Option<usize> {
    let (least, most) = set.iter().size_hint();
    let count = set.iter().count();
    if least == count && most == Some(count) {
        Some(count)
    } else {
        None
    }
}
