//! Which pairs of trees of two lists may hold together, by one diagram of both lists.
//!
//! A leaf of it stands for a leaf of the diagram of each list, and so for the trees of both that hold where
//! it is reached. Two trees that are in the sets of no leaf together never hold together.

ghost use Rattle.std.specs.Prelude.{◌≡◌, ◌≤◌, ◌==◌, ◌||◌, ◌&&◌, ℕ, length, IfOk, IfSome, OnOk};
ghost use Rattle.std.specs.List.{list_any, AllByRecursion};
ghost use Rattle.std.specs.List.Sorted.{IsStrictlySortedBy};
ghost use Rattle.pep508_tree.specs.Meaning.{IsTree};
ghost use Rattle.pep508_cases.specs.Sets.{places_of};
ghost use Rattle.pep508_cases.specs.Marked.{set_at, AreShort};
ghost use Rattle.pep508_cases.specs.Pairs.{pair_cmp, is_listed, has_place, is_of_leaves, AreMeeting};

use crate::set::TreeSet;
use crate::set_diagram::{Marked, of_trees};
use pep508_leaf_diagram::merge_diagrams;
use pep508_tree::{Interner, MarkerTree};
use std::alloc::{AllocError, Global};
use std::collections::BTreeSet;

/// Adds the pairs of a place with each of others.
fn add_row(
    found: &mut BTreeSet<(usize, usize)>,
    one: usize,
    others: &[usize],
) -> Result<(), AllocError>
    ensures { OnOk result ((pair : ℕ × ℕ) → is_listed found.new.keys pair
        ≡ (is_listed found.old.keys pair || ((one == pair.0) && has_place others.now pair.1))) }
{
    for other in others {
        found.insert((one, *other))?;
    }
    Ok(())
}

/// Adds the pairs of each of some places with each of others.
fn add_pairs(
    found: &mut BTreeSet<(usize, usize)>,
    places: &[usize],
    others: &[usize],
) -> Result<(), AllocError>
    ensures { OnOk result ((pair : ℕ × ℕ) → is_listed found.new.keys pair
        ≡ (is_listed found.old.keys pair || (has_place places.now pair.0 && has_place others.now pair.1))) }
{
    for one in places {
        add_row(found, *one, others)?;
    }
    Ok(())
}

/// Returns the places of the members of the set at an index, if there is one.
fn places_at(alloc: Global, sets: &[TreeSet], place: usize) -> Result<Vec<usize>, AllocError>
    requires { length (set_at sets.now place) ≤ usize.MAX }
    ensures { IfOk result (λ places. places.items ≡ places_of (set_at sets.now place)) }
{
    match sets.get(place) {
        Some(set) => set.places(alloc),
        None => Ok(Vec::new(alloc)),
    }
}

/// Returns the pairs of the members of both sets of each pair of leaves.
fn pairs_of(
    alloc: Global,
    first: &Marked,
    second: &Marked,
    leaves: &[(usize, usize)],
) -> Result<BTreeSet<(usize, usize)>, AllocError>
    requires first { AreShort first.now }
    requires second { AreShort second.now }
    requires count { first.now.count ≤ usize.MAX }
    requires other_count { second.now.count ≤ usize.MAX }
    ensures { IfOk result (λ found. (pair : ℕ × ℕ) → is_listed found.keys pair
        ≡ list_any (is_of_leaves first.now.sets.items second.now.sets.items pair) leaves.now) }
{
    let mut found = BTreeSet::new(alloc);
    for both in leaves {
        let places = places_at(alloc, &first.sets, both.0)?;
        let others = places_at(alloc, &second.sets, both.1)?;
        add_pairs(&mut found, &places, &others)?;
    }
    Ok(found)
}

/// Returns the pairs of a set in their order.
fn in_order(
    alloc: Global,
    found: BTreeSet<(usize, usize)>,
) -> Result<Vec<(usize, usize)>, AllocError>
    ensures pairs { IfOk result (λ pairs. pairs.items ≡ found.keys) }
    ensures rising { IfOk result (λ _. IsStrictlySortedBy pair_cmp found.keys) }
{
    let mut pairs = Vec::with_capacity(alloc, found.len())?;
    for pair in found {
        pairs.push(pair)?;
    }
    Ok(pairs)
}

/// Returns which pairs of trees, one of each list, may hold together, by their places in both lists: each
/// once, ordered by the first place and then by the second. The trees of each other pair never hold together.
/// Returns `None` where a diagram has more than `most` leaves: that of some of a list's trees, or that of all
/// trees of both lists. Makes no tree.
///
/// Takes the time of the diagrams of the halves of each list's trees and of that of both lists, and of the
/// pairs of the members of its leaves, times the logarithm of their number.
///
/// # Errors
/// Where memory ran out.
pub fn meeting_pairs(
    alloc: Global,
    interner: &Interner,
    left: &[MarkerTree],
    right: &[MarkerTree],
    most: u64,
) -> Result<Option<Vec<(usize, usize)>>, AllocError>
    requires left { AllByRecursion (IsTree interner.now.nodes) left.now }
    requires right { AllByRecursion (IsTree interner.now.nodes) right.now }
    ensures { IfOk result (λ pairs. IfSome pairs (λ pairs.
        AreMeeting interner.now.nodes left.now right.now pairs.items)) }
{
    let Some(first) = of_trees(alloc, interner, left, most)? else {
        return Ok(None);
    };
    let Some(second) = of_trees(alloc, interner, right, most)? else {
        return Ok(None);
    };
    let both = merge_diagrams(alloc, interner, &first.diagram, &second.diagram, most)?;
    let Some(merged) = both else {
        return Ok(None);
    };
    let found = pairs_of(alloc, &first, &second, &merged.leaves)?;
    let pairs = in_order(alloc, found)?;
    Ok(Some(pairs))
}
