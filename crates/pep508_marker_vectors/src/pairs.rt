//! Answers on two markers.

use crate::reading::read;
use crate::stop::{Stop, Told, truth};
use pep508_disjointness::MarkerTreeDisjointness;
use pep508_marker_key::MarkerTreeKey;
use pep508_tree::{Interner, MarkerTree};
use pep508_tree_laws::earlier_trees_keep;
use std::alloc::Global;

/// Answers whether two markers have one tree, are disjoint, or the one's tree is the other's negation.
pub fn pair(
    alloc: Global,
    answer: &mut String,
    interner: &mut Interner,
    asked: &str,
    left: &str,
    right: &str,
) -> Told {
    let left = read(alloc, answer, interner, left)?;
    let right = read(alloc, answer, interner, right)?;
    earlier_trees_keep();
    let holds = match asked {
        "same" => left == right,
        "negation" => MarkerTree::negate(left) == right,
        _ => left.is_disjoint(alloc, interner, right)?,
    };
    truth(answer, holds)
}

/// Answers whether two markers, each read by an interner of its own, have one key.
pub fn one_key(
    alloc: Global,
    answer: &mut String,
    interner: &mut Interner,
    left: &str,
    right: &str,
) -> Told {
    let key = key_of(alloc, answer, interner, left)?;
    let mut others = Interner::new(alloc);
    let other_key = key_of(alloc, answer, &mut others, right)?;
    truth(answer, key.as_slice() == other_key.as_slice())
}

/// Returns the key of a marker.
fn key_of(
    alloc: Global,
    answer: &mut String,
    interner: &mut Interner,
    text: &str,
) -> Result<Vec<u8>, Stop> {
    let tree = read(alloc, answer, interner, text)?;
    Ok(tree.key(alloc, interner)?)
}
