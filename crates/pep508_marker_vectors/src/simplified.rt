//! Answers on markers that are simplified.

ghost use Rattle.std.specs.Prelude.{IfOk};
ghost use Rattle.pep508_tree.specs.Meaning.{IsTree, Extends};

use crate::reading::read;
use crate::stop::{Stop, Told, said, stop_behind, truth};
use pep440_version::{Version, VersionParseError};
use pep508_name::ExtraName;
use pep508_simplification::MarkerTreeSimplification;
use pep508_tree::{Interner, MarkerTree};
use pep508_tree_laws::earlier_trees_keep;
use std::alloc::{AllocError, Global};
use std::ops::Bound;

/// Returns the version of a text, which has to be one.
fn version(alloc: Global, answer: &mut String, text: &str) -> Result<Version, Stop> {
    match Version::from_str(alloc, text) {
        Ok(version) => Ok(version),
        Err(VersionParseError::Memory) => Err(Stop::Memory),
        Err(_) => Err(stop_behind(answer.push_str("no version"))),
    }
}

/// Returns a bound, which a bracket includes in the range and a parenthesis excludes.
pub fn bound(alloc: Global, answer: &mut String, text: &str) -> Result<Bound<Version>, Stop> {
    if let Some(text) = text.strip_prefix('[') {
        return Ok(Bound::Included(version(alloc, answer, text)?));
    }
    if let Some(text) = text.strip_prefix('(') {
        return Ok(Bound::Excluded(version(alloc, answer, text)?));
    }
    Ok(Bound::Unbounded)
}

/// Returns a tree, simplified to a range of versions of Python or restricted to one.
pub fn made_within(
    alloc: Global,
    interner: &mut Interner,
    asked: &str,
    tree: MarkerTree,
    lower: &Bound<Version>,
    upper: &Bound<Version>,
) -> Result<MarkerTree, AllocError>
    requires { IsTree interner.old.nodes tree }
    ensures made { IfOk result (IsTree interner.new.nodes) }
    ensures keeps { Extends interner.old.nodes interner.new.nodes }
{
    if asked == "simplified" {
        tree.simplify_python_versions(alloc, interner, lower.as_ref(), upper.as_ref())
    } else {
        tree.complexify_python_versions(alloc, interner, lower.as_ref(), upper.as_ref())
    }
}

/// Answers whether a marker, simplified to a range of versions of Python or restricted to one, is one tree
/// with another.
pub fn within(
    alloc: Global,
    answer: &mut String,
    interner: &mut Interner,
    asked: &str,
    texts: (&str, &str),
    (lower, upper): (&str, &str),
) -> Told {
    let lower = bound(alloc, answer, lower)?;
    let upper = bound(alloc, answer, upper)?;
    within_bounds(alloc, answer, interner, asked, texts, &lower, &upper)
}

fn within_bounds(
    alloc: Global,
    answer: &mut String,
    interner: &mut Interner,
    asked: &str,
    (text, other): (&str, &str),
    lower: &Bound<Version>,
    upper: &Bound<Version>,
) -> Told {
    let tree = read(alloc, answer, interner, text)?;
    let tree = made_within(alloc, interner, asked, tree, lower, upper)?;
    let other = read(alloc, answer, interner, other)?;
    truth(answer, tree == other)
}

/// Answers whether a marker is one tree with another once extras are assumed to be present, listed or by a
/// predicate.
pub fn present(
    alloc: Global,
    answer: &mut String,
    interner: &mut Interner,
    text: &str,
    other: &str,
    extras: &[ExtraName],
) -> Told {
    let read_tree = read(alloc, answer, interner, text)?;
    let tree = read_tree.simplify_extras(alloc, interner, extras)?;
    earlier_trees_keep();
    let by_predicate = read_tree.simplify_extras_with(
        alloc,
        interner,
        |name| extras.contains(name),
    )?;
    if tree != by_predicate {
        return said(answer, "two answers");
    }
    let other = read(alloc, answer, interner, other)?;
    truth(answer, tree == other)
}
