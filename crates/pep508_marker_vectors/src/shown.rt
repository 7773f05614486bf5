//! Answers on trees with their interners: prints, JSON values, contents and order.

ghost use Rattle.pep508_tree.specs.Meaning.{IsTree};

use crate::reading::{read, refused};
use crate::stop::{Told, answered, put, put_or, said, truth};
use pep508_marker_parser::MarkerTreeReading;
use pep508_marker_serde::{MarkerTreeContents, MarkerTreeWithContents, ser};
use pep508_tree::{Interner, MarkerTree};
use pep508_tree_ref::MarkerTreeRef;
use read_outcome::FromValueError;
use serde_json::Value;
use std::alloc::Global;
use std::cmp::Ordering;
use std::fmt::Write;

/// Answers with the print of a marker's tree.
pub fn print(alloc: Global, answer: &mut String, interner: &mut Interner, text: &str) -> Told {
    let tree = read(alloc, answer, interner, text)?;
    put(answer, &MarkerTreeRef::new(alloc, interner, tree))
}

/// Answers with the text of a marker's tree, `no text` where it has none.
pub fn print_in_part(
    alloc: Global,
    answer: &mut String,
    interner: &mut Interner,
    text: &str,
) -> Told {
    let tree = read(alloc, answer, interner, text)?;
    let found = MarkerTreeRef::new(alloc, interner, tree).try_to_string();
    put_or(answer, found, "no text")
}

/// Answers with the JSON value of a marker's tree, and `none` where it has none.
pub fn value(alloc: Global, answer: &mut String, interner: &mut Interner, text: &str) -> Told {
    let tree = read(alloc, answer, interner, text)?;
    put_or(answer, ser::to_value(alloc, tree, interner), "none")
}

/// Answers whether the marker of a JSON value is one tree with another; `shape` for a value that is not a
/// text.
pub fn from_value(
    alloc: Global,
    answer: &mut String,
    interner: &mut Interner,
    value: Option<&Value>,
    other: &str,
) -> Told {
    let Some(value) = value else {
        return said(answer, "no question");
    };
    let other = read(alloc, answer, interner, other)?;
    match MarkerTree::from_value(alloc, interner, value) {
        Ok(tree) => truth(answer, tree == other),
        Err(FromValueError::Shape) => said(answer, "shape"),
        Err(FromValueError::Text(error)) => Err(refused(answer, &error)),
    }
}

/// Answers whether a marker's tree has contents, whether it is empty, and whether its contents lead back to
/// it.
pub fn contents(alloc: Global, answer: &mut String, interner: &mut Interner, text: &str) -> Told {
    let tree = read(alloc, answer, interner, text)?;
    let contents = tree.contents(interner);
    let has_contents = contents.is_some();
    let is_empty = ser::is_empty(tree);
    let leads_back = MarkerTree::from_contents(contents) == tree && are_of(contents, tree);
    answered(write!(answer, "{has_contents} {is_empty} {leads_back}"))
}

/// Returns whether contents are those of a tree, or `None`.
fn are_of(contents: Option<MarkerTreeContents>, tree: MarkerTree) -> bool {
    match contents {
        Some(contents) => *contents.as_tree() == tree && contents.into_tree() == tree,
        None => true,
    }
}

/// Answers which of two markers comes first, where each is read by an interner of its own.
pub fn order(
    alloc: Global,
    answer: &mut String,
    interner: &mut Interner,
    left: &str,
    right: &str,
) -> Told {
    let left = read(alloc, answer, interner, left)?;
    order_beside(alloc, answer, interner, left, right)
}

fn sign(order: Ordering) -> &'static str {
    match order {
        Ordering::Less => "<",
        Ordering::Equal => "=",
        Ordering::Greater => ">",
    }
}

fn order_beside(
    alloc: Global,
    answer: &mut String,
    interner: &Interner,
    left: MarkerTree,
    right: &str,
) -> Told
    requires { IsTree interner.now.nodes left }
{
    let mut other_interner = Interner::new(alloc);
    let right = read(alloc, answer, &mut other_interner, right)?;
    let left = MarkerTreeRef::new(alloc, interner, left);
    let right = MarkerTreeRef::new(alloc, &other_interner, right);
    let order = left.try_cmp(&right)?;
    if order != left.cmp(&right) {
        return said(answer, "two orders");
    }
    said(answer, sign(order))
}
