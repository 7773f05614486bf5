//! Answers on the first test of a marker's tree, and the subtree for each result.

use crate::reading::read;
use crate::stop::{Told, answered, said};
use pep508_tree::{Interner, MarkerTree};
use pep508_view::{
    Edge, ExtraMarkerTree, MarkerExtra, MarkerTreeKind, MarkerTreeView, OccurrenceMarkerTree,
    StringMarkerTree, VersionMarkerTree,
};
use std::alloc::{AllocError, Global};
use std::fmt::{Display, Write};
use std::ops::Bound;

/// Answers with the root of a marker's tree.
pub fn view(alloc: Global, answer: &mut String, interner: &mut Interner, text: &str) -> Told {
    let tree = read(alloc, answer, interner, text)?;
    match tree.kind(interner) {
        MarkerTreeKind::True => said(answer, "true"),
        MarkerTreeKind::False => said(answer, "false"),
        MarkerTreeKind::Version(node) => answered(versions(answer, &node)),
        MarkerTreeKind::String(node) => answered(texts(answer, &node)),
        MarkerTreeKind::In(node) => answered(occurring(answer, "in", &node)),
        MarkerTreeKind::Contains(node) => answered(occurring(answer, "contains", &node)),
        MarkerTreeKind::Extra(node) => answered(extra(answer, &node)),
    }
}

/// Appends a test of texts, with the word between the key and the other text.
fn occurring(
    answer: &mut String,
    word: &str,
    node: &OccurrenceMarkerTree,
) -> Result<(), AllocError> {
    let (key, value) = (node.key(), node.value());
    write!(answer, "{key:?} {word} '{value}'")?;
    set_or_not(answer, node.edge(true), node.edge(false))
}

fn extra(answer: &mut String, node: &ExtraMarkerTree) -> Result<(), AllocError> {
    match node.name() {
        MarkerExtra::Extra(name) => write!(answer, "extra '{name}'")?,
        MarkerExtra::Arbitrary(name) => write!(answer, "extra arbitrary '{name}'")?,
    }
    set_or_not(answer, node.edge(true), node.edge(false))
}

/// Appends the subtrees where the test succeeds, and where it does not.
fn set_or_not(answer: &mut String, set: MarkerTree, unset: MarkerTree) -> Result<(), AllocError> {
    let (set, unset) = (subtree(set), subtree(unset));
    write!(answer, "{{true {set}, false {unset}}}")
}

fn subtree(tree: MarkerTree) -> &'static str {
    if tree.is_true() {
        "true"
    } else if tree.is_false() {
        "false"
    } else {
        "a tree"
    }
}

fn versions(answer: &mut String, node: &VersionMarkerTree) -> Result<(), AllocError> {
    let key = node.key();
    write!(answer, "{key}")?;
    let mut is_first = true;
    for edge in node.edges() {
        answer.push_str(if is_first { "{" } else { ", " })?;
        push_edge(answer, &edge, "")?;
        is_first = false;
    }
    answer.push('}')
}

fn texts(answer: &mut String, node: &StringMarkerTree) -> Result<(), AllocError> {
    let key = node.key();
    write!(answer, "{key:?}")?;
    let mut is_first = true;
    for edge in node.children() {
        answer.push_str(if is_first { "{" } else { ", " })?;
        push_edge(answer, &edge, "'")?;
        is_first = false;
    }
    answer.push('}')
}

/// Appends the bounds of an edge with their brackets, each between these quotes, and its subtree.
fn push_edge<B: Display>(
    answer: &mut String,
    edge: &Edge<B>,
    quote: &str,
) -> Result<(), AllocError> {
    match &edge.lower {
        Bound::Unbounded => answer.push_str("(")?,
        Bound::Included(bound) => write!(answer, "[{quote}{bound}{quote}")?,
        Bound::Excluded(bound) => write!(answer, "({quote}{bound}{quote}")?,
    }
    match &edge.upper {
        Bound::Unbounded => answer.push_str("..)")?,
        Bound::Included(bound) => write!(answer, "..{quote}{bound}{quote}]")?,
        Bound::Excluded(bound) => write!(answer, "..{quote}{bound}{quote})")?,
    }
    let tree = subtree(edge.tree);
    write!(answer, " {tree}")
}
