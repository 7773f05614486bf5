//! The ends of the edges of a node.

ghost use Rattle.std.specs.Prelude.{◌≡◌, option_map, option_copied, option_to_list};
ghost use Rattle.std.specs.List.{slice_get};
ghost use Rattle.std.specs.Cmp.Lexicographic.{slice_cmp};
ghost use Rattle.version_ranges.specs.Boundaries.{boundary_cmp};
ghost use Rattle.pep508_marker.specs.Keys.{text_key_rank};
ghost use Rattle.pep508_diagram.specs.Question.{question_cmp, flag_rank, flag_text};
ghost use Rattle.pep508_diagram.specs.Question.{version_boundaries, text_boundaries};
ghost use Rattle.pep508_tree.specs.Meaning.{IsTree};
ghost use Rattle.pep508_tree.specs.Roots.{root_of};
ghost use Rattle.pep508_tree_ref.specs.Sides.{question_of, question_rank, question_text, ends_of, end_cmp};

use pep440_version::Version;
use pep508_diagram::{Branch, Flag, MarkerText, VersionVariable};
use pep508_marker::MarkerValueString;
use pep508_tree::{Interner, MarkerTree, TreeNode};
use std::cmp::Ordering;
use version_ranges::Boundary;

/// The question that ends an edge, borrowed.
#[derive(Clone, Copy)]
pub enum End<'a> {
    /// The version is below an endpoint.
    Version(VersionVariable, &'a Boundary<Version>),
    /// The text is below an endpoint.
    Text(MarkerValueString, &'a Boundary<MarkerText>),
    /// The flag is set.
    Flag(&'a Flag),
}

fn text_rank(key: MarkerValueString) -> u8
    ensures { result ≡ text_key_rank key }
{
    key as u8
}

fn flag_rank(flag: &Flag) -> u8
    ensures { result ≡ flag_rank flag.now }
{
    match flag {
        Flag::In(key, _) => 16 + text_rank(*key),
        Flag::Contains(key, _) => 30 + text_rank(*key),
        Flag::Extra(_) => 44,
        Flag::Arbitrary(_) => 45,
    }
}

fn flag_text(flag: &Flag) -> &str
    ensures { result.now ≡ flag_text flag.now }
{
    match flag {
        Flag::In(_, text) => text.as_str(),
        Flag::Contains(_, text) => text.as_str(),
        Flag::Extra(name) => name.as_str(),
        Flag::Arbitrary(text) => text.as_str(),
    }
}

/// Returns the rank of the variable's kind and key.
fn rank(end: End) -> u8
    ensures { result ≡ question_rank (question_of end.entry) }
{
    match end {
        End::Version(VersionVariable::ImplementationVersion, _) => 0,
        End::Version(VersionVariable::PythonFullVersion, _) => 1,
        End::Text(key, _) => 2 + text_rank(key),
        End::Flag(flag) => flag_rank(flag),
    }
}

/// Returns the text that the variable is about.
fn text<'a>(end: End<'a>) -> &'a str
    ensures { result.now ≡ question_text (question_of end.entry) }
{
    match end {
        End::Version(_, _) => "",
        End::Text(_, _) => "",
        End::Flag(flag) => flag_text(flag),
    }
}

fn version_bound<'a>(end: End<'a>) -> Option<&'a Boundary<Version>>
    ensures { option_to_list (option_copied result) ≡ version_boundaries (question_of end.entry) }
{
    match end {
        End::Version(_, boundary) => Some(boundary),
        _ => None,
    }
}

fn text_bound<'a>(end: End<'a>) -> Option<&'a Boundary<MarkerText>>
    ensures { option_to_list (option_copied result) ≡ text_boundaries (question_of end.entry) }
{
    match end {
        End::Text(_, boundary) => Some(boundary),
        _ => None,
    }
}

/// Compares endpoints; `None` comes before each.
fn cmp_bounds<T: Ord>(bound: Option<&Boundary<T>>, other: Option<&Boundary<T>>) -> Ordering
    ensures { result ≡ slice_cmp (boundary_cmp T.cmp)
        (option_to_list (option_copied bound.entry)) (option_to_list (option_copied other.entry)) }
{
    match (bound, other) {
        (None, None) => Ordering::Equal,
        (None, Some(_)) => Ordering::Less,
        (Some(_), None) => Ordering::Greater,
        (Some(bound), Some(other)) => bound.cmp(other),
    }
}

/// Compares questions.
#[tactic(auto, using(crate::proofs::Edges::question_order))]
fn cmp_questions(end: End, other: End) -> Ordering
    ensures { result ≡ question_cmp (question_of end.entry) (question_of other.entry) }
{
    rank(end)
        .cmp(&rank(other))
        .then(text(end).cmp(text(other)))
        .then(cmp_bounds(version_bound(end), version_bound(other)))
        .then(cmp_bounds(text_bound(end), text_bound(other)))
}

/// Compares ends; `None` comes last.
pub(crate) fn cmp_ends(end: Option<End>, other: Option<End>) -> Ordering
    ensures { result ≡ end_cmp (option_map question_of end.entry) (option_map question_of other.entry) }
{
    match (end, other) {
        (None, None) => Ordering::Equal,
        (None, Some(_)) => Ordering::Greater,
        (Some(_), None) => Ordering::Less,
        (Some(end), Some(other)) => cmp_questions(end, other),
    }
}

/// Returns the end of an edge at a tree's root, by the edge's place; the last edge has none.

pub(crate) fn end_at<'a>(tree: MarkerTree, interner: &'a Interner, index: usize) -> Option<End<'a>>
    requires { IsTree interner.now.nodes tree }
    ensures { option_map question_of result ≡ slice_get (ends_of (root_of interner.now.nodes tree)) index }
{
    match tree.node(interner) {
        TreeNode::Constant(_) => None,
        TreeNode::Versions(key, children) => match children.later.get(index) {
            Some(branch) => Some(End::Version(key, &branch.boundary)),
            None => None,
        },
        TreeNode::Texts(key, children) => match children.later.get(index) {
            Some(branch) => Some(End::Text(key, &branch.boundary)),
            None => None,
        },
        TreeNode::Flagged(flag, _, _) => {
            if index == 0 {
                Some(End::Flag(flag))
            } else {
                None
            }
        }
    }
}
