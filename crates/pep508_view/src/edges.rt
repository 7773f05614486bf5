//! The edges of a node, as iterators.

ghost use Rattle.std.specs.Prelude.{◌≡◌, ◌<◌, ◌+◌, ◌^◌, length, ◌∷◌, Some};
ghost use Rattle.std.specs.Iterator.{at_most};
ghost use Rattle.std.specs.Map.Iter.{TakesFirst};
ghost use Rattle.std.specs.Range.Bound.{bound_map};
ghost use Rattle.std.specs.declared.ops.Bound.{Bound};
ghost use Rattle.pep508_tree.specs.Tree.{Tree};
ghost use Rattle.pep508_tree.specs.Nodes.{turned};
ghost use Rattle.pep508_view.specs.Edges.{edges, edges_from, turned_branches, lent_edge, edges_left};

use crate::edge::Edge;
use pep508_diagram::{Branch, MarkerText};
use pep508_tree::MarkerTree;
use std::marker::Model;
use std::ops::Bound;

/// The lower bound of the next edge, and its subtree.
type Start<'a, T> = Option<(Bound<&'a T>, MarkerTree)>;

/// An iterator over the remaining edges of a node, upwards. It takes no memory.
#[derive(Drop)]
pub struct Edges<'a, T> {
    start: Start<'a, T>,
    later: &'a [Branch<T, MarkerTree>],
    negated: bool,
}

impl<'a, T> Model for Edges<'a, T> {
    ghost use Rattle.std.specs.Prelude.{List, length, ◌<◌, ◌^◌, ◌+◌};
    ghost use Rattle.pep508_view.specs.Edges.{EdgeOf, edges_left, turned_branches};

    ghost Value = { List (EdgeOf T) };

    ghost view = { λ iter. edges_left iter.start (turned_branches iter.negated iter.later.now) };

    ghost invariant = { λ iter. length iter.later.now + 1 < 2 ^ 64 };
}

/// Returns the tree, negated where `negated`.
fn signed(tree: MarkerTree, negated: bool) -> MarkerTree
    ensures { result ≡ turned negated tree }
{
    if negated { tree.negate() } else { tree }
}

/// Returns the upper bound of an edge that has begun, the start of the next one, and the branches after it.
fn split_upper<T>(
    later: &[Branch<T, MarkerTree>],
    negated: bool,
) -> (Bound<&T>, Start<'_, T>, &[Branch<T, MarkerTree>])
    ensures { (lower : Bound T) (tree : Tree) → edges_from lower tree (turned_branches negated later.now)
        ≡ record { lower = lower; upper = bound_map (λ v. v.now) result.0; tree = tree }
        ∷ edges_left result.1 (turned_branches negated result.2.now) }
{
    match later.split_first() {
        None => (Bound::Unbounded, None, later),
        Some((branch, left)) => (
            branch.boundary.as_upper_bound(),
            Some((
                branch.boundary.as_lower_bound(),
                signed(branch.child, negated),
            )),
            left,
        ),
    }
}

impl<'a, T> Edges<'a, T> {
    /// Returns the edges of a first tree and of branches, all negated where `negated`.
    #[tactic(auto, using(crate::proofs::Counting::count_edges))]
    pub(crate) fn new(
        first: MarkerTree,
        later: &'a [Branch<T, MarkerTree>],
        negated: bool,
    ) -> Edges<'a, T>
        requires { length later.now + 1 < 2 ^ 64 }
        ensures edges { result ≡ edges (turned negated first) (turned_branches negated later.now) }
        ensures fits { length result < 2 ^ 64 }
    {
        Edges {
            start: Some((Bound::Unbounded, signed(first, negated))),
            later,
            negated,
        }
    }
}

impl<'a, T> Iterator for Edges<'a, T> {
    type Item = Edge<&'a T>;

    ghost next_gives = { TakesFirst lent_edge };

    ghost remaining = { λ left. at_most (length left) };

    fn next(&mut self) -> Option<Edge<&'a T>> {
        match self.start {
            None => None,
            Some((lower, tree)) => {
                let (upper, start, later) = split_upper(self.later, self.negated);
                self.start = start;
                self.later = later;
                Some(Edge { lower, upper, tree })
            }
        }
    }

    #[tactic(auto, using(crate::proofs::Counting::count_edges))]
    fn size_hint(&self) -> (usize, Option<usize>) {
        let left = match self.start {
            None => 0,
            Some(_) => self.later.len() + 1,
        };
        (left, Some(left))
    }
}

/// An iterator over the remaining edges of a node of texts, upwards by the texts' bytes. It takes no
/// memory.
#[derive(Drop)]
pub struct TextEdges<'a> {
    edges: Edges<'a, MarkerText>,
}

impl<'a> Model for TextEdges<'a> {
    ghost use Rattle.std.specs.Prelude.{List, ℕ};
    ghost use Rattle.pep508_view.specs.Edges.{EdgeOf};

    ghost Value = { List (EdgeOf (List ℕ)) };

    ghost view = { λ iter. iter.edges };
}

/// Returns the bound as one of a `&str`.
fn text_bound(bound: Bound<&MarkerText>) -> Bound<&str>
    ensures { bound_map (λ v. v.now) result ≡ bound_map (λ v. v.now) bound.entry }
{
    match bound {
        Bound::Included(text) => Bound::Included(text.as_str()),
        Bound::Excluded(text) => Bound::Excluded(text.as_str()),
        Bound::Unbounded => Bound::Unbounded,
    }
}

impl<'a> TextEdges<'a> {
    pub(crate) fn new(edges: Edges<'a, MarkerText>) -> TextEdges<'a>
        ensures { result ≡ edges.entry }
    {
        TextEdges { edges }
    }
}

impl<'a> Iterator for TextEdges<'a> {
    type Item = Edge<&'a str>;

    ghost next_gives = { TakesFirst lent_edge };

    ghost remaining = { λ left. at_most (length left) };

    fn next(&mut self) -> Option<Edge<&'a str>> {
        match self.edges.next() {
            None => None,
            Some(edge) => Some(Edge {
                lower: text_bound(edge.lower),
                upper: text_bound(edge.upper),
                tree: edge.tree,
            }),
        }
    }

    fn size_hint(&self) -> (usize, Option<usize>) {
        self.edges.size_hint()
    }
}
