//! Marker trees, by their places in an interner.
//!
//! A tree has a model and its constants have none, since a clause cannot name a constant of such a type:
//! `pep508_tree_laws::constants` says what they are.

ghost use Rattle.std.specs.Prelude.{◌≡◌, ◌↔◌, IsTrue};
ghost use Rattle.pep508_tree.specs.Tree.{Tree, always, never, negation};
ghost use Rattle.pep508_tree.specs.Nodes.{turned, tree_cmp};

use std::cmp::Ordering;
use std::marker::Model;

/// A marker tree of an interner: for which environments and extras a requirement applies (PEP 508,
/// "Environment Markers").
///
/// Two trees of one interner are equal exactly where their places and negations are.
#[derive(Clone, Copy, Debug, PartialEq, Eq, Hash)]
pub struct MarkerTree {
    place: usize,
    negated: bool,
}

impl Model for MarkerTree {
    ghost use Rattle.pep508_tree.specs.Tree.{Tree};

    ghost Value = { Tree };

    ghost view = { λ t. record { place = t.place; negated = t.negated } };

    ghost inverse = { λ t. record { place = t.place; negated = t.negated } };
}

impl MarkerTree {
    /// The tree that always holds.
    pub const TRUE: MarkerTree = MarkerTree {
        place: 0,
        negated: false,
    };

    /// The tree that never holds.
    pub const FALSE: MarkerTree = MarkerTree {
        place: 0,
        negated: true,
    };

    /// Returns the tree that holds exactly where this one does not. Takes no memory and no interner.
    pub fn negate(self) -> MarkerTree
        ensures { result ≡ negation self }
    {
        MarkerTree {
            place: self.place,
            negated: !self.negated,
        }
    }

    /// Returns the tree at a place of an interner.
    pub(crate) fn at_place(place: usize, negated: bool) -> MarkerTree
        ensures { result ≡ record { place = place; negated = negated } }
    {
        MarkerTree { place, negated }
    }

    /// Returns the place of the tree's diagram in its interner, which is that of its negation too.
    pub fn place(self) -> usize
        ensures { result ≡ self.place }
    {
        self.place
    }

    /// Returns whether the leaves of that diagram are negated.
    pub fn is_negated(self) -> bool
        ensures { result ≡ self.negated }
    {
        self.negated
    }

    /// Returns the negation of the tree if `turns`, otherwise the tree.
    pub fn turned(self, turns: bool) -> MarkerTree
        ensures { result ≡ turned turns self }
    {
        MarkerTree {
            place: self.place,
            negated: if turns { !self.negated } else { self.negated },
        }
    }

    /// Compares trees by when they were made, a tree before its negation. It is not an order of meanings.
    pub fn cmp_places(self, other: MarkerTree) -> Ordering
        ensures { result ≡ tree_cmp self other }
    {
        match self.place.cmp(&other.place) {
            Ordering::Less => Ordering::Less,
            Ordering::Equal => self.negated.cmp(&other.negated),
            Ordering::Greater => Ordering::Greater,
        }
    }

    /// Returns whether this is the tree that always holds.
    pub fn is_true(self) -> bool
        ensures { IsTrue result ↔ (self ≡ always) }
    {
        self.place == 0 && !self.negated
    }

    /// Returns whether this is the tree that never holds.
    pub fn is_false(self) -> bool
        ensures { IsTrue result ↔ (self ≡ never) }
    {
        self.place == 0 && self.negated
    }
}

impl Default for MarkerTree {
    ghost is_default = { λ tree. tree ≡ always };

    fn default() -> MarkerTree {
        MarkerTree::TRUE
    }
}
