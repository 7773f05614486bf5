//! Marker trees that do not always hold.
//!
//! `contents` is given the interner because its contract says when there are none by what the tree means.

ghost use Rattle.std.specs.Prelude.{◌≡◌, ◌≢◌, ◌↔◌, true, IsNone, unwrap_or};
ghost use Rattle.pep508_diagram.specs.Question.{Valuation};
ghost use Rattle.pep508_tree.specs.Tree.{Tree, always};
ghost use Rattle.pep508_tree.specs.Meaning.{IsTree, holds};

use pep508_tree::{Interner, MarkerTree};
use pep508_tree_laws::constants_are_named;
use std::marker::Model;

/// A marker tree that doesn't always hold, and so has a text. Its model in contracts is the tree.
#[derive(Clone, Copy, Debug, PartialEq, Eq, Hash)]
pub struct MarkerTreeContents {
    tree: MarkerTree,
}

impl Model for MarkerTreeContents {
    ghost use Rattle.std.specs.Prelude.{◌≢◌};
    ghost use Rattle.pep508_tree.specs.Tree.{Tree, always};

    ghost Value = { Tree };

    ghost view = { λ c. c.tree };

    ghost inverse = { λ c. record { tree = c } };

    ghost invariant = { λ c. c.tree ≢ always };
}

impl MarkerTreeContents {
    /// Returns the tree, borrowed.
    pub fn as_tree(&self) -> &MarkerTree
        ensures tree { result.now ≡ self.now }
        ensures contents { result.now ≢ always }
    {
        &self.tree
    }

    /// Returns the tree.
    pub fn into_tree(self) -> MarkerTree
        ensures tree { result ≡ self }
        ensures contents { result ≢ always }
    {
        self.tree
    }
}

/// Trees that have contents, or always hold.
pub trait MarkerTreeWithContents {
    ghost use Rattle.pep508_tree.specs.Tree.{Tree};

    /// The tree that a value is.
    ghost named: { Self → Tree };

    /// Returns the tree's contents; `None` where it holds whatever the environment and the extras are.
    /// Takes no memory.
    fn contents(self, interner: &Interner) -> Option<MarkerTreeContents>
        requires { IsTree interner.now.nodes (named self) }
        ensures tree { unwrap_or result always ≡ named self }
        ensures none { IsNone result
            ↔ ((v : Valuation) → holds interner.now.nodes (named self) v ≡ true) };

    /// Returns the tree of these contents; the tree that always holds for `None`. Takes no memory.
    fn from_contents(contents: Option<MarkerTreeContents>) -> Self
        ensures { named result ≡ unwrap_or contents always };
}

impl MarkerTreeWithContents for MarkerTree {
    ghost named = { λ tree. tree };

    fn contents(self, interner: &Interner) -> Option<MarkerTreeContents> {
        constants_are_named(interner);
        if self.is_true() {
            return None;
        }
        Some(MarkerTreeContents { tree: self })
    }

    fn from_contents(contents: Option<MarkerTreeContents>) -> MarkerTree {
        match contents {
            None => MarkerTree::TRUE,
            Some(contents) => contents.tree,
        }
    }
}
