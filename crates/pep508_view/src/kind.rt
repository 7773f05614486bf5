//! The first test of a marker tree.
//!
//! `kind` is a method of a trait, as on a type of another crate it has to be; the trait's ghost member
//! `named` says which tree a value names.

ghost use Rattle.std.specs.Prelude.{◌≡◌, IfSome, Some};
ghost use Rattle.pep508_tree.specs.Tree.{Tree};
ghost use Rattle.pep508_tree.specs.Meaning.{IsTree, Flagged};
ghost use Rattle.pep508_tree.specs.Roots.{root_of, IsRoot};
ghost use Rattle.pep508_view.specs.Views.{IsKind, viewed};

use crate::extra_view::{ExtraMarkerTree, MarkerExtra};
use crate::occurrence_view::{ContainsMarkerTree, InMarkerTree, OccurrenceMarkerTree};
use crate::text_view::StringMarkerTree;
use crate::version_view::VersionMarkerTree;
use pep508_diagram::Flag;
use pep508_tree::{Interner, MarkerTree, TreeNode};

/// The first test of a marker tree, and the subtree for each result. Where nothing is tested, the tree is
/// constant.
#[derive(Clone, Copy, PartialEq, Eq)]
pub enum MarkerTreeKind<'a> {
    /// The tree always holds.
    True,
    /// The tree never holds.
    False,
    /// Between which versions a key's version lies.
    Version(VersionMarkerTree<'a>),
    /// Between which texts a key's text lies.
    String(StringMarkerTree<'a>),
    /// Whether a key's text occurs in a text.
    In(InMarkerTree<'a>),
    /// Whether a text occurs in a key's text.
    Contains(ContainsMarkerTree<'a>),
    /// Whether an extra is requested.
    Extra(ExtraMarkerTree<'a>),
}

/// Returns the kind of a tree that first tests a flag.
fn flagged<'a>(
    tree: MarkerTree,
    flag: &'a Flag,
    set: MarkerTree,
    unset: MarkerTree,
) -> MarkerTreeKind<'a>
    ensures { viewed result ≡ Some (tree, Flagged flag.now set unset) }
{
    match flag {
        Flag::In(key, text) => {
            MarkerTreeKind::In(OccurrenceMarkerTree::new(tree, *key, text, set, unset))
        }
        Flag::Contains(key, text) => {
            MarkerTreeKind::Contains(OccurrenceMarkerTree::new(tree, *key, text, set, unset))
        }
        Flag::Extra(name) => {
            MarkerTreeKind::Extra(ExtraMarkerTree::new(tree, MarkerExtra::Extra(name), set, unset))
        }
        Flag::Arbitrary(text) => MarkerTreeKind::Extra(ExtraMarkerTree::new(
            tree,
            MarkerExtra::Arbitrary(text.as_str()),
            set,
            unset,
        )),
    }
}

/// Trees that can be viewed.
pub trait MarkerTreeView {
    ghost use Rattle.pep508_tree.specs.Tree.{Tree};

    /// The tree that a value is.
    ghost named: { Self → Tree };

    /// Returns the first test of the tree, and the subtree for each result, borrowed from the interner that
    /// the tree was made with. Takes no memory and constant time.
    fn kind<'a>(self, interner: &'a Interner) -> MarkerTreeKind<'a>
        requires { IsTree interner.now.nodes (named self) }
        ensures kind { IsKind interner.now.nodes (named self) result }
        ensures root { IfSome (root_of interner.now.nodes (named self))
            (IsRoot interner.now.nodes (named self)) };
}

impl MarkerTreeView for MarkerTree {
    ghost named = { λ tree. tree };

    fn kind<'a>(self, interner: &'a Interner) -> MarkerTreeKind<'a> {
        match self.node(interner) {
            TreeNode::Constant(true) => MarkerTreeKind::True,
            TreeNode::Constant(false) => MarkerTreeKind::False,
            TreeNode::Versions(variable, children) => {
                MarkerTreeKind::Version(VersionMarkerTree::new(
                    self,
                    variable,
                    children.first,
                    children.later,
                    children.negated,
                ))
            }
            TreeNode::Texts(key, children) => {
                MarkerTreeKind::String(StringMarkerTree::new(
                    self,
                    key,
                    children.first,
                    children.later,
                    children.negated,
                ))
            }
            TreeNode::Flagged(flag, set, unset) => flagged(self, flag, set, unset),
        }
    }
}
