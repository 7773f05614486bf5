//! The root of a marker tree.
//!
//! A node is borrowed as it is stored, with the tree's sign next to it: what stands between boundaries is a
//! slice that no call copies, so `TreeNode` has the sign as a field and applies it only to the two children
//! of a flag.

ghost use Rattle.std.specs.Prelude.{◌≡◌, IfSome};
ghost use Rattle.pep508_tree.specs.Meaning.{IsTree};
ghost use Rattle.pep508_tree.specs.Roots.{root_of, shown, IfConstant, IsConstant, IsRoot};

use crate::interner::Interner;
use crate::tree::MarkerTree;
use pep440_version::Version;
use pep508_diagram::{Branch, Flag, MarkerText, VersionVariable};
use pep508_marker::MarkerValueString;
use std::alloc::AllocError;

/// The children of a node between the endpoints of a key, the first below them all. Where `negated`, the
/// tree's children are the negations of these.
pub struct Children<'a, T> {
    pub first: MarkerTree,
    pub later: &'a [Branch<T, MarkerTree>],
    pub negated: bool,
}

impl<'a, T> Clone for Children<'a, T> {
    ghost is_clone = { λ children copy. copy ≡ children };

    ghost is_infallible = { λ _. Unit {0} };

    fn clone(&self) -> Result<Children<'a, T>, AllocError> {
        Ok(Children {
            first: self.first,
            later: self.later,
            negated: self.negated,
        })
    }
}

impl<'a, T> Copy for Children<'a, T> {}

/// The variable that a tree tests first, and the child for each of its values.
#[derive(Clone, Copy)]
pub enum TreeNode<'a> {
    /// The tree always holds, or never.
    Constant(bool),
    /// The children between versions of a key.
    Versions(VersionVariable, Children<'a, Version>),
    /// The children between texts of a key.
    Texts(MarkerValueString, Children<'a, MarkerText>),
    /// The children where a flag is set, and where it is not. The tree's negation is applied to both.
    Flagged(&'a Flag, MarkerTree, MarkerTree),
}

impl MarkerTree {
    /// Returns the root of the tree, borrowed from the interner. Takes no memory and constant time.
    pub fn node<'a>(self, interner: &'a Interner) -> TreeNode<'a>
        requires { IsTree interner.now.nodes self }
        ensures shows { shown result ≡ root_of interner.now.nodes self }
        ensures constant { IfConstant result (IsConstant interner.now.nodes self) }
        ensures root { IfSome (shown result) (IsRoot interner.now.nodes self) }
    {
        if self.place() == 0 {
            return TreeNode::Constant(!self.is_negated());
        }
        interner.node_of(self).lent(self.is_negated())
    }
}
