//! Keys of marker trees, as a trait of trees.
//!
//! A key is written from the diagram and not from the print, which leaves out a local part, an old name of
//! a key and what a quote hides, and can be exponentially longer. Numbers and texts within a key are those
//! of `pep440_key`, which end by themselves, so that nothing that follows can be read as a part of them; a
//! length in front would need a bound on lengths.

ghost use Rattle.std.specs.Prelude.{◌≡◌, IfOk};
ghost use Rattle.pep508_diagram.specs.Question.{IsCanonical};
ghost use Rattle.pep508_tree.specs.Tree.{Tree};
ghost use Rattle.pep508_tree.specs.Meaning.{IsTree, diagram_of};
ghost use Rattle.pep508_marker_key.specs.Key.{diagram_key};

use crate::key_walk::key_of_tree;
use pep508_tree::{Interner, MarkerTree};
use std::alloc::{AllocError, Global};

/// Marker trees that have a key, by which their meanings are compared.
pub trait MarkerTreeKey {
    ghost use Rattle.pep508_tree.specs.Tree.{Tree};

    /// The tree that a value is.
    ghost tree: { Self → Tree };

    /// Returns the key of the tree's meaning: the keys of two trees, of whatever interners and written
    /// however, are the same bytes exactly where the two hold under the same valuations (`laws::one_key`).
    /// So keys can be compared, hashed, sorted and kept in place of trees; their order means nothing more.
    ///
    /// Makes no tree and counts nothing; the only error is lack of memory.
    ///
    /// Writes each node of the tree once, and its number where it occurs again: O(n log n) in the nodes and
    /// endpoints of the tree, and linear in their texts and versions. No recursion, however deep it is.
    fn key(self, alloc: Global, interner: &Interner) -> Result<Vec<u8>, AllocError>
        requires { IsTree interner.now.nodes (tree self) }
        ensures key { IfOk result (λ key.
            key.items ≡ diagram_key (diagram_of interner.now.nodes (tree self))) }
        ensures canonical { IsCanonical (diagram_of interner.now.nodes (tree self)) };
}

impl MarkerTreeKey for MarkerTree {
    ghost tree = { λ tree. tree };

    #[tactic(auto, using(pep508_tree::proofs::OneTree::canonical_trees))]
    fn key(self, alloc: Global, interner: &Interner) -> Result<Vec<u8>, AllocError> {
        interner.are_sound();
        key_of_tree(alloc, interner, self)
    }
}
