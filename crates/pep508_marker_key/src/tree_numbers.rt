//! Numbers of the trees that were written.

ghost use Rattle.std.specs.Prelude.{◌≡◌, [], ◌∷◌, ◌++◌, OnOk, None};
ghost use Rattle.pep508_marker_key.specs.Numbering.{AreNumbers, number_in};

use pep508_tree::MarkerTree;
use std::alloc::{AllocError, Global};
use std::collections::BTreeMap;

/// Trees in the order in which they were numbered, from 0 on, and the number of each.
#[derive(Drop)]
pub(crate) struct Numbers {
    trees: Vec<MarkerTree>,
    places: BTreeMap<(usize, bool), u64>,
}

impl Numbers {
    /// Returns numbers of no tree.
    pub fn new(alloc: Global) -> Numbers
        ensures none { result.trees.items ≡ [] }
        ensures numbers { AreNumbers result.trees.items result.places }
    {
        Numbers {
            trees: Vec::new(alloc),
            places: BTreeMap::new(alloc),
        }
    }

    /// Returns the number of a tree, if it has one.
    pub fn number_of(&self, tree: MarkerTree) -> Option<u64>
        requires { AreNumbers self.now.trees.items self.now.places }
        ensures { result ≡ number_in 0 None self.now.trees.items (tree.place, tree.negated) }
    {
        self.places.get(&(tree.place(), tree.is_negated())).copied()
    }

    /// Gives the tree the next number.
    ///
    /// # Errors
    ///
    /// `AllocError` when memory runs out.
    pub fn add(&mut self, tree: MarkerTree) -> Result<(), AllocError>
        requires { AreNumbers self.old.trees.items self.old.places }
        ensures numbers { OnOk result (AreNumbers self.new.trees.items self.new.places) }
        ensures last { OnOk result (self.new.trees.items ≡ self.old.trees.items ++ tree ∷ []) }
    {
        let number = self.trees.len() as u64;
        self.places
            .insert((tree.place(), tree.is_negated()), number)?;
        self.trees.push(tree)?;
        Ok(())
    }
}
