//! Conjunction and disjunction of marker trees.

ghost use Rattle.std.specs.Prelude.{◌≡◌, ◌&&◌, ◌||◌, IfOk};
ghost use Rattle.pep508_diagram.specs.Question.{Valuation};
ghost use Rattle.pep508_tree.specs.Meaning.{IsTree, Extends, holds};
ghost use Rattle.pep508_tree.specs.Interning.{counted};

use crate::interner::Interner;
use crate::tree::MarkerTree;
use std::alloc::{AllocError, Global};

impl MarkerTree {
    /// Returns the tree that holds where both hold. The only error is lack of memory, and earlier trees
    /// keep their meaning, also after an error.
    ///
    /// Takes no more steps than the product of the numbers of the two trees' nodes, each as long as two
    /// nodes' endpoints. No recursion, however deep the trees are. Takes memory of `alloc` for lists that
    /// are dropped again, and of the interner's for nodes. Counts as one of the interner's conjunctions.
    ///
    /// # Errors
    ///
    /// `AllocError` when memory runs out.
    pub fn and(
        self,
        alloc: Global,
        interner: &mut Interner,
        other: MarkerTree,
    ) -> Result<MarkerTree, AllocError>
        requires made { IsTree interner.old.nodes self }
        requires other_made { IsTree interner.old.nodes other }
        ensures made { IfOk result (λ tree. IsTree interner.new.nodes tree) }
        ensures truth { IfOk result (λ tree. (v : Valuation) → holds interner.new.nodes tree v
            ≡ (holds interner.old.nodes self v && holds interner.old.nodes other v)) }
        ensures keeps { Extends interner.old.nodes interner.new.nodes }
        ensures counts { interner.new.conjunctions ≡ counted interner.old.conjunctions }
    {
        interner.conjoined(alloc, self, other)
    }

    /// Returns the tree that holds where either holds. Errors, cost and count are those of `and`.
    ///
    /// # Errors
    ///
    /// `AllocError` when memory runs out.
    pub fn or(
        self,
        alloc: Global,
        interner: &mut Interner,
        other: MarkerTree,
    ) -> Result<MarkerTree, AllocError>
        requires made { IsTree interner.old.nodes self }
        requires other_made { IsTree interner.old.nodes other }
        ensures made { IfOk result (λ tree. IsTree interner.new.nodes tree) }
        ensures truth { IfOk result (λ tree. (v : Valuation) → holds interner.new.nodes tree v
            ≡ (holds interner.old.nodes self v || holds interner.old.nodes other v)) }
        ensures keeps { Extends interner.old.nodes interner.new.nodes }
        ensures counts { interner.new.conjunctions ≡ counted interner.old.conjunctions }
    {
        let neither = interner.conjoined(alloc, self.negate(), other.negate())?;
        Ok(neither.negate())
    }
}
