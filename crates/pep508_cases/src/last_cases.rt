//! The cases that were found last.
//!
//! Packages often have lines with the same markers, and so the same cases. These are found once where one
//! such package comes after the other.

ghost use Rattle.std.specs.Prelude.{◌≡◌, ◌≤◌, ◌+◌, ◌*◌, List, length, IfErr, IsTrue, OnOk};
ghost use Rattle.std.specs.List.{AllByRecursion};
ghost use Rattle.pep508_tree.specs.Meaning.{NodeRecord, IsTree, Extends};
ghost use Rattle.pep508_cases.specs.Cases.{marks_of, AreCases, HasMore};
ghost use Rattle.pep508_cases.specs.Last.{IsLast, IsOf};
ghost use Rattle.pep508_cases.specs.Seen.{cases_seen};

use crate::cases::{CasesError, TreeCase, tree_cases};
use pep508_tree::{Interner, MarkerTree};
use std::alloc::Global;

/// The trees for which cases were found last, with these cases; or nothing.
#[derive(Drop)]
pub struct LastCases {
    trees: Vec<MarkerTree>,
    cases: Vec<TreeCase>,
}

impl LastCases {
    /// Returns nothing that was found. Takes no memory.
    pub fn new(alloc: Global) -> LastCases
        ensures { (nodes : List NodeRecord) → IsLast nodes result }
    {
        LastCases {
            trees: Vec::new(alloc),
            cases: Vec::new(alloc),
        }
    }

    /// Returns the cases that were found last.
    pub fn cases(&self) -> &[TreeCase]
        ensures { result.now ≡ self.now.cases.items }
    {
        &self.cases
    }

    /// Finds the cases of some trees, as `tree_cases` does. Where these are the trees of the last call, with
    /// no more cases than the limit, that takes the time to compare them.
    ///
    /// # Errors
    /// Those of `tree_cases`.
    pub fn find(
        &mut self,
        alloc: Global,
        interner: &mut Interner,
        trees: Vec<MarkerTree>,
        limit: u64,
    ) -> Result<(), CasesError>
        requires trees { AllByRecursion (IsTree interner.old.nodes) trees.items }
        requires last { IsLast interner.old.nodes self.old }
        ensures cases { OnOk result (AreCases (marks_of interner.old.nodes trees.items) interner.new.nodes
            (cases_seen self.new.cases.items)) }
        ensures few { OnOk result (length self.new.cases.items ≤ limit) }
        ensures many { IfErr result (λ error. error ≡ CasesError.TooMany →
            HasMore limit (marks_of interner.old.nodes trees.items)) }
        ensures last { IsLast interner.new.nodes self.new }
        ensures keeps { Extends interner.old.nodes interner.new.nodes }
        ensures counts { interner.new.conjunctions
            ≤ interner.old.conjunctions + 2 * (length trees.items * limit) }
    {
        if self.has(&trees, limit) {
            return Ok(());
        }
        match tree_cases(alloc, interner, &trees, limit) {
            Ok(cases) => {
                self.trees = trees;
                self.cases = cases;
                Ok(())
            }
            Err(error) => Err(error),
        }
    }

    /// Returns whether the cases of these trees were found last, and are no more than the limit.
    fn has(&self, trees: &Vec<MarkerTree>, limit: u64) -> bool
        ensures { IsTrue result → IsOf self.now trees.now.items limit }
    {
        let count = self.cases.len() as u64;
        if count == 0 || count > limit {
            return false;
        }
        self.trees == *trees
    }
}
