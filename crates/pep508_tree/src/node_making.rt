//! Making a tree of a variable and its children.
//!
//! These calls require that the given trees test later variables only. A crate above rebuilds a tree with
//! them: it copies a node, changes what is in it and merges neighbours. The memo of such a walk is by the
//! places of plain trees, so that a tree and its negation are one entry; that is why `place` and
//! `is_negated` are public.

ghost use Rattle.std.specs.Prelude.{◌≡◌, [], ◌∷◌, IfOk};
ghost use Rattle.pep440_version.specs.Order.{version_cmp};
ghost use Rattle.pep508_diagram.specs.Text.{text_cmp};
ghost use Rattle.pep508_diagram.specs.Branches.{RisingBranches, AllBranches, NeighboursDiffer};
ghost use Rattle.pep508_diagram.specs.Question.{version_rank, text_rank, flag_place};
ghost use Rattle.pep508_tree.specs.Meaning.{Versions, Texts, Flagged, IsTree, Extends};
ghost use Rattle.pep508_tree.specs.Nodes.{Above, Made};

use crate::interner::Interner;
use crate::node::Form;
use crate::tree::MarkerTree;
use pep440_version::Version;
use pep508_diagram::{Branch, Flag, MarkerText, VersionVariable};
use pep508_marker::MarkerValueString;
use std::alloc::AllocError;

impl Interner {
    /// Returns the tree that tests a key's version first, where rising endpoints have different trees on
    /// both sides; these trees test later variables. The only error is lack of memory. Counts nothing.
    ///
    /// Looks the node up among all others, and keeps it where it is new.
    ///
    /// # Errors
    ///
    /// `AllocError` when memory runs out.
    pub fn versions_node(
        &mut self,
        key: VersionVariable,
        first: MarkerTree,
        later: Vec<Branch<Version, MarkerTree>>,
    ) -> Result<MarkerTree, AllocError>
        requires made { AllBranches (IsTree self.old.nodes) first later.items }
        requires above { AllBranches (Above self.old.nodes (version_rank key ∷ [])) first later.items }
        requires rises { RisingBranches version_cmp later.items }
        requires differ { NeighboursDiffer first later.items }
        ensures made { IfOk result (Made self.old.nodes self.new.nodes (Versions key first later.items)) }
        ensures keeps { Extends self.old.nodes self.new.nodes }
        ensures counts { self.new.conjunctions ≡ self.old.conjunctions }
    {
        self.stored(Form::Versions(key, first, later))
    }

    /// Returns the tree that tests a key's text first; for the rest see `versions_node`.
    ///
    /// # Errors
    ///
    /// `AllocError` when memory runs out.
    pub fn texts_node(
        &mut self,
        key: MarkerValueString,
        first: MarkerTree,
        later: Vec<Branch<MarkerText, MarkerTree>>,
    ) -> Result<MarkerTree, AllocError>
        requires made { AllBranches (IsTree self.old.nodes) first later.items }
        requires above { AllBranches (Above self.old.nodes (text_rank key ∷ [])) first later.items }
        requires rises { RisingBranches text_cmp later.items }
        requires differ { NeighboursDiffer first later.items }
        ensures made { IfOk result (Made self.old.nodes self.new.nodes (Texts key first later.items)) }
        ensures keeps { Extends self.old.nodes self.new.nodes }
        ensures counts { self.new.conjunctions ≡ self.old.conjunctions }
    {
        self.stored(Form::Texts(key, first, later))
    }

    /// Returns the tree that tests a flag first, with the trees where it is set and where it is not; for
    /// the rest see `versions_node`.
    ///
    /// # Errors
    ///
    /// `AllocError` when memory runs out.
    pub fn flag_node(
        &mut self,
        flag: Flag,
        set: MarkerTree,
        unset: MarkerTree,
    ) -> Result<MarkerTree, AllocError>
        requires set_made { IsTree self.old.nodes set }
        requires unset_made { IsTree self.old.nodes unset }
        requires set_above { Above self.old.nodes (flag_place flag) set }
        requires unset_above { Above self.old.nodes (flag_place flag) unset }
        ensures made { IfOk result (Made self.old.nodes self.new.nodes (Flagged flag set unset)) }
        ensures keeps { Extends self.old.nodes self.new.nodes }
        ensures counts { self.new.conjunctions ≡ self.old.conjunctions }
    {
        self.stored(Form::Flagged(flag, set, unset))
    }
}
