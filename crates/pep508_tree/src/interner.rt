//! The interner, which makes and keeps marker trees.
//!
//! Conjunctions are remembered until the caller drops them (`forget_conjunctions`): remembering makes it
//! fast to read many lines with one marker, and no limit suits both that and thousands of lines that share
//! nothing.
//!
//! `uncounted_conjunction` is a function and no method: reading a marker makes many conjunctions that its
//! caller did not ask for. As a method of `Interner` it would let a crate above meet any bound on
//! `conjunctions` by not counting, so `pep508_rs` does not re-export it, and `gate/lent.py` sees that only
//! three crates name it.
//!
//! `are_sound` does nothing: the invariant of a model is known only where the fields are visible, and laws
//! in other crates need it.

ghost use Rattle.std.specs.Prelude.{◌≡◌, ◌<◌, ◌-◌, [], ◌&&◌, length, IfOk};
ghost use Rattle.pep508_diagram.specs.Question.{Valuation};
ghost use Rattle.pep508_tree.specs.Meaning.{IsTree, Extends, holds};
ghost use Rattle.pep508_tree.specs.Interning.{counted};
ghost use Rattle.pep508_tree.specs.Forms.{record_of};
ghost use Rattle.pep508_tree.specs.Nodes.{AreSound, IsRising, IsJoined, chosen, node_at, Above};
ghost use Rattle.pep508_tree.specs.Nodes.{AllChildren, Made, node_place};

use crate::conjunction_walk::conjunction;
use crate::leaf::with_constants;
use crate::node::{Form, Node};
use crate::table::NodeTable;
use crate::{MarkerTree, TreePair};
use std::alloc::{AllocError, Global};
use std::collections::BTreeMap;
use std::marker::Model;

/// Makes marker trees, and keeps their nodes, in memory of the allocator that it was made with.
///
/// The constant trees belong to every interner. Nodes are only added, so a tree keeps its meaning.
#[derive(Drop)]
pub struct Interner {
    table: NodeTable,
    known: BTreeMap<TreePair, MarkerTree>,
    conjunctions: u64,
}

impl Model for Interner {
    ghost use Rattle.pep508_tree.specs.Interning.{InternerRecord};
    ghost use Rattle.pep508_tree.specs.Known.{AreKnown};

    ghost Value = { InternerRecord };

    ghost view = { λ interner. record { nodes = interner.table; conjunctions = interner.conjunctions } };

    ghost invariant = { λ interner. AreKnown interner.table interner.known };
}

impl Interner {
    /// Returns an interner of the constant trees alone. Takes no memory.
    pub fn new(alloc: Global) -> Interner
        ensures nodes { result.nodes ≡ [] }
        ensures conjunctions { result.conjunctions ≡ 0 }
    {
        Interner::with_most(alloc, usize::MAX)
    }

    /// Returns an interner of the constant trees alone, which makes no more nodes once it has more than
    /// `most`: calls then answer `AllocError`. `node_count` tells this from memory that ran out. Takes no
    /// memory.
    pub fn with_most(alloc: Global, most: usize) -> Interner
        ensures nodes { result.nodes ≡ [] }
        ensures conjunctions { result.conjunctions ≡ 0 }
    {
        Interner {
            table: NodeTable::new(alloc, most),
            known: BTreeMap::new(alloc),
            conjunctions: 0,
        }
    }

    /// Returns the number of nodes, each of which stands for a tree that is not constant and for its
    /// negation.
    pub fn node_count(&self) -> usize
        ensures { result ≡ length self.now.nodes }
    {
        self.table.len()
    }

    /// Returns how often `and` and `or` were called with this interner, failed calls among them. Stops at
    /// `u64::MAX`.
    pub fn conjunctions(&self) -> u64
        ensures { result ≡ self.now.conjunctions }
    {
        self.conjunctions
    }

    /// Drops the remembered conjunctions, by which one that is made again is found at once. Trees, their
    /// nodes and the count stay.
    ///
    /// The remembered conjunctions grow with each pair of nodes that conjunctions look at, and are mostly
    /// more than the nodes; otherwise they are dropped with the interner.
    pub fn forget_conjunctions(&mut self)
        ensures { self.new ≡ self.old }
    {
        self.known = BTreeMap::new(self.table.allocator());
    }

    /// Shows that the nodes are sound. Does nothing.
    pub fn are_sound(&self)
        ensures { AreSound self.now.nodes }
    {
        self.table.are_sound()
    }

    /// Returns the conjunction, counted.
    pub(crate) fn conjoined(
        &mut self,
        alloc: Global,
        a: MarkerTree,
        b: MarkerTree,
    ) -> Result<MarkerTree, AllocError>
        requires a { IsTree self.old.nodes a }
        requires b { IsTree self.old.nodes b }
        ensures made { IfOk result (λ tree. IsTree self.new.nodes tree) }
        ensures truth { IfOk result (λ tree. (v : Valuation) →
            holds self.new.nodes tree v ≡ (holds self.old.nodes a v && holds self.old.nodes b v)) }
        ensures keeps { Extends self.old.nodes self.new.nodes }
        ensures counts { self.new.conjunctions ≡ counted self.old.conjunctions }
    {
        self.conjunctions = self.conjunctions.saturating_add(1);
        uncounted_conjunction(alloc, self, a, b)
    }

    /// Returns the tree of one node whose children are constants. Counts nothing.
    pub(crate) fn leaf(&mut self, alloc: Global, form: Form<bool>) -> Result<MarkerTree, AllocError>
        requires rises { IsRising (record_of form) }
        requires joined { IsJoined (record_of form) }
        ensures made { IfOk result (λ tree. IsTree self.new.nodes tree) }
        ensures truth { IfOk result (λ tree. (v : Valuation) →
            holds self.new.nodes tree v ≡ chosen (record_of form) v) }
        ensures keeps { Extends self.old.nodes self.new.nodes }
        ensures counts { self.new.conjunctions ≡ self.old.conjunctions }
    {
        let form = with_constants(alloc, form)?;
        self.stored(form)
    }

    /// Returns the tree of a form whose children test later variables only. Counts nothing.
    pub(crate) fn stored(&mut self, form: Form<MarkerTree>) -> Result<MarkerTree, AllocError>
        requires made { AllChildren (IsTree self.old.nodes) (record_of form) }
        requires above { AllChildren (Above self.old.nodes (node_place (record_of form))) (record_of form) }
        requires rises { IsRising (record_of form) }
        requires joined { IsJoined (record_of form) }
        ensures made { IfOk result (λ tree. Made self.old.nodes self.new.nodes (record_of form) tree) }
        ensures keeps { Extends self.old.nodes self.new.nodes }
        ensures counts { self.new.conjunctions ≡ self.old.conjunctions }
    {
        self.table.store(form)
    }

    /// Returns the node of a tree that is not constant.
    pub(crate) fn node_of(&self, tree: MarkerTree) -> &Node
        requires made { IsTree self.now.nodes tree }
        requires some { 0 < tree.place }
        ensures found { result.now ≡ node_at self.now.nodes (tree.place - 1) }
        ensures sound { AreSound self.now.nodes }
    {
        self.table.node_of(tree)
    }
}

/// Returns the tree that holds where both hold. Counts nothing; errors and cost are those of
/// `MarkerTree::and`.
///
/// It is for the crates that make trees of texts and of requirements. `pep508_rs` doesn't re-export it, and
/// a function that promises a number of conjunctions must not call it.
///
/// # Errors
///
/// `AllocError` when memory runs out.
pub fn uncounted_conjunction(
    alloc: Global,
    interner: &mut Interner,
    a: MarkerTree,
    b: MarkerTree,
) -> Result<MarkerTree, AllocError>
    requires a { IsTree interner.old.nodes a }
    requires b { IsTree interner.old.nodes b }
    ensures made { IfOk result (λ tree. IsTree interner.new.nodes tree) }
    ensures truth { IfOk result (λ tree. (v : Valuation) → holds interner.new.nodes tree v
        ≡ (holds interner.old.nodes a v && holds interner.old.nodes b v)) }
    ensures keeps { Extends interner.old.nodes interner.new.nodes }
    ensures counts { interner.new.conjunctions ≡ interner.old.conjunctions }
{
    conjunction(alloc, &mut interner.table, &mut interner.known, a, b)
}
