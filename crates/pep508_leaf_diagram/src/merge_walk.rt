//! The pairs of two diagrams that are merged so far.

ghost use Rattle.std.specs.Prelude.{◌≡◌, ◌↔◌, List, IfOk, IfSome, IsTrue};
ghost use Rattle.pep508_tree.specs.Meaning.{NodeRecord};
ghost use Rattle.pep508_leaf_diagram.specs.Forms.{record_of};
ghost use Rattle.pep508_leaf_diagram.specs.declared.diagram.Diagram.{Diagram};
ghost use Rattle.pep508_leaf_diagram.specs.Pairing.{AreSplit};
ghost use Rattle.pep508_leaf_diagram.specs.Walks.{IsBoth, IsWalk, AreBoth, IsFound};

use crate::child::{Child, Pair};
use crate::diagram_node::{Node, placed};
use crate::form::Form;
use std::alloc::{AllocError, Global};
use std::collections::HashMap;

/// A child of each diagram, as a key.
#[derive(Clone, Copy, PartialEq, Eq, Hash)]
pub(crate) struct Asked {
    pub first: Child,
    pub second: Child,
}

/// States that children are equal exactly where their values are. Does nothing.
#[tactic(auto, using(pep508_tree::proofs::Same::same_trees))]
pub(crate) fn equal_children()
    ensures { (a b : Child) → IsTrue (⟦<Child as PartialEq>⟧.eq a b) ↔ (a ≡ b) }
{}

/// States that equal pairs have equal values. Does nothing.
#[tactic(auto, using(pep508_tree::proofs::Same::same_trees))]
fn equal_asked()
    ensures { (a b : Asked) → IsTrue (⟦<Asked as PartialEq>⟧.eq a b) → a ≡ b }
{}

/// A pair with its child in the merged diagram.
#[derive(Clone, Copy)]
pub(crate) struct Done {
    pub asked: Asked,
    pub child: Child,
}

/// The merged diagram so far: the pairs that have a child there, with the index of each; its nodes; and its
/// leaves, as pairs of the two diagrams' leaves.
#[derive(Drop)]
pub(crate) struct Walk {
    places: HashMap<Asked, usize>,
    done: Vec<Done>,
    pub nodes: Vec<Node>,
    pub leaves: Vec<(usize, usize)>,
}

/// Returns the child of a pair, if the entry at the index is of that pair.
fn at_place(done: &[Done], asked: &Asked, place: usize) -> Option<Child>
    ensures { IfSome result (λ child. IsFound asked.now child done.now) }
{
    equal_asked();
    match done.get(place) {
        Some(found) if found.asked == *asked => Some(found.child),
        _ => None,
    }
}

impl Walk {
    /// Returns a merged diagram without nodes.
    pub fn new(alloc: Global) -> Walk
        ensures { (inner : List NodeRecord) (a b : Diagram) → IsWalk inner a b result }
    {
        Walk {
            places: HashMap::new(alloc),
            done: Vec::new(alloc),
            nodes: Vec::new(alloc),
            leaves: Vec::new(alloc),
        }
    }

    /// Returns the child of a pair, if it is merged.
    pub fn get(&self, first: &Child, second: &Child) -> Option<Child>
        ensures { (inner : List NodeRecord) (a b : Diagram) → IsWalk inner a b self.now → IfSome result
            (IsBoth inner a b self.now.nodes.items self.now.leaves.items first.now second.now) }
    {
        let asked = Asked {
            first: *first,
            second: *second,
        };
        match self.places.get(&asked) {
            Some(place) => at_place(&self.done, &asked, *place),
            None => None,
        }
    }

    /// Keeps the child of a pair.
    fn remember(&mut self, first: &Child, second: &Child, child: Child) -> Result<(), AllocError>
        ensures { IfOk result (λ _. (inner : List NodeRecord) (a b : Diagram) → IsWalk inner a b self.old →
            IsBoth inner a b self.old.nodes.items self.old.leaves.items first.now second.now child →
            IsWalk inner a b self.new) }
    {
        let place = self.done.len();
        self.done.push(Done {
            asked: Asked {
                first: *first,
                second: *second,
            },
            child,
        })?;
        self.places.insert(
            Asked {
                first: *first,
                second: *second,
            },
            place,
        )?;
        Ok(())
    }

    /// Adds the leaf of two leaves.
    fn add_leaf(&mut self, first: usize, second: usize) -> Result<(), AllocError>
        ensures { IfOk result (λ _. (inner : List NodeRecord) (a b : Diagram) → IsWalk inner a b self.old →
            IsWalk inner a b self.new) }
    {
        let number = self.leaves.len();
        self.leaves.push((first, second))?;
        self.remember(
            &Child::Leaf(first),
            &Child::Leaf(second),
            Child::Leaf(number),
        )?;
        Ok(())
    }

    /// Returns whether a pair is merged. Two leaves get a leaf where they have none.
    ///
    /// # Errors
    ///
    /// `AllocError` when memory runs out.
    pub fn has(&mut self, first: &Child, second: &Child) -> Result<bool, AllocError>
        ensures { IfOk result (λ _. (inner : List NodeRecord) (a b : Diagram) → IsWalk inner a b self.old →
            IsWalk inner a b self.new) }
    {
        if self.get(first, second).is_some() {
            return Ok(true);
        }
        let Child::Leaf(left) = first else {
            return Ok(false);
        };
        let Child::Leaf(right) = second else {
            return Ok(false);
        };
        self.add_leaf(*left, *right)?;
        Ok(true)
    }

    /// Returns the children of some pairs, if all are merged.
    fn get_all(&self, alloc: Global, pairs: &[Pair]) -> Result<Option<Vec<Child>>, AllocError>
        ensures { IfOk result (λ children. IfSome children (λ children.
            (inner : List NodeRecord) (a b : Diagram) →
            IsWalk inner a b self.now →
            AreBoth inner a b self.now.nodes.items self.now.leaves.items pairs.now children.items)) }
    {
        let mut children = Vec::with_capacity(alloc, pairs.len())?;
        for pair in pairs {
            match self.get(&pair.0, &pair.1) {
                Some(child) => children.push(child)?,
                None => return Ok(None),
            }
        }
        Ok(Some(children))
    }

    /// Adds the node of a pair, whose children are the pairs of `form`. Returns `false` where one of these
    /// isn't merged.
    ///
    /// # Errors
    ///
    /// `AllocError` when memory runs out.
    pub fn add_node(
        &mut self,
        alloc: Global,
        first: &Child,
        second: &Child,
        form: Form<Pair>,
    ) -> Result<bool, AllocError>
        ensures { IfOk result (λ _. (inner : List NodeRecord) (a b : Diagram) → IsWalk inner a b self.old →
            AreSplit inner a b first.now second.now (record_of form) → IsWalk inner a b self.new) }
    {
        equal_children();
        let pair = form.first();
        let Some(child) = self.get(&pair.0, &pair.1) else {
            return Ok(false);
        };
        let pairs = form.others(alloc)?;
        let Some(others) = self.get_all(alloc, &pairs)? else {
            return Ok(false);
        };
        let joined = form.rejoined(alloc, child, &others)?;
        let put = placed(&mut self.nodes, joined)?;
        self.remember(first, second, put)?;
        Ok(true)
    }
}
