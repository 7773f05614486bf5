//! The diagrams, and those of no tree and of one.

ghost use Rattle.std.specs.Prelude.{◌≡◌, cond, List, length};
ghost use Rattle.pep508_diagram.specs.Question.{Valuation};
ghost use Rattle.pep508_tree.specs.Meaning.{NodeRecord, IsTree, holds};
ghost use Rattle.pep508_leaf_diagram.specs.Leaves.{Stands};
ghost use Rattle.pep508_leaf_diagram.specs.Pairing.{IsDiagram, leaf_in};

use crate::child::{Child, child_of};
use crate::diagram_node::Node;
use pep508_tree::MarkerTree;
use std::alloc::{AllocError, Global};

/// A diagram whose leaves are numbers below a count.
#[derive(Drop)]
pub struct Diagram {
    pub(crate) nodes: Vec<Node>,
    pub(crate) root: Child,
    pub(crate) leaves: usize,
}

impl Diagram {
    /// Returns the diagram that is leaf 0 alone.
    pub fn one_leaf(alloc: Global) -> Diagram
        ensures made { (inner : List NodeRecord) → IsDiagram inner result }
        ensures rooted { Stands result.leaves (length result.nodes.items) result.root }
        ensures leaves { result.leaves ≡ 1 }
        ensures leaf { (inner : List NodeRecord) (v : Valuation) → leaf_in inner result result.root v ≡ 0 }
    {
        Diagram {
            nodes: Vec::new(alloc),
            root: Child::Leaf(0),
            leaves: 1,
        }
    }

    /// Returns the diagram that leads to leaf 1 where the tree holds, and to leaf 0 where it fails.
    pub fn of_tree(alloc: Global, tree: MarkerTree) -> Diagram
        ensures made { (inner : List NodeRecord) → IsTree inner tree → IsDiagram inner result }
        ensures leaves { result.leaves ≡ 2 }
        ensures leaf { (inner : List NodeRecord) (v : Valuation) →
            leaf_in inner result result.root v ≡ cond (holds inner tree v) 1 0 }
    {
        Diagram {
            nodes: Vec::new(alloc),
            root: child_of(tree),
            leaves: 2,
        }
    }
}
