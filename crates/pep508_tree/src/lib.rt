#![tactic(auto)]
//! Marker trees of Python packages (PEP 508, "Environment Markers"), and how they are combined.
//!
//! The model of a `MarkerTree` in contracts is a `Tree`: the place of its diagram in an `Interner` and
//! whether the diagram's leaves are negated, so that a negation takes no memory. That of an `Interner` is
//! the nodes of its diagrams, in the order in which they were made, with the number of its conjunctions.

mod algebra;
mod conjunction_walk;
mod interner;
pub mod joining;
mod leaf;
mod node;
mod node_making;
mod root;
mod table;
mod tree;
mod tree_pair;

pub use interner::{Interner, uncounted_conjunction};
pub use root::{Children, TreeNode};
pub use tree::MarkerTree;
pub use tree_pair::TreePair;
