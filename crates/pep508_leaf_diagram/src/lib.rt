//! Decision diagrams over environment markers (PEP 508, "Environment Markers") whose leaves are numbers.
//!
//! Two are merged to their common refinement, whose leaves are pairs of the leaves of both. So the cases of
//! many markers come from halves, at the cost of the diagram that comes out.
#![tactic(auto)]

mod child;
mod diagram;
mod diagram_node;
mod diagram_pairs;
mod form;
mod merge;
mod merge_walk;
mod narrow;
mod trees;

pub use child::Child;
pub use diagram::Diagram;
pub use merge::{Merged, merge_diagrams};
pub use trees::leaf_trees;
