//! Comparisons of environment markers as trees (PEP 508, "Environment Markers").
#![tactic(auto)]

mod expression_tree;
mod raised;
mod text_trees;
mod version_trees;

pub use expression_tree::{MarkerTreeExpression, comparison_tree};
pub use raised::has_points;
pub use version_trees::{compared_range, listed_by};
