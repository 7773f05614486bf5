//! How marker trees print (PEP 508, "Environment Markers"): the clauses of a tree, one of which holds where
//! the tree does, and their text. The model of a comparison in contracts is an `ExpressionRecord`.
#![tactic(auto)]

mod child_clauses;
mod clause_count;
mod clause_walk;
mod intervals;
mod marker_tree_text;
mod required_extra;
mod says;
mod steps;

pub use clause_count::has_more_clauses;
pub use marker_tree_text::MarkerTreeText;
