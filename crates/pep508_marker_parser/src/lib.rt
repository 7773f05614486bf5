//! Reading environment markers (PEP 508, "Environment Markers").
#![tactic(auto)]

mod chain;
mod compared;
mod formula_tree;
mod join;
pub mod laws;
mod levels;
mod marker;
mod parse_marker;
mod word;

pub use formula_tree::tree_of;
pub use marker::{read_formula, read_marker};
pub use parse_marker::{MarkerTreeReading, parse_formula};
