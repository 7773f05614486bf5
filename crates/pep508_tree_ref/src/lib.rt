//! Marker trees with their interners (PEP 508, "Environment Markers"), which are compared by their
//! meanings.
#![tactic(auto)]

mod end;
mod known;
pub mod laws;
mod order_walk;
mod tree_order;
mod tree_ref;

pub use tree_ref::MarkerTreeRef;
