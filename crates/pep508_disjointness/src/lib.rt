//! Whether two marker trees of one interner (PEP 508, "Environment Markers") never hold together.
#![tactic(auto)]

mod child_pairs;
mod disjointness;

pub use disjointness::MarkerTreeDisjointness;
