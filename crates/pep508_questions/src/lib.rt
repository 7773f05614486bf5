//! The questions of marker trees (PEP 508, "Environment Markers"): of which kinds a tree's questions are.
#![tactic(auto)]

mod kinds;
pub mod laws;
mod question_walk;
mod questions;

pub use questions::{Asked, MarkerTreeQuestions};
