#![tactic(auto)]
//! The C library's calls on the meaning of markers (PEP 508, "Environment Markers"), over bytes: whether they
//! always hold, exclude or imply one another, and the normal texts of markers that are derived from them.
//!
//! Answers are about valuations: a value for each variable of markers, an answer to each question whether one
//! string is in another, and a set of extras, all independent of each other. Each environment with extras is
//! one; others match no real interpreter.

mod bounds;
mod extras;
mod keys;
pub mod laws;
mod made;
mod names;
mod pairs;
mod truths;
mod within;

pub use extras::marker_simplify_extras;
pub use keys::marker_key;
pub use made::marker_negated;
pub use pairs::{marker_implies, markers_disjoint};
pub use truths::marker_truth;
pub use within::marker_simplify_python;
