//! The C library's calls on requirements and markers (PEP 508), over bytes.
#![tactic(auto)]

mod bounds;
pub mod laws;
mod marker_answers;
mod normal_texts;
mod refused_text;
mod requirement_answer;

pub use bounds::{Bounds, tree_within};
pub use marker_answers::{mark_of_line, marker, marker_check, read_formula, read_marker};
pub use normal_texts::{TextFault, normal_text};
pub use requirement_answer::{no_variables, requirement};
