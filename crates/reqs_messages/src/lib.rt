#![tactic(auto)]
//! The messages of `reqs`: what is printed of a fault, a word of the command line, and texts of inputs.

pub mod laws;
mod shown;

pub use shown::{requirement_text, shown_fault, shown_lines, shown_text};
