//! The lines of a requirements text, grouped by package.
#![tactic(auto)]

mod given;
mod lines_by_package;

pub use given::Given;
pub use lines_by_package::{Group, grouped};
