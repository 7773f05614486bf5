//! Lines of requirement lists that contradict each other.
#![tactic(auto)]

mod contradicting;
mod doubtful;
pub mod laws;

pub use contradicting::{Conflict, conflicts, conflicts_within};
