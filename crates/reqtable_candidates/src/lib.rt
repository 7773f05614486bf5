//! The texts that are read: lines without their ends and comments, and candidate lists.
#![tactic(auto)]

mod candidate_order;
pub mod candidates;
mod fronted;
mod head;
pub mod laws;
pub mod ordered;
pub mod pieces;
pub mod text_lines;

pub use candidates::{Candidate, CandidateFault, Candidates, CandidatesError, read_candidate};
pub use ordered::{Ordered, Placed};
