//! Laws of reading printed markers and requirements.
#![tactic(auto)]

pub mod laws;
