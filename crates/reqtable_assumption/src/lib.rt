//! Lists where a condition holds: requirements whose markers are joined with another marker, so that only the
//! environments for which it holds count.
#![tactic(auto)]

mod assuming;
pub mod laws;

pub use assuming::assume;
