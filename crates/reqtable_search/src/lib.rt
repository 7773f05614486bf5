//! The candidates of a package, searched by a range.
#![tactic(auto)]

mod gap;
mod run;
pub mod undecided;

pub use run::Run;
