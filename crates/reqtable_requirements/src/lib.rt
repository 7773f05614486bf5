//! Requirements texts, as `pip freeze` and `pip-compile` write them: one requirement of PEP 508 per line.
#![tactic(auto)]

mod judgement;
pub mod laws;
mod marked;
mod requirements;

pub use judgement::asks_in;
pub use marked::{MarkedLine, MarkedLines};
pub use requirements::{Line, Requirements, RequirementsError, copied_packages};
