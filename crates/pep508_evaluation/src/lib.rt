//! The evaluation of marker trees of Python packages for environments and extras, as PEP 508 has it
//! ("Environment Markers"). The model of an environment with extras in contracts is a valuation of the
//! variables that trees test.
#![tactic(auto)]

mod chosen;
mod evaluation;
mod holding;
pub mod laws;
mod reached;
mod warned;

pub use chosen::stands_in;
pub use evaluation::MarkerTreeEvaluation;
pub use holding::{root_child, root_child_count};
