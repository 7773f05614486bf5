#![tactic(auto)]
//! Decision diagrams over environment markers (PEP 508, "Environment Markers"): definitions and laws.
//!
//! A marker tree means a decision diagram over questions. That canonical diagrams of one meaning are one is
//! proved of anything that answers questions in a lawful way (`Asking`, `IsAsking`), and then taken for
//! markers. A flag is a variable with one question, so Boolean nodes need no case of their own.

mod branch;
mod by_turns;
pub mod laws;
mod marker_text;
mod node_value;
mod variable;

pub use branch::{
    Branch, add_children, branch_at, copy_of_boundary, paired, paired_children, rejoined,
};
pub use by_turns::{shortened_branches, turned_branches};
pub use marker_text::MarkerText;
pub use node_value::NodeValue;
pub use variable::{Flag, VersionVariable, text_rank};
