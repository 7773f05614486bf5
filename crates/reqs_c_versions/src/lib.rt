//! The C library's calls on versions and specifiers (PEP 440), over bytes.
#![tactic(auto)]

pub mod laws;
mod ranges;
mod specifier_lists;
mod version_answers;

pub use ranges::{specifiers_disjoint, specifiers_empty, specifiers_subset};
pub use specifier_lists::{read_list, specifiers, specifiers_take};
pub use version_answers::{version, version_key, version_order};
