//! Keys of the meanings of markers (PEP 508, "Environment Markers"): bytes that are the same exactly where
//! two marker trees hold under the same valuations, of whatever interners they are.
#![tactic(auto)]

mod key;
mod key_walk;
pub mod laws;
mod question;
mod tree_numbers;

pub use key::MarkerTreeKey;
