//! Marker trees that do not always hold (PEP 508, "Environment Markers"), and marker trees as JSON values.
#![tactic(auto)]

mod contents;
pub mod ser;

pub use contents::{MarkerTreeContents, MarkerTreeWithContents};
