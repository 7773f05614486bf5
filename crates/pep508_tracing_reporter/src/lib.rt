//! A reporter of the warnings of markers that writes to a log.
#![tactic(auto)]

mod tracing;

pub use tracing::TracingReporter;
