//! Requirements (PEP 508) with the interner of their markers, which print, and compare by their meanings.
#![tactic(auto)]

pub mod laws;
mod requirement_parts;
mod requirement_ref;
mod unnamed_ref;

pub use requirement_ref::RequirementRef;
pub use unnamed_ref::UnnamedRequirementRef;
