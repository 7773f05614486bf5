#![tactic(auto)]
//! Reading the comparisons of environment markers (PEP 508, "Environment Markers"): two sides with an
//! operator between them, and what they express. A meaningless comparison is left out, with a warning.
//!
//! The crate needs no trees, so that trees and comparisons are proved side by side. `comparison_at` is
//! `compared_at` and then the test that no number is too great, which needs the definitions of trees.

mod compare;
mod comparison;
mod comparison_stops;
mod notice;
mod operator;
mod parse_comparison;
mod reading_versions;
mod refusal_place;
mod side;
mod text_keys;
mod version_keys;

pub use comparison::read_comparison;
pub use parse_comparison::{parse_expression, parse_expression_reporter};
pub use refusal_place::{expect, malformed, refuse_rest};
