//! Version specifiers, as PEP 440 has them: an operator, a version, and the versions that they accept.
//!
//! The model of a `VersionSpecifier` in contracts is a `SpecifierRecord`.
#![tactic(auto)]

mod bounds;
mod build_error;
pub mod laws;
mod matching;
mod ordering;
mod parse_error;
mod reading;
mod specifier;
mod value;

pub use bounds::{BoundError, is_next_minor};
pub use build_error::VersionSpecifierBuildError;
pub use parse_error::VersionSpecifierParseError;
pub use pep440_operator::{Operator, OperatorParseError};
pub use specifier::VersionSpecifier;
