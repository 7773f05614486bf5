//! Versions of Python packages, as PEP 440 has them: their parts, texts, prints and order.
//!
//! The model of a `Version` in contracts is a `VersionRecord`, with a field for each part.
#![tactic(auto)]

pub mod laws;
pub mod lent;
mod ordering;
mod packing;
mod parse_error;
mod pattern;
mod plain;
mod print;
mod range_value;
mod setters;
mod value;
mod version;

pub use parse_error::{VersionParseError, VersionPatternParseError};
pub use pattern::VersionPattern;
pub use pep440_text::{LocalSegment, Prerelease, PrereleaseKind};
pub use read_outcome::FromValueError;
pub use version::Version;
