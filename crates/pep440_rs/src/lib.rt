#![tactic(auto)]
//! Versions and version specifiers of Python packages, as PEP 440 has them.
//!
//! A list of specifiers accepts a version, or rejects it:
//!
//! ```text
//! let version = Version::from_str(alloc, "1.19")?;
//! let wanted = VersionSpecifiers::from_str(alloc, ">=1.16, <2")?;
//! let is_accepted = wanted.contains(alloc, &version)?;
//! ```
//!
//! `crates/pep440_tests/src/calling.rt` has these calls as a function with a proved contract.
//!
//! This crate re-exports what the crates below it offer.

pub mod laws;

pub use pep440_key::version_key;
pub use pep440_range::{
    RangeError, release_specifier_to_range, release_specifiers_to_ranges, specifier_to_range,
    specifiers_to_range,
};
pub use pep440_specifier::{
    BoundError, Operator, OperatorParseError, VersionSpecifier, VersionSpecifierBuildError,
    VersionSpecifierParseError,
};
pub use pep440_specifier_list::{
    BareCommas, CountedSpecifiers, RefusedPiece, VersionSpecifiers, VersionSpecifiersParseError,
};
pub use pep440_version::{
    FromValueError, LocalSegment, Prerelease, PrereleaseKind, Version, VersionParseError,
    VersionPattern, VersionPatternParseError,
};
