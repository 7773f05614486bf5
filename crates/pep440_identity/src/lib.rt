//! Versions and specifiers compared part by part, with the zeros at the end of a release.
//!
//! `==` of versions goes by their order, which ignores these zeros (PEP 440, "Final releases"). A specifier's
//! meaning doesn't: `~=1.0` and `~=1.0.0` accept different versions.
#![tactic(auto)]

mod specifiers;
mod versions;

pub use specifiers::are_identical_specifiers;
pub use versions::is_identical_version;
