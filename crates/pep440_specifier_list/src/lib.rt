//! Lists of version specifiers, as PEP 440 has them.
//!
//! The model of a `VersionSpecifiers` in contracts is the list of its members, sorted by version.
#![tactic(auto)]

mod asking;
mod bounds;
mod counted;
mod error;
pub mod laws;
mod ordering;
mod print;
mod reading;
mod refused_piece;
mod specifiers;
mod value;

pub use counted::CountedSpecifiers;
pub use error::VersionSpecifiersParseError;
pub use print::BareCommas;
pub use refused_piece::RefusedPiece;
pub use specifiers::VersionSpecifiers;
