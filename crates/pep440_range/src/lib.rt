#![tactic(auto)]
//! Specifiers as ranges of versions.
//!
//! The model of a range in contracts is the points that it holds.
//!
//! A range is specified by which points it holds, not by a list of bounds: `range_of` is missing, or says
//! of each point whether it is held. `===` has the range of `==`, since an order knows no prints.

mod agreement;
mod conversion;
pub mod laws;
mod numbers;
mod range_error;
mod releases;
pub mod sets;
mod shared;

pub use agreement::{agrees_beside_posts, agrees_everywhere};
pub use conversion::specifier_to_range;
pub use range_error::RangeError;
pub use releases::release_specifier_to_range;
pub use shared::{release_specifiers_to_ranges, specifiers_to_range};
