//! The normal text of a requirement list: lists that say the same have the same one.
#![tactic(auto)]

mod error;
pub mod laws;
mod lines;

pub use error::{NormalCause, NormalError};
pub use lines::{normal, normal_within};
