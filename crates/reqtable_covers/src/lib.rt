//! Whether one requirement list covers another: requires whatever the other does. If not, of which package
//! and where it doesn't, and by which lines of the other.
#![tactic(auto)]

mod answer;
mod applying;
mod covering;
pub mod laws;

pub use answer::Covers;
pub use covering::{covers, covers_within};
