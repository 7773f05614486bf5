//! Whether two requirement lists require the same, or the left one whatever the right one does, and if
//! not, of which package and where they don't.
#![tactic(auto)]

mod comparing;
mod equal_lines;
pub mod laws;
pub mod lent;
mod pairing;
mod refusing;
mod settled;
mod sides;
mod summary;
mod summing;

pub use comparing::{related, same, same_within};
pub use sides::{LineCause, Relation, Same, SameError, Side};
