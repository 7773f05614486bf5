#![tactic(auto)]
//! The commands of `reqs` on requirement lists alone: whether two require the same, or one whatever the other
//! does, which lines of one contradict each other, and the normal form of one. Each reads its inputs whole,
//! and writes its answer once all of it is made.
//!
//! ```text
//! let status = same(alloc, &mut left, &mut right, &vars, 4096, Format::Text, &mut output)?;
//! ```

mod answer;
mod comparing;
mod conflict_lines;
mod contradicting;
mod covering;
pub mod laws;
pub mod lent;
mod normalizing;
mod uncovered_lines;

pub use comparing::{same, same_within};
pub use contradicting::{conflicts, conflicts_strict, conflicts_within};
pub use covering::{covers, covers_within};
pub use normalizing::{normal, normal_within};
