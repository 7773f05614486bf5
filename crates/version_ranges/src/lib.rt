#![tactic(auto)]
//! Sets of intervals over any lawful order: the base of version ranges and of the edges of marker trees.
//!
//! A set is given by the points that it holds: below all values, at a value, and just above a value. Two
//! sets are equal exactly when they hold the same points, also where no value may lie between their bounds.
//!
//! ```text
//! let from_one = Ranges::higher_than(alloc, 1u64)?;
//! let below_three = Ranges::higher_than(alloc, 3u64)?.complement(alloc)?;
//! let both = from_one.intersection(alloc, &below_three)?;
//! let is_held = both.contains(&2);
//! ```

mod boundary;
mod iter;
pub mod laws;
mod merge;
mod order;
mod ranges;
mod value;

pub use boundary::Boundary;
pub use iter::Iter;
pub use merge::{NextBoundary, next_boundary};
pub use ranges::Ranges;
pub use value::RangeValue;
