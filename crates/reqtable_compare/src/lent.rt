//! What the cases of a package require, and why that can't be said of a list, for the crate of keys
//! (`reqtable_key`). `reqtable` doesn't pass it on.

pub use crate::comparing::{Bounds, side_table};
pub use crate::refusing::{Refused, first_refusal};
pub use crate::summary::Summary;
pub use crate::summing::summaries;
