//! What many lists of specifiers accept together: decided by two ranges, and by the few specifiers that no
//! range decides.
#![tactic(auto)]

mod ends;
mod exact;
pub mod laws;
mod one;
mod shared;
mod sieve;
mod simple;
mod single;
mod specifier_sets;

pub use one::{OneRange, one_range};
pub use shared::shared_range;
pub use sieve::{Sieve, sieve_of};
pub use specifier_sets::has_range;
