//! Keys of requirement lists: bytes that are the same for two lists exactly where `same` says yes of them, so
//! that what was found for one list can be kept for all lists that mean the same.
#![tactic(auto)]

mod entries;
mod heads;
pub mod laws;
mod list_key;
mod regions;

pub use list_key::key;
