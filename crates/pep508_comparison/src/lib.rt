#![tactic(auto)]
//! The sets of versions for which the comparisons of environment markers hold (PEP 508, "Environment
//! Markers").
//!
//! `python_version` has the first two numbers of `python_full_version` as its values, so a comparison of it
//! is a set of full versions.

pub mod laws;
mod lists;
mod minors;
mod python;
mod release_numbers;
mod sets;

pub use lists::{listed_range, python_listed_range};
pub use python::python_version_range;
