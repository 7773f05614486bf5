#![tactic(auto)]
//! The operators of version specifiers, as PEP 440 has them: their meaning, their texts, and their
//! negations.
//!
//! Operators have a crate of their own because their texts, signs and negations need no version.
//! `pep440_specifier` re-exports `Operator` and `OperatorParseError`.

pub mod laws;
mod operator;

pub use operator::{Operator, OperatorParseError};
