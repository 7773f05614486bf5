//! Clauses of comparisons (PEP 508, "Environment Markers"): their simplification, and their text. The model
//! of a comparison in contracts is an `ExpressionRecord`.
#![tactic(auto)]

mod apart;
mod bits;
mod clause;
mod clause_text;
mod clauses;
mod simplify;
mod strays;
mod term;

pub use clauses::{clauses_text, simplified_clauses};
pub use term::is_same_extra;
