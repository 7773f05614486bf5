//! The answers of a table as texts made of pieces, each of which is made once per case.
#![tactic(auto)]

mod answering;
mod known;
mod row;
mod row_query;
mod separating;

pub use answering::Answering;
pub use row_query::Query;
