//! Tables of cases: for each package of a requirements text, which of its lines apply together.
#![tactic(auto)]

mod active_case;
mod case_limit;
mod case_range;
mod choosing_by_case;
#[cfg(test)]
mod fields;
mod kept;
pub mod lent;
mod package_cases;
mod row;
mod runs;
mod sieving;
mod table;
mod table_answer;

pub use runs::Runs;
pub use table::{Case, Table, TableError};
