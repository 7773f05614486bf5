#![tactic(auto)]
//! The commands of `reqs` that judge a list: for one environment, and for many. Each reads its inputs whole,
//! and writes its answer once all of it is made.
//!
//! ```text
//! let status = check(
//!     alloc, &mut requirements, &mut environment, &mut candidates, &extras, &vars, Format::Text,
//!     &mut output,
//! )?;
//! ```

mod admitting;
mod checks;
mod environments;
mod frames;
pub mod laws;
mod matrices;
mod missing;

pub use checks::{check, check_strict};
pub use matrices::{matrix, matrix_strict, matrix_within};
