#![tactic(auto)]
//! The commands `same`, `covers` and `conflicts` of `reqs` where a condition holds: only the environments and
//! extras count for which a marker holds.
//!
//! Each list is read and parsed as the commands of `reqs_lists` do it; then each line's marker is joined with
//! the condition (`reqtable_assumption::assume`), and those commands answer on what these lists require. What
//! an answer says of the lists themselves are the laws here and of `reqtable_assumption`.
//!
//! ```text
//! if let Some(condition) = &assumed_condition(alloc, Some("sys_platform == 'linux'"), None, false)? {
//!     let terms = Terms { vars: &vars, condition, format: Format::Text, bounds: Bounds::none() };
//!     let status = same_where(alloc, &mut left, &mut right, 4096, &terms, &mut interner, &mut output)?;
//! }
//! ```

mod assumed;
mod assumption;
mod comparing;
mod condition;
mod contradicting;
mod covering;
pub mod laws;
mod terms;

pub use assumption::{REAL, assumed_condition, assumption_text};
pub use comparing::same_where;
pub use contradicting::conflicts_where;
pub use covering::covers_where;
pub use terms::Terms;
