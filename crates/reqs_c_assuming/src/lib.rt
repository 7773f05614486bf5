#![tactic(auto)]
//! The C library's calls on lists where only the environments and extras count for which a marker holds, over
//! bytes: `same`, `covers` and `conflicts` with an assumption.
//!
//! The marker is read before any list, and takes the number that follows those of the lists. `assumption` has its
//! text for all that the command line can assume.

mod assumption_text;
mod comparing;
mod contradicting;
mod covering;

pub use assumption_text::assumption;
pub use comparing::same_where;
pub use contradicting::conflicts_where;
pub use covering::covers_where;
