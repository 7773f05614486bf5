//! The C library's calls on lists: the commands of `reqs` over bytes, and which markers hold.
#![tactic(auto)]

mod checking;
mod ending;
mod holding;
pub mod lent;
mod list_answers;
mod refused_inputs;

pub use checking::{check, matrix};
pub use holding::markers_hold;
pub use list_answers::{conflicts, covers, normal, same};
pub use reqs_io_faults::Bounds;
