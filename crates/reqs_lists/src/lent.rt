//! The answers on parsed lists, for `reqs_assuming`, which restricts lists after they are parsed. `reqs`
//! doesn't pass them on.

pub use crate::answer::Answer;
pub use crate::comparing::same_of;
pub use crate::contradicting::{Request, conflicts_of};
pub use crate::covering::covers_of;
