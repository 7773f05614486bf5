//! The end of a call on lists by the result of its command, and the names of the lists, for
//! `reqs_c_assuming`, whose calls have one text more. `reqs_c` doesn't pass them on.

pub use crate::ending::ended;
pub use crate::list_answers::{COVERS_NAMES, LIST_NAMES, NO_EXTRAS, SAME_NAMES};
