//! Sort keys of versions: bytes that compare as the versions do, for a sort of bytes, a column of a table
//! or a search tree that knows nothing of versions.
#![tactic(auto)]

mod components;
mod key;
pub mod laws;
mod number;

pub use components::push_text;
pub use key::version_key;
pub use number::push_number;
