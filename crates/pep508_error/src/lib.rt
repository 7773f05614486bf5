//! The common parts of the readers of requirements (PEP 508): a place in a text, the pieces that are split
//! off after it, why a reader stops there, and the error that shows it.
#![tactic(auto)]

mod cursor;
mod error;
mod excerpt;
mod piece_stops;
mod pieces;
mod refusal;

pub use cursor::Cursor;
pub use error::{Pep508Error, Pep508ErrorSource};
pub use piece_stops::{Space, Stop, split};
pub use refusal::{Refusal, RefusalKind};
