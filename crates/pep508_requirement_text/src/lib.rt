//! The front of a requirement's text (PEP 508, "Grammar"): a name, extras, and specifiers or the text of a
//! URL.
#![tactic(auto)]

mod archive;
mod front;
pub mod laws;
mod list;
mod look;
mod message;
mod name;
mod name_end;
mod reading_extras;
mod specifiers_or_url;
mod unnamed_front;
mod url_cut;
mod url_end;

pub use archive::is_archive;
pub use front::{Front, read_front};
pub use look::looks_unnamed;
pub use reading_extras::read_extras;
pub use specifiers_or_url::{Source, UrlPiece};
pub use unnamed_front::{Unnamed, read_unnamed};
pub use url_end::split_url;
