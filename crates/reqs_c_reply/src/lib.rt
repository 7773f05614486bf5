//! The reply to a call from C: how the call ends, what is returned and what is written into the caller's
//! buffer; and the lines of the texts that it is given.
#![tactic(auto)]

mod argument_lines;
mod argument_texts;
mod buffer;
mod ended;
mod place;
mod reply;

pub use argument_lines::{batch_lines, filled_lines};
pub use argument_texts::text_of;
pub use buffer::write_front;
pub use ended::Ended;
pub use place::Place;
pub use reply::Reply;
