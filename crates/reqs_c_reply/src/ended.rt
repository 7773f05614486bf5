//! How a call ends.

ghost use Rattle.std.specs.Prelude.{◌≡◌, length, MatchResult, string_bytes};
ghost use Rattle.reqs_c_reply.specs.Endings.{Refused, Answered, OutOfMemory, ending_of};
ghost use Rattle.reqs_c_reply.specs.Endings.{reply_of, reply_with, text_of, written};

use crate::buffer::write_front;
use crate::{Place, Reply};
use std::alloc::AllocError;

/// How a call ends, with the text that is written to the caller's buffer.
#[derive(Debug, Drop)]
pub enum Ended {
    Answered(Vec<u8>),
    /// Two lists that were compared require different things.
    Different(Vec<u8>),
    /// An input is refused, for the reason in the text.
    Refused(Place, Vec<u8>),
    OutOfMemory,
}

impl Ended {
    /// Answered with a text, or out of memory if there was none for the text.
    pub fn answered(text: Result<String, AllocError>) -> Ended
        ensures { MatchResult text (λ text. ending_of result ≡ Answered (string_bytes text))
            (λ error. ending_of result ≡ OutOfMemory) }
    {
        match text {
            Ok(text) => Ended::Answered(text.into_bytes()),
            Err(_) => Ended::OutOfMemory,
        }
    }

    /// Refused at a place with a message, or out of memory if there was none for the message.
    pub fn refused(place: Place, message: Result<String, AllocError>) -> Ended
        ensures { MatchResult message (λ text. ending_of result ≡ Refused place (string_bytes text))
            (λ error. ending_of result ≡ OutOfMemory) }
    {
        match message {
            Ok(message) => Ended::Refused(place, message.into_bytes()),
            Err(_) => Ended::OutOfMemory,
        }
    }

    /// The reply for this ending. Writes the prefix of its text that fits into the buffer.
    pub fn reply(self, buffer: &mut [u8]) -> Reply
        ensures replies { result ≡ reply_of (ending_of self) }
        ensures writes { buffer.new ≡ written (text_of (ending_of self)) buffer.old }
    {
        match self {
            Ended::Answered(text) => reply_with(0, Place::nowhere(), &text, buffer),
            Ended::Different(text) => reply_with(1, Place::nowhere(), &text, buffer),
            Ended::Refused(place, text) => reply_with(2, place, &text, buffer),
            Ended::OutOfMemory => reply_with(3, Place::nowhere(), &[], buffer),
        }
    }
}

/// A reply with this status, whose text is written to the buffer.
fn reply_with(status: u32, place: Place, text: &[u8], buffer: &mut [u8]) -> Reply
    ensures replies { result ≡ reply_with status place (length text.now) }
    ensures writes { buffer.new ≡ written text.now buffer.old }
{
    write_front(text, buffer);
    Reply::with(status, place, text.len())
}
