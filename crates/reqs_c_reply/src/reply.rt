//! The reply to C.

ghost use Rattle.std.specs.Prelude.{◌≡◌};
ghost use Rattle.reqs_c_reply.specs.Endings.{reply_with};

use crate::Place;

/// How a call ended, with the length of its whole text and the place of what is at fault. In C it is
/// `reqs_reply` (`include/reqs.h`).
#[repr(C)]
#[derive(Clone, Copy, Debug, PartialEq, Eq)]
pub struct Reply {
    /// 0 answered, 1 different, 2 an input is refused, 3 out of memory.
    pub status: u32,
    /// The number of the argument at fault, from 1; 0 if there is none.
    pub input: u32,
    /// The number of bytes of the whole text, of which those that fit are in the buffer.
    pub length: usize,
    /// The number of the line at fault, from 1; 0 if there is none.
    pub line: usize,
    /// The first byte at fault, in its line or text.
    pub start: usize,
    /// The number of bytes at fault.
    pub len: usize,
}

impl Reply {
    /// A reply with this status, and with the length of the whole text.
    pub(crate) fn with(status: u32, place: Place, length: usize) -> Reply
        ensures { result ≡ reply_with status place length }
    {
        Reply {
            status,
            input: place.input,
            length,
            line: place.line,
            start: place.start,
            len: place.len,
        }
    }
}
