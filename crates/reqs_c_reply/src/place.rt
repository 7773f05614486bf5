//! The place at which an input is wrong.

ghost use Rattle.std.specs.Prelude.{◌≡◌};
ghost use Rattle.reqs_c_reply.specs.Endings.{nowhere, span};

/// The place at which an input is wrong. An unknown number is 0.
#[derive(Clone, Copy, Debug, PartialEq, Eq)]
pub struct Place {
    /// The number of the argument, from 1.
    pub input: u32,
    /// The number of the line, from 1.
    pub line: usize,
    /// The first byte at fault, in the line, or in the text if there is no line.
    pub start: usize,
    /// The number of bytes at fault.
    pub len: usize,
}

impl Place {
    /// No place: all numbers are 0.
    pub fn nowhere() -> Place
        ensures { result ≡ nowhere }
    {
        Place::span(0, 0, 0)
    }

    /// A span of `len` bytes of an argument, from `start` on.
    pub fn span(input: u32, start: usize, len: usize) -> Place
        ensures { result ≡ span input start len }
    {
        Place {
            input,
            line: 0,
            start,
            len,
        }
    }
}
