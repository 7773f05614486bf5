//! A reader and a writer for tests, which are interrupted, fail, give or take little at a time or never end.
//! They count their calls.

use std::alloc::Global;
use std::io::{self, ErrorKind, Read, Write};

/// What a reader does besides giving its bytes and ending.
#[derive(Clone, Copy)]
pub(crate) enum Manner {
    Ends,
    /// Fails at its call with this number.
    FailsAt(u64),
    /// Is interrupted at every call.
    IsInterrupted,
    /// Fills every buffer.
    NeverEnds,
}

/// A reader of one byte per call, each after `pause` interruptions, of which `left` are left. Its call with
/// the number `fails_at` fails. Counts its calls, and those after it failed or ended.
#[derive(Drop)]
pub(crate) struct Inlet<'a> {
    rest: &'a [u8],
    pause: u64,
    left: u64,
    fails_at: u64,
    is_endless: bool,
    is_over: bool,
    pub(crate) asked: u64,
    pub(crate) asked_late: u64,
}

impl<'a> Inlet<'a> {
    /// Gives these bytes in this manner.
    pub(crate) fn new(rest: &'a [u8], manner: Manner) -> Inlet<'a> {
        match manner {
            Manner::Ends => Inlet::made(rest, 0, 0, false),
            Manner::FailsAt(call) => Inlet::made(rest, 0, call, false),
            Manner::IsInterrupted => Inlet::made(rest, u64::MAX, 0, false),
            Manner::NeverEnds => Inlet::made(rest, 0, 0, true),
        }
    }

    /// Is interrupted before each byte and before its end, at which it fails if `fails` is set.
    pub(crate) fn hesitant(rest: &'a [u8], fails: bool) -> Inlet<'a> {
        let calls = (rest.len() as u64).saturating_add(1).saturating_mul(2);
        let fails_at = if fails { calls } else { 0 };
        let mut inlet = Inlet::made(rest, 1, fails_at, false);
        inlet.pause = 1;
        inlet
    }

    /// Is interrupted `left` times, and then ends.
    pub(crate) fn interrupted(left: u64) -> Inlet<'static> {
        Inlet::made(b"", left, 0, false)
    }

    fn made(rest: &'a [u8], left: u64, fails_at: u64, is_endless: bool) -> Inlet<'a> {
        Inlet {
            rest,
            pause: 0,
            left,
            fails_at,
            is_endless,
            is_over: false,
            asked: 0,
            asked_late: 0,
        }
    }

    fn count(&mut self) {
        self.asked = self.asked.saturating_add(1);
        if self.is_over {
            self.asked_late = self.asked_late.saturating_add(1);
        }
    }
}

impl Read for Inlet<'_> {
    fn read(&mut self, buf: &mut [u8]) -> io::Result<usize> {
        self.count();
        if self.asked == self.fails_at {
            self.is_over = true;
            return Err(io::Error::from(ErrorKind::Other));
        }
        if self.left > 0 {
            self.left -= 1;
            return Err(io::Error::from(ErrorKind::Interrupted));
        }
        self.left = self.pause;
        if self.is_endless {
            return Ok(buf.len());
        }
        match self.rest.split_first() {
            Some((first, rest)) => {
                if buf.is_empty() {
                    return Ok(0);
                }
                buf[0] = *first;
                self.rest = rest;
                Ok(1)
            }
            None => {
                self.is_over = true;
                Ok(0)
            }
        }
    }
}

/// The limits of a writer: the bytes that it takes in all and per call, and the interruptions before each
/// call and before the first one.
pub(crate) type Width = (usize, usize, u32, u32);

/// Takes everything at once.
pub(crate) const WIDE: Width = (usize::MAX, usize::MAX, 0, 0);

/// Takes nothing.
pub(crate) const CLOSED: Width = (usize::MAX, 0, 0, 0);

/// Takes one byte per call, `room` bytes in all, and is interrupted before each.
pub(crate) const fn narrow(room: usize) -> Width {
    (room, 1, 1, 1)
}

/// Takes `room` bytes, and then fails.
pub(crate) const fn short(room: usize) -> Width {
    (room, usize::MAX, 0, 0)
}

/// Is interrupted `interruptions` times, and then takes everything.
pub(crate) const fn busy(interruptions: u32) -> Width {
    (usize::MAX, usize::MAX, 0, interruptions)
}

/// A writer that keeps what it takes, and counts its calls.
#[derive(Drop)]
pub(crate) struct Outlet {
    pub(crate) taken: Vec<u8>,
    pub(crate) asked: u64,
    pub(crate) left: u32,
    room: usize,
    step: usize,
    pause: u32,
}

impl Outlet {
    pub(crate) fn new(alloc: Global, (room, step, pause, left): Width) -> Outlet {
        Outlet {
            taken: Vec::new(alloc),
            asked: 0,
            left,
            room,
            step,
            pause,
        }
    }
}

impl Write for Outlet {
    fn write(&mut self, buf: &[u8]) -> io::Result<usize> {
        self.asked = self.asked.saturating_add(1);
        if self.left > 0 {
            self.left -= 1;
            return Err(io::Error::from(ErrorKind::Interrupted));
        }
        self.left = self.pause;
        if self.room == 0 {
            return Err(io::Error::from(ErrorKind::Other));
        }
        let most = self.room.min(self.step);
        let front = if most < buf.len() { &buf[..most] } else { buf };
        self.taken.extend_from_slice(front)?;
        self.room = self.room.saturating_sub(front.len());
        Ok(front.len())
    }

    fn flush(&mut self) -> io::Result<()> {
        Ok(())
    }
}
