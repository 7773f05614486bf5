//! Where an input comes from.
//!
//! The system gives an opened file the lowest free descriptor. Where a standard stream is closed that is
//! the stream's, and the file would be read in place of standard input, or written to. Such a file gets a
//! second descriptor above the three before anything is read, and the first is closed. Opening `/dev/null`
//! instead would need that file, and `/dev/stdin` would name it as an empty input.

ghost use Rattle.std.specs.Prelude.{IfOk};
ghost use Rattle.reqs_command.specs.Source.{IsAboveStandard};

use std::fs::{File, Files, OpenFile};
use std::io::{self, ErrorKind, Read};
use std::os::fd::{AsRawFd, RawFd};

/// The descriptor of standard error, the last of the standard streams.
const LAST_STANDARD: RawFd = 2;

/// A file, or standard input.
#[derive(Drop)]
pub enum Source<F: Drop, I: Drop> {
    File(F),
    Standard(I),
}

impl<F: Read + Drop, I: Read + Drop> Read for Source<F, I> {
    fn read(&mut self, buf: &mut [u8]) -> io::Result<usize> {
        match self {
            Source::File(file) => file.read(buf),
            Source::Standard(input) => input.read(buf),
        }
    }
}

/// Opens a file for reading, under none of the descriptors of the standard streams. A file gets the lowest
/// free descriptor: if the program was started without a standard stream, that stream's own. The file is then
/// moved to another descriptor, so that the stream stays closed, and reading or writing it fails.
///
/// # Errors
///
/// What opening or duplicating the file returns; `Unsupported` if the duplicate's descriptor is a standard
/// stream's too.
pub fn open_file<R: Files>(rt: &R, path: &str) -> io::Result<R::File>
where
    R::File: AsRawFd,
    ensures { IfOk result (λ file. IsAboveStandard (R.File.raw_fd file)) }
{
    let file = File::open(rt, path)?;
    if file.as_raw_fd() > LAST_STANDARD {
        return Ok(file);
    }
    let moved = file.try_clone()?;
    if moved.as_raw_fd() > LAST_STANDARD {
        Ok(moved)
    } else {
        Err(io::Error::from(ErrorKind::Unsupported))
    }
}
