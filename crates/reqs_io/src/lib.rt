#![tactic(auto)]
//! Input and output of a command: an input is read whole before it is parsed, and an answer is written whole
//! once all of it is made.
//!
//! ```text
//! let bytes = read_whole(alloc, &mut input, 16_777_216, 1 << 32)?;
//! write_whole(&mut output, bytes.as_slice())?;
//! ```

ghost use Rattle.std.specs.Prelude.{◌≡◌, ◌≤◌, length, drop, IfOk, OnOk, OnErr};
ghost use Rattle.reqs_io.specs.Front.{AreAsTold, MayBeLonger, WritesWhole, AppendsFront};

use std::alloc::{AllocError, Global};
use std::error::Error;
use std::fmt;
use std::io::{ErrorKind, Read, Write};

/// The greatest length of an input, in bytes.
pub const INPUT_LIMIT: usize = 16_777_216;

/// The most calls of a reader, including interrupted ones.
pub const ASK_LIMIT: u64 = 33_554_432;

/// The most interrupted writes in a row.
const INTERRUPTION_LIMIT: u32 = 1024;

/// The number of bytes that a reader is asked for at once.
const BUFFER_SIZE: usize = 16_384;

/// Why an input was not read whole.
#[derive(Clone, Copy, Debug, PartialEq, Eq)]
pub enum ReadFault {
    /// The reader failed, or was called too often.
    Read,
    /// The input is longer than its limit.
    TooLong,
    Memory,
}

impl fmt::Display for ReadFault {
    ghost use Rattle.std.specs.Prelude.{Some};
    ghost use Rattle.reqs_io.specs.Faults.{read_fault_text};

    ghost output = { λ fault. Some (read_fault_text fault) };

    fn fmt<W: fmt::Write>(&self, f: &mut fmt::Formatter<W>) -> fmt::Result {
        match self {
            ReadFault::Read => write!(f, "read fault"),
            ReadFault::TooLong => write!(f, "longer than its limit"),
            ReadFault::Memory => write!(f, "out of memory"),
        }
    }
}

impl Error for ReadFault {}

impl From<AllocError> for ReadFault {
    ghost use Rattle.reqs_io.specs.declared.ReadFault.TheVariants.{Memory};

    ghost from_gives = { λ _ fault. fault ≡ Memory };

    fn from(_: AllocError) -> ReadFault {
        ReadFault::Memory
    }
}

/// Reads to the end: at most `limit` bytes, in at most `asks` calls of the reader.
///
/// An interrupted call is repeated. Linear in the input and the number of calls. The contract can't say why a
/// reader failed, nor how often it was called.
///
/// # Errors
///
/// `ReadFault::Read` if the reader fails, or doesn't reach its end in `asks` calls. `ReadFault::TooLong` for
/// an input longer than `limit`. `ReadFault::Memory` when memory runs out.
pub fn read_whole<R: Read>(
    alloc: Global,
    reader: &mut R,
    limit: usize,
    asks: u64,
) -> Result<Vec<u8>, ReadFault>
    ensures bytes { IfOk result (λ bytes. AreAsTold (R.remaining reader.old) bytes.items) }
    ensures within { IfOk result (λ bytes. length bytes.items ≤ limit) }
    ensures too_long { result ≡ Err ReadFault.TooLong → MayBeLonger limit (R.remaining reader.old) }
{
    let mut bytes = Vec::new(alloc);
    let mut buffer = [0u8; BUFFER_SIZE];
    for _ in 0..asks {
        match reader.read(&mut buffer) {
            Ok(0) => return Ok(bytes),
            Ok(count) => {
                if count > limit - bytes.len() {
                    return Err(ReadFault::TooLong);
                }
                bytes.extend_from_slice(&buffer[..count])?;
            }
            Err(error) => {
                if error.kind() != ErrorKind::Interrupted {
                    return Err(ReadFault::Read);
                }
            }
        }
    }
    Err(ReadFault::Read)
}

/// A write failed, wrote nothing, or was interrupted too often in a row.
#[derive(Clone, Copy, Debug, PartialEq, Eq)]
pub struct WriteFault;

impl fmt::Display for WriteFault {
    ghost use Rattle.std.specs.Prelude.{Some};
    ghost use Rattle.reqs_io.specs.Faults.{write_fault_text};

    ghost output = { λ fault. Some write_fault_text };

    fn fmt<W: fmt::Write>(&self, f: &mut fmt::Formatter<W>) -> fmt::Result {
        write!(f, "write fault")
    }
}

impl Error for WriteFault {}

/// Writes the whole text, in as many writes as the writer needs; an empty text makes none. Linear in the text
/// and the number of writes.
///
/// # Errors
///
/// `WriteFault` if a write fails or writes nothing, or for the 1,025th interruption in a row. A proper prefix
/// of the text was written then.
pub fn write_whole<W: Write>(writer: &mut W, text: &[u8]) -> Result<(), WriteFault>
    ensures all { OnOk result (WritesWhole W.contents writer.old writer.new text.now) }
    ensures front { OnErr result (AppendsFront (W.contents writer.old) (W.contents writer.new) text.now) }
{
    let mut rest = text;
    let mut interrupted = 0u32;
    while !rest.is_empty() {
        match writer.write(rest) {
            Ok(0) => return Err(WriteFault),
            Ok(count) => {
                rest = after(rest, count);
                interrupted = 0;
            }
            Err(error) => {
                if error.kind() != ErrorKind::Interrupted || interrupted == INTERRUPTION_LIMIT {
                    return Err(WriteFault);
                }
                interrupted += 1;
            }
        }
    }
    Ok(())
}

/// The bytes after the first `count`.
fn after(bytes: &[u8], count: usize) -> &[u8]
    requires { count ≤ length bytes.now }
    ensures { result.now ≡ drop count bytes.now }
{
    &bytes[count..]
}
