//! Bytes that are collected in a buffer before they are written.
//!
//! The text is written once everything is decided, and no memory is requested from then on: pieces wait in
//! a buffer that is made before the first write, so a command that is refused memory has written nothing. A
//! standard buffer grows, or flushes when dropped, and could promise neither.

ghost use Rattle.std.specs.Prelude.{◌≡◌, ◌≤◌, ◌+◌, ◌++◌, length, OnOk, OnErr, vec_len};
ghost use Rattle.std.specs.Vec.{vec_capacity};
ghost use Rattle.reqs_io.specs.Front.{AppendsFront};
ghost use Rattle.reqs_pieces.specs.Waiting.{IsWaiting};

use reqs_io::{WriteFault, write_whole};
use std::io::Write;

/// Appends a text to the buffer, which is written and cleared before if it has no room for the text. Writes a
/// text that is longer than the buffer directly.
pub(crate) fn add_text<W: Write>(
    writer: &mut W,
    buffer: &mut Vec<u8>,
    text: &[u8],
) -> Result<(), WriteFault>
    ensures waits { OnOk result
        (IsWaiting W.contents writer.old writer.new buffer.new.items (buffer.old.items ++ text.now)) }
    ensures front { OnErr result (AppendsFront (W.contents writer.old) (W.contents writer.new)
        (buffer.old.items ++ text.now)) }
{
    if text.len() <= buffer.capacity() - buffer.len() {
        keep(buffer, text);
        return Ok(());
    }
    match write_whole(writer, buffer) {
        Ok(()) => {
            buffer.clear();
            start(writer, buffer, text)
        }
        Err(fault) => Err(fault),
    }
}

/// Keeps a text in an empty buffer, or writes it if it is longer than the buffer.
fn start<W: Write>(writer: &mut W, buffer: &mut Vec<u8>, text: &[u8]) -> Result<(), WriteFault>
    requires { vec_len buffer.old ≡ 0 }
    ensures waits { OnOk result (IsWaiting W.contents writer.old writer.new buffer.new.items text.now) }
    ensures front { OnErr result
        (AppendsFront (W.contents writer.old) (W.contents writer.new) text.now) }
{
    if text.len() <= buffer.capacity() {
        keep(buffer, text);
        return Ok(());
    }
    write_whole(writer, text)
}

/// Appends a text to a buffer that has room for it.
fn keep(buffer: &mut Vec<u8>, text: &[u8])
    requires { vec_len buffer.old + length text.now ≤ vec_capacity buffer.old }
    ensures { buffer.new.items ≡ buffer.old.items ++ text.now }
{
    match buffer.extend_from_slice(text) {
        Ok(()) => {}
        Err(_) => unreachable!(),
    }
}
