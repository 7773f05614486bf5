//! The texts of arguments.

ghost use Rattle.std.specs.Prelude.{◌≡◌, true, false, IfOk, IfErr};
ghost use Rattle.std.specs.Str.{is_utf8};
ghost use Rattle.std.specs.Str.Lossy.{utf8_valid_len};
ghost use Rattle.reqs_c_reply.specs.Endings.{ending_of, EndsIn, NoAnswer, IsNotText};

use crate::{Ended, Place};
use std::alloc::Global;
use std::str;

/// An argument's bytes as text.
///
/// # Errors
///
/// How the call ends: refused at argument `input`, at the first byte that is not UTF-8, or out of memory.
pub fn text_of(alloc: Global, input: u32, bytes: &[u8]) -> Result<&str, Ended>
    ensures text { IfOk result (λ text. text.now ≡ bytes.now) }
    ensures is_text { IfOk result (λ text. is_utf8 bytes.now ≡ true) }
    ensures no_text { IfErr result (λ ended. EndsIn NoAnswer (IsNotText input bytes.now) (ending_of ended)) }
{
    match str::from_utf8(bytes) {
        Ok(text) => Ok(text),
        Err(error) => Err(not_text(alloc, input, bytes, error.valid_up_to())),
    }
}

/// The end of a call whose argument is not UTF-8 from a byte on.
fn not_text(alloc: Global, input: u32, bytes: &[u8], offset: usize) -> Ended
    requires no_text { is_utf8 bytes.now ≡ false }
    requires stops { offset ≡ utf8_valid_len bytes.now }
    ensures { EndsIn NoAnswer (IsNotText input bytes.now) (ending_of result) }
{
    Ended::refused(
        Place::span(input, offset, 0),
        format!(in alloc; "not UTF-8 at byte {offset}"),
    )
}
