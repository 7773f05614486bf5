//! The caller's buffer.

ghost use Rattle.std.specs.Prelude.{◌≡◌};
ghost use Rattle.reqs_c_reply.specs.Endings.{written};

/// Copies the prefix of a text that fits into a buffer, and leaves the rest of the buffer unchanged.
pub fn write_front(text: &[u8], buffer: &mut [u8])
    ensures { buffer.new ≡ written text.now buffer.old }
{
    let fits = text.len().min(buffer.len());
    buffer[..fits].copy_from_slice(&text[..fits]);
}
