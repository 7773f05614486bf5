//! The lines of a list, without their ends and comments.

ghost use Rattle.std.specs.Prelude.{◌≡◌, IfOk, OnOk, IfErr};
ghost use Rattle.std.specs.Str.{IsUtf8};
ghost use Rattle.std.specs.Str.Lossy.{utf8_valid_len};
ghost use Rattle.std.specs.Str.Lines.{strip_carriage_return};
ghost use Rattle.reqtable_candidates.specs.TextLines.{without_comment, is_blank};

use std::str;

/// The bytes as text.
///
/// # Errors
///
/// The offset of the first byte that is not UTF-8, from 0.
pub fn as_text(bytes: &[u8]) -> Result<&str, usize>
    ensures text { IfOk result (λ text. text.now ≡ bytes.now) }
    ensures is_text { OnOk result (IsUtf8 bytes.now) }
    ensures no_text { IfErr result (λ offset. (IsUtf8 bytes.now → ⊥) × (offset ≡ utf8_valid_len bytes.now)) }
{
    match str::from_utf8(bytes) {
        Ok(text) => Ok(text),
        Err(error) => Err(error.valid_up_to()),
    }
}

/// A line without its comment and without a carriage return at its end.
pub fn line_text(line: &str) -> &str
    ensures { result.now ≡ without_comment (strip_carriage_return line.now) }
{
    without_comment(strip_carriage_return(line))
}

fn strip_carriage_return(line: &str) -> &str
    ensures { result.now ≡ strip_carriage_return line.now }
{
    line.strip_suffix('\r').unwrap_or(line)
}

/// Whether a line has only white space.
pub fn is_blank(line: &str) -> bool
    ensures { result ≡ is_blank line.now }
{
    line.trim_start().is_empty()
}

/// What is before the comment, if there is one; otherwise the whole line.
fn without_comment(line: &str) -> &str
    ensures { result.now ≡ without_comment line.now }
{
    if !line.contains('#') {
        return line;
    }
    before_comment(line)
}

fn before_comment(line: &str) -> &str
    ensures { result.now ≡ without_comment line.now }
{
    let mut begins = true;
    for (at, c) in line.char_indices() {
        if begins && c == '#' {
            return &line[..at];
        }
        begins = c.is_whitespace();
    }
    line
}
