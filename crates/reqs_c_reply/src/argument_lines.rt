//! The lines of a text.

ghost use Rattle.std.specs.Prelude.{◌≡◌, ◌==◌, IfOk, map};
ghost use Rattle.std.specs.List.{slice_split};
ghost use Rattle.reqs_c_reply.specs.Lines.{batch_lines, filled_lines, without_last_feed};

use std::alloc::{AllocError, Global};

/// The lines of a text, which end in line feeds; the last may be without one. Needs memory for references to
/// the lines.
///
/// # Errors
///
/// `AllocError` when memory runs out.
#[tactic(auto, unfolding(crate::specs::Lines::batch_lines))]
pub fn batch_lines(alloc: Global, text: &[u8]) -> Result<Vec<&[u8]>, AllocError>
    ensures { IfOk result (λ lines. map (λ line. line.now) lines.items ≡ batch_lines text.now) }
{
    if text.is_empty() {
        return Ok(Vec::new(alloc));
    }
    pieces(alloc, without_last_feed(text))
}

/// The pieces of a text between line feeds.
fn pieces(alloc: Global, text: &[u8]) -> Result<Vec<&[u8]>, AllocError>
    ensures { IfOk result (λ pieces. map (λ piece. piece.now) pieces.items
        ≡ slice_split (λ b. b == 10) text.now) }
{
    text.split(|byte| *byte == b'\n').collect(alloc)
}

/// The text without the line feed at its end, if there is one.
fn without_last_feed(text: &[u8]) -> &[u8]
    ensures { result.now ≡ without_last_feed text.now }
{
    if text.last() == Some(&b'\n') {
        &text[..text.len() - 1]
    } else {
        text
    }
}

/// The lines of a text that aren't empty. Needs memory for references to the lines.
///
/// # Errors
///
/// `AllocError` when memory runs out.
#[tactic(auto, unfolding(crate::specs::Lines::filled_lines))]
pub fn filled_lines(alloc: Global, text: &str) -> Result<Vec<&str>, AllocError>
    ensures { IfOk result (λ lines. map (λ line. line.now) lines.items ≡ filled_lines text.now) }
{
    text.split('\n')
        .filter(|line| !line.is_empty())
        .collect(alloc)
}
