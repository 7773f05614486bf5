//! Refusals at a place, and characters that have to follow it.

ghost use Rattle.std.specs.Prelude.{◌≡◌, ◌==◌, ◌∷◌, false, MatchResult};
ghost use Rattle.pep508_error.specs.Cuts.{begins_by};
ghost use Rattle.pep508_error.specs.Cursors.{behind, IsBehind};
ghost use Rattle.pep508_error.specs.Refusals.{IsOf};
ghost use Rattle.pep508_comparison_parser.specs.SideReading.{Malformed};
ghost use Rattle.pep508_comparison_parser.specs.Outcome.{Fits};

use pep508_error::{Cursor, Refusal, RefusalKind};
use std::alloc::{AllocError, Global};

/// Returns the refusal of a malformed text with this message, or of lack of memory for it.
pub fn malformed(message: Result<String, AllocError>) -> RefusalKind
    ensures { Fits result Malformed }
{
    RefusalKind::string(message)
}

/// Returns the refusal of the text from a place on, up to and without its last character.
pub fn refuse_rest<'a>(place: Cursor<'a>, kind: RefusalKind) -> Refusal<'a>
    ensures kind { result.kind ≡ kind }
    ensures of { IsOf place.entry result }
{
    place.refuse_to(last_of(place), kind)
}

/// Returns the place of the text's last character, or of the end where none follows.
fn last_of(start: Cursor<'_>) -> Cursor<'_>
    ensures { IsBehind start.entry result }
{
    let mut last = start;
    let mut next = start;
    while let Some((_, later)) = next.split_first() {
        last = next;
        next = later;
    }
    last
}

/// Returns the place after a character that has to follow.
///
/// # Errors
/// What follows instead of the character, or lack of memory for the message.
pub fn expect<'a>(alloc: Global, place: Cursor<'a>, wanted: char) -> Result<Cursor<'a>, Refusal<'a>>
    ensures cases { MatchResult result
        (λ later. behind place.entry ≡ wanted ∷ behind later)
        (λ refusal. begins_by (λ c. c == wanted) (behind place.entry) ≡ false) }
    ensures later { MatchResult result (λ later. IsBehind place.entry later)
        (λ refusal. Fits refusal.kind Malformed) }
    ensures of { MatchResult result (λ later. Unit {0}) (λ refusal. IsOf place.entry refusal) }
{
    match place.split_first() {
        Some((c, later)) if c == wanted => Ok(later),
        Some((c, _)) => Err(place.refuse_char(malformed(format!(in alloc;
            "Expected `{wanted}`, found `{c}`"
        )))),
        None => Err(place.refuse_char(malformed(format!(in alloc;
            "Expected '{wanted}', found end of dependency specification"
        )))),
    }
}
