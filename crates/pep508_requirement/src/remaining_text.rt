//! Refusals of text that is left after a requirement and is not a marker.
//!
//! What begins no marker is malformed as a malformed marker is: both are refused by a message, so
//! `marker_behind` has one reason for them. `Missing space before` is decided by the URL's print, and shows
//! the last character of the URL's text.

ghost use Rattle.pep508_error.specs.Cursors.{IsBehind};
ghost use Rattle.pep508_requirement_text.specs.FrontOutcome.{IsPlain};
ghost use Rattle.pep508_error.specs.Refusals.{IsOf};

use pep508_error::{Cursor, Refusal, RefusalKind};
use std::alloc::Global;

/// Returns the refusal of the first character that is left, or of the last of a URL whose end isn't clear.
pub(crate) fn refuse_first<'a>(
    alloc: Global,
    mark: Option<char>,
    rest: Cursor<'a>,
    left: Cursor<'a>,
    first: char,
) -> Refusal<'a>
    requires { IsBehind rest left }
    ensures plain { IsPlain result.kind }
    ensures of { IsOf rest.entry result }
{
    match mark {
        Some(mark) => refuse_mark(alloc, rest, mark),
        None => left.refuse_char(RefusalKind::string(format!(in alloc;
            "Expected end of input or `;`, found `{first}`"
        ))),
    }
}

/// Returns the refusal of the last character before a place.
fn refuse_mark<'a>(alloc: Global, rest: Cursor<'a>, mark: char) -> Refusal<'a>
    ensures plain { IsPlain result.kind }
    ensures of { IsOf rest.entry result }
{
    let place = rest.before().unwrap_or(rest);
    place.refuse_char(RefusalKind::string(format!(in alloc;
        "Missing space before '{mark}', the end of the URL is ambiguous"
    )))
}

/// Returns the `;` or `#` with which a text ends, where it does.
pub(crate) fn last_mark(text: &str) -> Option<char> {
    [';', '#'].into_iter().find(|mark| text.ends_with(*mark))
}
