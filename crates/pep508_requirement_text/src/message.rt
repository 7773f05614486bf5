//! The kinds of refusals of a front.

ghost use Rattle.pep508_requirement_text.specs.FrontOutcome.{IsPlain, IsUnsupported};
ghost use Rattle.pep508_error.specs.Refusals.{IsOf};
ghost use Rattle.pep508_error.specs.Cursors.{IsBehind};

use crate::name_end::is_of_name;
use pep508_error::{Cursor, Refusal, RefusalKind};
use std::alloc::{AllocError, Global};

/// Returns the refusal of a malformed text.
pub(crate) fn plain(message: Result<String, AllocError>) -> RefusalKind
    ensures { IsPlain result }
{
    RefusalKind::string(message)
}

/// Returns the refusal of a text that can't be a requirement with a name.
pub(crate) fn unsupported(message: Result<String, AllocError>) -> RefusalKind
    ensures { IsUnsupported result }
{
    RefusalKind::unsupported(message)
}

/// Returns the refusal of a name at a place whose last character is not a letter or digit; `what` is what
/// it names.
pub(crate) fn refuse_last<'a>(alloc: Global, start: Cursor<'a>, what: &str) -> Refusal<'a>
    ensures plain { IsPlain result.kind }
    ensures of { IsOf start.entry result }
{
    let last = last_of_name(start);
    let c = last.peek().unwrap_or('-');
    last.refuse_char(plain(format!(in alloc;
        "{what} name must end with an alphanumeric character, not '{c}'"
    )))
}

/// Returns the place of the last of the next characters that may be in a name.
fn last_of_name(start: Cursor<'_>) -> Cursor<'_>
    ensures { IsBehind start.entry result }
{
    let mut last = start;
    let mut next = start;
    while let Some((c, later)) = next.split_first() {
        if !is_of_name(c) {
            return last;
        }
        last = next;
        next = later;
    }
    last
}
