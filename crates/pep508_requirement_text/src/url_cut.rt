//! Splitting off the text of a URL.

ghost use Rattle.std.specs.Prelude.{◌≡◌};
ghost use Rattle.std.specs.Str.{chars, IsUtf8};
ghost use Rattle.pep508_error.specs.Cursors.{IsBehind, behind, IsAt};
ghost use Rattle.pep508_requirement_text.specs.UrlEnds.{url_split};

use crate::specifiers_or_url::UrlPiece;
use crate::url_end::split_url;
use pep508_error::Cursor;

/// Returns the URL at a place, and the place after it.
pub(crate) fn cut_url<'a>(start: Cursor<'a>, brackets: bool) -> (UrlPiece<'a>, Cursor<'a>)
    ensures parts { (chars result.0.text.now, behind result.1) ≡ url_split brackets 0 (behind start.entry) }
    ensures utf8 { IsUtf8 result.0.text.now }
    ensures at { IsAt result.0.start result.0.text.now }
    ensures start { result.0.start.input.now ≡ start.entry.input.now }
    ensures later { IsBehind start.entry result.1 }
{
    let (text, _) = split_url(start.rest(), brackets);
    (UrlPiece { text, start }, start.pass(text))
}
