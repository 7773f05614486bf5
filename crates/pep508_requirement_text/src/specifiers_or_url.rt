//! The specifiers or the URL after a name and its extras.

ghost use Rattle.std.specs.Prelude.{length};
ghost use Rattle.std.specs.Str.{IsCharBoundary};
ghost use Rattle.pep508_error.specs.Cursors.{rest_of};

use pep440_specifier_list::VersionSpecifiers;
use pep508_error::Cursor;

/// The text of a URL, and its place.
#[derive(Clone, Copy)]
pub struct UrlPiece<'a> {
    pub text: &'a str,
    pub start: Cursor<'a>,
    pub ghost placed: { IsCharBoundary (rest_of start) (length text.now) },
}

/// The versions or the URL that a requirement's text requires.
#[derive(Drop)]
pub enum Source<'a> {
    /// Any version.
    Any,
    /// Specifiers, by version.
    Specifiers(VersionSpecifiers),
    /// The text of a URL.
    Url(UrlPiece<'a>),
}
