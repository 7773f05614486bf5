//! The piece that makes a text not a list.
//!
//! The piece is a struct with a ghost field and not a model, since errors derive their equality.

ghost use Rattle.std.specs.Prelude.{◌≢◌, None};
ghost use Rattle.std.specs.String.{string_bytes};
ghost use Rattle.pep440_specifier.specs.SpecifierReading.{told_specifier};
ghost use Rattle.pep440_specifier_list.specs.Places.{IsPlaced};

use pep440_specifier::VersionSpecifierParseError;
use underline::{Underlined, columns};

/// The first piece between commas that is not a specifier: what is wrong with it, and where in the text it
/// is.
#[derive(Debug, PartialEq, Eq, Drop)]
pub struct RefusedPiece {
    pub(crate) error: VersionSpecifierParseError,
    pub(crate) line: String,
    pub(crate) start: usize,
    pub(crate) end: usize,
    pub(crate) ghost placed: { IsPlaced (string_bytes line) start end },
    pub(crate) ghost plain: { told_specifier error ≢ None },
}

impl RefusedPiece {
    ghost use Rattle.std.specs.Prelude.{◌≡◌, ◌≢◌, ◌-◌, None, take, drop};
    ghost use Rattle.std.specs.String.{string_bytes};
    ghost use Rattle.underline.specs.Underline.{columns};
    ghost use Rattle.pep440_specifier.specs.SpecifierReading.{told_specifier};
    ghost use Rattle.pep440_specifier_list.specs.Places.{IsPlaced};
    ghost use Rattle.pep440_specifier_list.specs.ListErrors.{piece_columns};

    /// Returns what is wrong with the piece; never lack of memory.
    pub fn error(&self) -> &VersionSpecifierParseError
        ensures error { result.now ≡ self.now.error }
        ensures plain { told_specifier self.now.error ≢ None }
    {
        &self.error
    }

    /// Returns the whole text.
    pub fn line(&self) -> &str
        ensures { result.now ≡ string_bytes self.now.line }
    {
        self.line.as_str()
    }

    /// Returns where the piece begins in the text, in bytes.
    pub fn start(&self) -> usize
        ensures start { result ≡ self.now.start }
        ensures placed { IsPlaced (string_bytes self.now.line) self.now.start self.now.end }
    {
        self.start
    }

    /// Returns where the piece ends in the text, in bytes.
    pub fn end(&self) -> usize
        ensures end { result ≡ self.now.end }
        ensures placed { IsPlaced (string_bytes self.now.line) self.now.start self.now.end }
    {
        self.end
    }

    /// Returns the piece itself. Takes no memory.
    pub fn piece(&self) -> &str
        ensures { result.now
            ≡ take (self.now.end - self.now.start) (drop self.now.start (string_bytes self.now.line)) }
    {
        &self.line.as_str()[self.start..self.end]
    }

    /// Returns the whole text with the piece underlined. Takes no memory.
    pub fn underlined(&self) -> Underlined<'_>
        ensures text { result.text.now ≡ string_bytes self.now.line }
        ensures blanks { result.blanks ≡ columns (take self.now.start (string_bytes self.now.line)) }
        ensures marks { result.marks
            ≡ piece_columns (string_bytes self.now.line) self.now.start self.now.end }
    {
        Underlined {
            text: self.line(),
            blanks: columns(&self.line()[..self.start]),
            marks: columns(self.piece()),
        }
    }
}
