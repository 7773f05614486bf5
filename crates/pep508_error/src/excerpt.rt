//! A text and a part of it.
//!
//! The text and the part at fault are one private value with the invariant that the part is on whole
//! characters. A part at the text's end has length 1 at most and is underlined by one `^`. An error for
//! lack of memory has the empty text.

ghost use Rattle.std.specs.String.{string_bytes};
ghost use Rattle.pep508_error.specs.Spans.{IsSpan};

use underline::{Underlined, columns};

/// A text of its own and the part of it that an error shows, in bytes.
#[derive(Debug, Drop)]
pub(crate) struct Excerpt {
    pub(crate) input: String,
    pub(crate) start: usize,
    pub(crate) len: usize,
    pub(crate) ghost placed: { IsSpan (string_bytes input) start len },
}

impl Excerpt {
    ghost use Rattle.std.specs.Prelude.{◌≡◌, take};
    ghost use Rattle.std.specs.String.{string_bytes};
    ghost use Rattle.underline.specs.Underline.{columns};
    ghost use Rattle.pep508_error.specs.Errors.{marks_under};

    /// Returns the text with the part underlined.
    pub(crate) fn underlined(&self) -> Underlined<'_>
        ensures text { result.text.now ≡ string_bytes self.now.input }
        ensures blanks { result.blanks ≡ columns (take self.now.start (string_bytes self.now.input)) }
        ensures marks { result.marks ≡ marks_under (string_bytes self.now.input) self.now.start self.now.len }
    {
        let text = self.input.as_str();
        let marks = if self.start == text.len() {
            1
        } else {
            columns(&text[self.start..self.start + self.len])
        };
        Underlined {
            text,
            blanks: columns(&text[..self.start]),
            marks,
        }
    }
}
