//! The words between the parts of a marker: `and` and `or`.
//!
//! The word between two pieces is a value (`Word`), so that one function looks for both words and one joins
//! the trees of both kinds of chains.

ghost use Rattle.std.specs.Prelude.{◌≡◌, ◌≢◌, ℕ, List, ◌++◌, IfSome, MatchOption};
ghost use Rattle.std.specs.Option.{is_some};
ghost use Rattle.pep508_error.specs.Cursors.{IsBehind, behind};
ghost use Rattle.pep508_marker_parser.specs.MarkerReading.{word_of, is_next, behind_run, run_ends};
ghost use Rattle.pep508_marker_parser.specs.TreeReading.{connective};

use pep508_error::Cursor;

/// A word between the parts of a marker.
#[derive(Clone, Copy, PartialEq, Eq)]
pub(crate) enum Word {
    And,
    Or,
}

impl Word {
    /// Returns the word as it is written.
    fn text(self) -> &'static str
        ensures { result.now ≡ word_of (connective self) }
    {
        match self {
            Word::And => "and",
            Word::Or => "or",
        }
    }

    /// Returns the place after the word, where it is followed by white space or the end.
    ///
    /// Looks no further than one character past the word.
    pub fn pass<'a>(self, place: Cursor<'a>) -> Option<Cursor<'a>>
        ensures next { is_some result ≡ is_next (connective self) (behind place.entry) }
        ensures later { IfSome result (λ later. behind later ≡ behind_run (behind place.entry)) }
        ensures stays { IfSome result (IsBehind place.entry) }
    {
        let Some(later) = self.strip(place.after_whitespace()) else {
            return None;
        };
        if ends_run(later) { Some(later) } else { None }
    }

    /// Returns the place after the word's text, where that is next.
    fn strip<'a>(self, place: Cursor<'a>) -> Option<Cursor<'a>>
        ensures found { MatchOption result
            ((later : List ℕ) → behind place.entry ≢ word_of (connective self) ++ later)
            (λ later. behind place.entry ≡ word_of (connective self) ++ behind later) }
        ensures stays { IfSome result (IsBehind place.entry) }
    {
        let word = self.text();
        if place.rest().starts_with(word) {
            Some(place.after(word.len()))
        } else {
            None
        }
    }
}

/// Returns whether a run of characters ends here, at white space or at the text's end.
fn ends_run(place: Cursor<'_>) -> bool
    ensures { result ≡ run_ends (behind place.entry) }
{
    match place.peek() {
        Some(first) => first.is_whitespace(),
        None => true,
    }
}
