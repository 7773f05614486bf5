//! A text and a place in it, for readers.
//!
//! A place in a text is a type: a text and a byte offset that is between two characters, by an invariant. A
//! refusal is made at a place, so its span is right by type. It borrows the text; the copy for the user's
//! error is made once.

ghost use Rattle.std.specs.Str.{IsCharBoundary};

use crate::{Refusal, RefusalKind};

/// A text and a place in it, between two of its characters or at an end.
#[derive(Debug, Clone, Copy)]
pub struct Cursor<'a> {
    input: &'a str,
    position: usize,
    ghost between: { IsCharBoundary input.now position },
}

impl<'a> Cursor<'a> {
    ghost use Rattle.std.specs.Prelude.{◌≡◌, ℕ, ◌∷◌, ◌++◌, [], length, drop, chars, encode_utf8, IfNone};
    ghost use Rattle.std.specs.Prelude.{IfSome, MatchOption};
    ghost use Rattle.std.specs.Str.{skip_leading_whitespace, IsCharBoundary};
    ghost use Rattle.std.specs.Char.{len_utf8};
    ghost use Rattle.pep508_error.specs.Cursors.{rest_of, first_len, IsBehind};
    ghost use Rattle.pep508_error.specs.Spans.{IsSpan};
    ghost use Rattle.pep508_error.specs.Refusals.{Refuses};

    /// Returns a cursor at the beginning of a text.
    pub fn new(input: &'a str) -> Cursor<'a>
        ensures input { result.input.now ≡ input.now }
        ensures rest { rest_of result ≡ input.now }
    {
        Cursor { input, position: 0 }
    }

    /// Returns the whole text.
    pub fn input(self) -> &'a str
        ensures { result.now ≡ self.entry.input.now }
    {
        self.input
    }

    /// Returns the number of bytes before the place.
    pub fn position(self) -> usize
        ensures { result ≡ self.entry.position }
    {
        self.position
    }

    /// Returns the text after the place.
    pub fn rest(self) -> &'a str
        ensures { result.now ≡ rest_of self.entry }
    {
        &self.input[self.position..]
    }

    /// Returns the place `count` bytes later, which is between characters again.
    pub fn after(self, count: usize) -> Cursor<'a>
        requires { IsCharBoundary (rest_of self) count }
        ensures rest { rest_of result ≡ drop count (rest_of self.entry) }
        ensures behind { IsBehind self.entry result }
    {
        Cursor {
            input: self.input,
            position: self.position + count,
        }
    }

    /// Returns the place after the white space that follows.
    pub fn after_whitespace(self) -> Cursor<'a>
        ensures rest { chars (rest_of result) ≡ skip_leading_whitespace (chars (rest_of self.entry)) }
        ensures behind { IsBehind self.entry result }
    {
        let rest = self.rest().trim_start();
        Cursor {
            input: self.input,
            position: self.input.len() - rest.len(),
        }
    }

    /// Returns the next character, if there is one.
    pub fn peek(self) -> Option<char>
        ensures cases { MatchOption result (chars (rest_of self.entry) ≡ [])
            (λ c. chars (rest_of self.entry) ≡ c ∷ chars (drop (len_utf8 c) (rest_of self.entry))) }
        ensures boundary { IfSome result (λ c. IsCharBoundary (rest_of self.entry) (len_utf8 c)) }
        ensures end { IfNone result (rest_of self.entry ≡ []) }
    {
        self.rest().chars().next()
    }

    /// Returns the next character and the place after it, if there is one.
    pub fn split_first(self) -> Option<(char, Cursor<'a>)>
        ensures cases { MatchOption result (chars (rest_of self.entry) ≡ [])
            (λ found. chars (rest_of self.entry) ≡ found.0 ∷ chars (rest_of found.1)) }
        ensures behind { IfSome result (λ found. IsBehind self.entry found.1) }
    {
        let first = self.peek()?;
        Some((first, self.after(first.len_utf8())))
    }

    /// Returns the place one character earlier, unless this is the text's beginning.
    pub fn before(self) -> Option<Cursor<'a>>
        ensures cases { MatchOption result (self.entry.position ≡ 0)
            (λ earlier. (c : ℕ) × (rest_of earlier ≡ encode_utf8 c ++ rest_of self.entry)) }
        ensures behind { IfSome result (λ earlier. IsBehind earlier self.entry) }
    {
        let input = self.input();
        let last = input[..self.position].chars().next_back()?;
        Some(Cursor {
            input,
            position: self.position - last.len_utf8(),
        })
    }

    /// Returns the refusal of the next `len` bytes, which end between characters.
    pub fn refuse(self, len: usize, kind: RefusalKind) -> Refusal<'a>
        requires { IsCharBoundary (rest_of self) len }
        ensures { Refuses result kind self.entry.input.now self.entry.position len }
    {
        Refusal {
            kind,
            input: self.input,
            start: self.position,
            len,
        }
    }

    /// Returns the refusal of the next character, or of the text's end where there is none.
    pub fn refuse_char(self, kind: RefusalKind) -> Refusal<'a>
        ensures { Refuses result kind self.entry.input.now self.entry.position
            (first_len (rest_of self.entry)) }
    {
        Refusal {
            kind,
            input: self.input,
            start: self.position,
            len: self.first_len(),
        }
    }

    /// Returns the number of bytes of the next character; 1 where there is none.
    fn first_len(self) -> usize
        ensures len { result ≡ first_len (rest_of self.entry) }
        ensures span { IsSpan self.entry.input.now self.entry.position result }
    {
        match self.peek() {
            Some(first) => first.len_utf8(),
            None => 1,
        }
    }

    /// Returns the refusal of the text's end.
    pub fn refuse_end(self, kind: RefusalKind) -> Refusal<'a>
        ensures { Refuses result kind self.entry.input.now (length self.entry.input.now) 1 }
    {
        Refusal {
            kind,
            input: self.input,
            start: self.input.len(),
            len: 1,
        }
    }
}
