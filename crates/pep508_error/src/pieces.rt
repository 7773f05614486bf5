//! Pieces of the text after a place, and refusals of them.

use crate::piece_stops::split;
use crate::{Cursor, Refusal, RefusalKind, Stop};

impl<'a> Cursor<'a> {
    ghost use Rattle.std.specs.Prelude.{◌≡◌, ◌==◌, ◌++◌, ◌∷◌, false, option_map, MatchOption, IfSome};
    ghost use Rattle.pep508_error.specs.Cuts.{begins_by, encoded_cut, cut_around};
    ghost use Rattle.pep508_error.specs.Cursors.{rest_of, behind, IsAt, IsBehind};
    ghost use Rattle.pep508_error.specs.Refusals.{IsOf};

    /// Returns the place after a text that follows.
    pub fn pass(self, text: &str) -> Cursor<'a>
        requires { IsAt self text.now }
        ensures whole { rest_of self.entry ≡ text.now ++ rest_of result }
        ensures behind { IsBehind self.entry result }
    {
        self.after(text.len())
    }

    /// Returns the place after a character, where that follows.
    pub fn strip(self, at: char) -> Option<Cursor<'a>>
        ensures parts { MatchOption result (begins_by (λ c. c == at) (behind self.entry) ≡ false)
            (λ later. behind self.entry ≡ at ∷ behind later) }
        ensures later { IfSome result (IsBehind self.entry) }
    {
        match self.split_first() {
            Some((c, later)) if c == at => Some(later),
            _ => None,
        }
    }

    /// Returns the text before the first character of a kind, and the place of that character or of the
    /// end.
    pub fn cut<S: Stop + Copy>(self, stop: S) -> (&'a str, Cursor<'a>)
        ensures parts { (result.0.now, behind result.1) ≡ encoded_cut (S.stops stop) (behind self.entry) }
        ensures at { IsAt self.entry result.0.now }
        ensures later { IsBehind self.entry result.1 }
    {
        let (front, _) = split(self.rest(), stop);
        (front, self.pass(front))
    }

    /// Returns the text before the first occurrence of a character and the place after that, where there is
    /// one.
    pub fn cut_around(self, at: char) -> Option<(&'a str, Cursor<'a>)>
        ensures parts { option_map (λ found. (found.0.now, behind found.1)) result
            ≡ cut_around at (behind self.entry) }
        ensures at { IfSome result (λ found. IsAt self.entry found.0.now) }
        ensures later { IfSome result (λ found. IsBehind self.entry found.1) }
    {
        let (front, rest) = self.cut(at);
        match rest.split_first() {
            Some((_, later)) => Some((front, later)),
            None => None,
        }
    }

    /// Returns the refusal of the text between this place and a later one.
    pub fn refuse_to(self, end: Cursor<'a>, kind: RefusalKind) -> Refusal<'a>
        requires { IsBehind self end }
        ensures kind { result.kind ≡ kind }
        ensures of { IsOf self.entry result }
    {
        self.refuse(end.position() - self.position(), kind)
    }

    /// Returns the refusal of no text, at this place.
    pub fn refuse_none(self, kind: RefusalKind) -> Refusal<'a>
        ensures kind { result.kind ≡ kind }
        ensures of { IsOf self.entry result }
    {
        self.refuse_to(self, kind)
    }
}
