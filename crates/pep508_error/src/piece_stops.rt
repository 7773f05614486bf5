//! The characters that end a piece of a text.
//!
//! What ends a piece is a trait: a character, white space, or a class of characters of the reader's own. So
//! cutting is written and proved once, for readers of fronts and of comparisons.

ghost use Rattle.std.specs.Prelude.{◌≡◌, ◌++◌};
ghost use Rattle.std.specs.Str.{chars};
ghost use Rattle.pep508_error.specs.Cuts.{encoded_cut};

/// A kind of character that ends a piece of a text.
pub trait Stop {
    ghost use Rattle.std.specs.Prelude.{◌≡◌, ℕ, Bool};

    /// Which characters are of this kind.
    ghost stops: { Self → ℕ → Bool };

    /// Returns whether a character is of this kind.
    fn is_at(self, c: char) -> bool
        ensures { result ≡ stops self c };
}

/// A character ends a piece where it occurs itself.
impl Stop for char {
    ghost use Rattle.std.specs.Prelude.{◌==◌};

    ghost stops = { λ stop c. c == stop };

    fn is_at(self, c: char) -> bool {
        c == self
    }
}

/// White space as the end of a piece.
#[derive(Clone, Copy, Debug)]
pub struct Space;

impl Stop for Space {
    ghost use Rattle.std.specs.Char.{is_whitespace};

    ghost stops = { λ stop c. is_whitespace c };

    fn is_at(self, c: char) -> bool {
        c.is_whitespace()
    }
}

/// Returns the text before the first character of a kind, and the text from it on.
pub fn split<S: Stop + Copy>(text: &str, stop: S) -> (&str, &str)
    ensures parts { (result.0.now, chars result.1.now) ≡ encoded_cut (S.stops stop) (chars text.now) }
    ensures whole { text.now ≡ result.0.now ++ result.1.now }
{
    match text.find(|c: char| stop.is_at(c)) {
        Some(end) => text.split_at(end),
        None => (text, ""),
    }
}
