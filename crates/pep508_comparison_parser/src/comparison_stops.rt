//! The characters that end the pieces of a comparison.
//!
//! What ends a piece is an enum, so that one function cuts all pieces and is proved once.

ghost use Rattle.pep508_comparison_parser.specs.Stops.{stops_at};

use pep508_error::Stop;

/// A kind of character that ends a piece.
#[derive(Clone, Copy)]
pub(crate) enum PieceEnd {
    /// A character that ends a key.
    Key,
    /// A character that ends an operator of letters.
    Word,
    /// A character that is not a sign of an operator.
    Signs,
}

impl Stop for PieceEnd {
    ghost stops = { stops_at };

    fn is_at(self, c: char) -> bool {
        match self {
            PieceEnd::Key => c.is_whitespace()
                || c == '>'
                || c == '='
                || c == '<'
                || c == '!'
                || c == '~'
                || c == ')',
            PieceEnd::Word => c.is_whitespace() || c == '\'' || c == '"',
            PieceEnd::Signs => !(c == '<' || c == '=' || c == '>' || c == '~' || c == '!'),
        }
    }
}
