//! The characters of a name, and those that end it.

ghost use Rattle.std.specs.Prelude.{◌≡◌};
ghost use Rattle.pep508_name.specs.Name.{is_name_byte};

use pep508_error::Stop;

/// A character that may not be in a name, as the end of a piece.
#[derive(Clone, Copy)]
pub(crate) struct NameEnd;

impl Stop for NameEnd {
    ghost use Rattle.std.specs.Prelude.{not};

    ghost stops = { λ stop c. not (is_name_byte c) };

    fn is_at(self, c: char) -> bool {
        !is_of_name(c)
    }
}

/// Returns whether a character may be in a name.
pub(crate) fn is_of_name(c: char) -> bool
    ensures { result ≡ is_name_byte c }
{
    c.is_ascii_alphanumeric() || c == '-' || c == '_' || c == '.'
}
