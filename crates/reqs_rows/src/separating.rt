//! The text between two rows.

ghost use Rattle.std.specs.Prelude.{◌≡◌, ◌++◌, IfOk, OnOk};
ghost use Rattle.reqs_json.specs.Rows.{between};
ghost use Rattle.reqs_rows.specs.Texts.{HasSeparator, is_later, separation};

use reqs_json::Format;
use reqs_pieces::Pieces;
use std::alloc::AllocError;

/// The number of the piece that separates rows.
pub(crate) const SEPARATOR: usize = 0;

/// Appends what separates the row of a package in its case at `place`, if it has one, from the rows before
/// it, if there are any. Returns whether there are rows before the next package.
pub(crate) fn separate(
    pieces: &mut Pieces,
    format: Format,
    later: bool,
    place: Option<usize>,
) -> Result<bool, AllocError>
    requires { HasSeparator pieces.old.texts }
    ensures kept { pieces.new.texts ≡ pieces.old.texts }
    ensures whole { OnOk result (pieces.new.whole ≡ pieces.old.whole ++ separation format later place) }
    ensures later { IfOk result (λ after. after ≡ is_later later place) }
{
    let Some(_) = place else {
        return Ok(later);
    };
    if later {
        put_separator(pieces, format)?;
    }
    Ok(true)
}

/// Appends what separates two rows.
fn put_separator(pieces: &mut Pieces, format: Format) -> Result<(), AllocError>
    requires { HasSeparator pieces.old.texts }
    ensures kept { pieces.new.texts ≡ pieces.old.texts }
    ensures whole { OnOk result (pieces.new.whole ≡ pieces.old.whole ++ between format) }
{
    match format {
        Format::Text => Ok(()),
        Format::Json => pieces.append(SEPARATOR),
    }
}
