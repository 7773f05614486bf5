//! A cache of pieces, by the indices of cases.

ghost use Rattle.std.specs.Prelude.{◌≡◌, ◌⊎◌, ◌<◌, ℕ, get_or, [], Some, None, OnOk, vec_len};
ghost use Rattle.reqs_rows.specs.Seen.{pieces_of};

use std::alloc::{AllocError, Global};

/// The cached pieces of a package's rows, by the indices of its cases.
#[derive(Drop)]
pub(crate) struct Known {
    pub(crate) pieces: Vec<Option<usize>>,
}

/// The cached piece of the row in the case at an index.
pub(crate) fn piece_at(pieces: &[Option<usize>], place: usize) -> Option<usize>
    ensures { result ≡ get_or pieces.now place None }
{
    if place < pieces.len() {
        pieces[place]
    } else {
        None
    }
}

/// Caches the piece of the row in the case at an index. Needs memory for the cases up to that one.
pub(crate) fn keep(
    pieces: &mut Vec<Option<usize>>,
    place: usize,
    piece: usize,
) -> Result<(), AllocError>
    ensures kept { OnOk result (get_or pieces.new.items place None ≡ Some piece) }
    ensures known { OnOk result ((at found : ℕ) → get_or pieces.new.items at None ≡ Some found →
        ((at ≡ place) × (piece ≡ found)) ⊎ (get_or pieces.old.items at None ≡ Some found)) }
{
    pad(pieces, place)?;
    pieces[place] = Some(piece);
    Ok(())
}

/// Extends the list to contain an index; nothing is cached at the new indices.
fn pad(pieces: &mut Vec<Option<usize>>, place: usize) -> Result<(), AllocError>
    ensures within { OnOk result (place < vec_len pieces.new) }
    ensures same { OnOk result
        ((at : ℕ) → get_or pieces.new.items at None ≡ get_or pieces.old.items at None) }
{
    while pieces.len() <= place {
        pieces.push(None)?;
    }
    Ok(())
}

/// Extends the list to contain the package at an index; nothing is cached for the new packages.
pub(crate) fn reach(alloc: Global, known: &mut Vec<Known>, index: usize) -> Result<(), AllocError>
    ensures within { OnOk result (index < vec_len known.new) }
    ensures same { OnOk result ((at : ℕ) →
        get_or (pieces_of known.new.items) at [] ≡ get_or (pieces_of known.old.items) at []) }
{
    while known.len() <= index {
        let pieces = Vec::new(alloc);
        known.push(Known { pieces })?;
    }
    Ok(())
}
