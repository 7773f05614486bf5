//! Texts made of pieces, each of which is kept once.

ghost use Rattle.std.specs.Prelude.{◌≡◌, ◌<◌, ◌+◌, ◌++◌, ◌∷◌, [], length, get_or, IfOk, OnOk, OnErr};
ghost use Rattle.std.specs.Prelude.{string_bytes};
ghost use Rattle.reqs_io.specs.Front.{WritesWhole, AppendsFront};

use crate::waiting::add_text;
use reqs_io::{WriteFault, write_whole};
use std::alloc::{AllocError, Global};
use std::io::Write;
use std::marker::Model;

/// A text made of pieces. A piece is kept once, however often it occurs in the text: each occurrence needs
/// four bytes, or eight from the first on whose number 32 bits can't hold.
#[derive(Drop)]
pub struct Pieces {
    texts: Vec<String>,
    /// The numbers of the first occurrences, up to the first that 32 bits can't hold.
    order: Vec<u32>,
    /// The numbers of all occurrences after these.
    later: Vec<usize>,
}

impl Model for Pieces {
    ghost use Rattle.std.specs.Prelude.{◌<◌, ◌++◌, map, length, All};
    ghost use Rattle.std.specs.Prelude.{string_bytes};
    ghost use Rattle.reqs_pieces.specs.Pieces.{PiecesRecord, text_of};

    ghost Value = { PiecesRecord };

    ghost view = { λ p. record {
      texts = map string_bytes p.texts.items;
      whole = text_of (map string_bytes p.texts.items) (p.order.items ++ p.later.items);
    } };

    ghost invariant = { λ p. All (λ piece. piece < length p.texts.items) (p.order.items ++ p.later.items) };
}

impl Pieces {
    /// An empty text without pieces. Reserves memory for `room` occurrences of pieces, if there is that much:
    /// so that appending this many needs no more memory, and never moves them.
    pub fn new(alloc: Global, room: usize) -> Pieces
        ensures texts { result.texts ≡ [] }
        ensures whole { result.whole ≡ [] }
    {
        Pieces {
            texts: Vec::new(alloc),
            order: order_for(alloc, room),
            later: Vec::new(alloc),
        }
    }

    /// Keeps a piece, which doesn't occur in the text yet, and returns its number.
    ///
    /// # Errors
    ///
    /// `AllocError` when memory runs out.
    pub fn add(&mut self, text: String) -> Result<usize, AllocError>
        ensures named { IfOk result (λ piece. piece ≡ length self.old.texts) }
        ensures kept { OnOk result (self.new.texts ≡ self.old.texts ++ string_bytes text ∷ []) }
        ensures whole { OnOk result (self.new.whole ≡ self.old.whole) }
        ensures err { OnErr result (self.new ≡ self.old) }
    {
        let piece = self.texts.len();
        self.texts.push(text)?;
        Ok(piece)
    }

    /// Appends a piece to the text, by its number.
    ///
    /// # Errors
    ///
    /// `AllocError` when memory runs out.
    pub fn append(&mut self, piece: usize) -> Result<(), AllocError>
        requires { piece < length self.old.texts }
        ensures kept { self.new.texts ≡ self.old.texts }
        ensures whole { OnOk result
            (self.new.whole ≡ self.old.whole ++ get_or self.old.texts piece []) }
        ensures err { OnErr result (self.new ≡ self.old) }
    {
        if self.later.is_empty()
            && let Ok(short) = u32::try_from(piece)
        {
            self.order.push(short)?;
            return Ok(());
        }
        self.later.push(piece)?;
        Ok(())
    }

    /// Writes the whole text; an empty one makes no write.
    ///
    /// Pieces are collected in `buffer`, which is cleared first and doesn't grow, until it has no room for
    /// the next one. So writing allocates no memory, and each write but the last fills the buffer up to less
    /// than a piece. Linear in the text and the number of pieces.
    ///
    /// # Errors
    ///
    /// `WriteFault` if the writer fails; a proper prefix of the text was written then.
    pub fn write_through<W: Write>(
        &self,
        buffer: &mut Vec<u8>,
        writer: &mut W,
    ) -> Result<(), WriteFault>
        ensures all { OnOk result (WritesWhole W.contents writer.old writer.new self.now.whole) }
        ensures front { OnErr result
            (AppendsFront (W.contents writer.old) (W.contents writer.new) self.now.whole) }
    {
        let texts = &self.texts;
        let order = &self.order;
        let later = &self.later;
        buffer.clear();
        for at in 0..order.len() + later.len() {
            let text = &texts[piece_at(order, later, at)];
            add_text(writer, buffer, text.as_bytes())?;
        }
        write_whole(writer, buffer)
    }
}

/// The number of the piece at an occurrence.
fn piece_at(order: &[u32], later: &[usize], at: usize) -> usize
    requires { at < length order.now + length later.now }
    ensures { result ≡ get_or (order.now ++ later.now) at 0 }
{
    if at < order.len() {
        order[at] as usize
    } else {
        later[at - order.len()]
    }
}

/// An empty list, with room for `room` occurrences of pieces if there is memory for them.
fn order_for(alloc: Global, room: usize) -> Vec<u32>
    ensures { result.items ≡ [] }
{
    match Vec::with_capacity(alloc, room) {
        Ok(order) => order,
        Err(_) => Vec::new(alloc),
    }
}
