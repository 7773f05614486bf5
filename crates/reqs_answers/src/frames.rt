//! The text before and after the rows of environments, in a format; in JSON also the object around all.

ghost use Rattle.std.specs.Prelude.{◌≡◌, ◌++◌, ◌∷◌, [], IfOk, OnOk, string_bytes};
ghost use Rattle.reqs_json.specs.declared.format.Format.TheVariants.{Json};
ghost use Rattle.serde_json.specs.Written.{comma_if};
ghost use Rattle.reqs_rows.specs.Texts.{Grow};
ghost use Rattle.reqs_answers.specs.Frames.{opening, head, foot, closing};

use reqs_json::Format;
use reqs_pieces::Pieces;
use std::alloc::{AllocError, Global};

/// Appends the text before all environments.
pub(crate) fn put_opening(
    alloc: Global,
    format: Format,
    text: &mut Pieces,
) -> Result<(), AllocError>
    ensures whole { OnOk result (text.new.whole ≡ text.old.whole ++ opening format) }
    ensures grow { OnOk result (Grow text.old.texts text.new.texts) }
{
    match format {
        Format::Text => Ok(()),
        Format::Json => put_str(alloc, text, "{\"environments\":["),
    }
}

/// Appends the text before the rows of the environment with this number.
pub(crate) fn put_head(
    alloc: Global,
    format: Format,
    text: &mut Pieces,
    number: usize,
) -> Result<(), AllocError>
    ensures whole { OnOk result (text.new.whole ≡ text.old.whole ++ head format number) }
    ensures grow { OnOk result (Grow text.old.texts text.new.texts) }
{
    let piece = head_text(alloc, format, number)?;
    put(text, piece)
}

/// The text before the rows of the environment with this number.
fn head_text(alloc: Global, format: Format, number: usize) -> Result<String, AllocError>
    ensures { IfOk result (λ text. string_bytes text ≡ head format number) }
{
    match format {
        Format::Text => format!(in alloc; "env {number}\n"),
        Format::Json => object_head(alloc, number),
    }
}

/// The start of the object of the environment with this number, after a comma if it isn't the first.
fn object_head(alloc: Global, number: usize) -> Result<String, AllocError>
    ensures { IfOk result (λ text. string_bytes text ≡ head Json number) }
{
    let comma = comma_if(number > 1);
    format!(in alloc; "{comma}{{\"number\":{number},\"packages\":[")
}

/// A comma if something comes before, otherwise nothing.
fn comma_if(later: bool) -> &'static str
    ensures { result.now ≡ comma_if later }
{
    if later { "," } else { "" }
}

/// Appends the text after the rows of an environment.
pub(crate) fn put_foot(alloc: Global, format: Format, text: &mut Pieces) -> Result<(), AllocError>
    ensures whole { OnOk result (text.new.whole ≡ text.old.whole ++ foot format) }
    ensures grow { OnOk result (Grow text.old.texts text.new.texts) }
{
    match format {
        Format::Text => Ok(()),
        Format::Json => put_str(alloc, text, "]}"),
    }
}

/// Appends the text after the last environment.
pub(crate) fn put_closing(
    alloc: Global,
    format: Format,
    text: &mut Pieces,
) -> Result<(), AllocError>
    ensures { OnOk result (text.new.whole ≡ text.old.whole ++ closing format) }
{
    match format {
        Format::Text => Ok(()),
        Format::Json => put_str(alloc, text, "]}\n"),
    }
}

/// Appends a copy of a text as a new piece.
fn put_str(alloc: Global, text: &mut Pieces, shown: &str) -> Result<(), AllocError>
    ensures whole { OnOk result (text.new.whole ≡ text.old.whole ++ shown.now) }
    ensures grow { OnOk result (Grow text.old.texts text.new.texts) }
{
    let piece = String::from_str(alloc, shown)?;
    put(text, piece)
}

/// Appends a new piece to a text.
fn put(text: &mut Pieces, piece: String) -> Result<(), AllocError>
    ensures whole { OnOk result (text.new.whole ≡ text.old.whole ++ string_bytes piece) }
    ensures grow { OnOk result (Grow text.old.texts text.new.texts) }
{
    let place = text.add(piece)?;
    text.append(place)
}
