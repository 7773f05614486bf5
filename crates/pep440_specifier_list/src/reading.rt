//! Reading the text of a list.
//!
//! Pieces are read one after another, with their place in bytes. Members stay in the order given until all
//! are read, and are then sorted (`IsInOrder`). Room is reserved for at most four members, and a longer
//! list grows, so that a text of nothing but commas needs no more memory than what was read of it.

ghost use Rattle.std.specs.Prelude.{◌≡◌, [], length, IfErr, IfOk, IsOk};
ghost use Rattle.read_outcome.specs.Outcome.{Answers};
ghost use Rattle.pep440_specifier.specs.SpecifierReading.{specifier_reading};
ghost use Rattle.pep440_specifier_list.specs.Places.{IsPlaced};
ghost use Rattle.pep440_specifier_list.specs.ListReading.{placed_reading, pieces_reading, pieces_of};
ghost use Rattle.pep440_specifier_list.specs.ListReading.{told_list, TellsOrMemory, ReadsList};

use crate::{RefusedPiece, VersionSpecifiers, VersionSpecifiersParseError};
use pep440_specifier::{VersionSpecifier, VersionSpecifierParseError};
use std::alloc::{AllocError, Global};

impl VersionSpecifiers {
    /// Reads specifiers with commas between them, as `>=1.16, <2.0`; the empty text is the empty list (PEP
    /// 440, "Version specifiers").
    ///
    /// Linear in the text, but for sorting the members; takes memory for the members, and none for the
    /// empty text.
    ///
    /// # Errors
    /// `Specifier` with the first piece between commas that is not a specifier; `Memory` where memory ran
    /// out.
    pub fn from_str(
        alloc: Global,
        text: &str,
    ) -> Result<VersionSpecifiers, VersionSpecifiersParseError>
        ensures answered { ReadsList result text.now }
        ensures plain { IfErr result TellsOrMemory }
        ensures empty { length text.now ≡ 0 → IsOk result }
    {
        if text.is_empty() {
            return Ok(VersionSpecifiers::empty(alloc));
        }
        let members = read_members(alloc, text)?;
        match VersionSpecifiers::from_specifiers(alloc, members) {
            Ok(list) => Ok(list),
            Err(_) => Err(VersionSpecifiersParseError::Memory),
        }
    }
}

/// Returns an empty list of members with room for one for each piece between commas, and at most four.
fn few_places(alloc: Global, text: &str) -> Result<Vec<VersionSpecifier>, AllocError>
    ensures { IfOk result (λ places. places.items ≡ []) }
{
    let commas = text.as_bytes().iter().filter(|byte| **byte == b',').count();
    Vec::with_capacity(alloc, commas.min(3) + 1)
}

/// Reads the pieces between commas as members, in the order given.
fn read_members(
    alloc: Global,
    text: &str,
) -> Result<Vec<VersionSpecifier>, VersionSpecifiersParseError>
    ensures answered { Answers (λ members. members.items) told_list result
        (pieces_reading text.now 0 (pieces_of text.now)) }
    ensures plain { IfErr result TellsOrMemory }
{
    let mut members = few_places(alloc, text)?;
    let mut start = 0;
    for piece in text.split(',') {
        let end = start + piece.len();
        members.push(read_piece(alloc, text, piece, start, end)?)?;
        start = end + 1;
    }
    Ok(members)
}

/// Reads the piece of a text, from `start` to `end` in it, as a member.
fn read_piece(
    alloc: Global,
    text: &str,
    piece: &str,
    start: usize,
    end: usize,
) -> Result<VersionSpecifier, VersionSpecifiersParseError>
    requires { IsPlaced text.now start end }
    ensures answered { Answers (λ member. member) told_list result
        (placed_reading text.now start end (specifier_reading piece.now)) }
    ensures plain { IfErr result TellsOrMemory }
{
    match VersionSpecifier::from_str(alloc, piece) {
        Ok(member) => Ok(member),
        Err(VersionSpecifierParseError::Memory) => Err(VersionSpecifiersParseError::Memory),
        Err(error) => Err(VersionSpecifiersParseError::Specifier(RefusedPiece {
            error,
            line: String::from_str(alloc, text)?,
            start,
            end,
        })),
    }
}
