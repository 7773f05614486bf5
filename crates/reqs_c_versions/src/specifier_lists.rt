//! Lists of specifiers.

ghost use Rattle.std.specs.Prelude.{◌≡◌, map, IfOk, IfErr, string_bytes};
ghost use Rattle.pep440_specifier.specs.SpecifierPrint.{specifier_text};
ghost use Rattle.reqs_c_reply.specs.Endings.{EndsIn, NoAnswer, RepliesAs, ending_of};
ghost use Rattle.reqs_c_reply.specs.Lines.{batch_lines};
ghost use Rattle.reqs_c_versions.specs.Specifiers.{IsListIn, RefusesList, SpecifiersEnd, TakesEnd};
ghost use Rattle.reqs_c_versions.specs.Specifiers.{as_lines, taken_mark};
ghost use Rattle.reqs_c_versions.specs.Versions.{version_in};

use crate::version_answers::read_version;
use pep440_specifier_list::{VersionSpecifiers, VersionSpecifiersParseError};
use reqs_c_reply::{Ended, Place, Reply, batch_lines, text_of};
use std::alloc::{AllocError, Global};
use std::fmt::Write;

/// The list of specifiers in an argument.
///
/// # Errors
///
/// How the call ends: refused at argument `input` for the first invalid specifier, or out of memory.
pub fn read_list(alloc: Global, input: u32, bytes: &[u8]) -> Result<VersionSpecifiers, Ended>
    ensures list { IfOk result (λ list. IsListIn bytes.now list) }
    ensures none { IfErr result (λ ended. EndsIn NoAnswer (RefusesList input bytes.now) (ending_of ended)) }
{
    let text = text_of(alloc, input, bytes)?;
    match VersionSpecifiers::from_str(alloc, text) {
        Ok(list) => Ok(list),
        Err(VersionSpecifiersParseError::Memory) => Err(Ended::OutOfMemory),
        Err(VersionSpecifiersParseError::Specifier(piece)) => {
            let start = piece.start();
            let place = Place::span(input, start, piece.end() - start);
            Err(Ended::refused(place, piece.error().to_string(alloc)))
        }
    }
}

/// Replies with the specifiers of a list, one per line, in the order of their versions. Linear in the text,
/// except for sorting the specifiers.
///
/// # Errors
///
/// Refuses the first piece between commas that is not a specifier. Status 3 when memory runs out.
pub fn specifiers(alloc: Global, bytes: &[u8], out: &mut [u8]) -> Reply
    ensures { RepliesAs (SpecifiersEnd bytes.now) out.old out.new result }
{
    members(alloc, bytes).reply(out)
}

/// The end of the call that replies with the specifiers.
fn members(alloc: Global, bytes: &[u8]) -> Ended
    ensures { SpecifiersEnd bytes.now (ending_of result) }
{
    match read_list(alloc, 1, bytes) {
        Ok(list) => Ended::answered(member_lines(alloc, &list)),
        Err(ended) => ended,
    }
}

/// The texts of the specifiers, one per line.
fn member_lines(alloc: Global, list: &VersionSpecifiers) -> Result<String, AllocError>
    ensures { IfOk result (λ text. string_bytes text ≡ as_lines (map specifier_text list.now)) }
{
    let mut text = String::new(alloc);
    for member in list.as_slice() {
        writeln!(text, "{member}")?;
    }
    Ok(text)
}

/// Replies with a byte for each line of `versions`: `1` if the list accepts the version on the line, `0` if
/// it doesn't, and `?` if the line is not a version. Pre-releases are treated as any other version.
///
/// Linear in the lines, each of which is tested against the list's specifiers up to the first that rejects
/// it.
///
/// # Errors
///
/// Refuses a list with a piece between commas that is not a specifier. Status 3 when memory runs out.
pub fn specifiers_take(alloc: Global, bytes: &[u8], versions: &[u8], out: &mut [u8]) -> Reply
    ensures { RepliesAs (TakesEnd bytes.now versions.now) out.old out.new result }
{
    taken(alloc, bytes, versions).reply(out)
}

/// The end of the call that replies which versions are accepted.
fn taken(alloc: Global, bytes: &[u8], versions: &[u8]) -> Ended
    ensures { TakesEnd bytes.now versions.now (ending_of result) }
{
    let list = match read_list(alloc, 1, bytes) {
        Ok(list) => list,
        Err(ended) => return ended,
    };
    match marks(alloc, &list, versions) {
        Ok(marks) => Ended::Answered(marks),
        Err(_) => Ended::OutOfMemory,
    }
}

/// The byte for each line.
fn marks(alloc: Global, list: &VersionSpecifiers, versions: &[u8]) -> Result<Vec<u8>, AllocError>
    ensures { IfOk result (λ marks. marks.items
        ≡ map (λ line. taken_mark list.now (version_in line)) (batch_lines versions.now)) }
{
    let lines = batch_lines(alloc, versions)?;
    let mut marks = Vec::with_capacity(alloc, lines.len())?;
    for line in &lines {
        marks.push(mark(alloc, list, line)?)?;
    }
    Ok(marks)
}

/// The byte for a line.
fn mark(alloc: Global, list: &VersionSpecifiers, line: &[u8]) -> Result<u8, AllocError>
    ensures { IfOk result (λ mark. mark ≡ taken_mark list.now (version_in line.now)) }
{
    Ok(match read_version(alloc, line)? {
        None => b'?',
        Some(version) if list.contains(alloc, &version)? => b'1',
        Some(_) => b'0',
    })
}
