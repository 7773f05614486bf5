//! Lines of candidates in the common form, read in few passes and without memory.

ghost use Rattle.std.specs.Prelude.{◌≡◌, ◌<◌, ◌≤◌, IsTrue, IfSome, length, take, List, ℕ, Some};
ghost use Rattle.std.specs.List.{list_all};
ghost use Rattle.std.specs.Str.{trim};
ghost use Rattle.std.specs.Str.Lines.{strip_carriage_return};
ghost use Rattle.pep440_version.specs.Packing.{packed};
ghost use Rattle.pep440_version.specs.Reading.{version_of};
ghost use Rattle.pep440_version.specs.Record.{VersionRecord};
ghost use Rattle.pep508_name.specs.Name.{name_of};
ghost use Rattle.reqtable_streaming.specs.PlainLines.{ArePlainParts, is_plain_byte};

use crate::naming::read_name;
use crate::words::read_word;

/// Returns a line without a carriage return at its end.
pub(crate) fn without_return(line: &str) -> &str
    ensures { result.now ≡ strip_carriage_return line.now }
{
    line.strip_suffix('\r').unwrap_or(line)
}

/// What is read of a line in the common form.
#[derive(Drop)]
pub(crate) struct PlainLine<'a> {
    /// How many bytes of the room for names are the normal form of the line's name.
    pub(crate) name: usize,
    /// The text of its version.
    pub(crate) version: &'a str,
    /// The word of the version, if that is a release of small numbers alone.
    pub(crate) word: Option<u64>,
}

/// Writes the normal form of a line's name to the front of `normal`, and returns what the line says, if a
/// space follows the name, and the text of the version is of printed ASCII characters without `#`. The line
/// has no end. `None` also where `normal` has too little room for the name.
pub(crate) fn plain_line<'a>(line: &'a str, normal: &mut [u8]) -> Option<PlainLine<'a>>
    ensures parts { IfSome result (λ read. (name : List ℕ) × ArePlainParts line.now name read.version.now
        × (name_of name ≡ Some (take read.name normal.new))) }
    ensures room { IfSome result (λ read. read.name ≤ length normal.new) }
    ensures word { IfSome result (λ read. IfSome read.word (λ word. (version : VersionRecord)
        × (version_of read.version.now ≡ Some version) × (packed version ≡ Some word))) }
{
    let (at, name) = read_name(line.as_bytes(), normal)?;
    let (version, word) = plain_version(&line[at + 1..])?;
    Some(PlainLine {
        name,
        version,
        word,
    })
}

/// Returns a text without the white space around it, if that is of printed ASCII characters without `#`, and
/// the word of the version that it is, if that is known.
fn plain_version(text: &str) -> Option<(&str, Option<u64>)>
    ensures version { IfSome result (λ read. read.0.now ≡ trim text.now) }
    ensures some { IfSome result (λ read. 0 < length read.0.now) }
    ensures plain { IfSome result (λ read. IsTrue (list_all is_plain_byte read.0.now)) }
    ensures word { IfSome result (λ read. IfSome read.1 (λ word. (version : VersionRecord)
        × (version_of read.0.now ≡ Some version) × (packed version ≡ Some word))) }
{
    if let Some(word) = read_word(text.as_bytes()) {
        return Some((text, Some(word)));
    }
    let version = plain_word(text)?;
    if version.len() == text.len() {
        return Some((version, None));
    }
    Some((version, read_word(version.as_bytes())))
}

/// Returns a text without the white space around it, if that is of printed ASCII characters without `#`.
fn plain_word(text: &str) -> Option<&str>
    ensures word { IfSome result (λ word. word.now ≡ trim text.now) }
    ensures some { IfSome result (λ word. 0 < length word.now) }
    ensures plain { IfSome result (λ word. IsTrue (list_all is_plain_byte word.now)) }
{
    if is_plain(text.as_bytes()) {
        return Some(text);
    }
    let word = text.trim();
    if is_plain(word.as_bytes()) {
        return Some(word);
    }
    None
}

/// Returns whether there are bytes, and each is a printed ASCII character other than `#`.
fn is_plain(bytes: &[u8]) -> bool
    ensures some { IsTrue result → 0 < length bytes.now }
    ensures plain { IsTrue result → IsTrue (list_all is_plain_byte bytes.now) }
{
    !bytes.is_empty() && are_plain(bytes)
}

fn are_plain(bytes: &[u8]) -> bool
    ensures { result ≡ list_all is_plain_byte bytes.now }
{
    bytes.iter().all(|byte| is_plain_byte(*byte))
}

/// Returns whether a byte is a printed ASCII character other than `#`.
fn is_plain_byte(byte: u8) -> bool
    ensures { result ≡ is_plain_byte byte }
{
    byte > b' ' && byte < 127 && byte != b'#'
}
