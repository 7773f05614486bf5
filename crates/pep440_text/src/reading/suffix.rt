//! Reading pre-releases, post-releases and developmental releases.

ghost use Rattle.std.specs.Prelude.{◌≡◌, map, Some};
ghost use Rattle.std.specs.Option.{option_map, option_copied};
ghost use Rattle.pep440_text.specs.Text.{is_separator};
ghost use Rattle.read_outcome.specs.Outcome.{Answers};
ghost use Rattle.pep440_text.specs.Reading.{after_separator, behind_word, word_at, suffix_at, pre_at};
ghost use Rattle.pep440_text.specs.Reading.{post_at, dev_at};

use super::number::{marked_number, number};
use crate::{Prerelease, PrereleaseKind, TextFault};

/// Returns whether a byte is `.`, `-` or `_`.
pub(super) fn is_separator(byte: u8) -> bool
    ensures { result ≡ is_separator byte }
{
    byte == b'.' || byte == b'-' || byte == b'_'
}

/// Returns the bytes after a separator, where one is at the front.
fn skip_separator(bytes: &[u8]) -> &[u8]
    ensures { result.now ≡ after_separator bytes.now }
{
    match bytes.split_first() {
        None => bytes,
        Some((byte, rest)) => { if is_separator(*byte) { rest } else { bytes } }
    }
}

/// Returns the bytes after a word in either case, where it is at the front.
fn strip_word<'a>(word: &[u8], bytes: &'a [u8]) -> Option<&'a [u8]>
    ensures { option_copied result ≡ behind_word word.now bytes.now }
{
    match word.split_first() {
        None => Some(bytes),
        Some((letter, letters)) => match bytes.split_first() {
            None => None,
            Some((byte, rest)) => {
                if byte.to_ascii_lowercase() == *letter {
                    strip_word(letters, rest)
                } else {
                    None
                }
            }
        },
    }
}

/// Returns the meaning of the first of some words that is at the front, and the bytes after it.
fn find_word<'a, A: Copy>(words: &[(&str, A)], bytes: &'a [u8]) -> Option<(A, &'a [u8])>
    ensures { option_map (λ found. (found.0, found.1.now)) result
        ≡ word_at (map (λ word. (word.0.now, word.1)) words.now) bytes.now }
{
    for (word, meaning) in words {
        if let Some(rest) = strip_word(word.as_bytes(), bytes) {
            return Some((*meaning, rest));
        }
    }
    None
}

/// Reads a word and a number, where the word is there, and returns the word's meaning and the number, with
/// the bytes after them.
#[tactic(auto, unfolding(crate::specs::Reading::suffix_at))]
fn suffix<'a, A: Copy>(
    words: &[(&str, A)],
    bytes: &'a [u8],
) -> Result<(Option<(A, u64)>, &'a [u8]), TextFault>
    ensures { Answers (λ found. (found.0, found.1.now)) Some result
        (suffix_at (map (λ word. (word.0.now, word.1)) words.now) bytes.now) }
{
    match find_word(words, skip_separator(bytes)) {
        None => Ok((None, bytes)),
        Some((meaning, rest)) => {
            let (number, later) = number(skip_separator(rest))?;
            Ok((Some((meaning, number.unwrap_or(0))), later))
        }
    }
}

/// Reads a pre-release, where there is one, and returns it with the bytes after it.
#[tactic(auto, unfolding(crate::specs::Reading::pre_at))]
pub(super) fn pre(bytes: &[u8]) -> Result<(Option<Prerelease>, &[u8]), TextFault>
    ensures { Answers (λ found. (found.0, found.1.now)) Some result (pre_at bytes.now) }
{
    let words = [
        ("alpha", PrereleaseKind::Alpha),
        ("a", PrereleaseKind::Alpha),
        ("beta", PrereleaseKind::Beta),
        ("b", PrereleaseKind::Beta),
        ("preview", PrereleaseKind::Rc),
        ("pre", PrereleaseKind::Rc),
        ("rc", PrereleaseKind::Rc),
        ("c", PrereleaseKind::Rc),
    ];
    let (found, rest) = suffix(&words, bytes)?;
    Ok((
        found.map(|(kind, number)| Prerelease { kind, number }),
        rest,
    ))
}

/// Reads a post-release, where there is one, and returns it with the bytes after it.
#[tactic(auto, unfolding(crate::specs::Reading::post_at))]
pub(super) fn post(bytes: &[u8]) -> Result<(Option<u64>, &[u8]), TextFault>
    ensures { Answers (λ found. (found.0, found.1.now)) Some result (post_at bytes.now) }
{
    let (implicit, rest) = marked_number(b'-', bytes)?;
    match implicit {
        Some(number) => Ok((Some(number), rest)),
        None => {
            let words = [("post", ()), ("rev", ()), ("r", ())];
            let (found, later) = suffix(&words, bytes)?;
            Ok((found.map(|(_, number)| number), later))
        }
    }
}

/// Reads a developmental release, where there is one, and returns it with the bytes after it.
#[tactic(auto, unfolding(crate::specs::Reading::dev_at))]
pub(super) fn dev(bytes: &[u8]) -> Result<(Option<u64>, &[u8]), TextFault>
    ensures { Answers (λ found. (found.0, found.1.now)) Some result (dev_at bytes.now) }
{
    let (found, rest) = suffix(&[("dev", ())], bytes)?;
    Ok((found.map(|(_, number)| number), rest))
}
