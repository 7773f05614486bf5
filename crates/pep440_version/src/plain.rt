//! Versions of the common form: at most three release numbers, and nothing else.
//!
//! Most candidates are of this form. They are read in one pass and take no memory; all other texts go to the
//! reader of all forms.

ghost use Rattle.std.specs.Prelude.{◌≡◌, ◌<◌, ◌+◌, length, Some, Ok, IfSome};
ghost use Rattle.pep440_text.specs.Record.{release_record};
ghost use Rattle.pep440_text.specs.Reading.{number_at, marked_number_at, read_version};
ghost use Rattle.pep440_text.specs.Releases.{numbers_of};

use pep440_text::release::Release;

/// Returns the release that the text is, where it is one to three numbers with dots between them and nothing
/// else; `None` otherwise.
pub(crate) fn plain_release(text: &[u8]) -> Option<Release>
    ensures read { IfSome result (λ release.
        read_version text.now ≡ Ok (release_record (numbers_of release))) }
    ensures some { IfSome result (λ release. 0 < length (numbers_of release)) }
{
    let (first, behind_first) = number(text)?;
    if behind_first.is_empty() {
        return Some(Release::One([first]));
    }
    let (second, behind_second) = dotted_number(behind_first)?;
    if behind_second.is_empty() {
        return Some(Release::Two([first, second]));
    }
    let (third, behind_third) = dotted_number(behind_second)?;
    if behind_third.is_empty() {
        return Some(Release::Three([first, second, third]));
    }
    None
}

/// Reads a dot and a number after it, and returns the number with the bytes after it; `None` where one of
/// them isn't there.
fn dotted_number(bytes: &[u8]) -> Option<(u64, &[u8])>
    ensures read { IfSome result (λ found. marked_number_at 46 bytes.now ≡ Ok (Some found.0, found.1.now)) }
    ensures less { IfSome result (λ found. length found.1.now + 1 < length bytes.now) }
{
    match bytes.split_first() {
        Some((b'.', rest)) => number(rest),
        _ => None,
    }
}

/// Reads the number at the front, and returns it with the bytes after it; `None` where there is none, or one
/// that exceeds 64 bits.
fn number(bytes: &[u8]) -> Option<(u64, &[u8])>
    ensures read { IfSome result (λ found. number_at bytes.now ≡ Ok (Some found.0, found.1.now)) }
    ensures less { IfSome result (λ found. length found.1.now < length bytes.now) }
{
    let mut count = 0;
    let mut total = 0u64;
    while count < bytes.len() && bytes[count].is_ascii_digit() {
        total = total
            .checked_mul(10)?
            .checked_add(bytes[count].saturating_sub(b'0') as u64)?;
        count += 1;
    }
    if count == 0 {
        return None;
    }
    Some((total, bytes.split_at(count).1))
}
