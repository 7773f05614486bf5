//! Words of plain versions: one to three numbers with dots between them, and nothing else.
//!
//! Words order versions, so a candidate whose word is not above that of the best one is not read any further.

ghost use Rattle.std.specs.Prelude.{◌≡◌, ◌<◌, ◌+◌, IsTrue, length, Some, Ok, IfSome};
ghost use Rattle.std.specs.List.{list_all};
ghost use Rattle.pep440_version.specs.Record.{VersionRecord};
ghost use Rattle.pep440_version.specs.Reading.{number_at, marked_number_at, version_of};
ghost use Rattle.pep440_version.specs.Packing.{packed};
ghost use Rattle.reqtable_streaming.specs.PlainLines.{is_plain_byte};

/// What the numbers of a release are multiplied by in a word, and what a word without a suffix ends in.
const FIRST: u64 = 1 << 48;

const SECOND: u64 = 1 << 40;

const THIRD: u64 = 1 << 32;

const BARE: u64 = 5 << 21;

/// Returns the word of the version that the text is, if that is one to three small numbers with dots between
/// them; `None` otherwise. Takes no memory.
pub(crate) fn read_word(text: &[u8]) -> Option<u64>
    ensures word { IfSome result (λ word. (version : VersionRecord) × (version_of text.now ≡ Some version)
        × (packed version ≡ Some word)) }
    ensures some { IfSome result (λ word. 0 < length text.now) }
    ensures plain { IfSome result (λ word. IsTrue (list_all is_plain_byte text.now)) }
{
    let (first, behind_first) = number(text)?;
    if first >= 65536 {
        return None;
    }
    if behind_first.is_empty() {
        return Some(first * FIRST + BARE);
    }
    let (second, behind_second) = small_number(behind_first)?;
    if behind_second.is_empty() {
        return Some(first * FIRST + second * SECOND + BARE);
    }
    let (third, behind_third) = small_number(behind_second)?;
    if behind_third.is_empty() {
        return Some(first * FIRST + second * SECOND + third * THIRD + BARE);
    }
    None
}

/// Reads a dot and a number below 256 after it, and returns the number with the bytes after it; `None` if one
/// of them isn't there.
fn small_number(bytes: &[u8]) -> Option<(u64, &[u8])>
    ensures read { IfSome result (λ found. marked_number_at 46 bytes.now ≡ Ok (Some found.0, found.1.now)) }
    ensures less { IfSome result (λ found. length found.1.now + 1 < length bytes.now) }
    ensures small { IfSome result (λ found. found.0 < 256) }
    ensures plain { IfSome result (λ found. IsTrue (list_all is_plain_byte found.1.now) →
        IsTrue (list_all is_plain_byte bytes.now)) }
{
    match bytes.split_first() {
        Some((b'.', rest)) => {
            let (found, behind) = number(rest)?;
            if found >= 256 {
                return None;
            }
            Some((found, behind))
        }
        _ => None,
    }
}

/// Reads the number at the front, and returns it with the bytes after it; `None` if there is none, or one
/// that is large.
fn number(bytes: &[u8]) -> Option<(u64, &[u8])>
    ensures read { IfSome result (λ found. number_at bytes.now ≡ Ok (Some found.0, found.1.now)) }
    ensures less { IfSome result (λ found. length found.1.now < length bytes.now) }
    ensures plain { IfSome result (λ found. IsTrue (list_all is_plain_byte found.1.now) →
        IsTrue (list_all is_plain_byte bytes.now)) }
{
    let mut count = 0;
    let mut total = 0u64;
    while count < bytes.len() && bytes[count].is_ascii_digit() {
        if total > 9999 {
            return None;
        }
        total = total * 10 + bytes[count].saturating_sub(b'0') as u64;
        count += 1;
    }
    if count == 0 {
        return None;
    }
    Some((total, bytes.split_at(count).1))
}
