//! Names of lines, whose normal forms are written into room that is used again.

ghost use Rattle.std.specs.Prelude.{◌≡◌, ◌<◌, ◌≤◌, ◌++◌, ◌∷◌, [], IfSome, Some, true, if◌then◌else◌};
ghost use Rattle.std.specs.Prelude.{length, take, slice_index};
ghost use Rattle.std.specs.Char.{to_ascii_lowercase};
ghost use Rattle.pep508_name.specs.Name.{name_of, is_alphanumeric, is_alphanumeric_at, is_separator};
ghost use Rattle.reqtable_streaming.specs.PlainLines.{AddsByte};

/// Writes the normal form of the name before the first space of a line to the front of `normal`, and returns
/// the place of that space and the length of that form; `None` if there is no such name, or no room for it.
pub(crate) fn read_name(line: &[u8], normal: &mut [u8]) -> Option<(usize, usize)>
    ensures within { IfSome result (λ found. found.0 < length line.now) }
    ensures space { IfSome result (λ found. slice_index line.now found.0 ≡ 32) }
    ensures name { IfSome result (λ found. name_of (take found.0 line.now) ≡ Some (take found.1 normal.new)) }
    ensures room { IfSome result (λ found. found.1 ≤ length normal.new) }
{
    if !begins_name(line) {
        return None;
    }
    let mut separated = false;
    let mut count = 0;
    let mut at = 0;
    while at < line.len() && line[at] != b' ' {
        (separated, count) = add_byte(normal, count, separated, line[at])?;
        at += 1;
    }
    if separated {
        return None;
    }
    if at == line.len() {
        return None;
    }
    Some((at, count))
}

/// Returns whether the first byte is an ASCII letter or digit.
fn begins_name(bytes: &[u8]) -> bool
    ensures { result ≡ is_alphanumeric_at bytes.now 0 }
{
    match bytes.first() {
        Some(byte) => byte.is_ascii_alphanumeric(),
        None => false,
    }
}

/// Appends what a byte of a name adds to the first `count` bytes of `normal`, and returns whether the byte is
/// a separator, and the new count; `None` if the byte is in no name, or there is no room. `separated` says
/// whether the byte before is a separator.
fn add_byte(normal: &mut [u8], count: usize, separated: bool, byte: u8) -> Option<(bool, usize)>
    ensures adds { IfSome result (λ added.
        AddsByte separated added.0 byte (take count normal.old) (take added.1 normal.new)) }
    ensures room { count ≤ length normal.old → IfSome result (λ added. added.1 ≤ length normal.new) }
{
    if let Some(letter) = lower_letter(byte) {
        return Some((false, add_letter(normal, count, separated, letter)?));
    }
    if !is_separator(byte) {
        return None;
    }
    Some((true, count))
}

/// Returns a letter or digit in lower case; `None` for any other byte. Lower case comes first, as most bytes
/// of names are.
fn lower_letter(byte: u8) -> Option<u8>
    ensures letter { IfSome result (λ letter. is_alphanumeric byte ≡ true) }
    ensures lower { IfSome result (λ letter. letter ≡ to_ascii_lowercase byte) }
{
    if byte.is_ascii_lowercase() {
        return Some(byte);
    }
    if byte.is_ascii_alphanumeric() {
        return Some(byte.to_ascii_lowercase());
    }
    None
}

/// Returns whether a byte is `-`, `_` or `.`.
fn is_separator(byte: u8) -> bool
    ensures { result ≡ is_separator byte }
{
    matches!(byte, b'-' | b'_' | b'.')
}

/// Appends a letter or digit to the first `count` bytes, after a `-` if it is the first after separators, and
/// returns the new count; `None` if there is no room.
fn add_letter(normal: &mut [u8], count: usize, separated: bool, letter: u8) -> Option<usize>
    ensures added { IfSome result (λ added. take added normal.new
        ≡ (take count normal.old ++ (if separated then 45 ∷ [] else [])) ++ letter ∷ []) }
    ensures room { IfSome result (λ added. added ≤ length normal.new) }
{
    let behind = if separated {
        add(normal, count, b'-')?
    } else {
        count
    };
    add(normal, behind, letter)
}

/// Appends a byte to the first `count` bytes, and returns the new count; `None` if there is no room.
fn add(normal: &mut [u8], count: usize, byte: u8) -> Option<usize>
    ensures added { IfSome result (λ added. take added normal.new ≡ take count normal.old ++ byte ∷ []) }
    ensures room { IfSome result (λ added. added ≤ length normal.new) }
{
    if count >= normal.len() {
        return None;
    }
    normal[count] = byte;
    Some(count + 1)
}
