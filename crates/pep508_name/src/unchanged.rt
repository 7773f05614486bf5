//! Names that are their own normal form.

ghost use Rattle.std.specs.Prelude.{◌≡◌, ◌||◌, IsTrue};
ghost use Rattle.std.specs.Char.{is_ascii_digit, is_ascii_lowercase};
ghost use Rattle.pep508_name.specs.Name.{is_name, normal_name};

/// Returns whether a text is a name and plainly its own normal form: lower-case letters and digits, with a
/// single `-` between some. One pass over the text, with no allocation.
pub(crate) fn is_normal(text: &str) -> bool
    ensures { IsTrue result → IsTrue (is_name text.now) × (normal_name text.now ≡ text.now) }
{
    // A `-` is allowed neither at the front nor after another one.
    let mut may_end = false;
    for byte in text.as_bytes() {
        if *byte == b'-' {
            if !may_end {
                return false;
            }
            may_end = false;
        } else {
            if !is_small(*byte) {
                return false;
            }
            may_end = true;
        }
    }
    may_end
}

/// Returns whether a byte is a lower-case letter or a digit.
fn is_small(byte: u8) -> bool
    ensures { result ≡ (is_ascii_lowercase byte || is_ascii_digit byte) }
{
    byte.is_ascii_lowercase() || byte.is_ascii_digit()
}
