//! Splitting off the host before a path, and the extras after a URL.

ghost use Rattle.std.specs.Prelude.{◌≡◌, List, ℕ, All, false, MatchOption, option_copied};
ghost use Rattle.pep508_url.specs.Splits.{without_host, local_path, is_bracket, IsLastBracket, IsExtrasSplit};

use crate::cuts::{behind, is_absolute};

/// Returns the path of a `file` URL from what follows its scheme (RFC 8089, section 2): without the `//` in
/// front, or without `//localhost` where a `/` follows that. Any other text is returned as it is. No memory
/// is taken.
#[tactic(auto, unfolding(crate::specs::Splits::without_host))]
pub fn strip_host(path: &str) -> &str
    ensures { result.now ≡ without_host path.now }
{
    match local_path(path) {
        Some(rest) => rest,
        None => match behind("//", path) {
            Some(rest) => rest,
            None => path,
        },
    }
}

/// Returns the text after `//localhost` at the front, where that text begins with `/`.
#[tactic(auto, unfolding(crate::specs::Splits::local_path))]
fn local_path(path: &str) -> Option<&str>
    ensures { option_copied result ≡ local_path path.now }
{
    let rest = behind("//localhost", path)?;
    if is_absolute(rest) { Some(rest) } else { None }
}

/// Splits a text that ends in brackets, with no bracket between them, into the URL and the extras. No
/// memory is taken.
pub fn split_extras(text: &str) -> Option<(&str, &str)>
    ensures { MatchOption result ((url extras : List ℕ) → IsExtrasSplit text.now url extras → ⊥)
        (λ parts. IsExtrasSplit text.now parts.0.now parts.1.now) }
{
    let inner = text.strip_suffix(']')?;
    let place = last_bracket(inner.as_bytes())?;
    if inner.as_bytes()[place] == b'[' {
        Some(text.split_at(place))
    } else {
        None
    }
}

fn last_bracket(bytes: &[u8]) -> Option<usize>
    ensures { MatchOption result (All (λ b. is_bracket b ≡ false) bytes.now) (IsLastBracket bytes.now) }
{
    bytes.iter().rposition(|&byte| is_bracket(byte))
}

fn is_bracket(byte: u8) -> bool
    ensures { result ≡ is_bracket byte }
{
    byte == b'[' || byte == b']'
}
