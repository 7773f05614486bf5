//! Splits of a text at an ASCII character or after a word.

ghost use Rattle.std.specs.Prelude.{◌≡◌, ◌<◌, option_map, option_copied};
ghost use Rattle.pep508_url.specs.Cuts.{behind, cut, is_absolute};

/// Returns the text after a word, where that is at the front.
pub(crate) fn behind<'a>(word: &str, text: &'a str) -> Option<&'a str>
    ensures { option_copied result ≡ behind word.now text.now }
{
    text.strip_prefix(word)
}

/// Splits a text around the first occurrence of a character, where there is one.
pub(crate) fn cut(at: char, text: &str) -> Option<(&str, &str)>
    requires { at < 128 }
    ensures { option_map (λ parts. (parts.0.now, parts.1.now)) result ≡ cut at text.now }
{
    text.split_once(at)
}

/// Returns whether a path begins at the root.
pub(crate) fn is_absolute(path: &str) -> bool
    ensures { result ≡ is_absolute path.now }
{
    path.starts_with('/')
}
