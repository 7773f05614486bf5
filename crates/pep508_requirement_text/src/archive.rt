//! File names of archives.

ghost use Rattle.std.specs.Prelude.{◌≡◌};
ghost use Rattle.std.specs.List.{list_any};
ghost use Rattle.pep508_requirement_text.specs.Archives.{is_archive, has_ending};

/// The endings of the names of archives.
pub(crate) const ENDINGS: [&str; 12] = [
    ".whl",
    ".tbz",
    ".txz",
    ".tlz",
    ".zip",
    ".tgz",
    ".tar",
    ".tar.bz2",
    ".tar.xz",
    ".tar.lz",
    ".tar.lzma",
    ".tar.gz",
];

/// Returns whether a text is the file name of an archive that pip installs from: something, and then
/// `.whl`, `.tar.gz` or another of their endings, in lower case alone.
///
/// Looks at the last nine bytes, and takes no memory.
#[tactic(auto, unfolding(crate::specs::Archives::is_archive))]
pub fn is_archive(text: &str) -> bool
    ensures { result ≡ is_archive text.now }
{
    has_one_of(text, &ENDINGS)
}

fn has_one_of(text: &str, endings: &[&str]) -> bool
    ensures { result ≡ list_any (λ ending. has_ending text.now ending.now) endings.now }
{
    endings.iter().any(|ending| has_ending(text, ending))
}

/// Returns whether a text is something, and then this ending.
fn has_ending(text: &str, ending: &str) -> bool
    ensures { result ≡ has_ending text.now ending.now }
{
    ending.len() < text.len() && text.ends_with(ending)
}
