//! A call for tests, which see by it in which form a version is kept. `pep440_rs` doesn't pass it on.

ghost use Rattle.std.specs.Prelude.{◌≡◌};
ghost use Rattle.pep440_version.specs.Packing.{packed};

use crate::version::Version;

/// Returns the version's word, a number of 64 bits that compares as the version does; `None` where the
/// version is kept in parts.
pub fn packed_word(version: &Version) -> Option<u64>
    ensures { result ≡ packed version.now }
{
    version.word()
}
