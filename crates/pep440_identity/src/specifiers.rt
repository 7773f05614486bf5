//! Specifiers with the same operator, and a version that has the same parts.

ghost use Rattle.std.specs.Prelude.{◌≡◌, ◌↔◌, IsTrue};

use crate::versions::is_identical_version;
use pep440_specifier::VersionSpecifier;

/// Whether two lists have the same specifiers in the same order, number by number. Takes at most one
/// comparison of each part.
#[tactic(auto, using(crate::proofs::Steps::unlike))]
pub fn are_identical_specifiers(ours: &[VersionSpecifier], theirs: &[VersionSpecifier]) -> bool
    ensures { IsTrue result ↔ (ours.now ≡ theirs.now) }
{
    if ours.len() != theirs.len() {
        return false;
    }
    for (place, one) in ours.iter().enumerate() {
        if !is_identical_specifier(one, &theirs[place]) {
            return false;
        }
    }
    true
}

fn is_identical_specifier(one: &VersionSpecifier, other: &VersionSpecifier) -> bool
    ensures { IsTrue result ↔ (one.now ≡ other.now) }
{
    one.operator() == other.operator() && is_identical_version(one.version(), other.version())
}
