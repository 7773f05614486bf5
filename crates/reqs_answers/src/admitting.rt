//! Which candidates are admitted.

ghost use Rattle.std.specs.Prelude.{◌≡◌};
ghost use Rattle.reqs_answers.specs.Check.{on_request};

use pep440_version::Version;

/// Whether a candidate of this version may be selected: a pre-release or a developmental release only if a
/// specifier of the applicable lines names one (PEP 440, "Handling of pre-releases", without the fallback
/// where nothing else fits), and any other version always.
pub(crate) fn is_admitted(version: &Version, names_prerelease: bool) -> bool
    ensures { result ≡ on_request version.now names_prerelease }
{
    names_prerelease || !version.any_prerelease()
}
