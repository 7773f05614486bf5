//! Specifiers whose range decides each version, with or without its local part.

ghost use Rattle.std.specs.Prelude.{◌↔◌, IsTrue};
ghost use Rattle.pep440_range.specs.Agreement.{IsSaid, IsSimple};
ghost use Rattle.reqtable_range.specs.Sorting.{IsLocal};

use pep440_range::agrees_everywhere;
use pep440_specifier::VersionSpecifier;
use pep440_version::Version;

/// Whether the specifier has no local part, and agrees with its range at all versions.
pub(crate) fn is_simple(member: &VersionSpecifier) -> bool
    ensures { IsTrue result ↔ IsSimple member.now }
{
    let version = member.version();
    let is_public = version.local().is_empty();
    is_said(version) && is_public && agrees_everywhere(member.operator(), version)
}

/// Whether the specifier has a local part and is no `===`, so that it is a `==` or `!=`, and agrees with its
/// range at each version as it is.
pub(crate) fn is_local(member: &VersionSpecifier) -> bool
    ensures { IsTrue result ↔ IsLocal member.now }
{
    let version = member.version();
    let has_local = !version.local().is_empty();
    has_local && agrees_everywhere(member.operator(), version)
}

/// Whether the version marks no end of a range, so that it can be written.
pub(crate) fn is_said(version: &Version) -> bool
    ensures { IsTrue result ↔ IsSaid version.now }
{
    version.min().is_none() && version.max().is_none()
}
