//! The caller of the first page of `pep440_rs`, proved from the public contracts.

ghost use Rattle.std.specs.Prelude.{◌≡◌, Ok, IfOk};
ghost use Rattle.pep440_version.specs.Record.{VersionRecord};
ghost use Rattle.pep440_version.specs.VersionReading.{version_reading};
ghost use Rattle.pep440_specifier_list.specs.Lists.{matches_all};

use pep440_specifier_list::VersionSpecifiers;
use pep440_version::{Version, VersionParseError};
use std::alloc::Global;
use std::test::Fail;

/// Whether a list of specifiers accepts the version that a text is.
fn is_accepted(
    alloc: Global,
    wanted: &VersionSpecifiers,
    text: &str,
) -> Result<bool, VersionParseError>
    ensures { IfOk result (λ accepted. (version : VersionRecord) ×
        (version_reading text.now ≡ Ok version) × (accepted ≡ matches_all wanted.now version)) }
{
    let version = Version::from_str(alloc, text)?;
    let accepted = wanted.contains(alloc, &version)?;
    Ok(accepted)
}

#[test]
fn accepts_versions_between_bounds(rt: HostRuntime) -> Result<(), Fail> {
    let wanted = VersionSpecifiers::from_str(rt.alloc(), ">=1.16, <2")?;
    assert!(rt; is_accepted(rt.alloc(), &wanted, "1.19")?);
    assert!(rt; !is_accepted(rt.alloc(), &wanted, "2.0")?);
    Ok(())
}
