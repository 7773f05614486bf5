//! The bytes of what a case requires.

ghost use Rattle.std.specs.Prelude.{◌≡◌, ◌++◌, map, IfOk, OnOk};
ghost use Rattle.version_ranges.specs.Boundaries.{point_of, turns_of};
ghost use Rattle.version_ranges.specs.Held.{IsNormal};
ghost use Rattle.pep440_key.specs.Key.{component_bytes, version_bytes};
ghost use Rattle.pep440_version.specs.Order.{version_cmp};
ghost use Rattle.pep508_marker_key.specs.Told.{listed_bytes};
ghost use Rattle.reqtable_key.specs.Heads.{flag_bytes, head_bytes, point_bytes};

use pep440_key::{push_text, version_key};
use pep440_version::Version;
use pep508_name::{ExtraName, PackageName};
use std::alloc::{AllocError, Global};
use version_ranges::{Boundary, Ranges};

/// The bytes of a package's name, extras, a range, and whether a pre-release is named. Linear in these.
#[tactic(auto, unfolding(crate::specs::Heads::head_bytes))]
pub(crate) fn head_bytes(
    alloc: Global,
    name: &PackageName,
    extras: &[ExtraName],
    range: &Ranges<Version>,
    prerelease: bool,
) -> Result<Vec<u8>, AllocError>
    ensures bytes { IfOk result (λ bytes.
        bytes.items ≡ head_bytes name.now extras.now range.now prerelease) }
    ensures normal { IsNormal version_cmp range.now }
{
    let (starts_held, boundaries) = range.turns();
    let mut bytes = Vec::new(alloc);
    push_text(&mut bytes, name.as_str().as_bytes())?;
    push_extras(&mut bytes, extras)?;
    push_range(alloc, &mut bytes, starts_held, boundaries)?;
    bytes.push(prerelease as u8)?;
    Ok(bytes)
}

/// Appends extras.
fn push_extras(bytes: &mut Vec<u8>, extras: &[ExtraName]) -> Result<(), AllocError>
    ensures { OnOk result (bytes.new.items ≡ bytes.old.items ++ listed_bytes component_bytes extras.now) }
{
    for extra in extras {
        bytes.push(1)?;
        push_text(bytes, extra.as_str().as_bytes())?;
    }
    bytes.push(0)?;
    Ok(())
}

/// Appends the places where a range begins or ends.
fn push_range(
    alloc: Global,
    bytes: &mut Vec<u8>,
    starts_held: bool,
    boundaries: &[Boundary<Version>],
) -> Result<(), AllocError>
    ensures { OnOk result (bytes.new.items
        ≡ bytes.old.items ++ listed_bytes point_bytes (turns_of starts_held boundaries.now)) }
{
    if starts_held {
        bytes.push(1)?;
        bytes.push(2)?;
    }
    push_boundaries(alloc, bytes, boundaries)
}

/// Appends places at versions or just above them.
fn push_boundaries(
    alloc: Global,
    bytes: &mut Vec<u8>,
    boundaries: &[Boundary<Version>],
) -> Result<(), AllocError>
    ensures { OnOk result (bytes.new.items
        ≡ bytes.old.items ++ listed_bytes point_bytes (map point_of boundaries.now)) }
{
    for boundary in boundaries {
        bytes.push(1)?;
        push_boundary(alloc, bytes, boundary)?;
    }
    bytes.push(0)?;
    Ok(())
}

/// Appends a place at a version or just above it.
fn push_boundary(
    alloc: Global,
    bytes: &mut Vec<u8>,
    boundary: &Boundary<Version>,
) -> Result<(), AllocError>
    ensures { OnOk result (bytes.new.items ≡ bytes.old.items ++ point_bytes (point_of boundary.now)) }
{
    let (kind, version) = match boundary {
        Boundary::At(version) => (0, version),
        Boundary::JustAbove(version) => (1, version),
    };
    bytes.push(kind)?;
    let key = version_key(alloc, version)?;
    bytes.extend_from_slice(&key)
}
