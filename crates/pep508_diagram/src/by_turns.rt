//! Sets as branches whose children alternate between true and false; and branches whose endpoints are at
//! versions in their shortest spelling.

ghost use Rattle.std.specs.Prelude.{◌≡◌, IfOk, map};
ghost use Rattle.pep508_diagram.specs.Branches.{by_turns};
ghost use Rattle.pep508_diagram.specs.Shortened.{shortest, shortened, shortened_branch};

use crate::branch::{Branch, copy_of_boundary};
use crate::node_value::NodeValue;
use pep440_version::Version;
use std::alloc::{AllocError, Global};
use version_ranges::Boundary;

/// Returns the branches of a set that holds the point below all where `starts_held`, and at each of whose
/// endpoints membership flips. Copies each endpoint once.
///
/// # Errors
///
/// `AllocError` when memory runs out.
pub fn turned_branches<T: NodeValue>(
    alloc: Global,
    starts_held: bool,
    boundaries: &[Boundary<T>],
) -> Result<Vec<Branch<T, bool>>, AllocError>
    ensures { IfOk result (λ branches. branches.items ≡ by_turns starts_held boundaries.now) }
{
    let mut branches = Vec::with_capacity(alloc, boundaries.len())?;
    let mut child = starts_held;
    for boundary in boundaries {
        child = !child;
        branches.push(Branch {
            boundary: copy_of_boundary(alloc, boundary)?,
            child,
        })?;
    }
    Ok(branches)
}

/// Returns the version in its shortest spelling.
fn shortest(version: Version) -> Version
    ensures { result ≡ shortest version }
{
    let version = version.without_end_zeros();
    match Version::max(&version) {
        Some(_) => version.with_post(None),
        None => version,
    }
}

/// Returns the endpoint at its version's shortest spelling.
fn shortened(boundary: Boundary<Version>) -> Boundary<Version>
    ensures { result ≡ shortened boundary }
{
    match boundary {
        Boundary::At(version) => Boundary::At(shortest(version)),
        Boundary::JustAbove(version) => Boundary::JustAbove(shortest(version)),
    }
}

/// Returns the branches with each endpoint at its version's shortest spelling, which is the same place.
/// Copies no version. The only error is lack of memory.
///
/// # Errors
///
/// `AllocError` when memory runs out.
pub fn shortened_branches<C: Drop>(
    alloc: Global,
    later: Vec<Branch<Version, C>>,
) -> Result<Vec<Branch<Version, C>>, AllocError>
    ensures { IfOk result (λ branches. branches.items ≡ map shortened_branch later.items) }
{
    let mut branches = Vec::with_capacity(alloc, later.len())?;
    for branch in later {
        branches.push(Branch {
            boundary: shortened(branch.boundary),
            child: branch.child,
        })?;
    }
    Ok(branches)
}
