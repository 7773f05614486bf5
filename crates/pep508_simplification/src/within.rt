//! The part of branches between rising endpoints that lies between two bounds.

ghost use Rattle.std.specs.Prelude.{◌≡◌, map, IfOk};
ghost use Rattle.std.specs.Ordering.{is_lt};
ghost use Rattle.version_ranges.specs.Boundaries.{point_of};
ghost use Rattle.version_ranges.specs.Bounds.{goes_on_to};
ghost use Rattle.version_ranges.specs.Order.{start_point};
ghost use Rattle.version_ranges.specs.Point.{point_cmp};
ghost use Rattle.version_ranges.specs.Turns.{reaches};
ghost use Rattle.pep440_specifier.specs.Bounds.{lent_bound};
ghost use Rattle.pep440_version.specs.Order.{version_cmp};
ghost use Rattle.pep508_diagram.specs.Branches.{branch_at};
ghost use Rattle.pep508_simplification.specs.Parts.{signs};
ghost use Rattle.pep508_simplification.specs.Within.{behind, up_to};

use pep440_version::Version;
use pep508_diagram::{Branch, copy_of_boundary};
use pep508_tree::MarkerTree;
use std::alloc::{AllocError, Global};
use std::ops::Bound;
use version_ranges::Boundary;

/// Returns whether the endpoint is at or below the point from which the lower bound holds.
fn starts_by(boundary: &Boundary<Version>, lower: Bound<&Version>) -> bool
    ensures { result ≡ reaches (point_cmp version_cmp) (point_of boundary.now)
        (start_point (lent_bound lower.entry)) }
{
    match (boundary, lower) {
        (_, Bound::Unbounded) => false,
        (Boundary::At(at), Bound::Included(version)) => at.cmp(version).is_le(),
        (Boundary::At(at), Bound::Excluded(version)) => at.cmp(version).is_le(),
        (Boundary::JustAbove(at), Bound::Included(version)) => at.cmp(version).is_lt(),
        (Boundary::JustAbove(at), Bound::Excluded(version)) => at.cmp(version).is_le(),
    }
}

/// Returns whether the upper bound still holds at the endpoint's point.
fn goes_on_to(boundary: &Boundary<Version>, upper: Bound<&Version>) -> bool
    ensures { result ≡ goes_on_to version_cmp (lent_bound upper.entry) (point_of boundary.now) }
{
    match (boundary, upper) {
        (_, Bound::Unbounded) => true,
        (Boundary::At(at), Bound::Included(version)) => at.cmp(version).is_le(),
        (Boundary::At(at), Bound::Excluded(version)) => at.cmp(version).is_lt(),
        (Boundary::JustAbove(at), Bound::Included(version)) => at.cmp(version).is_lt(),
        (Boundary::JustAbove(at), Bound::Excluded(version)) => at.cmp(version).is_lt(),
    }
}

/// Returns whether some point lies between the bounds; then the first point of the lower bound does.
pub(crate) fn hold_some(lower: Bound<&Version>, upper: Bound<&Version>) -> bool
    ensures { result ≡ goes_on_to version_cmp (lent_bound upper.entry)
        (start_point (lent_bound lower.entry)) }
{
    match (lower, upper) {
        (Bound::Unbounded, _) => true,
        (_, Bound::Unbounded) => true,
        (Bound::Included(from), Bound::Included(to)) => from.cmp(to).is_le(),
        (Bound::Included(from), Bound::Excluded(to)) => from.cmp(to).is_lt(),
        (Bound::Excluded(from), Bound::Included(to)) => from.cmp(to).is_lt(),
        (Bound::Excluded(from), Bound::Excluded(to)) => from.cmp(to).is_lt(),
    }
}

/// Returns the child where a lower bound begins to hold, and the branches after that.
pub(crate) fn behind<'a>(
    first: MarkerTree,
    later: &'a [Branch<Version, MarkerTree>],
    lower: Bound<&Version>,
) -> (MarkerTree, &'a [Branch<Version, MarkerTree>])
    ensures first { result.0 ≡ branch_at version_cmp first later.now (start_point (lent_bound lower.entry)) }
    ensures later { result.1.now ≡ behind version_cmp (start_point (lent_bound lower.entry)) later.now }
{
    let mut child = first;
    let mut left = later;
    while let Some((branch, rest)) = left.split_first() {
        if !starts_by(&branch.boundary, lower) {
            break;
        }
        child = branch.child;
        left = rest;
    }
    (child, left)
}

/// Returns a copy of the branches before the end of an upper bound, each tree negated where `negated`.
pub(crate) fn copy_up_to(
    alloc: Global,
    later: &[Branch<Version, MarkerTree>],
    negated: bool,
    upper: Bound<&Version>,
) -> Result<Vec<Branch<Version, MarkerTree>>, AllocError>
    ensures { IfOk result (λ branches. branches.items
        ≡ map (signs negated) (up_to version_cmp (lent_bound upper.entry) later.now)) }
{
    let mut branches = Vec::new(alloc);
    for branch in later {
        if !goes_on_to(&branch.boundary, upper) {
            break;
        }
        branches.push(Branch {
            boundary: copy_of_boundary(alloc, &branch.boundary)?,
            child: branch.child.turned(negated),
        })?;
    }
    Ok(branches)
}
