//! The candidates between two boundaries of a set.

ghost use Rattle.std.specs.Prelude.{◌≡◌, ◌≤◌, ◌<◌, Bool, true, false, length, map, get_or};
ghost use Rattle.std.specs.List.{AllWithin};
ghost use Rattle.std.specs.List.Sorted.{IsPartitionPoint};
ghost use Rattle.version_ranges.specs.Boundaries.{point_of, boundary_cmp, turns_of};
ghost use Rattle.version_ranges.specs.Held.{holds_at};
ghost use Rattle.version_ranges.specs.Point.{At, point_cmp};
ghost use Rattle.version_ranges.specs.Turns.{reaches, Rising};
ghost use Rattle.pep440_version.specs.Order.{version_cmp};
ghost use Rattle.reqtable_search.specs.InRun.{version_of, Falls};
ghost use Rattle.reqtable_search.specs.Told.{TurnsBetween};

use pep440_version::Version;
use reqtable_candidates::Placed;
use version_ranges::Boundary;

/// The end of the candidates that, from a place on, lie between the same two boundaries. The candidates are
/// sorted from the highest version down.
pub(crate) fn gap_end(placed: &[Placed<'_>], at: usize, boundaries: &[Boundary<Version>]) -> usize
    requires within { at < length placed.now }
    requires falls { Falls placed.now }
    requires rising { Rising (boundary_cmp version_cmp) boundaries.now }
    ensures behind { at < result }
    ensures within { result ≤ length placed.now }
    ensures same { (starts : Bool) → AllWithin (λ x.
        holds_at version_cmp (turns_of starts boundaries.now) (At (version_of x))
        ≡ holds_at version_cmp (turns_of starts boundaries.now)
        (At (version_of (get_or placed.now at x)))) placed.now at result }
    ensures far { (d : _) → result < length placed.now → TurnsBetween (map point_of boundaries.now)
        (version_of (get_or placed.now result d)) (version_of (get_or placed.now at d)) }
{
    let candidate = placed[at].candidate;
    let reached = reached(boundaries, &candidate.version);
    match reached.checked_sub(1) {
        None => placed.len(),
        Some(last) => reaching(placed, &boundaries[last]),
    }
}

/// The number of boundaries at the version or below it.
fn reached(boundaries: &[Boundary<Version>], version: &Version) -> usize
    requires { Rising (boundary_cmp version_cmp) boundaries.now }
    ensures within { result ≤ length boundaries.now }
    ensures point { IsPartitionPoint
        (λ b. reaches (point_cmp version_cmp) (point_of b) (At version.now) ≡ true)
        (λ b. reaches (point_cmp version_cmp) (point_of b) (At version.now) ≡ false) boundaries.now result }
{
    boundaries.partition_point(|boundary| boundary.reaches(version))
}

/// The number of candidates at the boundary or above it.
fn reaching(placed: &[Placed<'_>], boundary: &Boundary<Version>) -> usize
    requires { Falls placed.now }
    ensures within { result ≤ length placed.now }
    ensures point { IsPartitionPoint
        (λ x. reaches (point_cmp version_cmp) (point_of boundary.now) (At (version_of x)) ≡ true)
        (λ x. reaches (point_cmp version_cmp) (point_of boundary.now) (At (version_of x)) ≡ false)
        placed.now result }
{
    placed.partition_point(|item| boundary.reaches(&item.candidate.version))
}
