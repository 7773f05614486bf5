//! The version range that lines require together.

ghost use Rattle.std.specs.Prelude.{◌≡◌, IfOk};
ghost use Rattle.std.specs.List.{list_all};
ghost use Rattle.reqtable_range.specs.Together.{lent};
ghost use Rattle.reqtable_cases.specs.Usable.{is_ranged, IsRangeOfMembers};

use pep440_range::agrees_beside_posts;
use pep440_specifier::VersionSpecifier;
use pep440_version::Version;
use reqtable_range::{has_range, shared_range};
use std::alloc::{AllocError, Global};
use version_ranges::Ranges;

/// The intersection of the ranges of all specifiers (PEP 440, "Version specifiers"); the full range if there
/// are none.
///
/// `None` where the range of some specifier doesn't decide which plain versions it accepts (`===`, and `<` or
/// `>` with a post-release), or can't be built since a number would have to be raised past 64 bits. n
/// specifiers need O(n log n) comparisons of versions, and memory for the bounds.
///
/// # Errors
///
/// `AllocError` when memory runs out.
pub fn asked_range(
    alloc: Global,
    members: &[&VersionSpecifier],
) -> Result<Option<Ranges<Version>>, AllocError>
    ensures { IfOk result (IsRangeOfMembers (lent members.now)) }
{
    let ranged = are_ranged(alloc, members)?;
    if !ranged {
        return Ok(None);
    }
    Ok(Some(shared_range(alloc, members)?))
}

/// Whether each specifier's range decides which plain versions it accepts.
fn are_ranged(alloc: Global, members: &[&VersionSpecifier]) -> Result<bool, AllocError>
    ensures { IfOk result (λ ranged. ranged ≡ list_all is_ranged (lent members.now)) }
{
    for member in members {
        let ranged = is_ranged(alloc, member)?;
        if !ranged {
            return Ok(false);
        }
    }
    Ok(true)
}

fn is_ranged(alloc: Global, member: &VersionSpecifier) -> Result<bool, AllocError>
    ensures { IfOk result (λ ranged. ranged ≡ is_ranged member.now) }
{
    if !agrees_beside_posts(member.operator(), member.version()) {
        return Ok(false);
    }
    has_range(alloc, member)
}
