//! What many lists accept together, as two ranges and the specifiers that are tested one by one.

ghost use Rattle.std.specs.Prelude.{◌≡◌, ◌↔◌, IsTrue, List, map, is_some, IfOk, IfSome};
ghost use Rattle.version_ranges.specs.Point.{At};
ghost use Rattle.version_ranges.specs.Held.{holds_at};
ghost use Rattle.pep440_version.specs.Record.{without_local};
ghost use Rattle.pep440_version.specs.Order.{version_cmp};
ghost use Rattle.pep440_specifier.specs.Matching.{SpecifierRecord};
ghost use Rattle.pep440_specifier_list.specs.Lists.{matches_all};
ghost use Rattle.pep440_range.specs.Agreement.{IsSaid};
ghost use Rattle.reqtable_range.specs.Together.{members_of, all_take, lent};
ghost use Rattle.reqtable_range.specs.One.{FindsOne};

use crate::laws::simple_range_tells_what_all_take;
use crate::shared::shared_range;
use crate::simple::is_said;
use crate::single::without_implied;
use crate::specifier_sets::sorted_members;
use pep440_specifier::VersionSpecifier;
use pep440_specifier_list::VersionSpecifiers;
use pep440_version::Version;
use std::alloc::{AllocError, Global};
use version_ranges::Ranges;

/// The ranges of many lists, and the specifiers that are tested in addition to them.
#[derive(Drop)]
pub struct OneRange<'a> {
    /// The range of those specifiers whose range decides each version, tested without its local part.
    pub simple: Ranges<Version>,
    /// The range of each `==` and `!=` with a local part, which decides each version, tested as it is.
    pub local: Ranges<Version>,
    /// The specifiers that no range decides: those without a range, and at most four `<` and `>` and two
    /// `===`, which imply the others.
    pub single: Vec<&'a VersionSpecifier>,
}

impl<'a> OneRange<'a> {
    /// Whether all lists accept the version. `None` for a version that marks an end of a range, which can't
    /// be written.
    ///
    /// With n specifiers in both ranges that are O(log n) comparisons of versions; in addition each single
    /// specifier is tested, up to the first that rejects it. Needs memory for a copy of a version with a
    /// local part, and to test `===`.
    ///
    /// # Errors
    ///
    /// `AllocError` when memory runs out.
    pub fn tells(&self, alloc: Global, version: &Version) -> Result<Option<bool>, AllocError>
        ensures taken { IfOk result (λ told. IfSome told (λ taken. (lists : List (List SpecifierRecord)) →
            FindsOne (members_of lists) self.now → taken ≡ all_take lists version.now)) }
        ensures told { IfOk result (λ told. IsTrue (is_some told) ↔ IsSaid version.now) }
    {
        if !is_said(version) {
            return Ok(None);
        }
        let taken = self.takes(alloc, version)?;
        Ok(Some(taken))
    }

    fn takes(&self, alloc: Global, version: &Version) -> Result<bool, AllocError>
        requires { IsSaid version.now }
        ensures { IfOk result (λ taken. (lists : List (List SpecifierRecord)) →
            FindsOne (members_of lists) self.now → taken ≡ all_take lists version.now) }
    {
        simple_range_tells_what_all_take();
        let simple = holds_public(alloc, &self.simple, version)?;
        if !simple {
            return Ok(false);
        }
        let local = self.local.contains(version);
        if !local {
            return Ok(false);
        }
        each_takes(alloc, &self.single, version)
    }
}

/// The ranges of the lists, and the specifiers that no range decides.
///
/// Needs O(n log n) comparisons of versions for n specifiers, and memory for the bounds, for references to
/// the specifiers and for prints of two versions.
///
/// # Errors
///
/// `AllocError` when memory runs out.
pub fn one_range<'a>(
    alloc: Global,
    lists: &[&'a VersionSpecifiers],
) -> Result<OneRange<'a>, AllocError>
    ensures { IfOk result (FindsOne (members_of (map (λ list. list.now) lists.now))) }
{
    let sorted = sorted_members(alloc, lists)?;
    let simple = shared_range(alloc, &sorted.simple)?;
    let local = shared_range(alloc, &sorted.local)?;
    let single = without_implied(alloc, &sorted.single)?;
    Ok(OneRange {
        simple,
        local,
        single,
    })
}

/// Whether each specifier accepts the version; tests them up to the first that doesn't.
fn each_takes(
    alloc: Global,
    members: &[&VersionSpecifier],
    version: &Version,
) -> Result<bool, AllocError>
    ensures { IfOk result (λ taken. taken ≡ matches_all (lent members.now) version.now) }
{
    for member in members {
        let taken = member.contains(alloc, version)?;
        if !taken {
            return Ok(false);
        }
    }
    Ok(true)
}

/// Whether the range contains the version without its local part.
pub(crate) fn holds_public(
    alloc: Global,
    range: &Ranges<Version>,
    version: &Version,
) -> Result<bool, AllocError>
    ensures { IfOk result (λ held.
        held ≡ holds_at version_cmp range.now (At (without_local version.now))) }
{
    if version.local().is_empty() {
        return Ok(range.contains(version));
    }
    let public = version.try_clone(alloc)?.without_local();
    Ok(range.contains(&public))
}
