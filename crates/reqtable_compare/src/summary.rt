//! A case of a package, by what it requires.

ghost use Rattle.std.specs.Prelude.{◌≡◌, ◌↔◌, IsTrue, IfOk};
ghost use Rattle.std.specs.List.Sorted.{IsStrictlySortedBy};
ghost use Rattle.std.specs.Ordering.{nat_cmp};
ghost use Rattle.std.specs.Cmp.Lexicographic.{slice_cmp};
ghost use Rattle.reqtable_compare.specs.Summed.{Alike, SameRange, Covering, Fit, HasAll, HoldsWithin};
ghost use Rattle.reqtable_compare.specs.Summed.{WithinRange};
ghost use Rattle.reqtable_compare.specs.Pairs.{ExtrasRise};
ghost use Rattle.reqtable_compare.specs.Seen.{summary_record};

use crate::sides::Relation;
use pep440_version::Version;
use pep508_name::ExtraName;
use pep508_tree::MarkerTree;
use reqtable_answer::united_extras;
use std::alloc::{AllocError, Global};
use version_ranges::Ranges;

/// What a case requires and where: whether it has lines, their extras in the order of their bytes, the range
/// that they share, whether one of their specifiers names a pre-release or developmental release, and the
/// tree that holds exactly where the case applies.
#[derive(Drop)]
pub struct Summary {
    pub has_lines: bool,
    pub extras: Vec<ExtraName>,
    pub range: Option<Ranges<Version>>,
    pub prerelease: bool,
    pub tree: MarkerTree,
}

impl Summary {
    /// Whether what both cases require is as the relation has it. Linear in their ranges, and in their extras
    /// but for sorting.
    pub(crate) fn fits(
        &self,
        alloc: Global,
        relation: Relation,
        other: &Summary,
    ) -> Result<bool, AllocError>
        requires { ExtrasRise (summary_record self.now) }
        ensures { IfOk result (λ fits.
            IsTrue fits ↔ Fit relation (summary_record self.now) (summary_record other.now)) }
    {
        match relation {
            Relation::Alike => Ok(self.is_alike(other)),
            Relation::Covering => self.covers(alloc, other),
        }
    }

    /// Whether the other case requires nothing, or this one at least as much.
    fn covers(&self, alloc: Global, other: &Summary) -> Result<bool, AllocError>
        requires { ExtrasRise (summary_record self.now) }
        ensures { IfOk result (λ covers.
            IsTrue covers ↔ Covering (summary_record self.now) (summary_record other.now)) }
    {
        if !self.has_lines {
            return Ok(!other.has_lines);
        }
        if !other.has_lines {
            return Ok(true);
        }
        let extras = has_all(alloc, &self.extras, &other.extras)?;
        if !extras {
            return Ok(false);
        }
        let range = is_within_range(alloc, &self.range, &other.range)?;
        Ok(range)
    }

    /// Whether both cases require nothing, or both the same.
    pub(crate) fn is_alike(&self, other: &Summary) -> bool
        ensures { IsTrue result ↔ Alike (summary_record self.now) (summary_record other.now) }
    {
        if !self.has_lines {
            return !other.has_lines;
        }
        if !other.has_lines {
            return false;
        }
        if self.prerelease != other.prerelease {
            return false;
        }
        self.extras == other.extras && is_same_range(&self.range, &other.range)
    }
}

fn is_same_range(a: &Option<Ranges<Version>>, b: &Option<Ranges<Version>>) -> bool
    ensures { IsTrue result ↔ SameRange a.now b.now }
{
    match a {
        Some(ours) => match b {
            Some(theirs) => *ours == *theirs,
            None => false,
        },
        None => false,
    }
}

/// Whether each of the wanted extras is one of these, which are in the order of their bytes.
fn has_all(alloc: Global, extras: &[ExtraName], wanted: &[ExtraName]) -> Result<bool, AllocError>
    requires { IsStrictlySortedBy (slice_cmp nat_cmp) extras.now }
    ensures { IfOk result (λ has. IsTrue has ↔ HasAll extras.now wanted.now) }
{
    let all = united_extras(alloc, &[extras, wanted])?;
    Ok(is_same_extras(&all, extras))
}

fn is_same_extras(ours: &[ExtraName], theirs: &[ExtraName]) -> bool
    ensures { IsTrue result ↔ (ours.now ≡ theirs.now) }
{
    ours == theirs
}

/// Whether both ranges exist, and the first has only points of the second.
fn is_within_range(
    alloc: Global,
    a: &Option<Ranges<Version>>,
    b: &Option<Ranges<Version>>,
) -> Result<bool, AllocError>
    ensures { IfOk result (λ within. IsTrue within ↔ WithinRange a.now b.now) }
{
    match a {
        Some(ours) => match b {
            Some(theirs) => is_within(alloc, ours, theirs),
            None => Ok(false),
        },
        None => Ok(false),
    }
}

/// Whether the first range has only points of the second.
fn is_within(
    alloc: Global,
    ours: &Ranges<Version>,
    theirs: &Ranges<Version>,
) -> Result<bool, AllocError>
    ensures { IfOk result (λ within. IsTrue within ↔ HoldsWithin ours.now theirs.now) }
{
    let both = ours.intersection(alloc, theirs)?;
    Ok(both == *ours)
}
