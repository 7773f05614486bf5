//! The sets that comparisons are made of, with the error of ranges.

ghost use Rattle.std.specs.Prelude.{◌≡◌, ◌||◌, Option, Some, IfOk, IfErr};
ghost use Rattle.std.specs.Option.{option_map};
ghost use Rattle.version_ranges.specs.Point.{Point};
ghost use Rattle.version_ranges.specs.Held.{holds_at};
ghost use Rattle.pep440_text.specs.Record.{VersionRecord};
ghost use Rattle.pep440_version.specs.Order.{version_cmp};
ghost use Rattle.pep440_range.specs.Ranges.{PointTest, Gives};
ghost use Rattle.pep508_comparison.specs.Comparisons.{nowhere, everywhere, negated_points};

use pep440_range::RangeError;
use pep440_version::Version;
use std::alloc::Global;
use version_ranges::Ranges;

/// Returns the set of no version.
pub(crate) fn nowhere(alloc: Global) -> Result<Ranges<Version>, RangeError>
    ensures { Gives result (Some nowhere) }
{
    Ok(Ranges::empty(alloc))
}

/// Returns the set of all versions.
pub(crate) fn everywhere(alloc: Global) -> Result<Ranges<Version>, RangeError>
    ensures { Gives result (Some everywhere) }
{
    Ok(Ranges::full(alloc)?)
}

/// Returns a set, or its complement where `negated`; an error is passed on.
pub(crate) fn negated(
    alloc: Global,
    negated: bool,
    set: Result<Ranges<Version>, RangeError>,
) -> Result<Ranges<Version>, RangeError>
    ensures { (wanted : Option PointTest) →
        Gives set wanted → Gives result (option_map (negated_points negated) wanted) }
{
    match set {
        Ok(set) => {
            if negated {
                Ok(set.complement(alloc)?)
            } else {
                Ok(set)
            }
        }
        Err(error) => Err(error),
    }
}

/// Returns the union of two sets.
pub(crate) fn either(
    alloc: Global,
    set: &Ranges<Version>,
    other: &Ranges<Version>,
) -> Result<Ranges<Version>, RangeError>
    ensures points { IfOk result (λ joined. (p : Point VersionRecord) →
        holds_at version_cmp joined p
        ≡ (holds_at version_cmp set.now p || holds_at version_cmp other.now p)) }
    ensures memory { IfErr result (λ error. error ≡ RangeError.Memory) }
{
    Ok(set.union(alloc, other)?)
}
