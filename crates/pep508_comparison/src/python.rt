//! Comparisons of `python_version`.

ghost use Rattle.std.specs.Prelude.{◌≡◌, ◌<◌, ◌≤◌, length};
ghost use Rattle.pep440_range.specs.Ranges.{Gives};
ghost use Rattle.pep508_comparison.specs.Comparisons.{compared_numbers, python_points, python_points_past};
ghost use Rattle.pep508_comparison.specs.Comparisons.{python_version_points};

use crate::minors::{before_next_minor, from_next_minor, in_minor};
use crate::release_numbers::{are_zeros, compared_numbers};
use crate::sets::{everywhere, negated, nowhere};
use pep440_operator::Operator;
use pep440_range::{RangeError, release_specifier_to_range, sets};
use pep440_specifier::VersionSpecifier;
use pep440_version::Version;
use std::alloc::Global;
use version_ranges::Ranges;

/// Returns the full versions for which this comparison of `python_version` holds (PEP 508, "Environment
/// Markers"): its values are the first two numbers of the full version, so that `python_version > '3.8'`
/// begins at 3.9, and `python_version == '3.8.1'` holds nowhere.
///
/// Goes a fixed number of times through the specifier's version. Takes memory for the bounds.
///
/// # Errors
/// `NumberAtEnd` where the set is bounded by a release whose last number would be past 64 bits; `Memory`
/// where memory ran out.
pub fn python_version_range(
    alloc: Global,
    specifier: &VersionSpecifier,
) -> Result<Ranges<Version>, RangeError>
    ensures { Gives result (python_version_points specifier.now) }
{
    let operator = specifier.operator();
    let numbers = compared_numbers(operator, specifier.version().release());
    if numbers.len() < 3 {
        python_range(alloc, specifier, numbers)
    } else {
        python_range_past(alloc, operator, numbers)
    }
}

/// Returns the full versions for a comparison with one number or two.
fn python_range(
    alloc: Global,
    specifier: &VersionSpecifier,
    numbers: &[u64],
) -> Result<Ranges<Version>, RangeError>
    requires some { 0 < length numbers.now }
    requires compared { numbers.now ≡ compared_numbers specifier.now.operator specifier.now.version.release }
    ensures { Gives result (python_points specifier.now.operator numbers.now) }
{
    match specifier.operator() {
        Operator::Equal | Operator::ExactEqual => in_minor(alloc, numbers),
        Operator::NotEqual => negated(alloc, true, in_minor(alloc, numbers)),
        Operator::EqualStar | Operator::NotEqualStar | Operator::TildeEqual => {
            release_specifier_to_range(alloc, specifier)
        }
        Operator::LessThan => sets::below(alloc, Version::new(alloc, numbers)?),
        Operator::LessThanEqual => before_next_minor(alloc, numbers),
        Operator::GreaterThan => from_next_minor(alloc, numbers),
        Operator::GreaterThanEqual => sets::from(alloc, Version::new(alloc, numbers)?),
    }
}

/// Returns the full versions for a comparison with three numbers or more, which no value has.
fn python_range_past(
    alloc: Global,
    operator: Operator,
    numbers: &[u64],
) -> Result<Ranges<Version>, RangeError>
    requires { 2 ≤ length numbers.now }
    ensures { Gives result (python_points_past operator numbers.now) }
{
    match operator {
        Operator::Equal | Operator::EqualStar | Operator::ExactEqual => nowhere(alloc),
        Operator::NotEqual | Operator::NotEqualStar => everywhere(alloc),
        Operator::TildeEqual => {
            if are_zeros(&numbers[2..]) {
                in_minor(alloc, numbers)
            } else {
                nowhere(alloc)
            }
        }
        Operator::LessThan | Operator::LessThanEqual => before_next_minor(alloc, numbers),
        Operator::GreaterThan | Operator::GreaterThanEqual => from_next_minor(alloc, numbers),
    }
}
