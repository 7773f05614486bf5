//! The release numbers that count in comparisons.

ghost use Rattle.std.specs.Prelude.{◌≡◌, ◌<◌, length};
ghost use Rattle.std.specs.List.{list_all};
ghost use Rattle.pep440_version.specs.Order.{stripped};
ghost use Rattle.pep440_version.specs.Changes.{or_zero};
ghost use Rattle.pep440_text.specs.Releases.{last_raised};
ghost use Rattle.pep440_range.specs.Numbers.{Raises};
ghost use Rattle.pep508_comparison.specs.Comparisons.{minor_of, compared_numbers, is_zero};

use pep440_operator::Operator;
use pep440_range::RangeError;

/// Returns the numbers that count for an operator.
pub(crate) fn compared_numbers(operator: Operator, numbers: &[u64]) -> &[u64]
    requires { 0 < length numbers.now }
    ensures { result.now ≡ compared_numbers operator numbers.now }
{
    match operator {
        Operator::EqualStar | Operator::NotEqualStar | Operator::TildeEqual => numbers,
        Operator::Equal
        | Operator::ExactEqual
        | Operator::NotEqual
        | Operator::LessThan
        | Operator::LessThanEqual
        | Operator::GreaterThan
        | Operator::GreaterThanEqual => without_end_zeros(numbers),
    }
}

/// Returns the numbers without the zeros at their end, down to one number.
#[tactic(auto, using(crate::proofs::Zeros::kept_rules))]
fn without_end_zeros(numbers: &[u64]) -> &[u64]
    requires { 0 < length numbers.now }
    ensures { result.now ≡ or_zero (stripped numbers.now) }
{
    let mut front = numbers;
    loop {
        match front.split_last() {
            None => return front,
            Some((last, shorter)) => {
                if *last != 0 {
                    return front;
                }
                if shorter.is_empty() {
                    return front;
                }
                front = shorter;
            }
        }
    }
}

/// Returns the first two numbers, the second 0 where it is not written.
pub(crate) fn minor_of(numbers: &[u64]) -> [u64; 2]
    ensures { result ≡ minor_of numbers.now }
{
    match numbers.split_first() {
        None => [0, 0],
        Some((major, rest)) => match rest.split_first() {
            None => [*major, 0],
            Some((minor, _)) => [*major, *minor],
        },
    }
}

/// Returns the first two numbers of the minor release after the one with which the numbers begin.
pub(crate) fn next_minor(numbers: &[u64]) -> Result<[u64; 2], RangeError>
    ensures { Raises (λ next. next) result (last_raised (minor_of numbers.now)) }
{
    let [major, minor] = minor_of(numbers);
    match minor.checked_add(1) {
        Some(next) => Ok([major, next]),
        None => Err(RangeError::NumberAtEnd),
    }
}

/// Returns whether all numbers are 0.
pub(crate) fn are_zeros(numbers: &[u64]) -> bool
    ensures { result ≡ list_all is_zero numbers.now }
{
    numbers.iter().all(|number| *number == 0)
}
