//! Release numbers raised by one.

ghost use Rattle.std.specs.Prelude.{◌<◌, length, IfOk};
ghost use Rattle.pep440_text.specs.Releases.{raised, last_raised};
ghost use Rattle.pep440_range.specs.Numbers.{Raises};

use crate::RangeError;
use pep440_text::release;
use std::alloc::Global;

/// Returns the number plus one, or `NumberAtEnd` for `u64::MAX`.
pub(crate) fn raised(number: u64) -> Result<u64, RangeError>
    ensures { Raises (λ next. next) result (raised number) }
{
    release::raised(number).ok_or(RangeError::NumberAtEnd)
}

/// Returns the numbers with the last of them raised by one. Takes memory for them.
pub(crate) fn last_raised(alloc: Global, numbers: &[u64]) -> Result<Vec<u64>, RangeError>
    requires { 0 < length numbers.now }
    ensures numbers { Raises (λ numbers. numbers.items) result (last_raised numbers.now) }
    ensures some { IfOk result (λ raised. 0 < length raised.items) }
{
    let mut copy = Vec::with_capacity(alloc, numbers.len())?;
    copy.extend_from_slice(numbers)?;
    release::with_last_raised(copy).ok_or(RangeError::NumberAtEnd)
}
