//! Values that may bound an interval.
ghost use Rattle.std.specs.Prelude.{◌≡◌, IfOk};
ghost use Rattle.std.specs.declared.cmp.Ordering.TheVariants.{Equal};

use std::alloc::{AllocError, Global};
use std::hash::Hash;

/// A value that may bound an interval: it has a total order, a hash and a copy that equals its source.
///
/// Nothing else of the order is used, above all not that a value lies between two others. Values that are
/// equal may still differ, as versions that are spelled in two ways: which of them a set keeps is left
/// open.
pub trait RangeValue: Ord + Hash + Drop {
    /// Returns a copy, which equals its source. The only error is lack of memory.
    fn try_clone(&self, alloc: Global) -> Result<Self, AllocError>
        ensures { IfOk result (λ copy. Self.cmp copy self.now ≡ Equal) };
}

impl RangeValue for String {
    fn try_clone(&self, alloc: Global) -> Result<String, AllocError> {
        String::from_str(alloc, self.as_str())
    }
}
