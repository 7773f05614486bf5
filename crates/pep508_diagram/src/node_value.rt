//! Values that may bound the branches of a node.

ghost use Rattle.std.specs.Prelude.{◌≡◌, IfOk};

use pep440_version::Version;
use std::alloc::{AllocError, Global};

/// A value that may bound the branches of a node: it has a total order, and an identical copy.
pub trait NodeValue: Ord + Drop {
    /// Returns a copy, the same in all that can be seen of it. The only error is lack of memory.
    fn copied(&self, alloc: Global) -> Result<Self, AllocError>
        ensures { IfOk result (λ copy. copy ≡ self.now) };
}

impl NodeValue for Version {
    fn copied(&self, alloc: Global) -> Result<Version, AllocError> {
        self.try_clone(alloc)
    }
}
