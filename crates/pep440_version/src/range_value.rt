//! Versions as the bounds of ranges.

use crate::Version;
use std::alloc::{AllocError, Global};
use version_ranges::RangeValue;

impl RangeValue for Version {
    fn try_clone(&self, alloc: Global) -> Result<Version, AllocError> {
        Version::try_clone(self, alloc)
    }
}
