//! Ranges that hold whatever some lists accept, and versions that only few of their specifiers reject.

ghost use Rattle.std.specs.Prelude.{◌≡◌, not, map, IfOk};
ghost use Rattle.reqtable_range.specs.Sifting.{Sifts, sieve_holds};

use crate::laws::simple_range_tells_what_all_take;
use crate::one::{OneRange, holds_public, one_range};
use pep440_specifier_list::VersionSpecifiers;
use pep440_version::Version;
use std::alloc::{AllocError, Global};
use version_ranges::Ranges;

/// The two ranges of many lists without the specifiers that no range decides, so that it borrows nothing.
#[derive(Drop)]
pub struct Sieve {
    /// Tested without the version's local part.
    public: Ranges<Version>,
    local: Ranges<Version>,
}

impl Sieve {
    /// Whether one of the ranges doesn't contain the version, so that one of the lists rejects it if it can
    /// be written. `false` leaves open whether one does.
    ///
    /// With n specifiers in the ranges that are O(log n) comparisons of versions. Needs memory for a copy of
    /// a version with a local part.
    ///
    /// # Errors
    ///
    /// `AllocError` when memory runs out.
    pub fn rejects(&self, alloc: Global, version: &Version) -> Result<bool, AllocError>
        ensures { IfOk result (λ rejected. rejected ≡ not (sieve_holds self.now version.now)) }
    {
        let public = holds_public(alloc, &self.public, version)?;
        if !public {
            return Ok(true);
        }
        Ok(!self.local.contains(version))
    }
}

/// The ranges of the lists. Costs what `one_range` does.
///
/// # Errors
///
/// `AllocError` when memory runs out.
pub fn sieve_of(alloc: Global, lists: &[&VersionSpecifiers]) -> Result<Sieve, AllocError>
    ensures { IfOk result (Sifts (map (λ list. list.now) lists.now)) }
{
    simple_range_tells_what_all_take();
    let one = one_range(alloc, lists)?;
    let OneRange {
        simple,
        local,
        single: _,
    } = one;
    Ok(Sieve {
        public: simple,
        local,
    })
}
