//! Lists that count how many of their members were tested.

ghost use Rattle.std.specs.Prelude.{◌≡◌, ◌≢◌, ℕ, All, IsOk, IfOk, OnOk, OnErr};
ghost use Rattle.pep440_operator.specs.declared.operator.Operator.TheVariants.{ExactEqual};
ghost use Rattle.pep440_specifier_list.specs.Lists.{matches_all, asked, counted};
ghost use Rattle.pep440_specifier_list.specs.Refusals.{IsRefusal};

use crate::VersionSpecifiers;
use crate::asking::ask;
use pep440_version::Version;
use std::alloc::{AllocError, Global};
use std::marker::Model;

/// A list that counts how many of its members were tested. The count stops at `u64::MAX`.
#[derive(Drop)]
pub struct CountedSpecifiers {
    list: VersionSpecifiers,
    tests: u64,
}

impl Model for CountedSpecifiers {
    ghost use Rattle.pep440_specifier_list.specs.Lists.{CountedRecord};

    ghost Value = { CountedRecord };

    ghost view = { λ c. record { members = c.list; tests = c.tests } };
}

impl CountedSpecifiers {
    /// Returns the counting list, none of whose members was tested so far.
    pub fn new(list: VersionSpecifiers) -> CountedSpecifiers
        ensures { result ≡ record { members = list; tests = 0 } }
    {
        CountedSpecifiers { list, tests: 0 }
    }

    /// Returns whether the list accepts the version, as `contains` does. Each member that is tested is
    /// counted, also one that runs out of memory, which is the last.
    ///
    /// # Errors
    ///
    /// `AllocError` when memory runs out.
    pub fn contains_counted(&mut self, alloc: Global, version: &Version) -> Result<bool, AllocError>
        ensures answer { IfOk result (λ taken. taken ≡ matches_all self.old.members version.now) }
        ensures count { OnOk result (self.new ≡ counted self.old (asked self.old.members version.now)) }
        ensures refusal { OnErr result ((k : ℕ)
            × IsRefusal self.old.members version.now k × (self.new ≡ counted self.old k)) }
        ensures memory { All (λ s. s.operator ≢ ExactEqual) self.old.members → IsOk result }
    {
        let asking = ask(alloc, self.list.as_slice(), version);
        self.tests = self.tests.saturating_add(asking.asked as u64);
        asking.answer
    }

    /// Returns the list whose members are tested.
    pub fn specifiers(&self) -> &VersionSpecifiers
        ensures { result.now ≡ self.now.members }
    {
        &self.list
    }

    /// Returns how many members were tested so far, up to `u64::MAX`.
    pub fn tests(&self) -> u64
        ensures { result ≡ self.now.tests }
    {
        self.tests
    }
}
