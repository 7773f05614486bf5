//! How many cases a table may have.

ghost use Rattle.std.specs.Prelude.{◌≡◌, ◌-◌, length, option_map};
ghost use Rattle.reqtable_table.specs.Building.{most_cases, IsRefusalOf};

use crate::table::{Case, TableError};
use pep508_name::PackageName;

/// How many cases there may be of each package that is still to come, and, if that is bounded, of all of them
/// together.
#[derive(Clone, Copy)]
pub(crate) struct CaseLimit {
    pub(crate) limit: u64,
    pub(crate) left: Option<u64>,
}

impl CaseLimit {
    /// The most cases that the next package may have.
    pub(crate) fn most(self) -> u64
        ensures { result ≡ most_cases self.limit self.left }
    {
        match self.left {
            None => self.limit,
            Some(left) => self.limit.min(left),
        }
    }

    /// The limit for the packages after one with these cases.
    pub(crate) fn after(self, cases: &[Case]) -> CaseLimit
        ensures limit { result.limit ≡ self.limit }
        ensures left { result.left ≡ option_map (λ left. left - length cases.now) self.left }
    {
        let left = match self.left {
            None => None,
            Some(left) => Some(left.saturating_sub(cases.len() as u64)),
        };
        CaseLimit {
            limit: self.limit,
            left,
        }
    }

    /// The refusal of a package that has more cases than it may have.
    pub(crate) fn refusal(self, package: PackageName) -> TableError
        ensures { IsRefusalOf self.limit self.left «package» result }
    {
        match self.left {
            None => TableError::TooManyCases { package },
            Some(left) => {
                if left < self.limit {
                    TableError::TooManyCasesInAll
                } else {
                    TableError::TooManyCases { package }
                }
            }
        }
    }
}
