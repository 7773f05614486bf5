//! A package's candidates, and the next of them that a range may accept.
//!
//! The greatest candidate is searched for with the case's range, once for all environments of the case.
//! Candidates are sorted from the greatest version down; after one that the range does not hold the search
//! goes on at the next interval below, which both binary searches find: that version's place among the
//! boundaries, and the end of the gap among the candidates. So there are no more iterations than candidates
//! or intervals. Within an interval each candidate is tested, since the admission test may refuse it.
//! Without a range each is.

ghost use Rattle.std.specs.Prelude.{◌≡◌, ◌≤◌, ◌<◌, ◌+◌, length, map, filter, get_or, IfOk};
ghost use Rattle.std.specs.List.{AllWithin};
ghost use Rattle.std.specs.Str.{bytes_eq};
ghost use Rattle.reqtable_candidates.specs.Ordered.{placed_seen};
ghost use Rattle.reqtable_search.specs.InRun.{version_of, untold_from, StopsLate};
ghost use Rattle.reqtable_search.specs.Told.{IsPassed};

use crate::gap::gap_end;
use crate::undecided::{next_place, untold_places};
use pep440_version::Version;
use pep508_name::PackageName;
use reqtable_candidates::{Ordered, Placed};
use std::alloc::{AllocError, Global};
use std::marker::Model;
use version_ranges::Ranges;

/// The candidates of a package, from the highest version down.
#[derive(Drop)]
pub struct Run<'o, 'a> {
    placed: &'o [Placed<'a>],
    /// The indices of the candidates that the range of specifiers without `<` and `>` doesn't decide.
    untold: Vec<usize>,
    /// The indices of the candidates that the range of specifiers with a `<` or `>` doesn't decide.
    untold_by_bounds: Vec<usize>,
}

impl<'o, 'a> Model for Run<'o, 'a> {
    ghost use Rattle.std.specs.Prelude.{List};
    ghost use Rattle.reqtable_candidates.specs.declared.ordered.Placed.{Placed};
    ghost use Rattle.reqtable_search.specs.InRun.{IsRun};

    ghost Value = { List Placed };

    ghost view = { λ r. r.placed.now };

    ghost invariant = { λ r. IsRun r.placed.now r.untold.items r.untold_by_bounds.items };
}

impl<'o, 'a> Run<'o, 'a> {
    /// The candidates of a package. They are found in O(log n) comparisons of names for n candidates of all
    /// packages, and each of them is visited twice. Needs memory for one index per candidate that has a local
    /// part or is a post-release.
    ///
    /// # Errors
    ///
    /// `AllocError` when memory runs out.
    pub fn of(
        alloc: Global,
        ordered: &'o Ordered<'a>,
        name: &PackageName,
    ) -> Result<Run<'o, 'a>, AllocError>
        ensures { IfOk result (λ run.
            map placed_seen run ≡ filter (λ c. bytes_eq name.now c.1.name) ordered.now.placed) }
    {
        let _ = ordered.placed();
        let placed = ordered.run_of(name);
        let untold = untold_places(alloc, false, placed)?;
        let untold_by_bounds = untold_places(alloc, true, placed)?;
        Ok(Run {
            placed,
            untold,
            untold_by_bounds,
        })
    }

    /// The number of candidates.
    pub fn len(&self) -> usize
        ensures { result ≡ length self.now }
    {
        self.placed.len()
    }

    /// The candidate at an index.
    pub fn at(&self, at: usize) -> &'o Placed<'a>
        requires { at < length self.now }
        ensures { result.now ≡ get_or self.now at result.now }
    {
        let placed = self.placed;
        &placed[at]
    }

    /// The next index after `at` whose candidate may be accepted, or the number of candidates.
    ///
    /// If the range doesn't contain the version at `at`, the candidates after it that lie between the same
    /// two intervals are skipped, up to the first one that the range doesn't decide: in as many steps as the
    /// logarithms of the number of boundaries and of the number of candidates. If it does, or without a
    /// range, none is skipped.
    pub fn next(&self, at: usize, range: &Option<Ranges<Version>>, bounded: bool) -> usize
        requires { at < length self.now }
        ensures behind { at < result }
        ensures within { result ≤ length self.now }
        ensures passed { AllWithin (λ x. IsPassed bounded range.now (version_of x)) self.now (at + 1) result }
        ensures far { StopsLate bounded range.now self.now at result }
    {
        let placed = self.placed;
        let Some(set) = range else {
            return at + 1;
        };
        let candidate = placed[at].candidate;
        if set.contains(&candidate.version) {
            return at + 1;
        }
        let (_, boundaries) = set.turns();
        let end = gap_end(placed, at, boundaries);
        next_place(self.untold_places(bounded), at, end)
    }

    /// The indices of the candidates that a range doesn't decide.
    fn untold_places(&self, bounded: bool) -> &[usize]
        ensures { result.now ≡ untold_from bounded 0 self.now }
    {
        if bounded {
            &self.untold_by_bounds
        } else {
            &self.untold
        }
    }
}
