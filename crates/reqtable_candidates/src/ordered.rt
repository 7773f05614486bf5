//! Candidates by package, from the highest version down.

ghost use Rattle.std.specs.Prelude.{◌≡◌, map, filter, IfOk};
ghost use Rattle.std.specs.List.Sorted.{IsStrictlySortedBy};
ghost use Rattle.std.specs.Str.{bytes_eq};
ghost use Rattle.pep508_name.specs.Name.{name_cmp};
ghost use Rattle.reqtable_candidates.specs.Candidates.{HavePrintableVersions};
ghost use Rattle.reqtable_candidates.specs.Ordered.{placed_seen, order_cmp, AreInOrder};

use crate::candidate_order::{compare_fronted, with_fronts, without_fronts};
use crate::candidates::{Candidate, Candidates};
use pep508_name::PackageName;
use std::alloc::{AllocError, Global};
use std::cmp::Ordering;
use std::marker::Model;

/// A candidate with its index in the candidate list.
#[derive(Clone, Copy)]
pub struct Placed<'a> {
    pub place: usize,
    pub candidate: &'a Candidate,
}

/// The candidates of a list by package, from the highest version down; among equals the first in the list
/// comes first.
#[derive(Drop)]
pub struct Ordered<'a> {
    candidates: &'a Candidates,
    placed: Vec<Placed<'a>>,
}

impl<'a> Model for Ordered<'a> {
    ghost use Rattle.std.specs.Prelude.{map};
    ghost use Rattle.reqtable_candidates.specs.Ordered.{placed_seen, AreInOrder, OrderedRecord};

    ghost Value = { OrderedRecord };

    ghost view = { λ o. record {
      candidates = o.candidates.now;
      placed = map placed_seen o.placed.items;
    } };

    ghost invariant = { λ o. AreInOrder o.candidates.now (map placed_seen o.placed.items) };
}

impl Candidates {
    /// The candidates sorted by package and from the highest version down. n candidates need O(n log n)
    /// comparisons, and memory for n of them. Names that differ in their first eight bytes are compared by
    /// these as one number each, and versions by the first two numbers of their releases where these differ.
    ///
    /// # Errors
    ///
    /// `AllocError` when memory runs out.
    pub fn in_order(&self, alloc: Global) -> Result<Ordered<'_>, AllocError>
        ensures { IfOk result (λ ordered. ordered.candidates ≡ self.now) }
    {
        let mut fronted = with_fronts(alloc, self.items())?;
        fronted.sort_unstable_by(|a, b| compare_fronted(a, b));
        let placed = without_fronts(alloc, fronted)?;
        Ok(Ordered {
            candidates: self,
            placed,
        })
    }
}

impl<'a> Ordered<'a> {
    /// The candidate list that was sorted.
    pub fn candidates(&self) -> &'a Candidates
        ensures { result.now ≡ self.now.candidates }
    {
        self.candidates
    }

    /// All candidates in sorted order, each with its index in the list.
    pub fn placed(&self) -> &[Placed<'a>]
        ensures placed { map placed_seen result.now ≡ self.now.placed }
        ensures in_order { AreInOrder self.now.candidates self.now.placed }
        ensures printable { HavePrintableVersions self.now.candidates }
    {
        self.candidates.have_printable_versions();
        &self.placed
    }

    /// The candidates of a package, in sorted order. Needs O(log n) comparisons of names for n candidates.
    pub fn run_of(&self, name: &PackageName) -> &[Placed<'a>]
        ensures { map placed_seen result.now ≡ filter (λ c. bytes_eq name.now c.1.name) self.now.placed }
    {
        run_in(&self.placed, name)
    }
}

/// The order of a candidate's name and another name.
fn compare_name(placed: &Placed<'_>, name: &PackageName) -> Ordering
    ensures { result ≡ name_cmp placed.now.candidate.now.name name.now }
{
    placed.candidate.name.as_str().cmp(name.as_str())
}

/// The candidates of a package among sorted candidates.
fn run_in<'s, 'a>(placed: &'s [Placed<'a>], name: &PackageName) -> &'s [Placed<'a>]
    requires { IsStrictlySortedBy order_cmp (map placed_seen placed.now) }
    ensures { map placed_seen result.now
        ≡ filter (λ c. bytes_eq name.now c.1.name) (map placed_seen placed.now) }
{
    let start = placed.partition_point(|it| compare_name(it, name).is_lt());
    let (_, rest) = placed.split_at(start);
    let length = rest.partition_point(|it| compare_name(it, name).is_le());
    let (run, _) = rest.split_at(length);
    run
}
