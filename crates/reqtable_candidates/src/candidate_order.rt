//! Sorting of candidates: by the fronts of their names and the heads of their versions, and where these are
//! equal by everything that decides their order.

ghost use Rattle.std.specs.Prelude.{◌≡◌, true, map, IfOk};
ghost use Rattle.std.specs.List.{enumerate_from};
ghost use Rattle.pep440_version.specs.Order.{version_cmp};
ghost use Rattle.pep508_name.specs.Name.{name_cmp};
ghost use Rattle.reqtable_candidates.specs.Fronts.{are_bytes};
ghost use Rattle.reqtable_candidates.specs.Ordered.{placed_seen, order_cmp};

use crate::candidates::Candidate;
use crate::fronted::{Fronted, front_of};
use crate::head::head_of;
use crate::ordered::Placed;
use std::alloc::{AllocError, Global};
use std::cmp::Ordering;

/// The candidates in the order of the list, each with its index, front and head.
pub(crate) fn with_fronts(
    alloc: Global,
    candidates: &[Candidate],
) -> Result<Vec<Fronted<'_>>, AllocError>
    ensures { IfOk result (λ fronted.
        map (λ f. placed_seen f.placed) fronted.items ≡ enumerate_from 0 candidates.now) }
{
    let mut fronted = Vec::with_capacity(alloc, candidates.len())?;
    for (place, candidate) in candidates.iter().enumerate() {
        let front = front_of(candidate.name.as_str());
        let head = head_of(&candidate.version);
        let placed = Placed { place, candidate };
        fronted.push(Fronted {
            front,
            head,
            placed,
        })?;
    }
    Ok(fronted)
}

/// The candidates in their order, without their fronts and heads.
pub(crate) fn without_fronts<'a>(
    alloc: Global,
    fronted: Vec<Fronted<'a>>,
) -> Result<Vec<Placed<'a>>, AllocError>
    ensures { IfOk result (λ placed.
        map placed_seen placed.items ≡ map (λ f. placed_seen f.placed) fronted.entry.items) }
{
    let mut placed = Vec::with_capacity(alloc, fronted.len())?;
    for item in fronted {
        placed.push(item.placed)?;
    }
    Ok(placed)
}

/// The sorted order of two candidates. Versions are compared only if the names are equal.
pub(crate) fn compare_fronted(a: &Fronted<'_>, b: &Fronted<'_>) -> Ordering
    ensures { result ≡ order_cmp (placed_seen a.now.placed) (placed_seen b.now.placed) }
{
    let name = compare_names(a, b);
    if name.is_ne() {
        return name;
    }
    let version = compare_versions(b, a);
    version.then(a.placed.place.cmp(&b.placed.place))
}

/// The order of the names of two candidates. Reads them only if the fronts are equal and full.
fn compare_names(a: &Fronted<'_>, b: &Fronted<'_>) -> Ordering
    ensures { result ≡ name_cmp a.now.placed.candidate.now.name b.now.placed.candidate.now.name }
{
    let front = a.front.cmp(&b.front);
    if front.is_ne() || a.front % 256 == 0 {
        has_name_of_bytes(a.placed.candidate);
        has_name_of_bytes(b.placed.candidate);
        return front;
    }
    let (first, second) = (&a.placed.candidate.name, &b.placed.candidate.name);
    first.as_str().cmp(second.as_str())
}

/// The order of the versions of two candidates. Reads them only if the heads are equal.
fn compare_versions(a: &Fronted<'_>, b: &Fronted<'_>) -> Ordering
    ensures { result ≡ version_cmp a.now.placed.candidate.now.version b.now.placed.candidate.now.version }
{
    let head = a.head.cmp(&b.head);
    if head.is_ne() {
        return head;
    }
    a.placed.candidate.version.cmp(&b.placed.candidate.version)
}

/// Does nothing: its contract is that a name consists of bytes.
#[tactic(auto, using(crate::proofs::Fronts::name_of_bytes))]
fn has_name_of_bytes(candidate: &Candidate)
    ensures { are_bytes candidate.now.name ≡ true }
{
    let _ = candidate.name.as_str();
}
