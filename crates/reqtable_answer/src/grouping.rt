//! Requirements and candidates, grouped by package: each name is looked up once.
//!
//! Candidates are grouped only under packages that are asked for, in one pass.

ghost use Rattle.std.specs.Prelude.{◌≡◌, ℕ, ◌<◌, ◌&&◌, ◌||◌, List, [], ◌∷◌, ◌++◌, filter, length};
ghost use Rattle.std.specs.Prelude.{IfOk, OnOk, OnErr};
ghost use Rattle.std.specs.List.{list_any, enumerate_from};
ghost use Rattle.reqtable_answer.specs.Asks.{is_of, is_candidate};
ghost use Rattle.reqtable_answer.specs.Groups.{asks_for, has_group, candidates_for, numbered_seen};
ghost use Rattle.reqtable_answer.specs.Says.{ask_seen, asks_seen};

use crate::ask::Ask;
use crate::choosing::Numbered;
use reqtable_candidates::Candidate;
use std::alloc::{AllocError, Global};
use std::collections::BTreeMap;

/// The requirements on a package, and its candidates.
#[derive(Drop)]
pub struct Group<'a> {
    pub asks: Vec<Ask<'a>>,
    pub candidates: Vec<Numbered<'a>>,
}

/// The groups, by the names of their packages.
pub type Groups<'a> = BTreeMap<&'a str, Group<'a>>;

/// The required packages, each with the requirements on it and its candidates, both in their order.
///
/// # Errors
///
/// `AllocError` when memory runs out.
pub fn by_package<'a>(
    alloc: Global,
    asks: &[Ask<'a>],
    candidates: &'a [Candidate],
) -> Result<Groups<'a>, AllocError>
    ensures packages { IfOk result (λ groups. (q : List ℕ) →
        has_group groups q ≡ list_any (is_of q) (asks_seen asks.now)) }
    ensures asks { IfOk result (λ groups. (q : List ℕ) →
        asks_for groups q ≡ filter (is_of q) (asks_seen asks.now)) }
    ensures candidates { IfOk result (λ groups. (q : List ℕ) → candidates_for groups q ≡
        filter (λ c. has_group groups q && is_candidate q c) (enumerate_from 0 candidates.now)) }
{
    let mut groups = asks_by_package(alloc, asks)?;
    add_candidates(&mut groups, candidates)?;
    Ok(groups)
}

/// The required packages, with the requirements on them, in their order, and no candidates.
///
/// With A requirements on P packages that are O(A log P) comparisons of names.
///
/// # Errors
///
/// `AllocError` when memory runs out.
pub fn asks_by_package<'a>(alloc: Global, asks: &[Ask<'a>]) -> Result<Groups<'a>, AllocError>
    ensures packages { IfOk result (λ groups. (q : List ℕ) →
        has_group groups q ≡ list_any (is_of q) (asks_seen asks.now)) }
    ensures asks { IfOk result (λ groups. (q : List ℕ) →
        asks_for groups q ≡ filter (is_of q) (asks_seen asks.now)) }
    ensures candidates { IfOk result (λ groups. (q : List ℕ) → candidates_for groups q ≡ []) }
    ensures grown { OnErr result (0 < length asks.now) }
{
    let mut groups: Groups<'a> = BTreeMap::new(alloc);
    for ask in asks {
        add_ask(alloc, &mut groups, ask)?;
    }
    Ok(groups)
}

/// Adds a requirement to its package's group, which is created if there is none.
fn add_ask<'a>(alloc: Global, groups: &mut Groups<'a>, ask: &Ask<'a>) -> Result<(), AllocError>
    ensures packages { OnOk result ((q : List ℕ) →
        has_group groups.new q ≡ (has_group groups.old q || is_of q (ask_seen ask.now))) }
    ensures asks { OnOk result ((q : List ℕ) → asks_for groups.new q ≡
        asks_for groups.old q ++ filter (is_of q) (ask_seen ask.now ∷ [])) }
    ensures candidates { OnOk result ((q : List ℕ) →
        candidates_for groups.new q ≡ candidates_for groups.old q) }
{
    let group = groups.entry(ask.name.as_str())?.or_insert(Group {
        asks: Vec::new(alloc),
        candidates: Vec::new(alloc),
    });
    group.asks.push(*ask)?;
    Ok(())
}

/// Adds each candidate whose package has a group to that group.
fn add_candidates<'a>(
    groups: &mut Groups<'a>,
    candidates: &'a [Candidate],
) -> Result<(), AllocError>
    ensures packages { OnOk result ((q : List ℕ) → has_group groups.new q ≡ has_group groups.old q) }
    ensures asks { OnOk result ((q : List ℕ) → asks_for groups.new q ≡ asks_for groups.old q) }
    ensures candidates { OnOk result ((q : List ℕ) →
        candidates_for groups.new q ≡ candidates_for groups.old q
        ++ filter (λ c. has_group groups.old q && is_candidate q c) (enumerate_from 0 candidates.now)) }
{
    for (place, candidate) in candidates.iter().enumerate() {
        add(groups, Numbered { place, candidate })?;
    }
    Ok(())
}

/// Adds a candidate to its package's group, if there is one.
fn add<'a>(groups: &mut Groups<'a>, numbered: Numbered<'a>) -> Result<(), AllocError>
    ensures packages { OnOk result ((q : List ℕ) → has_group groups.new q ≡ has_group groups.old q) }
    ensures asks { OnOk result ((q : List ℕ) → asks_for groups.new q ≡ asks_for groups.old q) }
    ensures candidates { OnOk result ((q : List ℕ) →
        candidates_for groups.new q ≡ candidates_for groups.old q
        ++ filter (λ c. has_group groups.old q && is_candidate q c) (numbered_seen numbered.entry ∷ [])) }
{
    match groups.get_mut(numbered.candidate.name.as_str()) {
        Some(group) => {
            group.candidates.push(numbered)?;
            Ok(())
        }
        None => Ok(()),
    }
}
