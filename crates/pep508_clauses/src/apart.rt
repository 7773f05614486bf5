//! Clauses that no other clause can cover, found by the hashes of their first terms.

ghost use Rattle.std.specs.Prelude.{◌≡◌, false, IfOk, IfSome, OnOk};
ghost use Rattle.std.specs.Option.{option_map_or};
ghost use Rattle.pep508_clauses.specs.Apart.{AddsWord, BeginApart, stands_apart};
ghost use Rattle.pep508_clauses.specs.Sparing.{has};

use crate::clause::Clause;
use crate::term::Term;
use std::alloc::{AllocError, Global};
use std::collections::BTreeSet;

/// Returns the words (hashes of terms) by which more than one of some clauses begins; `None` where a clause
/// has no terms.
pub(crate) fn common_words<T: Term>(
    alloc: Global,
    clauses: &[Clause<T>],
) -> Result<Option<BTreeSet<u64>>, AllocError>
    ensures { IfOk result (λ found. IfSome found (λ words.
        BeginApart T.literal (has words.keys) clauses.now)) }
{
    let mut seen = BTreeSet::new(alloc);
    let mut common = BTreeSet::new(alloc);
    for clause in clauses {
        match clause.terms().split_first() {
            Some((term, _)) => add_word(&mut seen, &mut common, term.literal())?,
            None => return Ok(None),
        }
    }
    Ok(Some(common))
}

/// Adds a word to those that were seen, and to the common ones where it was seen before.
fn add_word(
    seen: &mut BTreeSet<u64>,
    common: &mut BTreeSet<u64>,
    word: u64,
) -> Result<(), AllocError>
    ensures { OnOk result (AddsWord seen.old.keys common.old.keys word seen.new.keys common.new.keys) }
{
    if !seen.insert(word)? {
        common.insert(word)?;
    }
    Ok(())
}

/// Returns whether a clause has a single term, whose word is not among the common ones.
pub(crate) fn stands_apart<T: Term>(clause: &Clause<T>, common: &Option<BTreeSet<u64>>) -> bool
    ensures { result ≡ option_map_or (λ words. stands_apart T.literal (has words.keys) clause.now)
        common.now false }
{
    match common {
        Some(words) => is_alone(clause.terms(), words),
        None => false,
    }
}

/// Returns whether there is a single term, whose word is not among these.
fn is_alone<T: Term>(terms: &[T], words: &BTreeSet<u64>) -> bool
    ensures { result ≡ stands_apart T.literal (has words.now.keys) terms.now }
{
    match terms.split_first() {
        Some((term, others)) => others.is_empty() && !words.contains(&term.literal()),
        None => false,
    }
}
