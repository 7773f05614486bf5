//! Removing needless terms of clauses, and needless clauses.
//!
//! A clause of one term is compared with others only where another clause begins by its word, since what
//! covers it has no other term: `n` versions in a list are as many such clauses, none of which is compared
//! with another. Equal terms of one clause both stay: a version's local part is dropped after the tests, so
//! `implementation_version not in '1+x 1+y'` prints `!= '1'` twice. Of two equal clauses the first is
//! dropped.

ghost use Rattle.std.specs.Prelude.{◌≡◌, [], ◌∷◌, ◌++◌, ◌&&◌, ◌||◌, not, reverse, IfOk, IfSome, OnOk};
ghost use Rattle.std.specs.List.{list_any, list_all};
ghost use Rattle.pep508_marker_text_laws.specs.Simplified.{sifted, has_some, stands_in, spares, is_needless};
ghost use Rattle.pep508_marker_text_laws.specs.Simplified.{is_covered};
ghost use Rattle.pep508_marker_text_laws.specs.Simplified.{shortened_behind, simplified};
ghost use Rattle.pep508_clauses.specs.Apart.{BeginApart};
ghost use Rattle.pep508_clauses.specs.Sparing.{has, candidates_of, is_spared_by, is_needless_by};
ghost use Rattle.pep508_clauses.specs.Terms.{lists_of};

use crate::apart::{common_words, stands_apart};
use crate::clause::Clause;
use crate::strays::{Candidate, add_candidate, words};
use crate::term::Term;
use std::alloc::{AllocError, Global};
use std::collections::BTreeSet;

/// Returns whether a clause contains a term.
fn stands_in<T: Term>(clause: &[T], term: &T) -> bool
    ensures { result ≡ stands_in T.same T.opposite clause.now term.now }
{
    for other in clause {
        if term.is_same(other) {
            return true;
        }
    }
    false
}

/// Returns whether a term is among those before or after.
#[tactic(auto, using(crate::proofs::Sifting::stands_beside))]
fn stands_beside<T: Term>(front: &[T], behind: &[T], term: &T) -> bool
    ensures { result ≡ stands_in T.same T.opposite (front.now ++ behind.now) term.now }
{
    stands_in(front, term) || stands_in(behind, term)
}

/// Returns whether a term differs from a given term, and is its negation or among the terms around it.
fn is_spared<T: Term>(term: &T, front: &[T], behind: &[T], other: &T) -> bool
    ensures { result ≡ (not (T.same term.now other.now)
        && (T.opposite term.now other.now
        || stands_in T.same T.opposite (front.now ++ behind.now) other.now)) }
{
    !term.is_same(other) && (term.is_opposite(other) || stands_beside(front, behind, other))
}

/// Returns whether a clause makes a term needless: it doesn't contain the term, and consists of negations
/// of it and of terms around it.
fn spares<T: Term>(term: &T, front: &[T], behind: &[T], clause: &[T]) -> bool
    ensures { result ≡ spares T.same T.opposite term.now (front.now ++ behind.now) clause.now }
{
    for other in clause {
        if !is_spared(term, front, behind, other) {
            return false;
        }
    }
    true
}

/// Returns whether a candidate makes a term among others needless; `negation` is the word of the term's
/// negation.
fn spares_by_words<T: Term>(
    term: &T,
    front: &[T],
    behind: &[T],
    negation: u64,
    candidate: &Candidate<T>,
) -> bool
    ensures { result ≡ is_spared_by T.same T.opposite term.now (front.now ++ behind.now) negation
        candidate.now }
{
    candidate.may_spare(negation) && spares(term, front, behind, candidate.terms())
}

/// Returns whether one of some candidates makes a term among others needless.
fn one_spares<T: Term>(term: &T, front: &[T], behind: &[T], candidates: &[Candidate<T>]) -> bool
    ensures { result ≡ list_any
        (is_spared_by T.same T.opposite term.now (front.now ++ behind.now) (T.negation term.now))
        candidates.now }
{
    let negation = term.negation();
    for candidate in candidates {
        if spares_by_words(term, front, behind, negation, candidate) {
            return true;
        }
    }
    false
}

/// Returns whether there are terms before or after.
#[tactic(auto, using(crate::proofs::Sifting::some_beside))]
fn have_some<T: Term>(front: &[T], behind: &[T]) -> bool
    ensures { result ≡ has_some (front.now ++ behind.now) }
{
    !front.is_empty() || !behind.is_empty()
}

/// Returns whether a term among others is needless because of the candidates.
fn is_needless<T: Term>(term: &T, front: &[T], behind: &[T], candidates: &[Candidate<T>]) -> bool
    ensures { result
        ≡ is_needless_by T.same T.opposite T.negation candidates.now term.now (front.now ++ behind.now) }
{
    have_some(front, behind) && one_spares(term, front, behind, candidates)
}

/// Returns the terms without those that the candidates make needless.
fn shorten<T: Term>(
    alloc: Global,
    terms: Vec<T>,
    candidates: &[Candidate<T>],
) -> Result<Vec<T>, AllocError>
    ensures { IfOk result (λ short. short.items
        ≡ sifted (is_needless_by T.same T.opposite T.negation candidates.now) [] terms.items) }
{
    let mut later = terms;
    later.reverse();
    let mut kept = Vec::new(alloc);
    while let Some(term) = later.pop() {
        if !is_needless(&term, &kept, &later, candidates) {
            kept.push(term)?;
        }
    }
    Ok(kept)
}

/// Adds those of some clauses that can make a term of a clause needless; `words` are the clause's.
fn add_candidates<'a, T: Term>(
    candidates: &mut Vec<Candidate<'a, T>>,
    words: &BTreeSet<u64>,
    clause: &Clause<T>,
    others: &'a [Clause<T>],
) -> Result<(), AllocError>
    ensures { OnOk result (candidates.new.items ≡ candidates.old.items
        ++ candidates_of T.literal (has words.now.keys) T.word clause.now others.now) }
{
    for other in others {
        if clause.is_near(other) {
            add_candidate(candidates, words, other)?;
        }
    }
    Ok(())
}

/// Returns the clauses that can make a term of a clause needless; `words` are the clause's.
#[tactic(auto, using(crate::proofs::Near::candidates_beside))]
fn candidates<'a, T: Term>(
    alloc: Global,
    words: &BTreeSet<u64>,
    clause: &Clause<T>,
    done: &'a [Clause<T>],
    later: &'a [Clause<T>],
) -> Result<Vec<Candidate<'a, T>>, AllocError>
    ensures { IfOk result (λ candidates. candidates.items
        ≡ candidates_of T.literal (has words.now.keys) T.word clause.now (done.now ++ later.now)) }
{
    let mut candidates = Vec::new(alloc);
    add_candidates(&mut candidates, words, clause, done)?;
    add_candidates(&mut candidates, words, clause, later)?;
    Ok(candidates)
}

/// Returns a clause without the terms that other clauses make needless.
fn shortened_clause<T: Term>(
    alloc: Global,
    clause: Clause<T>,
    done: &[Clause<T>],
    later: &[Clause<T>],
) -> Result<Clause<T>, AllocError>
    ensures { IfOk result (λ short.
        short ≡ sifted (is_needless T.same T.opposite (done.now ++ later.now)) [] clause) }
{
    if clause.terms().len() < 2 {
        return Ok(clause);
    }
    let words = words(alloc, clause.terms())?;
    let candidates = candidates(alloc, &words, &clause, done, later)?;
    let short = shorten(alloc, clause.into_terms(), &candidates)?;
    Ok(Clause::new(short))
}

/// Returns the clauses without their needless terms, which are removed clause by clause.
fn shortened<T: Term>(alloc: Global, clauses: Vec<Clause<T>>) -> Result<Vec<Clause<T>>, AllocError>
    ensures { IfOk result (λ short.
        short.items ≡ shortened_behind T.same T.opposite [] clauses.items) }
{
    let mut later = clauses;
    later.reverse();
    let mut done = Vec::with_capacity(alloc, later.len())?;
    while let Some(clause) = later.pop() {
        let short = shortened_clause(alloc, clause, &done, &later)?;
        done.push(short)?;
    }
    Ok(done)
}

/// Returns whether a clause contains all of some terms.
fn stand_in<T: Term>(clause: &[T], terms: &[T]) -> bool
    ensures { result ≡ list_all (stands_in T.same T.opposite clause.now) terms.now }
{
    for term in terms {
        if !stands_in(clause, term) {
            return false;
        }
    }
    true
}

/// Returns whether a clause contains all terms of another one.
fn covers<T: Term>(clause: &Clause<T>, other: &Clause<T>) -> bool
    ensures { result ≡ list_all (stands_in T.same T.opposite clause.now) other.now }
{
    clause.may_be_covered(other) && stand_in(clause.terms(), other.terms())
}

/// Returns whether a clause contains all terms of some other clause.
fn is_covered<T: Term>(clause: &Clause<T>, others: &[Clause<T>]) -> bool
    ensures { result ≡ is_covered T.same T.opposite clause.now others.now }
{
    for other in others {
        if covers(clause, other) {
            return true;
        }
    }
    false
}

/// Returns whether a clause contains all terms of one of the clauses before and after it.
#[tactic(auto, using(crate::proofs::Sifting::covered_beside))]
fn other_covers<T: Term>(clause: &Clause<T>, kept: &[Clause<T>], later: &[Clause<T>]) -> bool
    ensures { result ≡ is_covered T.same T.opposite clause.now (kept.now ++ later.now) }
{
    is_covered(clause, kept) || is_covered(clause, later)
}

/// Returns whether a clause contains all terms of one of the clauses before and after it, where `common`
/// are the words by which more than one of all these clauses begins.
fn is_covered_beside<T: Term>(
    clause: &Clause<T>,
    kept: &[Clause<T>],
    later: &[Clause<T>],
    common: &Option<BTreeSet<u64>>,
) -> bool
    requires { IfSome common.now (λ words.
        BeginApart T.literal (has words.keys) (kept.now ++ clause.now ∷ reverse later.now)) }
    ensures { result ≡ is_covered T.same T.opposite clause.now (kept.now ++ later.now) }
{
    !stands_apart(clause, common) && other_covers(clause, kept, later)
}

/// Returns the clauses without those that others cover.
fn uncovered<T: Term>(alloc: Global, clauses: Vec<Clause<T>>) -> Result<Vec<Clause<T>>, AllocError>
    ensures { IfOk result (λ kept.
        kept.items ≡ sifted (is_covered T.same T.opposite) [] clauses.items) }
{
    let common = common_words(alloc, &clauses)?;
    let mut later = clauses;
    later.reverse();
    let mut kept = Vec::new(alloc);
    while let Some(clause) = later.pop() {
        if !is_covered_beside(&clause, &kept, &later, &common) {
            kept.push(clause)?;
        }
    }
    Ok(kept)
}

/// Returns each list of terms as a clause.
fn as_clauses<T: Term>(alloc: Global, lists: Vec<Vec<T>>) -> Result<Vec<Clause<T>>, AllocError>
    ensures { IfOk result (λ clauses. clauses.items ≡ lists_of lists.items) }
{
    let mut clauses = Vec::with_capacity(alloc, lists.len())?;
    for list in lists {
        clauses.push(Clause::new(list))?;
    }
    Ok(clauses)
}

/// Returns each clause as a list of its terms.
fn as_lists<T: Term>(alloc: Global, clauses: Vec<Clause<T>>) -> Result<Vec<Vec<T>>, AllocError>
    ensures { IfOk result (λ lists. lists_of lists.items ≡ clauses.items) }
{
    let mut lists = Vec::with_capacity(alloc, clauses.len())?;
    for clause in clauses {
        lists.push(clause.into_terms())?;
    }
    Ok(lists)
}

/// Returns the clauses without their needless terms, and then without those that others cover.
///
/// For a clause of several terms it looks at four numbers of each other one at most. Where the bits of its
/// values are all the clause's own, and those of its terms but for one of each kind, it looks for the words
/// of its terms among the clause's. The others of which at most one word isn't there are kept: each term of
/// the clause looks at that word of each, and where it may be needless, at the terms, up to the first that
/// decides. Then it looks at four numbers of each other one again, and at the terms where all bits are the
/// clause's; but not for a clause of one term by whose word no other one begins.
pub(crate) fn simplified<T: Term>(
    alloc: Global,
    clauses: Vec<Vec<T>>,
) -> Result<Vec<Vec<T>>, AllocError>
    ensures { IfOk result (λ simple.
        lists_of simple.items ≡ simplified T.same T.opposite (lists_of clauses.items)) }
{
    let clauses = as_clauses(alloc, clauses)?;
    let short = shortened(alloc, clauses)?;
    let simple = uncovered(alloc, short)?;
    as_lists(alloc, simple)
}
