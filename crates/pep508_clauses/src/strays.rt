//! Clauses that can make a term of a clause needless, found by their words that the clause lacks.

ghost use Rattle.std.specs.Prelude.{◌≡◌, ◌++◌, IfOk, OnOk};
ghost use Rattle.pep508_clauses.specs.Sparing.{with_stray, with_word, are_several, are_at_most};
ghost use Rattle.pep508_clauses.specs.Sparing.{has, words_of, strays_of, kept_candidate};

use crate::clause::Clause;
use crate::term::Term;
use std::alloc::{AllocError, Global};
use std::collections::BTreeSet;
use std::marker::Model;

/// The words of a clause that another one lacks.
#[derive(Clone, Copy)]
pub(crate) enum Strays {
    None,
    One(u64),
    Several,
}

impl Strays {
    /// Adds a word.
    fn with_stray(self, word: u64) -> Strays
        ensures { result ≡ with_stray word self }
    {
        match self {
            Strays::None => Strays::One(word),
            Strays::One(other) => {
                if other == word {
                    Strays::One(other)
                } else {
                    Strays::Several
                }
            }
            Strays::Several => Strays::Several,
        }
    }

    /// Adds a word unless it is among given ones.
    fn with_word(self, words: &BTreeSet<u64>, word: u64) -> Strays
        ensures { result ≡ with_word (has words.now.keys word) word self }
    {
        if words.contains(&word) {
            self
        } else {
            self.with_stray(word)
        }
    }

    fn are_several(self) -> bool
        ensures { result ≡ are_several self }
    {
        match self {
            Strays::Several => true,
            _ => false,
        }
    }

    /// Returns whether there are none but a given word.
    fn are_at_most(self, word: u64) -> bool
        ensures { result ≡ are_at_most word self }
    {
        match self {
            Strays::None => true,
            Strays::One(other) => other == word,
            Strays::Several => false,
        }
    }
}

/// Returns the words of some terms, each once.
pub(crate) fn words<T: Term>(alloc: Global, terms: &[T]) -> Result<BTreeSet<u64>, AllocError>
    ensures { IfOk result (λ words. words.keys ≡ words_of T.literal terms.now) }
{
    let mut words = BTreeSet::new(alloc);
    for term in terms {
        words.insert(term.literal())?;
    }
    Ok(words)
}

/// Returns the words of some terms that aren't among given ones. It looks at the last terms first, where
/// clauses that begin alike differ, up to the second such word.
#[tactic(auto, using(crate::proofs::Straying::stray_rules))]
fn strays_of<T: Term>(words: &BTreeSet<u64>, terms: &[T]) -> Strays
    ensures { result ≡ strays_of T.literal (has words.now.keys) terms.now }
{
    let mut front = terms;
    let mut strays = Strays::None;
    loop {
        if strays.are_several() {
            return strays;
        }
        match front.split_last() {
            None => return strays,
            Some((term, shorter)) => {
                strays = strays.with_word(words, term.literal());
                front = shorter;
            }
        }
    }
}

/// A clause that may make terms of another one needless, with its words that the other one lacks.
#[derive(Drop)]
pub(crate) struct Candidate<'a, T: Term> {
    clause: &'a Clause<T>,
    strays: Strays,
}

impl<'a, T: Term> Model for Candidate<'a, T> {
    ghost use Rattle.std.specs.Prelude.{List};
    ghost use Rattle.pep508_clauses.specs.declared.strays.Strays.{Strays};

    ghost Value = { Strays × List T };

    ghost view = { λ candidate. (candidate.strays, candidate.clause.now) };
}

impl<'a, T: Term> Candidate<'a, T> {
    pub(crate) fn terms(&self) -> &[T]
        ensures { result.now ≡ self.now.1 }
    {
        self.clause.terms()
    }

    /// Returns whether the clause may make terms needless whose negations have this word.
    pub(crate) fn may_spare(&self, negation: u64) -> bool
        ensures { result ≡ are_at_most negation self.now.0 }
    {
        self.strays.are_at_most(negation)
    }
}

/// Adds a clause to the candidates, where at most one of its words isn't among given ones.
pub(crate) fn add_candidate<'a, T: Term>(
    candidates: &mut Vec<Candidate<'a, T>>,
    words: &BTreeSet<u64>,
    clause: &'a Clause<T>,
) -> Result<(), AllocError>
    ensures { OnOk result (candidates.new.items ≡ candidates.old.items
        ++ kept_candidate T.literal (has words.now.keys) clause.now) }
{
    let strays = strays_of(words, clause.terms());
    if !strays.are_several() {
        candidates.push(Candidate { clause, strays })?;
    }
    Ok(())
}
