//! Bits of hashes that summarize a clause's terms.

ghost use Rattle.std.specs.Prelude.{◌≡◌, ◌≤◌, ◌<◌};
ghost use Rattle.pep508_clauses.specs.Words.{bit, value_bits};
ghost use Rattle.pep508_clauses.specs.Near.{joined, is_within, is_within_but_one, literals_of};
ghost use Rattle.pep508_clauses.specs.Near.{with_literal, have_literals, nearly_have_literals};
ghost use Rattle.pep508_clauses.specs.Near.{bits_of, have_values, are_near, may_stand_in};

use crate::term::{Term, spread};

/// Two sets of bits, with one bit of each term in either.
#[derive(Clone, Copy)]
struct Literals {
    first: u64,
    second: u64,
}

impl Literals {
    fn of<T: Term>(terms: &[T]) -> Literals
        ensures { result ≡ literals_of T.literal terms.now }
    {
        let mut literals = Literals {
            first: 0,
            second: 0,
        };
        for term in terms {
            literals = literals.with_word(term.literal());
        }
        literals
    }

    /// Adds the bits of a word.
    fn with_word(self, word: u64) -> Literals
        ensures { result ≡ with_literal self word }
    {
        let word = spread(word);
        Literals {
            first: self.first | bit(word, 58),
            second: self.second | bit(word, 52),
        }
    }

    /// Returns whether these include all bits of the other.
    fn have(self, other: Literals) -> bool
        ensures { result ≡ have_literals self other }
    {
        is_within(self.first, other.first) && is_within(self.second, other.second)
    }

    /// Returns whether these include all bits of the other, but for at most one in each set.
    fn nearly_have(self, other: Literals) -> bool
        ensures { result ≡ nearly_have_literals self other }
    {
        is_within_but_one(self.first, other.first) && is_within_but_one(self.second, other.second)
    }
}

/// Bits of the values of some terms, in two sets, and of the terms themselves.
#[derive(Clone, Copy)]
pub(crate) struct Bits {
    values: u64,
    more_values: u64,
    literals: Literals,
}

impl Bits {
    pub(crate) fn of<T: Term>(terms: &[T]) -> Bits
        ensures { result ≡ bits_of T.word T.literal terms.now }
    {
        Bits {
            values: values(terms, 40),
            more_values: values(terms, 16),
            literals: Literals::of(terms),
        }
    }

    /// Returns whether these include all bits of the other's values.
    fn have_values(self, other: Bits) -> bool
        ensures { result ≡ have_values self other }
    {
        is_within(self.values, other.values) && is_within(self.more_values, other.more_values)
    }

    /// Returns whether these include all bits of the other's values, and nearly all of its terms.
    pub(crate) fn are_near(self, other: Bits) -> bool
        ensures { result ≡ are_near self other }
    {
        self.have_values(other) && self.literals.nearly_have(other.literals)
    }

    /// Returns whether these include all bits of the other.
    pub(crate) fn may_stand_in(self, other: Bits) -> bool
        ensures { result ≡ may_stand_in self other }
    {
        self.have_values(other) && self.literals.have(other.literals)
    }
}

/// Returns one of 64 bits, chosen by six bits of a word.
#[tactic(auto, using(std::proofs::lemmas::Nat::one_shl))]
fn bit(word: u64, from: u32) -> u64
    requires { from < 64 }
    ensures { result ≡ bit word from }
{
    1u64 << ((word >> from) % 64)
}

/// Returns four bits, chosen by a value's word.
#[tactic(auto, unfolding(crate::specs::Words::value_bits))]
fn value_bits(word: u64, from: u32) -> u64
    requires { from ≤ 40 }
    ensures { result ≡ value_bits word from }
{
    let word = spread(word);
    bit(word, from) | bit(word, from + 6) | bit(word, from + 12) | bit(word, from + 18)
}

/// Returns the bits of the values of some terms.
fn values<T: Term>(terms: &[T], from: u32) -> u64
    requires { from ≤ 40 }
    ensures { result ≡ joined (λ term. value_bits (T.word term) from) terms.now }
{
    let mut bits = 0;
    for term in terms {
        bits |= value_bits(term.word(), from);
    }
    bits
}

/// Returns whether `own` has all bits of `other`.
fn is_within(own: u64, other: u64) -> bool
    ensures { result ≡ is_within own other }
{
    other | own == own
}

/// Returns whether `own` has all bits of `other`, but for at most one.
fn is_within_but_one(own: u64, other: u64) -> bool
    ensures { result ≡ is_within_but_one own other }
{
    ((other | own) ^ own).count_ones() <= 1
}
