//! Clauses with bits that quickly rule out that one matters to another.

ghost use Rattle.std.specs.Prelude.{◌≡◌};
ghost use Rattle.pep508_clauses.specs.Near.{is_near, may_cover};

use crate::bits::Bits;
use crate::term::Term;
use std::marker::Model;

/// A clause with the bits of its terms. Its model is the terms.
#[derive(Drop)]
pub(crate) struct Clause<T: Term> {
    terms: Vec<T>,
    bits: Bits,
}

impl<T: Term> Model for Clause<T> {
    ghost use Rattle.std.specs.Prelude.{◌≡◌, List};
    ghost use Rattle.pep508_clauses.specs.Near.{bits_of};

    ghost Value = { List T };

    ghost view = { λ clause. clause.terms.items };

    ghost invariant = { λ clause. clause.bits ≡ bits_of T.word T.literal clause.terms.items };
}

impl<T: Term> Clause<T> {
    pub(crate) fn new(terms: Vec<T>) -> Clause<T>
        ensures { result ≡ terms.items }
    {
        let bits = Bits::of(&terms);
        Clause { terms, bits }
    }

    pub(crate) fn terms(&self) -> &[T]
        ensures { result.now ≡ self.now }
    {
        &self.terms
    }

    pub(crate) fn into_terms(self) -> Vec<T>
        ensures { result.items ≡ self }
    {
        self.terms
    }

    /// Returns whether another clause can make one of this clause's terms needless, as far as bits show.
    pub(crate) fn is_near(&self, other: &Clause<T>) -> bool
        ensures { result ≡ is_near T.word T.literal self.now other.now }
    {
        self.bits.are_near(other.bits)
    }

    /// Returns whether another clause can cover this one, as far as bits show.
    pub(crate) fn may_be_covered(&self, other: &Clause<T>) -> bool
        ensures { result ≡ may_cover T.word T.literal self.now other.now }
    {
        self.bits.may_stand_in(other.bits)
    }
}
