//! Borrowed values, in place of copies.

ghost use Rattle.std.specs.Prelude.{◌≡◌, refl};
ghost use Rattle.std.specs.Ordering.{eq_by_cmp, as_partial_cmp};
ghost use Rattle.std.specs.Cmp.{eq_by_cmp_equiv, partial_equiv_from_equiv, partial_order_from_agreeing_total};

use pep508_diagram::NodeValue;
use std::alloc::{AllocError, Global};
use std::cmp::Ordering;
use std::marker::Model;

/// A borrowed value that a node owns. Compares as that value does, which is its model in contracts.
#[derive(Drop)]
pub(crate) struct LentValue<'a, T> {
    value: &'a T,
}

impl<'a, T> Model for LentValue<'a, T> {
    ghost Value = { T };

    ghost view = { λ lent. lent.value.now };
}

impl<'a, T> LentValue<'a, T> {
    /// Returns the borrowed value as a value of nodes.
    pub fn new(value: &'a T) -> LentValue<'a, T>
        ensures { result ≡ value.now }
    {
        LentValue { value }
    }

    /// Returns the value.
    pub fn value(&self) -> &T
        ensures { result.now ≡ self.now }
    {
        self.value
    }
}

impl<'a, T: Ord> PartialEq for LentValue<'a, T> {
    ghost eq = { eq_by_cmp T.cmp };

    ghost laws = { partial_equiv_from_equiv (eq_by_cmp_equiv T.total) };

    fn eq(&self, other: &LentValue<'a, T>) -> bool {
        self.cmp(other).is_eq()
    }
}

impl<'a, T: Ord> Eq for LentValue<'a, T> {
    ghost laws = { eq_by_cmp_equiv T.total };
}

impl<'a, T: Ord> PartialOrd for LentValue<'a, T> {
    ghost partial_cmp = { as_partial_cmp T.cmp };

    ghost laws = { partial_order_from_agreeing_total T.cmp T.total (λ x y. refl) (λ x y. refl) };

    fn partial_cmp(&self, other: &LentValue<'a, T>) -> Option<Ordering> {
        Some(self.cmp(other))
    }
}

impl<'a, T: Ord> Ord for LentValue<'a, T> {
    ghost cmp = { T.cmp };

    ghost total = { T.total };

    ghost matches_partial_cmp = { λ x y. refl };

    ghost matches_eq = { λ x y. refl };

    fn cmp(&self, other: &LentValue<'a, T>) -> Ordering {
        self.value.cmp(other.value)
    }
}

impl<'a, T: Ord> NodeValue for LentValue<'a, T> {
    fn copied(&self, _alloc: Global) -> Result<LentValue<'a, T>, AllocError> {
        Ok(LentValue { value: self.value })
    }
}
