//! Pairs of trees, in an order in which the pairs of a pair's children come before it.

ghost use Rattle.std.specs.Prelude.{◌≡◌, ◌+◌, refl};
ghost use Rattle.std.specs.Cmp.{eq_by_cmp_equiv, partial_equiv_from_equiv, partial_order_from_agreeing_total};
ghost use Rattle.std.specs.Ordering.{eq_by_cmp, as_partial_cmp};
ghost use Rattle.pep508_tree.specs.PairOrder.{pair_cmp, pairs_total, places};

use crate::MarkerTree;
use std::cmp::Ordering;

/// Two trees of an interner.
#[derive(Clone, Copy)]
pub struct TreePair {
    pub first: MarkerTree,
    pub second: MarkerTree,
}

impl TreePair {
    /// Returns the pair of two trees.
    pub fn new(first: MarkerTree, second: MarkerTree) -> TreePair
        ensures { result ≡ record { first = first; second = second } }
    {
        TreePair { first, second }
    }

    /// Returns the sum of the two places.
    fn places(&self) -> u128
        ensures { result ≡ places self.now }
    {
        self.first.place() as u128 + self.second.place() as u128
    }
}

impl PartialEq for TreePair {
    ghost eq = { eq_by_cmp pair_cmp };

    ghost laws = { partial_equiv_from_equiv (eq_by_cmp_equiv pairs_total) };

    fn eq(&self, other: &TreePair) -> bool {
        self.cmp(other).is_eq()
    }
}

impl Eq for TreePair {
    ghost laws = { eq_by_cmp_equiv pairs_total };
}

impl PartialOrd for TreePair {
    ghost partial_cmp = { as_partial_cmp pair_cmp };

    ghost laws = { partial_order_from_agreeing_total pair_cmp pairs_total (λ x y. refl) (λ x y. refl) };

    fn partial_cmp(&self, other: &TreePair) -> Option<Ordering> {
        Some(self.cmp(other))
    }
}

impl Ord for TreePair {
    ghost cmp = { pair_cmp };

    ghost total = { pairs_total };

    ghost matches_partial_cmp = { λ x y. refl };

    ghost matches_eq = { λ x y. refl };

    fn cmp(&self, other: &TreePair) -> Ordering {
        // By `<` and not by `cmp`, whose result would be made and then looked at: most comparisons end here.
        let own = self.places();
        let others = other.places();
        if own < others {
            return Ordering::Less;
        }
        if others < own {
            return Ordering::Greater;
        }
        match self.first.cmp_places(other.first) {
            Ordering::Less => Ordering::Less,
            Ordering::Equal => self.second.cmp_places(other.second),
            Ordering::Greater => Ordering::Greater,
        }
    }
}
