//! Trees sorted by when they were made.

ghost use Rattle.std.specs.Prelude.{◌≡◌, refl};
ghost use Rattle.std.specs.Cmp.{eq_by_cmp_equiv, partial_equiv_from_equiv, partial_order_from_agreeing_total};
ghost use Rattle.std.specs.Ordering.{eq_by_cmp, as_partial_cmp};
ghost use Rattle.pep508_tree.specs.Nodes.{tree_cmp};
ghost use Rattle.pep508_tree.specs.NodeLaws.{trees_total};

use pep508_tree::MarkerTree;
use std::cmp::Ordering;
use std::marker::Model;

/// A tree that is reached from another. The children of a tree were made before it, and so sort before it.
#[derive(Clone, Copy)]
pub(crate) struct Reached(MarkerTree);

impl Model for Reached {
    ghost use Rattle.pep508_tree.specs.Tree.{Tree};

    ghost Value = { Tree };

    ghost view = { λ r. r.0 };

    ghost inverse = { λ t. record { 0 = t } };
}

impl Reached {
    /// Returns the tree as one that is reached.
    pub fn new(tree: MarkerTree) -> Reached
        ensures { result ≡ tree }
    {
        Reached(tree)
    }

    /// Returns the tree.
    pub fn tree(self) -> MarkerTree
        ensures { result ≡ self }
    {
        self.0
    }
}

impl PartialEq for Reached {
    ghost eq = { eq_by_cmp tree_cmp };

    ghost laws = { partial_equiv_from_equiv (eq_by_cmp_equiv trees_total) };

    fn eq(&self, other: &Reached) -> bool {
        self.cmp(other).is_eq()
    }
}

impl Eq for Reached {
    ghost laws = { eq_by_cmp_equiv trees_total };
}

impl PartialOrd for Reached {
    ghost partial_cmp = { as_partial_cmp tree_cmp };

    ghost laws = { partial_order_from_agreeing_total tree_cmp trees_total (λ x y. refl) (λ x y. refl) };

    fn partial_cmp(&self, other: &Reached) -> Option<Ordering> {
        Some(self.cmp(other))
    }
}

impl Ord for Reached {
    ghost cmp = { tree_cmp };

    ghost total = { trees_total };

    ghost matches_partial_cmp = { λ x y. refl };

    ghost matches_eq = { λ x y. refl };

    fn cmp(&self, other: &Reached) -> Ordering {
        self.0.cmp_places(other.0)
    }
}
