//! Laws of the order of trees. The functions do nothing: each one's contract is its law.

ghost use Rattle.std.specs.Prelude.{◌≡◌, ◌↔◌, IsTrue};
ghost use Rattle.std.specs.Cmp.{IsTotalOrder};
ghost use Rattle.std.specs.Ordering.{eq_by_cmp};
ghost use Rattle.pep508_diagram.specs.Diagram.{Diagram};
ghost use Rattle.pep508_diagram.specs.Question.{Question, Valuation, truth, IsCanonical};
ghost use Rattle.pep508_tree_ref.specs.Lent.{tree_in, tree_ref_cmp};
ghost use Rattle.pep508_tree_ref.specs.TreeIn.{diagram_in};
ghost use Rattle.pep508_tree_ref.specs.TreeOrder.{diagram_cmp};
ghost use Rattle.pep508_tree_ref.specs.TreeText.{tree_text};

use crate::MarkerTreeRef;

/// The order of diagrams is total and transitive.
#[tactic(auto, using(crate::specs::TreeOrderLaws::diagrams_total))]
pub fn the_order_is_total()
    ensures { IsTotalOrder diagram_cmp }
{}

/// Canonical diagrams compare as equal exactly where they have one truth under every valuation.
#[tactic(auto, using(crate::proofs::Ordered::tied_mean_the_same))]
pub fn equal_means_the_same()
    ensures { (d e : Diagram Question) → IsCanonical d → IsCanonical e →
        IsTrue (eq_by_cmp diagram_cmp d e) ↔ ((v : Valuation) → truth d v ≡ truth e v) }
{}

/// Trees of any two interners are equal exactly where they hold under the same valuations.
#[tactic(auto, using(crate::proofs::Ordered::tied_mean_the_same))]
pub fn equal_trees_mean_the_same(tree: &MarkerTreeRef, other: &MarkerTreeRef)
    ensures { IsTrue (eq_by_cmp tree_ref_cmp tree.now other.now)
        ↔ ((v : Valuation) → truth (diagram_in (tree_in tree.now)) v
        ≡ truth (diagram_in (tree_in other.now)) v) }
{
    tree.is_canonical();
    other.is_canonical();
}

/// Equal trees have one diagram, and print the same.
#[tactic(auto, using(crate::proofs::Printed::tied_are_same, crate::proofs::Printed::tied_print_the_same))]
pub fn equal_trees_print_the_same(tree: &MarkerTreeRef, other: &MarkerTreeRef)
    ensures diagram { IsTrue (eq_by_cmp tree_ref_cmp tree.now other.now) →
        diagram_in (tree_in tree.now) ≡ diagram_in (tree_in other.now) }
    ensures text { IsTrue (eq_by_cmp tree_ref_cmp tree.now other.now) →
        tree_text (diagram_in (tree_in tree.now)) ≡ tree_text (diagram_in (tree_in other.now)) }
{
    tree.is_canonical();
    other.is_canonical();
}
