//! Laws of views. Each is the contract of a function, for a proof to cite; the functions do nothing.

ghost use Rattle.std.specs.Prelude.{◌≡◌, List};
ghost use Rattle.std.specs.List.{AllByRecursion};
ghost use Rattle.version_ranges.specs.Point.{Point};
ghost use Rattle.pep508_diagram.specs.declared.branch.Branch.{Branch};
ghost use Rattle.pep508_diagram.specs.Branches.{RisingBranches, branch_at};
ghost use Rattle.pep508_tree.specs.Tree.{Tree};
ghost use Rattle.pep508_tree.specs.Meaning.{IsTree, diagram_of};
ghost use Rattle.pep508_view.specs.declared.kind.MarkerTreeKind.{MarkerTreeKind};
ghost use Rattle.pep508_view.specs.Edges.{edges};
ghost use Rattle.pep508_view.specs.Reading.{JustOne};
ghost use Rattle.pep508_view.specs.Views.{IsKind};
ghost use Rattle.pep508_view.specs.Shown.{kind_diagram};
ghost use Rattle.pep508_view.specs.ReadOff.{IsReadOff, IsBelow, IsLaidOut, subtrees};

use crate::kind::MarkerTreeView;
use pep508_tree::{Interner, MarkerTree};
use pep508_tree_laws::constants_are_named;

/// A tree's truth can be read off its views, one variable at a time: just one edge contains the point of
/// the variable, and the tree holds where the subtree of that edge does.
pub fn truth_is_read_off(tree: MarkerTree, interner: &Interner)
    requires { IsTree interner.now.nodes tree }
    ensures { (kind : MarkerTreeKind) → IsKind interner.now.nodes tree kind →
        IsReadOff interner.now.nodes tree kind }
{
    constants_are_named(interner);
    let _ = tree.kind(interner);
}

/// A tree's diagram can be read off its view: a leaf, or the questions of the node with the diagrams of the
/// subtrees.
pub fn a_view_shows_the_diagram(tree: MarkerTree, interner: &Interner)
    requires { IsTree interner.now.nodes tree }
    ensures { (kind : MarkerTreeKind) → IsKind interner.now.nodes tree kind →
        diagram_of interner.now.nodes tree ≡ kind_diagram (diagram_of interner.now.nodes) kind }
{
    interner.are_sound();
}

/// The subtrees of a view test only later variables than the view does, and were made before the tree: so
/// each walk over views ends.
pub fn subtrees_ask_later_variables(tree: MarkerTree, interner: &Interner)
    requires { IsTree interner.now.nodes tree }
    ensures { (kind : MarkerTreeKind) → IsKind interner.now.nodes tree kind →
        AllByRecursion (IsBelow interner.now.nodes tree) (subtrees kind) }
{
    let _ = tree.kind(interner);
}

/// The edges of a view rise, each from the place on where the one before it ends; the first has no lower
/// bound and the last no upper one. Neighbouring subtrees differ.
pub fn edges_lie_side_by_side(tree: MarkerTree, interner: &Interner)
    requires { IsTree interner.now.nodes tree }
    ensures { (kind : MarkerTreeKind) → IsKind interner.now.nodes tree kind → IsLaidOut kind }
{
    let _ = tree.kind(interner);
}

/// Between rising endpoints each point lies in just one edge, and its subtree is the child at the point.
pub fn one_edge_holds<T: Ord>()
    ensures { (first : Tree) (later : List (Branch T Tree)) (p : Point T) → RisingBranches T.cmp later →
        JustOne T.cmp (edges first later) p (λ tree. tree ≡ branch_at T.cmp first later p) }
{}
