//! Laws of marker trees (PEP 508, "Environment Markers"), over the definitions in the contracts of
//! `pep508_tree`. The functions do nothing: each one's contract is its law.
#![tactic(auto)]

ghost use Rattle.std.specs.Prelude.{◌≡◌, ◌≢◌, ◌↔◌, IsTrue, true, false, not, List};
ghost use Rattle.pep508_diagram.specs.Question.{Valuation};
ghost use Rattle.pep508_tree.specs.Tree.{Tree, always, never, negation};
ghost use Rattle.pep508_tree.specs.Meaning.{NodeRecord, IsTree, Extends, holds};

use pep508_tree::{Interner, MarkerTree};

/// Each of the two constant trees is the other's negation, and a tree is the negation of its negation.
pub fn negation_turns_back()
    ensures of_true { negation always ≡ never }
    ensures of_false { negation never ≡ always }
    ensures twice { (tree : Tree) → negation (negation tree) ≡ tree }
{}

/// Trees of one interner are equal exactly where their places and negations are.
#[tactic(auto, using(pep508_tree::proofs::Same::same_trees))]
pub fn equal_is_same()
    ensures { (a b : Tree) → IsTrue (⟦<MarkerTree as PartialEq>⟧.eq a b) ↔ (a ≡ b) }
{}

/// Returns the tree that always holds and the one that never does, by their names.
pub fn constants() -> (MarkerTree, MarkerTree)
    ensures truth { result.0 ≡ always }
    ensures falsehood { result.1 ≡ never }
{
    (MarkerTree::TRUE, MarkerTree::FALSE)
}

/// A negation holds exactly where its tree does not.
#[tactic(auto, using(pep508_tree::proofs::OneTree::negation_holds))]
pub fn negation_means_not()
    ensures { (nodes : List NodeRecord) (tree : Tree) (v : Valuation) →
        holds nodes (negation tree) v ≡ not (holds nodes tree v) }
{}

/// Trees of one interner are equal exactly where they hold under the same valuations.
#[tactic(auto, using(pep508_tree::proofs::Equal::equal_means))]
pub fn equal_means_same(interner: &Interner)
    ensures { (a b : Tree) → IsTree interner.now.nodes a → IsTree interner.now.nodes b →
        IsTrue (⟦<MarkerTree as PartialEq>⟧.eq a b)
        ↔ ((v : Valuation) → holds interner.now.nodes a v ≡ holds interner.now.nodes b v) }
{
    interner.are_sound()
}

/// Only the tree `TRUE` always holds, and only the tree `FALSE` never does.
pub fn constants_are_named(interner: &Interner)
    ensures truth { (tree : Tree) → IsTree interner.now.nodes tree →
        (tree ≡ always) ↔ ((v : Valuation) → holds interner.now.nodes tree v ≡ true) }
    ensures falsehood { (tree : Tree) → IsTree interner.now.nodes tree →
        (tree ≡ never) ↔ ((v : Valuation) → holds interner.now.nodes tree v ≡ false) }
{
    interner.are_sound()
}

/// A tree other than `FALSE` holds under some valuation.
pub fn a_tree_holds_somewhere(interner: &Interner)
    ensures { (tree : Tree) → IsTree interner.now.nodes tree → tree ≢ never →
        (v : Valuation) × (holds interner.now.nodes tree v ≡ true) }
{
    interner.are_sound()
}

/// A tree keeps its meaning while nodes are added to its interner.
#[tactic(auto, using(pep508_tree::proofs::Conjoining::tree_kept, pep508_tree::proofs::Diagrams::holds_kept))]
pub fn earlier_trees_keep()
    ensures made { (old new : List NodeRecord) (tree : Tree) → Extends old new → IsTree old tree →
        IsTree new tree }
    ensures meaning { (old new : List NodeRecord) (tree : Tree) → Extends old new → IsTree old tree →
        (v : Valuation) → holds new tree v ≡ holds old tree v }
{}
