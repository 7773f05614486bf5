//! The cases of a diagram whose leaves are sets, as marker trees.

ghost use Rattle.std.specs.Prelude.{◌≡◌, ◌||◌, ◌&&◌, List, IfOk};
ghost use Rattle.std.specs.BTreeMap.{BTreeMap, IsOrdered};
ghost use Rattle.pep508_diagram.specs.Question.{Valuation};
ghost use Rattle.pep508_tree.specs.Tree.{Tree};
ghost use Rattle.pep508_tree.specs.Meaning.{IsTree, Extends, holds};
ghost use Rattle.pep508_leaf_diagram.specs.Pairing.{IsDiagram};
ghost use Rattle.pep508_cases.specs.Cases.{Marks, marks_cmp, same_marks, marks_of, AreCases};
ghost use Rattle.pep508_cases.specs.Seen.{cases_seen};
ghost use Rattle.pep508_cases.specs.Marked.{set_at, IsMarked, IsRooted};
ghost use Rattle.pep508_cases.specs.Collecting.{tree_at, AllMade, AreFound};

use crate::cases::TreeCase;
use crate::set::TreeSet;
use crate::set_diagram::{Marked, copied_set};
use pep508_leaf_diagram::leaf_trees;
use pep508_tree::{Interner, MarkerTree, uncounted_conjunction};
use pep508_tree_laws::a_tree_holds_somewhere;
use std::alloc::{AllocError, Global};
use std::collections::BTreeMap;

/// Returns the tree that holds where either of two does. Counts no conjunction.
fn either(
    alloc: Global,
    interner: &mut Interner,
    a: MarkerTree,
    b: MarkerTree,
) -> Result<MarkerTree, AllocError>
    requires a { IsTree interner.old.nodes a }
    requires b { IsTree interner.old.nodes b }
    ensures made { IfOk result (IsTree interner.new.nodes) }
    ensures truth { IfOk result (λ tree. (v : Valuation) → holds interner.new.nodes tree v
        ≡ (holds interner.old.nodes a v || holds interner.old.nodes b v)) }
    ensures keeps { Extends interner.old.nodes interner.new.nodes }
    ensures counts { interner.new.conjunctions ≡ interner.old.conjunctions }
{
    let first = a.negate();
    let second = b.negate();
    let neither = uncounted_conjunction(alloc, interner, first, second)?;
    Ok(neither.negate())
}

/// Extends the tree of the set at an index, which then also holds where this tree does. A tree that never
/// holds is skipped.
///
/// Comparing two sets takes as long as what they have in common, so a set is looked for once, unless it has a
/// tree already.
fn add_tree(
    alloc: Global,
    interner: &mut Interner,
    found: &mut BTreeMap<TreeSet, MarkerTree>,
    sets: &[TreeSet],
    leaf: usize,
    tree: MarkerTree,
) -> Result<(), AllocError>
    requires found { AllMade interner.old.nodes found.old }
    requires tree { IsTree interner.old.nodes tree }
    ensures made { IfOk result (λ _. AllMade interner.new.nodes found.new) }
    ensures truth { IfOk result (λ _. (q : Marks) (v : Valuation) →
        holds interner.new.nodes (tree_at found.new q) v
        ≡ (holds interner.old.nodes (tree_at found.old q) v
        || (same_marks q (set_at sets.now leaf) && holds interner.old.nodes tree v))) }
    ensures keeps { Extends interner.old.nodes interner.new.nodes }
    ensures counts { interner.new.conjunctions ≡ interner.old.conjunctions }
{
    if tree.is_false() {
        return Ok(());
    }
    let set = copied_set(alloc, sets, leaf)?;
    let Some(other) = found.insert(set, tree)? else {
        return Ok(());
    };
    let both = either(alloc, interner, other, tree)?;
    if both.is_false() {
        return Ok(());
    }
    let again = copied_set(alloc, sets, leaf)?;
    found.insert(again, both)?;
    Ok(())
}

/// Returns for each set that some valuation reaches the tree that holds where it does.
fn found_trees(
    alloc: Global,
    interner: &mut Interner,
    marked: &Marked,
) -> Result<BTreeMap<TreeSet, MarkerTree>, AllocError>
    requires marked { IsDiagram interner.old.nodes marked.now.diagram }
    requires rooted { IsRooted marked.now }
    ensures found { IfOk result (AreFound interner.old.nodes interner.new.nodes marked.now) }
    ensures keeps { Extends interner.old.nodes interner.new.nodes }
    ensures counts { interner.new.conjunctions ≡ interner.old.conjunctions }
{
    let trees = leaf_trees(alloc, interner, &marked.diagram)?;
    let mut found = BTreeMap::new(alloc);
    for leaf in 0..trees.len() {
        let tree = trees[leaf];
        add_tree(alloc, interner, &mut found, &marked.sets, leaf, tree)?;
    }
    Ok(found)
}

/// Returns the sets with their trees as cases, in the order of the sets.
fn as_cases(
    alloc: Global,
    found: BTreeMap<TreeSet, MarkerTree>,
) -> Result<Vec<TreeCase>, AllocError>
    ensures entries { IfOk result (λ cases. cases_seen cases.items ≡ found.entries) }
    ensures ordered { IfOk result (λ _. IsOrdered marks_cmp found) }
{
    let mut cases = Vec::new(alloc);
    for (set, tree) in found {
        cases.push(TreeCase { set, tree })?;
    }
    Ok(cases)
}

/// Returns the cases of the trees. Counts no conjunction.
pub(crate) fn cases_of(
    alloc: Global,
    interner: &mut Interner,
    marked: &Marked,
) -> Result<Vec<TreeCase>, AllocError>
    requires marked { IsDiagram interner.old.nodes marked.now.diagram }
    requires rooted { IsRooted marked.now }
    ensures cases { IfOk result (λ cases. (trees : List Tree) → IsMarked interner.old.nodes trees marked.now →
        AreCases (marks_of interner.old.nodes trees) interner.new.nodes (cases_seen cases.items)) }
    ensures keeps { Extends interner.old.nodes interner.new.nodes }
    ensures counts { interner.new.conjunctions ≡ interner.old.conjunctions }
{
    let found = found_trees(alloc, interner, marked)?;
    let cases = as_cases(alloc, found)?;
    interner.are_sound();
    a_tree_holds_somewhere(interner);
    Ok(cases)
}
