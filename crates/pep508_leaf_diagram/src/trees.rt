//! The marker tree of each leaf: it holds where the leaf is reached.

ghost use Rattle.std.specs.Prelude.{◌≡◌, ◌↔◌, [], ◌≤◌, length, map, get_or, IfOk, IsTrue};
ghost use Rattle.pep508_tree.specs.Tree.{Tree, never};
ghost use Rattle.pep508_tree.specs.Meaning.{IsTree, Extends};
ghost use Rattle.pep508_tree.specs.Nodes.{first_child, node_place, AllChildren, Above};
ghost use Rattle.pep508_tree.specs.Nodes.{IsRising, IsJoined, Made};
ghost use Rattle.pep508_tree.specs.Truths.{IsTreeOf};
ghost use Rattle.pep508_leaf_diagram.specs.Forms.{record_of, others};
ghost use Rattle.pep508_leaf_diagram.specs.Joining.{node_joined};
ghost use Rattle.pep508_leaf_diagram.specs.Leaves.{Stands, IsGraph, leaf_at};
ghost use Rattle.pep508_leaf_diagram.specs.Pairing.{leaf_in};
ghost use Rattle.pep508_leaf_diagram.specs.Trees.{tree_below, ArePushed, AreLeafTrees, leaf_is};

use crate::child::Child;
use crate::diagram::Diagram;
use crate::diagram_node::Node;
use crate::form::Form;
use crate::narrow::{Leaves, narrowed};
use pep508_tree::{Interner, MarkerTree};
use std::alloc::{AllocError, Global};

/// Returns the tree at an index, or the one that never holds.
fn tree_at(trees: &[MarkerTree], place: usize) -> MarkerTree
    ensures { result ≡ get_or trees.now place never }
{
    match trees.get(place) {
        Some(tree) => *tree,
        None => MarkerTree::FALSE,
    }
}

/// Returns the tree that holds where the leaf is reached from a child, by the trees of nodes.
fn tree_of(trees: &[MarkerTree], leaf: usize, child: &Child) -> MarkerTree
    ensures { result ≡ tree_below trees.now leaf child.now }
{
    match child {
        Child::Leaf(number) => {
            if *number == leaf {
                MarkerTree::TRUE
            } else {
                MarkerTree::FALSE
            }
        }
        Child::Node(place) => tree_at(trees, *place),
        Child::Whole(_) => MarkerTree::FALSE,
    }
}

fn trees_of(
    alloc: Global,
    trees: &[MarkerTree],
    leaf: usize,
    children: &[Child],
) -> Result<Vec<MarkerTree>, AllocError>
    ensures { IfOk result (λ all. all.items ≡ map (tree_below trees.now leaf) children.now) }
{
    let mut all = Vec::with_capacity(alloc, children.len())?;
    for child in children {
        all.push(tree_of(trees, leaf, child))?;
    }
    Ok(all)
}

fn form_of_trees(
    alloc: Global,
    trees: &[MarkerTree],
    leaf: usize,
    form: &Form<Child>,
) -> Result<Form<MarkerTree>, AllocError>
    ensures { IfOk result (λ made.
        record_of made ≡ node_joined ⟦<MarkerTree as PartialEq>⟧.eq (record_of form.now)
        (tree_below trees.now leaf (first_child (record_of form.now)))
        (map (tree_below trees.now leaf) (others (record_of form.now)))) }
{
    let first = form.first();
    let first = tree_of(trees, leaf, &first);
    let all = form.others(alloc)?;
    let others = trees_of(alloc, trees, leaf, &all)?;
    let made = form.joined(alloc, first, &others)?;
    Ok(made)
}

/// Returns the tree of a variable with trees as its children.
fn stored(interner: &mut Interner, form: Form<MarkerTree>) -> Result<MarkerTree, AllocError>
    requires made { AllChildren (IsTree interner.old.nodes) (record_of form) }
    requires above { AllChildren (Above interner.old.nodes (node_place (record_of form))) (record_of form) }
    requires rises { IsRising (record_of form) }
    requires joined { IsJoined (record_of form) }
    ensures made { IfOk result (Made interner.old.nodes interner.new.nodes (record_of form)) }
    ensures keeps { Extends interner.old.nodes interner.new.nodes }
    ensures counts { interner.new.conjunctions ≡ interner.old.conjunctions }
{
    match form {
        Form::Versions(key, first, later) => interner.versions_node(key, first, later),
        Form::Texts(key, first, later) => interner.texts_node(key, first, later),
        Form::Flagged(flag, set, unset) => interner.flag_node(flag, set, unset),
    }
}

/// States that trees are equal exactly where their values are. Does nothing.
#[tactic(auto, using(pep508_tree::proofs::Same::same_trees))]
fn equal_trees()
    ensures { (a b : Tree) → IsTrue (⟦<MarkerTree as PartialEq>⟧.eq a b) ↔ (a ≡ b) }
{}

/// Returns the tree that holds where the leaf is reached.
fn leaf_tree(
    alloc: Global,
    interner: &mut Interner,
    count: usize,
    nodes: &[Node],
    root: &Child,
    leaf: usize,
) -> Result<MarkerTree, AllocError>
    requires graph { IsGraph [] count nodes.now }
    requires root { Stands count (length nodes.now) root.now }
    ensures tree { IfOk result (IsTreeOf interner.new.nodes (leaf_is (leaf_at [] nodes.now root.now) leaf)) }
    ensures keeps { Extends interner.old.nodes interner.new.nodes }
    ensures counts { interner.new.conjunctions ≡ interner.old.conjunctions }
{
    equal_trees();
    let _ = count;
    let mut trees = Vec::with_capacity(alloc, nodes.len())?;
    for node in nodes {
        let form = form_of_trees(alloc, &trees, leaf, node.form())?;
        let tree = stored(interner, form)?;
        trees.push(tree)?;
    }
    Ok(tree_of(&trees, leaf, root))
}

/// Appends the trees of the leaves `from` up to `to`, those of the first half before the others, from one
/// diagram. So a smaller diagram is made at each second halving, since copying boundaries takes most time.
#[cycle(push_trees)]
fn push_halves(
    alloc: Global,
    interner: &mut Interner,
    count: usize,
    nodes: &[Node],
    root: &Child,
    from: usize,
    to: usize,
    trees: &mut Vec<MarkerTree>,
) -> Result<(), AllocError>
    requires graph { IsGraph [] count nodes.now }
    requires root { Stands count (length nodes.now) root.now }
    requires order { from ≤ to }
    requires within { to ≤ count }
    ensures pushed { IfOk result (λ _. ArePushed interner.new.nodes (leaf_at [] nodes.now root.now) from to
        trees.old.items trees.new.items) }
    ensures keeps { Extends interner.old.nodes interner.new.nodes }
    ensures counts { interner.new.conjunctions ≡ interner.old.conjunctions }
{
    let middle = from + (to - from) / 2;
    push_trees(alloc, interner, count, nodes, root, from, middle, trees)?;
    push_trees(alloc, interner, count, nodes, root, middle, to, trees)?;
    Ok(())
}

/// Appends the trees of the leaves `from` up to `to`. Each half of the leaves has a smaller diagram made for
/// it, so that a leaf costs the nodes on its way, and not all nodes.
#[cycle(push_trees)]
fn push_trees(
    alloc: Global,
    interner: &mut Interner,
    count: usize,
    nodes: &[Node],
    root: &Child,
    from: usize,
    to: usize,
    trees: &mut Vec<MarkerTree>,
) -> Result<(), AllocError>
    requires graph { IsGraph [] count nodes.now }
    requires root { Stands count (length nodes.now) root.now }
    requires order { from ≤ to }
    requires within { to ≤ count }
    ensures pushed { IfOk result (λ _. ArePushed interner.new.nodes (leaf_at [] nodes.now root.now) from to
        trees.old.items trees.new.items) }
    ensures keeps { Extends interner.old.nodes interner.new.nodes }
    ensures counts { interner.new.conjunctions ≡ interner.old.conjunctions }
{
    if from == to {
        return Ok(());
    }
    if from + 1 == to {
        trees.push(leaf_tree(alloc, interner, count, nodes, root, from)?)?;
        return Ok(());
    }
    let middle = from + (to - from) / 2;
    let lower = Leaves {
        from,
        to: middle,
        other: middle,
    };
    let front = narrowed(alloc, count, nodes, root, lower)?;
    push_halves(
        alloc,
        interner,
        count,
        &front.nodes,
        &front.root,
        from,
        middle,
        trees,
    )?;
    let upper = Leaves {
        from: middle,
        to,
        other: from,
    };
    let back = narrowed(alloc, count, nodes, root, upper)?;
    push_halves(
        alloc,
        interner,
        count,
        &back.nodes,
        &back.root,
        middle,
        to,
        trees,
    )
}

/// Returns for each leaf of a diagram, in the order of their numbers, the tree that holds where it is
/// reached. Makes no conjunction.
///
/// Takes time linear in the edges of the trees that come out, times the logarithm of the number of leaves.
///
/// # Errors
/// Where memory ran out.
pub fn leaf_trees(
    alloc: Global,
    interner: &mut Interner,
    diagram: &Diagram,
) -> Result<Vec<MarkerTree>, AllocError>
    requires graph { IsGraph interner.old.nodes diagram.now.leaves diagram.now.nodes.items }
    requires root { Stands diagram.now.leaves (length diagram.now.nodes.items) diagram.now.root }
    ensures count { IfOk result (λ trees. length trees.items ≡ diagram.now.leaves) }
    ensures each { IfOk result (λ trees.
        AreLeafTrees interner.new.nodes
        (leaf_in interner.old.nodes diagram.now diagram.now.root) 0 trees.items) }
    ensures keeps { Extends interner.old.nodes interner.new.nodes }
    ensures counts { interner.new.conjunctions ≡ interner.old.conjunctions }
{
    let mut trees = Vec::with_capacity(alloc, diagram.leaves)?;
    let count = diagram.leaves;
    push_trees(
        alloc,
        interner,
        count,
        &diagram.nodes,
        &diagram.root,
        0,
        count,
        &mut trees,
    )?;
    Ok(trees)
}
