//! Trees that are simplified to a range of versions of Python.
//!
//! Only the first two variables matter, `implementation_version` and `python_full_version`, so nothing
//! deeper is looked at and nothing recurses. The memo of the trees below the first is by place and sign,
//! since with an empty range a tree and its negation both become false.

ghost use Rattle.std.specs.Prelude.{◌≡◌, IfOk};
ghost use Rattle.std.specs.List.{AllByRecursion};
ghost use Rattle.pep440_specifier.specs.Bounds.{lent_bound};
ghost use Rattle.pep508_tree.specs.Conjunctions.{Meet};
ghost use Rattle.pep508_tree.specs.Meaning.{IsTree, Extends, holds};
ghost use Rattle.pep508_tree.specs.Nodes.{Above};
ghost use Rattle.pep508_tree.specs.Roots.{root_of};
ghost use Rattle.pep508_simplification.specs.Simplified.{between, IsSimplified};
ghost use Rattle.pep508_simplification.specs.Narrowed.{python_of, asks_python, asks_implementation, cut};
ghost use Rattle.pep508_simplification.specs.Narrowed.{implementation_place, IsSimpler, AreRecalled};

use crate::root_copy::copy_of_root;
use crate::within::{behind, copy_up_to, hold_some};
use pep440_version::Version;
use pep508_diagram::{Branch, VersionVariable};
use pep508_tree::{Interner, MarkerTree, TreeNode};
use std::alloc::{AllocError, Global};
use std::collections::BTreeMap;
use std::ops::Bound;

/// Returns whether the tree tests `implementation_version` first.
fn asks_implementation(interner: &Interner, tree: MarkerTree) -> bool
    requires { IsTree interner.now.nodes tree }
    ensures { result ≡ asks_implementation (root_of interner.now.nodes tree) }
{
    match tree.node(interner) {
        TreeNode::Versions(VersionVariable::ImplementationVersion, _) => true,
        _ => false,
    }
}

/// Returns whether the tree tests `python_full_version` first.
fn asks_python(interner: &Interner, tree: MarkerTree) -> bool
    requires { IsTree interner.now.nodes tree }
    ensures { result ≡ asks_python (root_of interner.now.nodes tree) }
{
    match tree.node(interner) {
        TreeNode::Versions(VersionVariable::PythonFullVersion, _) => true,
        _ => false,
    }
}

/// Returns the children between two bounds of `python_full_version`, a tree and branches; where the tree
/// tests something else first, the tree alone. Copies what it keeps.
fn cut(
    alloc: Global,
    interner: &Interner,
    tree: MarkerTree,
    lower: Bound<&Version>,
    upper: Bound<&Version>,
) -> Result<(MarkerTree, Vec<Branch<Version, MarkerTree>>), AllocError>
    requires { IsTree interner.now.nodes tree }
    ensures { IfOk result (λ node. (node.0, node.1.items)
        ≡ cut (lent_bound lower.entry) (lent_bound upper.entry)
        (python_of tree (root_of interner.now.nodes tree))) }
{
    match tree.node(interner) {
        TreeNode::Versions(VersionVariable::PythonFullVersion, children) => {
            let (first, later) = behind(children.first, children.later, lower);
            let later = copy_up_to(alloc, later, children.negated, upper)?;
            Ok((first.turned(children.negated), later))
        }
        _ => Ok((tree, Vec::new(alloc))),
    }
}

/// Returns a tree that doesn't test `implementation_version`, simplified to the range.
fn narrowed(
    alloc: Global,
    interner: &mut Interner,
    tree: MarkerTree,
    lower: Bound<&Version>,
    upper: Bound<&Version>,
) -> Result<MarkerTree, AllocError>
    requires made { IsTree interner.old.nodes tree }
    requires above { Above interner.old.nodes implementation_place tree }
    ensures simpler { IfOk result (IsSimpler (between (lent_bound lower.entry) (lent_bound upper.entry))
        interner.old.nodes interner.new.nodes tree) }
    ensures keeps { Extends interner.old.nodes interner.new.nodes }
    ensures counts { interner.new.conjunctions ≡ interner.old.conjunctions }
{
    interner.are_sound();
    if !hold_some(lower, upper) {
        if asks_python(interner, tree) {
            return Ok(MarkerTree::FALSE);
        }
        return Ok(tree);
    }
    let (first, later) = cut(alloc, interner, tree, lower, upper)?;
    interner.versions_node(VersionVariable::PythonFullVersion, first, later)
}

/// Returns a tree simplified to the range, as `narrowed` does, remembering it so that a child of several
/// endpoints is simplified once.
fn narrowed_once(
    alloc: Global,
    interner: &mut Interner,
    known: &mut BTreeMap<(usize, bool), MarkerTree>,
    tree: MarkerTree,
    lower: Bound<&Version>,
    upper: Bound<&Version>,
) -> Result<MarkerTree, AllocError>
    requires made { IsTree interner.old.nodes tree }
    requires above { Above interner.old.nodes implementation_place tree }
    requires known { AreRecalled (between (lent_bound lower) (lent_bound upper)) interner.old.nodes
        known.old }
    ensures simpler { IfOk result (IsSimpler (between (lent_bound lower.entry) (lent_bound upper.entry))
        interner.old.nodes interner.new.nodes tree) }
    ensures known { IfOk result (λ _. AreRecalled (between (lent_bound lower.entry) (lent_bound upper.entry))
        interner.new.nodes known.new) }
    ensures keeps { Extends interner.old.nodes interner.new.nodes }
    ensures counts { interner.new.conjunctions ≡ interner.old.conjunctions }
{
    let name = (tree.place(), tree.is_negated());
    if let Some(simple) = known.get(&name) {
        return Ok(*simple);
    }
    let simple = narrowed(alloc, interner, tree, lower, upper)?;
    known.insert(name, simple)?;
    Ok(simple)
}

/// Returns several trees simplified to the range, in order.
fn all_narrowed(
    alloc: Global,
    interner: &mut Interner,
    trees: &[MarkerTree],
    lower: Bound<&Version>,
    upper: Bound<&Version>,
) -> Result<Vec<MarkerTree>, AllocError>
    requires made { AllByRecursion (IsTree interner.old.nodes) trees.now }
    requires above { AllByRecursion (Above interner.old.nodes implementation_place) trees.now }
    ensures simpler { IfOk result (λ simple. Meet
        (IsSimpler (between (lent_bound lower.entry) (lent_bound upper.entry))
        interner.old.nodes interner.new.nodes) trees.now simple.items) }
    ensures keeps { Extends interner.old.nodes interner.new.nodes }
    ensures counts { interner.new.conjunctions ≡ interner.old.conjunctions }
{
    let mut known = BTreeMap::new(alloc);
    let mut simple = Vec::new(alloc);
    for tree in trees {
        simple.push(narrowed_once(alloc, interner, &mut known, *tree, lower, upper)?)?;
    }
    Ok(simple)
}

/// Returns a tree simplified to the range. `implementation_version` and then `python_full_version` are the
/// first two variables, so nothing below them is looked at.
pub(crate) fn simplified(
    alloc: Global,
    interner: &mut Interner,
    tree: MarkerTree,
    lower: Bound<&Version>,
    upper: Bound<&Version>,
) -> Result<MarkerTree, AllocError>
    requires { IsTree interner.old.nodes tree }
    ensures made { IfOk result (λ simple. IsTree interner.new.nodes simple) }
    ensures truth { IfOk result (λ simple. IsSimplified
        (between (lent_bound lower.entry) (lent_bound upper.entry))
        (holds interner.old.nodes tree) (holds interner.new.nodes simple)) }
    ensures keeps { Extends interner.old.nodes interner.new.nodes }
    ensures counts { interner.new.conjunctions ≡ interner.old.conjunctions }
{
    interner.are_sound();
    if !asks_implementation(interner, tree) {
        return narrowed(alloc, interner, tree, lower, upper);
    }
    let root = copy_of_root(alloc, interner, tree)?;
    let children = root.children(alloc)?;
    let trees = all_narrowed(alloc, interner, &children, lower, upper)?;
    root.rejoined(alloc, interner, tree, &trees)
}
