//! Copies of a tree's root, which can be changed and made a tree again.

ghost use Rattle.std.specs.Prelude.{◌≡◌, map, Some, IfOk, IfSome, MatchOption};
ghost use Rattle.pep508_tree.specs.Meaning.{IsTree, Extends};
ghost use Rattle.pep508_tree.specs.Roots.{root_of, IsRoot};
ghost use Rattle.pep508_tree.specs.Joining.{node_joined};
ghost use Rattle.pep508_tree.specs.Nodes.{AllChildren, Above, IsRising, node_place};
ghost use Rattle.pep508_simplification.specs.Parts.{record_of, signs, children_of, with_set, IsRejoined};

use pep440_version::Version;
use pep508_diagram::{Branch, Flag, MarkerText, NodeValue, VersionVariable, copy_of_boundary};
use pep508_marker::MarkerValueString;
use pep508_tree::joining::{children_of, first_and_others, joined};
use pep508_tree::{Interner, MarkerTree, TreeNode};
use std::alloc::{AllocError, Global};

/// The variable that a tree tests first, and the child for each of its values. A constant tree tests
/// nothing.
#[derive(Drop)]
pub(crate) enum Root {
    Constant,
    Versions(VersionVariable, MarkerTree, Vec<Branch<Version, MarkerTree>>),
    Texts(MarkerValueString, MarkerTree, Vec<Branch<MarkerText, MarkerTree>>),
    Flagged(Flag, MarkerTree, MarkerTree),
}

fn copy_of_branches<T: NodeValue>(
    alloc: Global,
    later: &[Branch<T, MarkerTree>],
    negated: bool,
) -> Result<Vec<Branch<T, MarkerTree>>, AllocError>
    ensures { IfOk result (λ branches. branches.items ≡ map (signs negated) later.now) }
{
    let mut branches = Vec::with_capacity(alloc, later.len())?;
    for branch in later {
        branches.push(Branch {
            boundary: copy_of_boundary(alloc, &branch.boundary)?,
            child: branch.child.turned(negated),
        })?;
    }
    Ok(branches)
}

/// Returns a copy of a tree's root, with the tree's negation applied to its children.
#[tactic(auto, using(crate::proofs::Rooted::root_rules))]
pub(crate) fn copy_of_root(
    alloc: Global,
    interner: &Interner,
    tree: MarkerTree,
) -> Result<Root, AllocError>
    requires { IsTree interner.now.nodes tree }
    ensures copy { IfOk result (λ root. record_of root ≡ root_of interner.now.nodes tree) }
    ensures known { IfOk result (λ root.
        MatchOption (record_of root) (tree.place ≡ 0) (IsRoot interner.now.nodes tree)) }
{
    Ok(match tree.node(interner) {
        TreeNode::Constant(_) => Root::Constant,
        TreeNode::Versions(key, children) => {
            let later = copy_of_branches(alloc, children.later, children.negated)?;
            Root::Versions(key, children.first.turned(children.negated), later)
        }
        TreeNode::Texts(key, children) => {
            let later = copy_of_branches(alloc, children.later, children.negated)?;
            Root::Texts(key, children.first.turned(children.negated), later)
        }
        TreeNode::Flagged(flag, set, unset) => Root::Flagged(flag.try_clone(alloc)?, set, unset),
    })
}

impl Root {
    /// Returns the children, in order.
    ///
    /// # Errors
    ///
    /// `AllocError` when memory runs out.
    pub fn children(&self, alloc: Global) -> Result<Vec<MarkerTree>, AllocError>
        ensures { IfOk result (λ trees. trees.items ≡ children_of (record_of self.now)) }
    {
        match self {
            Root::Constant => Ok(Vec::new(alloc)),
            Root::Versions(_, first, later) => children_of(alloc, *first, later),
            Root::Texts(_, first, later) => children_of(alloc, *first, later),
            Root::Flagged(_, set, unset) => Ok(vec![in alloc; *set, *unset]?),
        }
    }

    /// Returns the root; where `named`, with a flag's set child on both sides.
    pub fn with_set(self, named: bool) -> Root
        ensures { record_of result ≡ with_set named (record_of self) }
    {
        match self {
            Root::Constant => Root::Constant,
            Root::Versions(key, first, later) => Root::Versions(key, first, later),
            Root::Texts(key, first, later) => Root::Texts(key, first, later),
            Root::Flagged(flag, set, unset) => {
                Root::Flagged(flag, set, if named { set } else { unset })
            }
        }
    }

    /// Returns the tree of the root with other children, in order; for a constant the tree of which it is a
    /// copy.
    ///
    /// # Errors
    ///
    /// `AllocError` when memory runs out.
    pub fn rejoined(
        self,
        alloc: Global,
        interner: &mut Interner,
        tree: MarkerTree,
        trees: &[MarkerTree],
    ) -> Result<MarkerTree, AllocError>
        requires made { IfSome (record_of self) (λ n.
            AllChildren (IsTree interner.old.nodes) (node_joined n trees.now)) }
        requires above { IfSome (record_of self) (λ n.
            AllChildren (Above interner.old.nodes (node_place n)) (node_joined n trees.now)) }
        requires rises { IfSome (record_of self) IsRising }
        ensures made { IfOk result
            (IsRejoined interner.old.nodes interner.new.nodes tree (record_of self) trees.now) }
        ensures keeps { Extends interner.old.nodes interner.new.nodes }
        ensures counts { interner.new.conjunctions ≡ interner.old.conjunctions }
    {
        let (first, others) = first_and_others(trees);
        match self {
            Root::Constant => Ok(tree),
            Root::Versions(key, _, later) => {
                let later = joined(alloc, first, later, others)?;
                interner.versions_node(key, first, later)
            }
            Root::Texts(key, _, later) => {
                let later = joined(alloc, first, later, others)?;
                interner.texts_node(key, first, later)
            }
            Root::Flagged(flag, _, _) => {
                interner.flag_node(flag, first, first_and_others(others).0)
            }
        }
    }
}
