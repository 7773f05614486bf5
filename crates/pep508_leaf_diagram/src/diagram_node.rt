//! The nodes of a diagram, and the children of a child.

ghost use Rattle.std.specs.Prelude.{◌≡◌, ℕ, List, map, length, IfOk, MatchOption, ◌<◌};
ghost use Rattle.pep508_tree.specs.Meaning.{NodeOf, NodeRecord, IsTree};
ghost use Rattle.pep508_tree.specs.Nodes.{turned};
ghost use Rattle.pep508_leaf_diagram.specs.Forms.{record_of, form_record};
ghost use Rattle.pep508_leaf_diagram.specs.Leaves.{child_of, IsGraph, IsFit, IsOpened, IsPut, IsAbove};
ghost use Rattle.pep508_leaf_diagram.specs.declared.child.Child.{Child};
ghost use Rattle.pep508_leaf_diagram.specs.declared.child.Child.TheVariants.{Whole};
ghost use Rattle.pep508_leaf_diagram.specs.Pairing.{IsDiagram, MadeIn, AboveIn};

use crate::child::{Child, child_of};
use crate::diagram::Diagram;
use crate::form::Form;
use pep508_diagram::{Branch, NodeValue, copy_of_boundary};
use pep508_tree::{Interner, MarkerTree, TreeNode};
use std::alloc::{AllocError, Global};
use std::marker::Model;

/// A node of a diagram.
#[derive(Drop)]
pub struct Node {
    form: Form<Child>,
}

impl Model for Node {
    ghost use Rattle.pep508_tree.specs.Meaning.{NodeOf};
    ghost use Rattle.pep508_leaf_diagram.specs.declared.child.Child.{Child};
    ghost use Rattle.pep508_leaf_diagram.specs.Forms.{record_of};

    ghost Value = { NodeOf Child };

    ghost view = { λ node. record_of node.form };
}

impl Node {
    pub(crate) fn new(form: Form<Child>) -> Node
        ensures { result ≡ record_of form }
    {
        Node { form }
    }

    pub(crate) fn form(&self) -> &Form<Child>
        ensures { record_of result.now ≡ self.now }
    {
        &self.form
    }
}

/// A variable with its children: that of a node, or one that was made of a tree.
#[derive(Drop)]
pub(crate) enum NodeForm<'a> {
    Lent(&'a Form<Child>),
    Made(Form<Child>),
}

impl NodeForm<'_> {
    pub(crate) fn form(&self) -> &Form<Child>
        ensures { record_of result.now ≡ form_record self.now }
    {
        match self {
            NodeForm::Lent(form) => form,
            NodeForm::Made(form) => form,
        }
    }
}

/// Returns the branches with a child for each tree, which is negated where the flag is set.
fn of_trees<T: NodeValue>(
    alloc: Global,
    later: &[Branch<T, MarkerTree>],
    negated: bool,
) -> Result<Vec<Branch<T, Child>>, AllocError>
    ensures { IfOk result (λ branches. branches.items
        ≡ map (λ branch.
        record { boundary = branch.boundary; child = child_of (turned negated branch.child) })
        later.now) }
{
    let mut branches = Vec::with_capacity(alloc, later.len())?;
    for branch in later {
        branches.push(Branch {
            boundary: copy_of_boundary(alloc, &branch.boundary)?,
            child: child_of(branch.child.turned(negated)),
        })?;
    }
    Ok(branches)
}

/// Returns the root of a tree as a variable with children, or `None` of a constant tree.
fn form_of_tree(
    alloc: Global,
    interner: &Interner,
    tree: MarkerTree,
) -> Result<Option<Form<Child>>, AllocError>
    requires { IsTree interner.now.nodes tree }
    ensures { IfOk result (λ form. (leaves : ℕ) (nodes : List (NodeOf Child)) → 1 < leaves →
        MatchOption form ((place : List ℕ) → IsAbove interner.now.nodes nodes place (Whole tree))
        (λ form. IsOpened interner.now.nodes leaves nodes (Whole tree) (record_of form))) }
{
    match tree.node(interner) {
        TreeNode::Constant(_) => Ok(None),
        TreeNode::Versions(key, children) => {
            let first = child_of(children.first.turned(children.negated));
            let later = of_trees(alloc, children.later, children.negated)?;
            Ok(Some(Form::Versions(key, first, later)))
        }
        TreeNode::Texts(key, children) => {
            let first = child_of(children.first.turned(children.negated));
            let later = of_trees(alloc, children.later, children.negated)?;
            Ok(Some(Form::Texts(key, first, later)))
        }
        TreeNode::Flagged(flag, set, unset) => {
            let flag = flag.try_clone(alloc)?;
            Ok(Some(Form::Flagged(flag, child_of(set), child_of(unset))))
        }
    }
}

/// Returns the variable of a child with its children, or `None` of a leaf.
pub(crate) fn opened<'a>(
    alloc: Global,
    interner: &Interner,
    diagram: &'a Diagram,
    child: Child,
) -> Result<Option<NodeForm<'a>>, AllocError>
    requires diagram { IsDiagram interner.now.nodes diagram.now }
    requires made { MadeIn interner.now.nodes diagram.now child }
    ensures { IfOk result (λ form.
        MatchOption form ((place : List ℕ) → AboveIn interner.now.nodes diagram.now place child)
        (λ form. IsOpened interner.now.nodes
        diagram.now.leaves diagram.now.nodes.items child (form_record form))) }
{
    match child {
        Child::Leaf(_) => Ok(None),
        Child::Node(place) => Ok(Some(NodeForm::Lent(diagram.nodes[place].form()))),
        Child::Whole(tree) => match form_of_tree(alloc, interner, tree)? {
            None => Ok(None),
            Some(form) => Ok(Some(NodeForm::Made(form))),
        },
    }
}

/// Returns a child for a variable with its children: the only child where it has one, else a new last node.
pub(crate) fn placed(nodes: &mut Vec<Node>, form: Form<Child>) -> Result<Child, AllocError>
    ensures { IfOk result (λ child. (inner : List NodeRecord) (leaves : ℕ) →
        IsGraph inner leaves nodes.old.items →
        IsFit inner leaves nodes.old.items (length nodes.old.items) (record_of form) →
        IsPut inner leaves nodes.old.items nodes.new.items (record_of form) child) }
{
    crate::merge_walk::equal_children();
    if form.is_alone() {
        return Ok(form.first());
    }
    if let Form::Flagged(_, set, unset) = &form {
        if *set == *unset {
            return Ok(*set);
        }
    }
    let place = nodes.len();
    nodes.push(Node::new(form))?;
    Ok(Child::Node(place))
}
