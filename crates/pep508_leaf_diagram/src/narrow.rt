//! Diagrams in which all leaves but some are one.

ghost use Rattle.std.specs.Prelude.{◌≡◌, [], ◌<◌, length, map, get_or, IfOk};
ghost use Rattle.pep508_leaf_diagram.specs.declared.child.Child.TheVariants.{Leaf};
ghost use Rattle.pep508_tree.specs.Nodes.{first_child};
ghost use Rattle.pep508_leaf_diagram.specs.Forms.{record_of, others};
ghost use Rattle.pep508_leaf_diagram.specs.Joining.{node_joined};
ghost use Rattle.pep508_leaf_diagram.specs.Leaves.{Stands, IsGraph};
ghost use Rattle.pep508_leaf_diagram.specs.Trees.{narrow_of, IsPart};

use crate::child::Child;
use crate::diagram_node::{Node, placed};
use crate::form::Form;
use crate::merge_walk::equal_children;
use std::alloc::{AllocError, Global};

/// The leaves that stay apart, `from` up to `to`, and the leaf that stands for all others.
#[derive(Clone, Copy)]
pub(crate) struct Leaves {
    pub from: usize,
    pub to: usize,
    pub other: usize,
}

/// The nodes of a diagram and its root.
#[derive(Drop)]
pub(crate) struct Part {
    pub nodes: Vec<Node>,
    pub root: Child,
}

/// Returns the narrowed child of the node at an index.
fn narrow_node(children: &[Child], leaves: Leaves, place: usize) -> Child
    ensures { result ≡ get_or children.now place (Leaf leaves.other) }
{
    match children.get(place) {
        Some(child) => *child,
        None => Child::Leaf(leaves.other),
    }
}

/// Returns a child narrowed, by the narrowed children of the nodes.
fn narrow_child(children: &[Child], leaves: Leaves, child: &Child) -> Child
    ensures { result ≡ narrow_of leaves children.now child.now }
{
    match child {
        Child::Leaf(number) => {
            if leaves.from <= *number && *number < leaves.to {
                Child::Leaf(*number)
            } else {
                Child::Leaf(leaves.other)
            }
        }
        Child::Node(place) => narrow_node(children, leaves, *place),
        Child::Whole(_) => Child::Leaf(leaves.other),
    }
}

fn narrow_children(
    alloc: Global,
    children: &[Child],
    leaves: Leaves,
    all: &[Child],
) -> Result<Vec<Child>, AllocError>
    ensures { IfOk result (λ narrow. narrow.items ≡ map (narrow_of leaves children.now) all.now) }
{
    let mut narrow = Vec::with_capacity(alloc, all.len())?;
    for child in all {
        narrow.push(narrow_child(children, leaves, child))?;
    }
    Ok(narrow)
}

fn narrow_form(
    alloc: Global,
    children: &[Child],
    leaves: Leaves,
    form: &Form<Child>,
) -> Result<Form<Child>, AllocError>
    ensures { IfOk result (λ narrow.
        record_of narrow ≡ node_joined ⟦<Child as PartialEq>⟧.eq (record_of form.now)
        (narrow_of leaves children.now (first_child (record_of form.now)))
        (map (narrow_of leaves children.now) (others (record_of form.now)))) }
{
    let first = form.first();
    let first = narrow_child(children, leaves, &first);
    let all = form.others(alloc)?;
    let others = narrow_children(alloc, children, leaves, &all)?;
    let narrow = form.joined(alloc, first, &others)?;
    Ok(narrow)
}

/// Returns the diagram in which all other leaves are one.
pub(crate) fn narrowed(
    alloc: Global,
    count: usize,
    nodes: &[Node],
    root: &Child,
    leaves: Leaves,
) -> Result<Part, AllocError>
    requires graph { IsGraph [] count nodes.now }
    requires root { Stands count (length nodes.now) root.now }
    requires other { leaves.other < count }
    ensures { IfOk result (IsPart count nodes.now root.now leaves) }
{
    equal_children();
    let mut narrow = Vec::new(alloc);
    let mut children = Vec::with_capacity(alloc, nodes.len())?;
    for node in nodes {
        let form = narrow_form(alloc, &children, leaves, node.form())?;
        let child = placed(&mut narrow, form)?;
        children.push(child)?;
    }
    let root = narrow_child(&children, leaves, root);
    Ok(Part {
        nodes: narrow,
        root,
    })
}
