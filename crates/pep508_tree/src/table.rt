//! The table of the nodes of marker trees, each kept once.
//!
//! A node has two owners (`Rc`): the list of nodes, in the order in which they were made, and the ordered
//! map that finds it. So it is stored once, and a look-up copies nothing; a new node costs one block for
//! itself, one that is dropped again where the node was there already, and an entry of the map. Neither the
//! map nor the memory of conjunctions hashes, so no input can make their entries collide, and comparing two
//! nodes stops at the first difference. Children come first in that order: they are numbers and tell most
//! nodes apart.
//!
//! A node is stored whole or not at all: room in the list first, then the map's entry, then the list, which
//! cannot fail any more. A table that has more nodes than it may have takes no more, as if memory had run
//! out, so that one node too many shows that the bound was exceeded. Bounds are put into their shortest
//! spelling here (`store`), whoever makes the node, so that no caller has to promise it. That takes one more
//! list for each node of versions and copies no version.

ghost use Rattle.std.specs.Prelude.{◌≡◌, ◌⊎◌, ◌-◌, ◌<◌, false, [], length, map, IfOk, IsTrue, ◌↔◌, refl};
ghost use Rattle.std.specs.Cmp.{eq_by_cmp_equiv, partial_equiv_from_equiv, partial_order_from_agreeing_total};
ghost use Rattle.std.specs.Ordering.{is_gt, eq_by_cmp, as_partial_cmp};
ghost use Rattle.pep508_tree.specs.Tags.{tagged_cmp};
ghost use Rattle.pep508_tree.specs.NodeLaws.{tagged_total};
ghost use Rattle.pep508_diagram.specs.Text.{text_cmp};
ghost use Rattle.pep508_tree.specs.Meaning.{IsTree, Extends};
ghost use Rattle.pep508_tree.specs.Forms.{record_of};
ghost use Rattle.pep508_tree.specs.Nodes.{AreSound, IsSoundNode, IsPlaced, IsAlone, IsRising, IsJoined};
ghost use Rattle.pep508_tree.specs.Nodes.{AllChildren, Above};
ghost use Rattle.pep508_tree.specs.Nodes.{first_place, node_place, node_at, Splits, Made, first_child};
ghost use Rattle.pep508_tree.specs.Nodes.{signed, turned_branch, short_node};

use crate::node::{Form, Node, Pair};
use crate::tree::MarkerTree;
use pep508_diagram::{Branch, shortened_branches};
use std::alloc::{AllocError, Global};
use std::cmp::Ordering;
use std::collections::BTreeMap;
use std::marker::Model;
use std::rc::Rc;

/// The nodes in the order in which they were made, and the place of each. A node and its key are one value
/// with two owners.
#[derive(Drop)]
pub(crate) struct NodeTable {
    nodes: Vec<Rc<Node>>,
    places: BTreeMap<Tagged, usize>,
    alloc: Global,
    most: usize,
}

/// A node with its hash, which comes first in the order, so that mostly it alone decides.
#[derive(Drop)]
struct Tagged {
    tag: u64,
    node: Rc<Node>,
}

impl Model for Tagged {
    ghost use Rattle.std.specs.Prelude.{◌≡◌};
    ghost use Rattle.pep508_tree.specs.Meaning.{NodeRecord};
    ghost use Rattle.pep508_tree.specs.Tags.{node_tag};

    ghost Value = { NodeRecord };

    ghost view = { λ tagged. tagged.node.value };

    ghost invariant = { λ tagged. tagged.tag ≡ node_tag tagged.node.value };
}

impl Tagged {
    fn new(node: Rc<Node>) -> Tagged
        ensures { result ≡ node.value }
    {
        let tag = node.tag();
        Tagged { tag, node }
    }
}

impl PartialEq for Tagged {
    ghost eq = { eq_by_cmp tagged_cmp };

    ghost laws = { partial_equiv_from_equiv (eq_by_cmp_equiv tagged_total) };

    fn eq(&self, other: &Tagged) -> bool {
        self.cmp(other).is_eq()
    }
}

impl Eq for Tagged {
    ghost laws = { eq_by_cmp_equiv tagged_total };
}

impl PartialOrd for Tagged {
    ghost partial_cmp = { as_partial_cmp tagged_cmp };

    ghost laws = { partial_order_from_agreeing_total tagged_cmp tagged_total (λ x y. refl) (λ x y. refl) };

    fn partial_cmp(&self, other: &Tagged) -> Option<Ordering> {
        Some(self.cmp(other))
    }
}

impl Ord for Tagged {
    ghost cmp = { tagged_cmp };

    ghost total = { tagged_total };

    ghost matches_partial_cmp = { λ x y. refl };

    ghost matches_eq = { λ x y. refl };

    fn cmp(&self, other: &Tagged) -> Ordering {
        if self.tag < other.tag {
            return Ordering::Less;
        }
        if other.tag < self.tag {
            return Ordering::Greater;
        }
        self.node.cmp(&other.node)
    }
}

impl Model for NodeTable {
    ghost use Rattle.std.specs.Prelude.{List, map};
    ghost use Rattle.pep508_tree.specs.Meaning.{NodeRecord};
    ghost use Rattle.pep508_tree.specs.Nodes.{AreSound};
    ghost use Rattle.pep508_tree.specs.Places.{nodes_of, StandAt};

    ghost Value = { List NodeRecord };

    ghost view = { λ table. nodes_of table.nodes.items };

    ghost invariant = { λ table.
        AreSound (nodes_of table.nodes.items) × StandAt (nodes_of table.nodes.items) table.places };
}

/// Negates the children of a list of branches.
fn turn<T>(later: &mut [Branch<T, MarkerTree>])
    ensures { later.new ≡ map turned_branch later.old }
{
    for branch in later.iter_mut() {
        branch.child = branch.child.negate();
    }
}

/// Returns the form, with each child negated where `negated`.
fn signed(form: Form<MarkerTree>, negated: bool) -> Form<MarkerTree>
    ensures { record_of result ≡ signed negated (record_of form) }
{
    if !negated {
        return form;
    }
    match form {
        Form::Versions(key, first, mut later) => {
            turn(&mut later);
            Form::Versions(key, first.negate(), later)
        }
        Form::Texts(key, first, mut later) => {
            turn(&mut later);
            Form::Texts(key, first.negate(), later)
        }
        Form::Flagged(flag, set, unset) => Form::Flagged(flag, set.negate(), unset.negate()),
    }
}

/// Returns the form, with each endpoint of versions at its shortest spelling.
fn shortened(alloc: Global, form: Form<MarkerTree>) -> Result<Form<MarkerTree>, AllocError>
    ensures { IfOk result (λ short. record_of short ≡ short_node (record_of form)) }
{
    match form {
        Form::Versions(key, first, later) => {
            let later = shortened_branches(alloc, later)?;
            Ok(Form::Versions(key, first, later))
        }
        other => Ok(other),
    }
}

/// Returns the first child, or that of a flag that is set.
fn first_of(form: &Form<MarkerTree>) -> MarkerTree
    ensures { result ≡ first_child (record_of form.now) }
{
    match form {
        Form::Versions(_, first, _) => *first,
        Form::Texts(_, first, _) => *first,
        Form::Flagged(_, set, _) => *set,
    }
}

/// Returns whether all children are the same.
fn is_alone(form: &Form<MarkerTree>) -> bool
    ensures { IsTrue result ↔ IsAlone (record_of form.now) }
{
    match form {
        Form::Versions(_, _, later) => later.is_empty(),
        Form::Texts(_, _, later) => later.is_empty(),
        Form::Flagged(_, set, unset) => set.cmp_places(*unset).is_eq(),
    }
}

impl NodeTable {
    /// Returns a table without nodes, which takes no more once it has more than `most`. Takes no memory.
    pub fn new(alloc: Global, most: usize) -> NodeTable
        ensures { result ≡ [] }
    {
        NodeTable {
            nodes: Vec::new(alloc),
            places: BTreeMap::new(alloc),
            alloc,
            most,
        }
    }

    /// Returns the number of nodes.
    pub fn len(&self) -> usize
        ensures { result ≡ length self.now }
    {
        self.nodes.len()
    }

    /// Returns the allocator of the nodes.
    pub fn allocator(&self) -> Global {
        self.alloc
    }

    /// Shows that the nodes are sound, for callers that see their records alone. Does nothing.
    pub fn are_sound(&self)
        ensures { AreSound self.now }
    {
        let _ = &self.nodes;
    }

    /// Returns the node of a tree that is not constant.
    pub fn node_of(&self, tree: MarkerTree) -> &Node
        requires made { IsTree self.now tree }
        requires some { 0 < tree.place }
        ensures found { result.now ≡ node_at self.now (tree.place - 1) }
        ensures sound { AreSound self.now }
    {
        &self.nodes[tree.place() - 1]
    }

    /// Returns the two trees in the order of their first variables: the first tree's does not come after
    /// the second's.
    pub fn in_order(&self, a: MarkerTree, b: MarkerTree) -> (MarkerTree, MarkerTree)
        requires a { IsTree self.now a }
        requires b { IsTree self.now b }
        requires a_node { 0 < a.place }
        requires b_node { 0 < b.place }
        ensures either { (result ≡ (a, b)) ⊎ (result ≡ (b, a)) }
        ensures ordered { is_gt (text_cmp (first_place self.now result.0) (first_place self.now result.1))
            ≡ false }
    {
        let first: &Node = &self.nodes[a.place() - 1];
        let second: &Node = &self.nodes[b.place() - 1];
        if first.cmp_variable(second).is_gt() {
            (b, a)
        } else {
            (a, b)
        }
    }

    /// Returns the pairs of the children of two trees for each value of the variable that comes first in
    /// them, without the trees' negations. The first tree's variable does not come after that of the
    /// second.
    ///
    /// # Errors
    ///
    /// `AllocError` when memory runs out.
    pub fn split(&self, a: MarkerTree, b: MarkerTree) -> Result<Form<Pair>, AllocError>
        requires a { IsTree self.now a }
        requires b { IsTree self.now b }
        requires a_node { 0 < a.place }
        requires b_node { 0 < b.place }
        requires ordered { is_gt (text_cmp (first_place self.now a) (first_place self.now b)) ≡ false }
        ensures { IfOk result (λ pairs. Splits self.now a b (record_of pairs)) }
    {
        let first: &Node = &self.nodes[a.place() - 1];
        let second: &Node = &self.nodes[b.place() - 1];
        if first.cmp_variable(second).is_eq() {
            first.with_node(self.alloc, second)
        } else {
            first.with_tree(self.alloc, b.turned(b.is_negated()))
        }
    }

    /// Returns the place of a node, which is added unless it is there already. An error stores nothing.
    fn place_of(&mut self, form: Form<MarkerTree>) -> Result<usize, AllocError>
        requires { IsSoundNode self.old (length self.old) (record_of form) }
        ensures found { IfOk result (λ place. IsPlaced self.new (record_of form) place) }
        ensures keeps { Extends self.old self.new }
    {
        let node = Rc::new(self.alloc, Node::new(form))?;
        let owner = node.clone()?;
        let key = Tagged::new(owner);
        if let Some(place) = self.places.get(&key) {
            return Ok(*place + 1);
        }
        if self.nodes.len() > self.most {
            return Err(AllocError);
        }
        self.nodes.reserve(1)?;
        let place = self.nodes.len();
        self.places.insert(key, place)?;
        match self.nodes.push(node) {
            Ok(()) => Ok(place + 1),
            Err(_) => unreachable!(),
        }
    }

    /// Returns the tree of a form whose children test later variables only: its only child, where all are
    /// the same, and else the tree of its node, with versions in their shortest spelling.
    ///
    /// # Errors
    ///
    /// `AllocError` when memory runs out.
    pub fn store(&mut self, form: Form<MarkerTree>) -> Result<MarkerTree, AllocError>
        requires made { AllChildren (IsTree self.old) (record_of form) }
        requires above { AllChildren (Above self.old (node_place (record_of form))) (record_of form) }
        requires rises { IsRising (record_of form) }
        requires joined { IsJoined (record_of form) }
        ensures made { IfOk result (λ tree. Made self.old self.new (record_of form) tree) }
        ensures keeps { Extends self.old self.new }
    {
        let first = first_of(&form);
        if is_alone(&form) {
            return Ok(first);
        }
        let negated = first.is_negated();
        let short = shortened(self.alloc, signed(form, negated))?;
        let place = self.place_of(short)?;
        Ok(MarkerTree::at_place(place, negated))
    }
}
