//! The nodes of marker trees.

ghost use Rattle.std.specs.Prelude.{◌≡◌, [], ◌∷◌, Some, IfOk, refl};
ghost use Rattle.std.specs.Cmp.{eq_by_cmp_equiv, partial_equiv_from_equiv, partial_order_from_agreeing_total};
ghost use Rattle.std.specs.Ordering.{eq_by_cmp, as_partial_cmp};
ghost use Rattle.std.specs.Cmp.Lexicographic.{slice_cmp};
ghost use Rattle.pep508_diagram.specs.Text.{text_cmp};
ghost use Rattle.std.specs.declared.cmp.Ordering.TheVariants.{Equal};
ghost use Rattle.pep508_tree.specs.Forms.{record_of};
ghost use Rattle.pep508_tree.specs.Joining.{children, node_joined};
ghost use Rattle.pep508_tree.specs.Nodes.{node_rank, node_text, node_place, version_branches, text_branches};
ghost use Rattle.pep508_tree.specs.Nodes.{first_child, second_child, counterpart, IsRising, Paired, signed};
ghost use Rattle.pep508_tree.specs.Nodes.{branch_cmp, node_cmp};
ghost use Rattle.pep508_tree.specs.Roots.{shown};
ghost use Rattle.pep508_tree.specs.NodeLaws.{nodes_total};
ghost use Rattle.pep508_tree.specs.Tags.{node_tag, branches_tag};
ghost use Rattle.pep508_node_hash.specs.Tags.{text_tag, version_tag};

use crate::joining::{children_of, first_and_others, joined};
use crate::root::{Children, TreeNode};
use crate::tree::MarkerTree;
use pep440_version::Version;
use pep508_diagram::{Branch, Flag, MarkerText, NodeValue, VersionVariable, paired, text_rank};
use pep508_marker::MarkerValueString;
use pep508_node_hash::{mixed, text_tag, version_tag};
use std::alloc::{AllocError, Global};
use std::cmp::Ordering;
use std::marker::Model;
use version_ranges::Boundary;

/// The children of two trees for one value of a variable.
pub(crate) type Pair = (MarkerTree, MarkerTree);

/// A variable, and the child for each of its values: between a key's endpoints, the first below them all,
/// or for either truth of a flag.
#[derive(Drop)]
pub(crate) enum Form<C> {
    Versions(VersionVariable, C, Vec<Branch<Version, C>>),
    Texts(MarkerValueString, C, Vec<Branch<MarkerText, C>>),
    Flagged(Flag, C, C),
}

impl Form<Pair> {
    /// Returns the children, in order.
    ///
    /// # Errors
    ///
    /// `AllocError` when memory runs out.
    pub fn children(&self, alloc: Global) -> Result<Vec<Pair>, AllocError>
        ensures { IfOk result (λ pairs. pairs.items ≡ children (record_of self.now)) }
    {
        match self {
            Form::Versions(_, first, later) => children_of(alloc, *first, later),
            Form::Texts(_, first, later) => children_of(alloc, *first, later),
            Form::Flagged(_, set, unset) => Ok(vec![in alloc; *set, *unset]?),
        }
    }

    /// Returns the form with the given trees in place of its children, in order.
    ///
    /// # Errors
    ///
    /// `AllocError` when memory runs out.
    pub fn joined(self, alloc: Global, trees: &[MarkerTree]) -> Result<Form<MarkerTree>, AllocError>
        ensures { IfOk result (λ form. record_of form ≡ node_joined (record_of self) trees.now) }
    {
        let (first, others) = first_and_others(trees);
        Ok(match self {
            Form::Versions(key, _, later) => Form::Versions(
                key,
                first,
                joined(alloc, first, later, others)?,
            ),
            Form::Texts(key, _, later) => Form::Texts(
                key,
                first,
                joined(alloc, first, later, others)?,
            ),
            Form::Flagged(flag, _, _) => Form::Flagged(flag, first, first_and_others(others).0),
        })
    }
}

/// A node of a diagram.
#[derive(Drop)]
pub(crate) struct Node {
    form: Form<MarkerTree>,
}

impl Model for Node {
    ghost use Rattle.pep508_tree.specs.Meaning.{NodeRecord};
    ghost use Rattle.pep508_tree.specs.Forms.{record_of};

    ghost Value = { NodeRecord };

    ghost view = { λ node. record_of node.form };
}

fn cmp_branches<T: NodeValue>(a: &[Branch<T, MarkerTree>], b: &[Branch<T, MarkerTree>]) -> Ordering
    ensures { result ≡ slice_cmp (branch_cmp T.cmp) a.now b.now }
{
    let mut left = a;
    let mut right = b;
    loop {
        match (left.split_first(), right.split_first()) {
            (None, None) => return Ordering::Equal,
            (None, Some(_)) => return Ordering::Less,
            (Some(_), None) => return Ordering::Greater,
            (Some((x, xs)), Some((y, ys))) => {
                let order = x
                    .boundary
                    .cmp(&y.boundary)
                    .then(x.child.cmp_places(y.child));
                if order.is_ne() {
                    return order;
                }
                left = xs;
                right = ys;
            }
        }
    }
}

fn place_number(tree: MarkerTree) -> u64
    ensures { result ≡ tree.place }
{
    tree.place() as u64
}

/// Returns a number for the first endpoint and the child from it on.
fn versions_tag(later: &[Branch<Version, MarkerTree>]) -> u64
    ensures { result ≡ branches_tag version_tag later.now }
{
    match later.split_first() {
        None => 0,
        Some((branch, _)) => match &branch.boundary {
            Boundary::At(value) => mixed(place_number(branch.child), version_tag(value)),
            Boundary::JustAbove(value) => mixed(place_number(branch.child), version_tag(value)),
        },
    }
}

/// Returns a number for the first endpoint between texts and the child from it on.
fn texts_tag(later: &[Branch<MarkerText, MarkerTree>]) -> u64
    ensures { result ≡ branches_tag text_tag later.now }
{
    match later.split_first() {
        None => 0,
        Some((branch, _)) => match &branch.boundary {
            Boundary::At(value) => mixed(place_number(branch.child), text_tag(value.as_str())),
            Boundary::JustAbove(value) => mixed(
                place_number(branch.child),
                text_tag(value.as_str()),
            ),
        },
    }
}

impl Node {
    /// Returns the node of a form.
    pub fn new(form: Form<MarkerTree>) -> Node
        ensures { result ≡ record_of form }
    {
        Node { form }
    }

    /// Returns the rank of the variable among the kinds of variables and their keys.
    fn rank(&self) -> u8
        ensures { result ≡ node_rank self.now }
    {
        match &self.form {
            Form::Versions(VersionVariable::ImplementationVersion, _, _) => 0,
            Form::Versions(VersionVariable::PythonFullVersion, _, _) => 1,
            Form::Texts(key, _, _) => text_rank(*key),
            Form::Flagged(flag, _, _) => flag.rank(),
        }
    }

    /// Returns the text that the variable is about, if it is a flag.
    fn text(&self) -> &str
        ensures { result.now ≡ node_text self.now }
    {
        match &self.form {
            Form::Flagged(flag, _, _) => flag.text(),
            _ => "",
        }
    }

    /// Returns the borrowed node for callers, with each child negated where `negated`.
    pub fn lent(&self, negated: bool) -> TreeNode<'_>
        ensures { shown result ≡ Some (signed negated self.now) }
    {
        match &self.form {
            Form::Versions(key, first, later) => TreeNode::Versions(
                *key,
                Children {
                    first: *first,
                    later,
                    negated,
                },
            ),
            Form::Texts(key, first, later) => TreeNode::Texts(
                *key,
                Children {
                    first: *first,
                    later,
                    negated,
                },
            ),
            Form::Flagged(flag, set, unset) => TreeNode::Flagged(
                flag,
                set.turned(negated),
                unset.turned(negated),
            ),
        }
    }

    /// Returns a hash of the node: of the variable, of the children, and of the first endpoint with the
    /// child from it on.
    pub fn tag(&self) -> u64
        ensures { result ≡ node_tag self.now }
    {
        let variable = mixed(text_tag(self.text()), u64::from(self.rank()));
        let first = mixed(variable, place_number(self.first()));
        let second = mixed(first, place_number(self.second()));
        mixed(
            mixed(second, versions_tag(self.versions())),
            texts_tag(self.texts()),
        )
    }

    /// Compares the variables alone.
    pub fn cmp_variable(&self, other: &Node) -> Ordering
        ensures { result ≡ text_cmp (node_place self.now) (node_place other.now) }
    {
        self.rank()
            .cmp(&other.rank())
            .then(self.text().cmp(other.text()))
    }

    fn versions(&self) -> &[Branch<Version, MarkerTree>]
        ensures { result.now ≡ version_branches self.now }
    {
        match &self.form {
            Form::Versions(_, _, later) => later,
            _ => &[],
        }
    }

    fn texts(&self) -> &[Branch<MarkerText, MarkerTree>]
        ensures { result.now ≡ text_branches self.now }
    {
        match &self.form {
            Form::Texts(_, _, later) => later,
            _ => &[],
        }
    }

    fn first(&self) -> MarkerTree
        ensures { result ≡ first_child self.now }
    {
        match &self.form {
            Form::Versions(_, first, _) => *first,
            Form::Texts(_, first, _) => *first,
            Form::Flagged(_, set, _) => *set,
        }
    }

    fn second(&self) -> MarkerTree
        ensures { result ≡ second_child self.now }
    {
        match &self.form {
            Form::Versions(_, first, _) => *first,
            Form::Texts(_, first, _) => *first,
            Form::Flagged(_, _, unset) => *unset,
        }
    }

    /// Returns the pairs of this node's children and of those of a node of the same variable, which are
    /// given.
    fn paired(
        &self,
        alloc: Global,
        first: MarkerTree,
        versions: &[Branch<Version, MarkerTree>],
        texts: &[Branch<MarkerText, MarkerTree>],
        second: MarkerTree,
    ) -> Result<Form<Pair>, AllocError>
        requires rising { IsRising self.now }
        requires other_rising { IsRising (counterpart self.now first versions.now texts.now second) }
        ensures { IfOk result (λ pairs.
            Paired self.now (counterpart self.now first versions.now texts.now second) (record_of pairs)) }
    {
        match &self.form {
            Form::Versions(key, own, later) => {
                let pairs = paired(alloc, *own, later, first, versions)?;
                Ok(Form::Versions(*key, (*own, first), pairs))
            }
            Form::Texts(key, own, later) => {
                let pairs = paired(alloc, *own, later, first, texts)?;
                Ok(Form::Texts(*key, (*own, first), pairs))
            }
            Form::Flagged(flag, set, unset) => {
                let flag = flag.try_clone(alloc)?;
                Ok(Form::Flagged(flag, (*set, first), (*unset, second)))
            }
        }
    }

    /// Returns the pairs of each child and a tree that does not test the variable.
    ///
    /// # Errors
    ///
    /// `AllocError` when memory runs out.
    pub fn with_tree(&self, alloc: Global, tree: MarkerTree) -> Result<Form<Pair>, AllocError>
        requires { IsRising self.now }
        ensures { IfOk result (λ pairs.
            Paired self.now (counterpart self.now tree [] [] tree) (record_of pairs)) }
    {
        self.paired(alloc, tree, &[], &[], tree)
    }

    /// Returns the pairs of this node's children and of those of a node of the same variable.
    ///
    /// # Errors
    ///
    /// `AllocError` when memory runs out.
    pub fn with_node(&self, alloc: Global, other: &Node) -> Result<Form<Pair>, AllocError>
        requires same { text_cmp (node_place self.now) (node_place other.now) ≡ Equal }
        requires rising { IsRising self.now }
        requires other_rising { IsRising other.now }
        ensures { IfOk result (λ pairs. Paired self.now other.now (record_of pairs)) }
    {
        self.paired(
            alloc,
            other.first(),
            other.versions(),
            other.texts(),
            other.second(),
        )
    }
}

impl PartialEq for Node {
    ghost eq = { eq_by_cmp node_cmp };

    ghost laws = { partial_equiv_from_equiv (eq_by_cmp_equiv nodes_total) };

    fn eq(&self, other: &Node) -> bool {
        self.cmp(other).is_eq()
    }
}

impl Eq for Node {
    ghost laws = { eq_by_cmp_equiv nodes_total };
}

impl PartialOrd for Node {
    ghost partial_cmp = { as_partial_cmp node_cmp };

    ghost laws = { partial_order_from_agreeing_total node_cmp nodes_total (λ x y. refl) (λ x y. refl) };

    fn partial_cmp(&self, other: &Node) -> Option<Ordering> {
        Some(self.cmp(other))
    }
}

impl Ord for Node {
    ghost cmp = { node_cmp };

    ghost total = { nodes_total };

    ghost matches_partial_cmp = { λ x y. refl };

    ghost matches_eq = { λ x y. refl };

    fn cmp(&self, other: &Node) -> Ordering {
        let firsts = self.first().cmp_places(other.first());
        if firsts.is_ne() {
            return firsts;
        }
        let seconds = self.second().cmp_places(other.second());
        if seconds.is_ne() {
            return seconds;
        }
        let variables = self.cmp_variable(other);
        let versions = cmp_branches(self.versions(), other.versions());
        let texts = cmp_branches(self.texts(), other.texts());
        variables.then(versions.then(texts))
    }
}
