//! A node's variable with its children.

ghost use Rattle.std.specs.Prelude.{◌≡◌, [], ◌∷◌, IfOk, IsTrue, map};
ghost use Rattle.pep508_diagram.specs.Text.{text_cmp};
ghost use Rattle.pep508_tree.specs.Nodes.{first_child, second_child, version_branches};
ghost use Rattle.pep508_tree.specs.Nodes.{text_branches, node_rank, node_text, node_place};
ghost use Rattle.pep508_leaf_diagram.specs.Forms.{record_of, others, IsSingle};
ghost use Rattle.pep508_diagram.specs.Joining.{joined_by};
ghost use Rattle.pep508_leaf_diagram.specs.Joining.{head_or, node_joined};

use pep440_version::Version;
use pep508_diagram::{
    Branch, Flag, MarkerText, NodeValue, VersionVariable, add_children, copy_of_boundary, rejoined,
    text_rank,
};
use pep508_marker::MarkerValueString;
use std::alloc::{AllocError, Global};
use std::cmp::Ordering;

/// A variable with a child for each of its values: the first below all boundaries of a key and one from each
/// boundary on, or one for either value of a flag.
#[derive(Drop)]
pub(crate) enum Form<C> {
    Versions(VersionVariable, C, Vec<Branch<Version, C>>),
    Texts(MarkerValueString, C, Vec<Branch<MarkerText, C>>),
    Flagged(Flag, C, C),
}

fn just_children<T, C: Copy>(alloc: Global, later: &[Branch<T, C>]) -> Result<Vec<C>, AllocError>
    ensures { IfOk result (λ children. children.items ≡ map (λ branch. branch.child) later.now) }
{
    let mut children = Vec::new(alloc);
    add_children(&mut children, later)?;
    Ok(children)
}

fn just<C: Drop>(alloc: Global, child: C) -> Result<Vec<C>, AllocError>
    ensures { IfOk result (λ children. children.items ≡ child ∷ []) }
{
    let mut children = Vec::new(alloc);
    children.push(child)?;
    Ok(children)
}

/// Returns branches at the same boundaries with other children; equal neighbours are joined.
#[tactic(auto, using(pep508_diagram::proofs::Joined::joined_none))]
fn joined<T: NodeValue, C: Drop, D: Copy + PartialEq>(
    alloc: Global,
    first: D,
    later: &[Branch<T, C>],
    children: &[D],
) -> Result<Vec<Branch<T, D>>, AllocError>
    ensures { IfOk result (λ branches. branches.items ≡ joined_by D.eq first later.now children.now) }
{
    let mut branches = Vec::new(alloc);
    let mut last = first;
    let mut left = children;
    for branch in later {
        let Some((child, rest)) = left.split_first() else {
            return Ok(branches);
        };
        left = rest;
        if *child == last {
            continue;
        }
        last = *child;
        let boundary = copy_of_boundary(alloc, &branch.boundary)?;
        branches.push(Branch {
            boundary,
            child: last,
        })?;
    }
    Ok(branches)
}

fn first_or<D: Copy>(children: &[D], other: D) -> D
    ensures { result ≡ head_or children.now other }
{
    match children.split_first() {
        Some((child, _)) => *child,
        None => other,
    }
}

impl<C: Copy> Form<C> {
    /// Returns the first child; of a flag the one where it is set.
    pub fn first(&self) -> C
        ensures { result ≡ first_child (record_of self.now) }
    {
        match self {
            Form::Versions(_, first, _) => *first,
            Form::Texts(_, first, _) => *first,
            Form::Flagged(_, set, _) => *set,
        }
    }

    /// Returns the children after the first, in order.
    ///
    /// # Errors
    ///
    /// `AllocError` when memory runs out.
    pub fn others(&self, alloc: Global) -> Result<Vec<C>, AllocError>
        ensures { IfOk result (λ children. children.items ≡ others (record_of self.now)) }
    {
        match self {
            Form::Versions(_, _, later) => just_children(alloc, later),
            Form::Texts(_, _, later) => just_children(alloc, later),
            Form::Flagged(_, _, unset) => just(alloc, *unset),
        }
    }

    /// Returns the variable with another child for each of its children, in order; equal neighbours are
    /// joined.
    ///
    /// # Errors
    ///
    /// `AllocError` when memory runs out.
    pub fn joined<D: Copy + PartialEq>(
        &self,
        alloc: Global,
        first: D,
        others: &[D],
    ) -> Result<Form<D>, AllocError>
        ensures { IfOk result (λ form.
            record_of form ≡ node_joined D.eq (record_of self.now) first others.now) }
    {
        Ok(match self {
            Form::Versions(key, _, later) => Form::Versions(
                *key,
                first,
                joined(alloc, first, later, others)?,
            ),
            Form::Texts(key, _, later) => Form::Texts(
                *key,
                first,
                joined(alloc, first, later, others)?,
            ),
            Form::Flagged(flag, _, _) => Form::Flagged(
                flag.try_clone(alloc)?,
                first,
                first_or(others, first),
            ),
        })
    }

    /// Returns this variable with another child for each of its children, as `joined` does, and copies no
    /// boundary.
    ///
    /// # Errors
    ///
    /// `AllocError` when memory runs out.
    pub fn rejoined<D: Copy + PartialEq>(
        self,
        alloc: Global,
        first: D,
        others: &[D],
    ) -> Result<Form<D>, AllocError>
        ensures { IfOk result (λ form.
            record_of form ≡ node_joined D.eq (record_of self) first others.now) }
    {
        Ok(match self {
            Form::Versions(key, _, later) => {
                Form::Versions(key, first, rejoined(alloc, first, later, others)?)
            }
            Form::Texts(key, _, later) => {
                Form::Texts(key, first, rejoined(alloc, first, later, others)?)
            }
            Form::Flagged(flag, _, _) => Form::Flagged(flag, first, first_or(others, first)),
        })
    }

    /// Returns the child of a flag where it isn't set; else the first child.
    pub fn second(&self) -> C
        ensures { result ≡ second_child (record_of self.now) }
    {
        match self {
            Form::Versions(_, first, _) => *first,
            Form::Texts(_, first, _) => *first,
            Form::Flagged(_, _, unset) => *unset,
        }
    }

    /// Returns the branches between versions, if the variable is a version.
    pub fn versions(&self) -> &[Branch<Version, C>]
        ensures { result.now ≡ version_branches (record_of self.now) }
    {
        match self {
            Form::Versions(_, _, later) => later,
            _ => &[],
        }
    }

    /// Returns the branches between texts, if the variable is a text.
    pub fn texts(&self) -> &[Branch<MarkerText, C>]
        ensures { result.now ≡ text_branches (record_of self.now) }
    {
        match self {
            Form::Texts(_, _, later) => later,
            _ => &[],
        }
    }

    /// Returns whether there is just one child.
    pub fn is_alone(&self) -> bool
        ensures { IsTrue result → IsSingle (record_of self.now) }
    {
        match self {
            Form::Versions(_, _, later) => later.is_empty(),
            Form::Texts(_, _, later) => later.is_empty(),
            Form::Flagged(_, _, _) => false,
        }
    }

    /// Returns the rank of the variable's kind and key in the order of variables.
    fn rank(&self) -> u8
        ensures { result ≡ node_rank (record_of self.now) }
    {
        match self {
            Form::Versions(VersionVariable::ImplementationVersion, _, _) => 0,
            Form::Versions(VersionVariable::PythonFullVersion, _, _) => 1,
            Form::Texts(key, _, _) => text_rank(*key),
            Form::Flagged(flag, _, _) => flag.rank(),
        }
    }

    /// Returns the text of the variable, if it is a flag.
    fn text(&self) -> &str
        ensures { result.now ≡ node_text (record_of self.now) }
    {
        match self {
            Form::Flagged(flag, _, _) => flag.text(),
            _ => "",
        }
    }

    /// Compares the variables.
    pub fn cmp_variable(&self, other: &Form<C>) -> Ordering
        ensures { result ≡ text_cmp (node_place (record_of self.now)) (node_place (record_of other.now)) }
    {
        self.rank()
            .cmp(&other.rank())
            .then(self.text().cmp(other.text()))
    }
}
