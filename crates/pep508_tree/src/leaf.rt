//! Trees of one variable.
//!
//! Trees of one variable are made from truths: branches of truths become branches of constant trees, and
//! the node is stored as any other, so that all nodes are made in one place.

ghost use Rattle.std.specs.Prelude.{◌≡◌, IfOk, map};
ghost use Rattle.version_ranges.specs.Turns.{Rising};
ghost use Rattle.version_ranges.specs.Boundaries.{boundary_cmp};
ghost use Rattle.version_ranges.specs.Held.{holds_at};
ghost use Rattle.pep440_version.specs.Order.{version_cmp};
ghost use Rattle.pep508_diagram.specs.Text.{text_cmp};
ghost use Rattle.pep508_diagram.specs.Branches.{branch_at, by_turns};
ghost use Rattle.pep508_diagram.specs.Question.{Valuation};
ghost use Rattle.pep508_tree.specs.Tree.{constant};
ghost use Rattle.pep508_tree.specs.Leaves.{constant_branch, with_constants};
ghost use Rattle.pep508_tree.specs.Forms.{record_of};
ghost use Rattle.pep508_tree.specs.Meaning.{IsTree, Extends, holds};

use crate::interner::Interner;
use crate::node::Form;
use crate::tree::MarkerTree;
use pep440_version::Version;
use pep508_diagram::{Branch, Flag, MarkerText, VersionVariable, turned_branches};
use pep508_marker::MarkerValueString;
use std::alloc::{AllocError, Global};
use version_ranges::{Boundary, Ranges};

/// Returns the tree that always holds, or the one that never does.
fn constant(truth: bool) -> MarkerTree
    ensures { result ≡ constant truth }
{
    MarkerTree::at_place(0, !truth)
}

/// Returns the branches with constant trees in place of truths.
fn constant_branches<T: Drop>(
    alloc: Global,
    later: Vec<Branch<T, bool>>,
) -> Result<Vec<Branch<T, MarkerTree>>, AllocError>
    ensures { IfOk result (λ branches. branches.items ≡ map constant_branch later.items) }
{
    let mut branches = Vec::new(alloc);
    for branch in later {
        branches.push(Branch {
            boundary: branch.boundary,
            child: constant(branch.child),
        })?;
    }
    Ok(branches)
}

/// Returns the form with constant trees in place of truths.
pub(crate) fn with_constants(
    alloc: Global,
    form: Form<bool>,
) -> Result<Form<MarkerTree>, AllocError>
    ensures { IfOk result (λ trees. record_of trees ≡ with_constants (record_of form)) }
{
    Ok(match form {
        Form::Versions(key, first, later) => Form::Versions(
            key,
            constant(first),
            constant_branches(alloc, later)?,
        ),
        Form::Texts(key, first, later) => Form::Texts(
            key,
            constant(first),
            constant_branches(alloc, later)?,
        ),
        Form::Flagged(flag, set, unset) => Form::Flagged(flag, constant(set), constant(unset)),
    })
}

impl Interner {
    /// Returns the tree that holds where a key's version is in a set. The only error is lack of memory, and
    /// earlier trees keep their meaning, also after an error. Counts nothing.
    ///
    /// Copies each endpoint of the set, at the shortest spelling of its version.
    ///
    /// # Errors
    ///
    /// `AllocError` when memory runs out.
    pub fn versions_tree(
        &mut self,
        alloc: Global,
        key: VersionVariable,
        set: &Ranges<Version>,
    ) -> Result<MarkerTree, AllocError>
        ensures made { IfOk result (λ tree. IsTree self.new.nodes tree) }
        ensures truth { IfOk result (λ tree. (v : Valuation) →
            holds self.new.nodes tree v ≡ holds_at version_cmp set.now (v.version key)) }
        ensures keeps { Extends self.old.nodes self.new.nodes }
        ensures counts { self.new.conjunctions ≡ self.old.conjunctions }
    {
        let (starts_held, boundaries) = set.turns();
        let later = turned_branches(alloc, starts_held, boundaries)?;
        self.leaf(alloc, Form::Versions(key, starts_held, later))
    }

    /// Returns the tree that holds where a key's text is in the set that contains what is below all
    /// endpoints where `starts_held`, and at each of whose endpoints membership flips. Errors, cost and
    /// count are those of `versions_tree`.
    ///
    /// # Errors
    ///
    /// `AllocError` when memory runs out.
    pub fn texts_tree(
        &mut self,
        alloc: Global,
        key: MarkerValueString,
        starts_held: bool,
        boundaries: &[Boundary<MarkerText>],
    ) -> Result<MarkerTree, AllocError>
        requires { Rising (boundary_cmp text_cmp) boundaries.now }
        ensures made { IfOk result (λ tree. IsTree self.new.nodes tree) }
        ensures truth { IfOk result (λ tree. (v : Valuation) → holds self.new.nodes tree v
            ≡ branch_at text_cmp starts_held (by_turns starts_held boundaries.now) (v.text key)) }
        ensures keeps { Extends self.old.nodes self.new.nodes }
        ensures counts { self.new.conjunctions ≡ self.old.conjunctions }
    {
        let later = turned_branches(alloc, starts_held, boundaries)?;
        self.leaf(alloc, Form::Texts(key, starts_held, later))
    }

    /// Returns the tree that holds where a flag is set. Errors and count are those of `versions_tree`.
    ///
    /// # Errors
    ///
    /// `AllocError` when memory runs out.
    pub fn flag_tree(&mut self, alloc: Global, flag: Flag) -> Result<MarkerTree, AllocError>
        ensures made { IfOk result (λ tree. IsTree self.new.nodes tree) }
        ensures truth { IfOk result (λ tree. (v : Valuation) → holds self.new.nodes tree v ≡ v.flag flag) }
        ensures keeps { Extends self.old.nodes self.new.nodes }
        ensures counts { self.new.conjunctions ≡ self.old.conjunctions }
    {
        self.leaf(alloc, Form::Flagged(flag, true, false))
    }
}
