//! The clauses and the text of a marker tree, as a trait of trees.

ghost use Rattle.std.specs.Prelude.{◌≡◌, ◌≢◌, IfOk, IfErr, option_map};
ghost use Rattle.std.specs.String.{string_bytes};
ghost use Rattle.pep508_marker.specs.Expression.{expression_of};
ghost use Rattle.pep508_marker_display.specs.TopExtra.{extra_of_clauses, top_extra};
ghost use Rattle.pep508_clauses.specs.Terms.{clauses_shown};
ghost use Rattle.pep508_marker_text_laws.specs.MarkerText.{disjunction, marker_text};
ghost use Rattle.pep508_tree.specs.Meaning.{IsTree, diagram_of};
ghost use Rattle.pep508_tree.specs.Tree.{always};

use crate::clause_walk::clauses_of;
use crate::required_extra::common_extra;
use pep508_clauses::{clauses_text, simplified_clauses};
use pep508_marker::{ExtraOperator, MarkerExpression};
use pep508_tree::{Interner, MarkerTree};
use std::alloc::{AllocError, Global};

/// Returns the simplified clauses of a tree.
#[tactic(auto, using(crate::proofs::Constants::no_clauses))]
fn disjunction(
    alloc: Global,
    tree: MarkerTree,
    interner: &Interner,
) -> Result<Vec<Vec<MarkerExpression>>, AllocError>
    requires { IsTree interner.now.nodes tree }
    ensures clauses { IfOk result (λ clauses.
        clauses_shown clauses.items ≡ disjunction (diagram_of interner.now.nodes tree)) }
    ensures grown { IfErr result (λ error. tree ≢ always) }
{
    if tree.is_true() {
        return Ok(Vec::new(alloc));
    }
    let clauses = clauses_of(alloc, tree, interner)?;
    simplified_clauses(alloc, clauses)
}

/// Returns the comparison of the extra that all clauses require, in memory of its own.
fn extra_term(
    alloc: Global,
    clauses: &[Vec<MarkerExpression>],
) -> Result<Option<MarkerExpression>, AllocError>
    ensures { IfOk result (λ extra.
        option_map expression_of extra ≡ extra_of_clauses (clauses_shown clauses.now)) }
{
    match common_extra(clauses) {
        None => Ok(None),
        Some(extra) => Ok(Some(MarkerExpression::Extra {
            operator: ExtraOperator::Equal,
            name: extra.try_clone(alloc)?,
        })),
    }
}

/// Trees that have a text.
pub trait MarkerTreeText {
    ghost use Rattle.pep508_tree.specs.Tree.{Tree};

    /// The tree that a value is.
    ghost named: { Self → Tree };

    /// Returns the simplified clauses of the tree: the tree holds where one of them does, and each is in
    /// the order of the variables. There are none where the tree always holds or never.
    ///
    /// Walks each path from the root to where the tree holds, and copies a comparison once for each clause
    /// that contains it. Of the subtrees between the endpoints of one key, and of the clauses where they
    /// are simplified, each is compared with each other one at most. No recursion, however deep the tree
    /// is.
    fn to_dnf(
        self,
        alloc: Global,
        interner: &Interner,
    ) -> Result<Vec<Vec<MarkerExpression>>, AllocError>
        requires { IsTree interner.now.nodes (named self) }
        ensures clauses { IfOk result (λ clauses.
            clauses_shown clauses.items ≡ disjunction (diagram_of interner.now.nodes (named self))) }
        ensures grown { IfErr result (λ error. named self ≢ always) };

    /// Returns the text of the tree, as `python_full_version >= '3.8' and os_name == 'nt'`: its clauses
    /// with `or` between them. A tree that always holds has none; one that never does has a text that
    /// hardly any version meets. Costs are those of `to_dnf`, and the text.
    fn try_to_string(self, alloc: Global, interner: &Interner) -> Result<Option<String>, AllocError>
        requires { IsTree interner.now.nodes (named self) }
        ensures text { IfOk result (λ text. option_map string_bytes text
            ≡ marker_text (diagram_of interner.now.nodes (named self))) }
        ensures grown { IfErr result (λ error. named self ≢ always) };

    /// Returns the comparison `extra == '..'` that comes first among such ones in each clause of `to_dnf`,
    /// where each clause has one and all are of one extra; else `None`. Costs are those of `to_dnf`.
    fn top_level_extra(
        self,
        alloc: Global,
        interner: &Interner,
    ) -> Result<Option<MarkerExpression>, AllocError>
        requires { IsTree interner.now.nodes (named self) }
        ensures extra { IfOk result (λ extra. option_map expression_of extra
            ≡ top_extra (diagram_of interner.now.nodes (named self))) }
        ensures grown { IfErr result (λ error. named self ≢ always) };
}

impl MarkerTreeText for MarkerTree {
    ghost named = { λ tree. tree };

    fn to_dnf(
        self,
        alloc: Global,
        interner: &Interner,
    ) -> Result<Vec<Vec<MarkerExpression>>, AllocError> {
        disjunction(alloc, self, interner)
    }

    #[tactic(auto, using(crate::proofs::Constants::text_rules))]
    fn try_to_string(
        self,
        alloc: Global,
        interner: &Interner,
    ) -> Result<Option<String>, AllocError> {
        interner.are_sound();
        if self.is_true() {
            return Ok(None);
        }
        if self.is_false() {
            let text = String::from_str(alloc, "python_version < '0'")?;
            return Ok(Some(text));
        }
        let clauses = disjunction(alloc, self, interner)?;
        let text = clauses_text(alloc, &clauses)?;
        Ok(Some(text))
    }

    #[tactic(auto, using(crate::proofs::Constants::no_extra))]
    fn top_level_extra(
        self,
        alloc: Global,
        interner: &Interner,
    ) -> Result<Option<MarkerExpression>, AllocError> {
        if !self.is_true() {
            let clauses = disjunction(alloc, self, interner)?;
            return extra_term(alloc, &clauses);
        }
        Ok(None)
    }
}
