//! Trees of comparisons.
//!
//! The calls are a trait, as methods on a type of another crate have to be. Its ghost member says what may
//! be returned, and the impl's member is the relation `GivesTree` itself, so a caller sees what a method of
//! its own would say.

ghost use Rattle.std.specs.Prelude.{◌≡◌, List, Result, Ok, IfOk};
ghost use Rattle.pep440_range.specs.declared.RangeError.{RangeError};
ghost use Rattle.pep508_marker.specs.Expression.{ExpressionRecord, expression_of};
ghost use Rattle.pep508_tree.specs.Meaning.{NodeRecord, Extends};
ghost use Rattle.pep508_tree.specs.Truths.{IsTreeOf};
ghost use Rattle.pep508_expression.specs.Expressions.{expression_holds, text_holds};
ghost use Rattle.pep508_expression.specs.Trees.{IsComparison, GivesTree};

use crate::text_trees::{extra_tree, text_tree};
use crate::version_trees::{listed_tree, version_tree};
use pep440_range::RangeError;
use pep508_marker::{MarkerExpression, MarkerOperator, MarkerValueString};
use pep508_tree::{Interner, MarkerTree};
use std::alloc::{AllocError, Global};

/// Making trees of comparisons.
pub trait MarkerTreeExpression {
    /// This may be returned for a comparison, by an interner that has these nodes afterwards.
    ghost gives: { List NodeRecord → Result Self RangeError → ExpressionRecord → Type 0 };

    /// Returns the tree of a comparison (PEP 508, "Environment Markers"), which isn't counted. Earlier
    /// trees keep their meaning, also after an error. Texts are compared by their bytes; `~=` of texts is
    /// not allowed.
    ///
    /// n listed versions take O(n log n) comparisons of versions, any other comparison a fixed number of
    /// passes over it.
    ///
    /// # Errors
    /// `NumberAtEnd` where a number that has to be raised is the greatest of 64 bits; `Memory` where memory
    /// ran out.
    fn expression(
        alloc: Global,
        interner: &mut Interner,
        expression: MarkerExpression,
    ) -> Result<Self, RangeError>
        requires { IsComparison (expression_of expression) }
        ensures answers { gives interner.new.nodes result (expression_of expression) }
        ensures keeps { Extends interner.old.nodes interner.new.nodes }
        ensures counts { interner.new.conjunctions ≡ interner.old.conjunctions };
}

#[tactic(auto, unfolding(crate::specs::Expressions::has_points, crate::specs::Expressions::expression_holds))]
impl MarkerTreeExpression for MarkerTree {
    ghost gives = { GivesTree };

    fn expression(
        alloc: Global,
        interner: &mut Interner,
        expression: MarkerExpression,
    ) -> Result<MarkerTree, RangeError> {
        match expression {
            MarkerExpression::Version { key, specifier } => {
                version_tree(alloc, interner, key, &specifier)
            }
            MarkerExpression::VersionIn {
                key,
                versions,
                negated,
            } => listed_tree(alloc, interner, key, &versions, negated),
            MarkerExpression::String {
                key,
                operator,
                value,
            } => Ok(text_tree(alloc, interner, key, operator, &value)?),
            MarkerExpression::Extra { operator, name } => {
                Ok(extra_tree(alloc, interner, operator, &name)?)
            }
        }
    }
}

/// Returns the tree that was made; the one that never holds where there is none since a number can't be
/// raised.
fn or_never(made: Result<MarkerTree, RangeError>) -> Result<MarkerTree, AllocError>
    ensures { (nodes : List NodeRecord) (expression : ExpressionRecord) → GivesTree nodes made expression
        → IfOk result (IsTreeOf nodes (expression_holds expression)) }
{
    match made {
        Ok(tree) => Ok(tree),
        Err(RangeError::NumberAtEnd) => Ok(MarkerTree::FALSE),
        Err(RangeError::Memory) => Err(AllocError),
    }
}

/// Returns the tree of a key and a text; the one that never holds for `~=`, which doesn't compare texts.
fn any_text_tree(
    alloc: Global,
    interner: &mut Interner,
    key: MarkerValueString,
    operator: MarkerOperator,
    value: &str,
) -> Result<MarkerTree, AllocError>
    ensures made { IfOk result (IsTreeOf interner.new.nodes (text_holds key operator value.now)) }
    ensures keeps { Extends interner.old.nodes interner.new.nodes }
    ensures counts { interner.new.conjunctions ≡ interner.old.conjunctions }
{
    match operator {
        MarkerOperator::TildeEqual => Ok(MarkerTree::FALSE),
        _ => text_tree(alloc, interner, key, operator, value),
    }
}

/// Returns the tree that holds where any comparison does: nowhere where a number that has to be raised is
/// the greatest of 64 bits, or where texts are compared by `~=`. It isn't counted, and costs what
/// `MarkerTreeExpression::expression` does; earlier trees keep their meaning, also after an error.
///
/// # Errors
///
/// `AllocError` when memory runs out.
#[tactic(auto, unfolding(crate::specs::Expressions::expression_holds))]
pub fn comparison_tree(
    alloc: Global,
    interner: &mut Interner,
    expression: &MarkerExpression,
) -> Result<MarkerTree, AllocError>
    ensures made { IfOk result (IsTreeOf interner.new.nodes
        (expression_holds (expression_of expression.now))) }
    ensures keeps { Extends interner.old.nodes interner.new.nodes }
    ensures counts { interner.new.conjunctions ≡ interner.old.conjunctions }
{
    match expression {
        MarkerExpression::Version { key, specifier } => {
            or_never(version_tree(alloc, interner, *key, specifier))
        }
        MarkerExpression::VersionIn {
            key,
            versions,
            negated,
        } => or_never(listed_tree(alloc, interner, *key, versions, *negated)),
        MarkerExpression::String {
            key,
            operator,
            value,
        } => any_text_tree(alloc, interner, *key, *operator, value),
        MarkerExpression::Extra { operator, name } => {
            extra_tree(alloc, interner, *operator, name)
        }
    }
}
