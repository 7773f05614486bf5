//! Trees that calls make of two markers, or besides them.

ghost use Rattle.std.specs.Prelude.{IfOk};
ghost use Rattle.pep508_expression.specs.Trees.{IsComparison};
ghost use Rattle.pep508_marker.specs.Expression.{expression_of};
ghost use Rattle.pep508_tree.specs.Meaning.{IsTree, Extends};

use crate::reading::{read, refused};
use crate::simplified::{bound, made_within};
use crate::stop::{Stop, stop_behind};
use pep440_range::RangeError;
use pep508_comparison_parser::parse_expression;
use pep508_expression::MarkerTreeExpression;
use pep508_marker::{MarkerExpression, MarkerOperator, MarkerValueString};
use pep508_name::{ExtraName, InvalidNameError};
use pep508_simplification::MarkerTreeSimplification;
use pep508_tree::{Interner, MarkerTree};
use pep508_tree_laws::earlier_trees_keep;
use std::alloc::{AllocError, Global};

/// Two markers, and what is made: `and`, `or`, `forgotten`, which is `and` once more after the first one was
/// forgotten, `expression`, of a comparison, or of the left marker `simplified` or `complexified`, by two
/// bounds, `present` or `present by closure`, by an extra; or a marker that is read.
#[derive(Drop)]
pub struct Call<'a> {
    pub left: &'a str,
    pub right: &'a str,
    pub made: &'a str,
    /// The comparison, the extra or the lower bound.
    pub given: &'a str,
    /// The upper bound.
    pub upper: &'a str,
}

/// Returns the tree that a call makes.
pub fn made(
    alloc: Global,
    answer: &mut String,
    interner: &mut Interner,
    call: &Call,
    left: MarkerTree,
    right: MarkerTree,
) -> Result<MarkerTree, Stop>
    requires left { IsTree interner.old.nodes left }
    requires right { IsTree interner.old.nodes right }
    ensures made { IfOk result (IsTree interner.new.nodes) }
    ensures keeps { Extends interner.old.nodes interner.new.nodes }
{
    match call.made {
        "and" | "or" | "forgotten" => joined(alloc, interner, call.made, left, right),
        "expression" => compared(alloc, answer, interner, call.given),
        "simplified" | "complexified" => within(alloc, answer, interner, call, left),
        "present" | "present by closure" => with_extra(alloc, answer, interner, call, left),
        text => read(alloc, answer, interner, text),
    }
}

fn joined(
    alloc: Global,
    interner: &mut Interner,
    call: &str,
    left: MarkerTree,
    right: MarkerTree,
) -> Result<MarkerTree, Stop>
    requires left { IsTree interner.old.nodes left }
    requires right { IsTree interner.old.nodes right }
    ensures made { IfOk result (IsTree interner.new.nodes) }
    ensures keeps { Extends interner.old.nodes interner.new.nodes }
{
    let tree = match call {
        "and" => left.and(alloc, interner, right),
        "or" => left.or(alloc, interner, right),
        _ => and_forgotten(alloc, interner, left, right),
    };
    match tree {
        Ok(tree) => Ok(tree),
        Err(_) => Err(Stop::Memory),
    }
}

/// Returns the conjunction of the trees in their other order, after it was made and forgotten.
fn and_forgotten(
    alloc: Global,
    interner: &mut Interner,
    left: MarkerTree,
    right: MarkerTree,
) -> Result<MarkerTree, AllocError>
    requires left { IsTree interner.old.nodes left }
    requires right { IsTree interner.old.nodes right }
    ensures made { IfOk result (IsTree interner.new.nodes) }
    ensures keeps { Extends interner.old.nodes interner.new.nodes }
{
    earlier_trees_keep();
    left.and(alloc, interner, right)?;
    interner.forget_conjunctions();
    right.and(alloc, interner, left)
}

/// Returns the tree of a comparison, which has to be one.
fn compared(
    alloc: Global,
    answer: &mut String,
    interner: &mut Interner,
    text: &str,
) -> Result<MarkerTree, Stop>
    ensures made { IfOk result (IsTree interner.new.nodes) }
    ensures keeps { Extends interner.old.nodes interner.new.nodes }
{
    match parse_expression(alloc, text) {
        Ok(Some(expression)) => tree_of(alloc, answer, interner, expression),
        Ok(None) => Err(stop_behind(answer.push_str("left out"))),
        Err(error) => Err(refused(answer, &error)),
    }
}

fn tree_of(
    alloc: Global,
    answer: &mut String,
    interner: &mut Interner,
    expression: MarkerExpression,
) -> Result<MarkerTree, Stop>
    ensures made { IfOk result (IsTree interner.new.nodes) }
    ensures keeps { Extends interner.old.nodes interner.new.nodes }
{
    match expression {
        MarkerExpression::Version { key, specifier } => {
            let expression = MarkerExpression::Version { key, specifier };
            comparison_tree(alloc, answer, interner, expression)
        }
        MarkerExpression::VersionIn {
            key,
            versions,
            negated,
        } => {
            let expression = MarkerExpression::VersionIn {
                key,
                versions,
                negated,
            };
            comparison_tree(alloc, answer, interner, expression)
        }
        MarkerExpression::String {
            key,
            operator,
            value,
        } => text_tree(alloc, answer, interner, key, operator, value),
        MarkerExpression::Extra { operator, name } => {
            let expression = MarkerExpression::Extra { operator, name };
            comparison_tree(alloc, answer, interner, expression)
        }
    }
}

fn text_tree(
    alloc: Global,
    answer: &mut String,
    interner: &mut Interner,
    key: MarkerValueString,
    operator: MarkerOperator,
    value: String,
) -> Result<MarkerTree, Stop>
    ensures made { IfOk result (IsTree interner.new.nodes) }
    ensures keeps { Extends interner.old.nodes interner.new.nodes }
{
    if operator == MarkerOperator::TildeEqual {
        return Err(stop_behind(answer.push_str("no comparison")));
    }
    let expression = MarkerExpression::String {
        key,
        operator,
        value,
    };
    comparison_tree(alloc, answer, interner, expression)
}

fn comparison_tree(
    alloc: Global,
    answer: &mut String,
    interner: &mut Interner,
    expression: MarkerExpression,
) -> Result<MarkerTree, Stop>
    requires { IsComparison (expression_of expression) }
    ensures made { IfOk result (IsTree interner.new.nodes) }
    ensures keeps { Extends interner.old.nodes interner.new.nodes }
{
    match MarkerTree::expression(alloc, interner, expression) {
        Ok(tree) => Ok(tree),
        Err(RangeError::Memory) => Err(Stop::Memory),
        Err(RangeError::NumberAtEnd) => Err(stop_behind(answer.push_str("number at end"))),
    }
}

/// Returns a tree, simplified to a range of versions of Python or restricted to one.
fn within(
    alloc: Global,
    answer: &mut String,
    interner: &mut Interner,
    call: &Call,
    tree: MarkerTree,
) -> Result<MarkerTree, Stop>
    requires { IsTree interner.old.nodes tree }
    ensures made { IfOk result (IsTree interner.new.nodes) }
    ensures keeps { Extends interner.old.nodes interner.new.nodes }
{
    let lower = bound(alloc, answer, call.given)?;
    let upper = bound(alloc, answer, call.upper)?;
    match made_within(alloc, interner, call.made, tree, &lower, &upper) {
        Ok(tree) => Ok(tree),
        Err(_) => Err(Stop::Memory),
    }
}

/// Returns a tree where an extra is assumed to be present.
fn with_extra(
    alloc: Global,
    answer: &mut String,
    interner: &mut Interner,
    call: &Call,
    tree: MarkerTree,
) -> Result<MarkerTree, Stop>
    requires { IsTree interner.old.nodes tree }
    ensures made { IfOk result (IsTree interner.new.nodes) }
    ensures keeps { Extends interner.old.nodes interner.new.nodes }
{
    let extras = [extra(alloc, answer, call.given)?];
    match with_extras(alloc, interner, call.made, tree, &extras) {
        Ok(tree) => Ok(tree),
        Err(_) => Err(Stop::Memory),
    }
}

/// Returns the extra of a name, which has to be one.
fn extra(alloc: Global, answer: &mut String, name: &str) -> Result<ExtraName, Stop> {
    match ExtraName::from_str(alloc, name) {
        Ok(extra) => Ok(extra),
        Err(InvalidNameError::Memory) => Err(Stop::Memory),
        Err(InvalidNameError::InvalidName(_)) => Err(stop_behind(answer.push_str("no name"))),
    }
}

fn with_extras(
    alloc: Global,
    interner: &mut Interner,
    call: &str,
    tree: MarkerTree,
    extras: &[ExtraName],
) -> Result<MarkerTree, AllocError>
    requires { IsTree interner.old.nodes tree }
    ensures made { IfOk result (IsTree interner.new.nodes) }
    ensures keeps { Extends interner.old.nodes interner.new.nodes }
{
    if call == "present" {
        tree.simplify_extras(alloc, interner, extras)
    } else {
        tree.simplify_extras_with(alloc, interner, |name| extras.contains(name))
    }
}
