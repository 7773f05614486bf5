//! Evaluating formulas.

ghost use Rattle.std.specs.Prelude.{◌≡◌, ◌∷◌, ◌&&◌, ◌||◌, Bool, None, IfOk, OnOk, reverse};
ghost use Rattle.pep508_marker.specs.Expression.{expression_of};
ghost use Rattle.pep508_formula.specs.Formula.{formula_holds, joined};
ghost use Rattle.pep508_formula.specs.Postfix.{last_or, rest_of, part_of, told_by, formula_of};

use crate::{FormulaPart, MarkerFormula};
use pep508_marker::MarkerExpression;
use std::alloc::{AllocError, Global};

/// The truth of each comparison.
pub trait ExpressionTruth {
    ghost use Rattle.std.specs.Prelude.{◌≡◌, Bool, IfOk};
    ghost use Rattle.pep508_marker.specs.Expression.{ExpressionRecord, expression_of};

    /// Whether a comparison holds.
    ghost truth: { Self → ExpressionRecord → Bool };

    /// Returns whether a comparison holds.
    fn holds(&self, alloc: Global, expression: &MarkerExpression) -> Result<bool, AllocError>
        ensures { IfOk result (λ answer. answer ≡ truth self.now (expression_of expression.now)) };
}

/// Joins two truths by `and`; one that is left out is ignored.
fn both(a: Option<bool>, b: Option<bool>) -> Option<bool>
    ensures { result ≡ joined (λ x y. x && y) a b }
{
    match a {
        None => b,
        Some(a) => match b {
            None => Some(a),
            Some(b) => Some(a && b),
        },
    }
}

/// Joins two truths by `or`; one that is left out is ignored.
fn either(a: Option<bool>, b: Option<bool>) -> Option<bool>
    ensures { result ≡ joined (λ x y. x || y) a b }
{
    match a {
        None => b,
        Some(a) => match b {
            None => Some(a),
            Some(b) => Some(a || b),
        },
    }
}

/// Removes and returns the truth on top; `None` where there is none.
fn taken(stack: &mut Vec<Option<bool>>) -> Option<bool>
    ensures top { result ≡ last_or None (reverse stack.old.items) }
    ensures rest { reverse stack.new.items ≡ rest_of (reverse stack.old.items) }
{
    match stack.pop() {
        None => None,
        Some(last) => last,
    }
}

/// Updates the stack of truths by one more part.
fn tell<T: ExpressionTruth>(
    alloc: Global,
    truths: &T,
    stack: &mut Vec<Option<bool>>,
    part: FormulaPart<'_>,
) -> Result<(), AllocError>
    ensures { OnOk result (reverse stack.new.items
        ≡ told_by (T.truth truths.now) (part_of part.entry) (reverse stack.old.items)) }
{
    let next = match part {
        FormulaPart::Says(expression) => Some(truths.holds(alloc, expression)?),
        FormulaPart::LeftOut => None,
        FormulaPart::And => {
            let b = taken(stack);
            let a = taken(stack);
            both(a, b)
        }
        FormulaPart::Or => {
            let b = taken(stack);
            let a = taken(stack);
            either(a, b)
        }
    };
    stack.push(next)?;
    Ok(())
}

/// Returns whether a formula holds. Evaluates each comparison once, in their order, and takes no stack: it
/// keeps two bytes for each formula that is begun and not yet joined with another.
///
/// # Errors
///
/// `AllocError` when memory runs out.
#[tactic(auto, using(crate::proofs::Building::formula_told))]
pub fn formula_holds<T: ExpressionTruth>(
    alloc: Global,
    truths: &T,
    formula: &MarkerFormula,
) -> Result<bool, AllocError>
    ensures { IfOk result (λ answer. answer ≡ formula_holds (T.truth truths.now) (formula_of formula.now)) }
{
    let mut stack = Vec::new(alloc);
    let mut left = formula.parts();
    while let Some((part, behind)) = left.split_first() {
        tell(alloc, truths, &mut stack, part)?;
        left = behind;
    }
    let whole = taken(&mut stack);
    Ok(whole.unwrap_or(true))
}
