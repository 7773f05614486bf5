//! Formulas of comparisons in postfix order.
//!
//! A formula is a list in postfix order, one byte for each part, with the comparisons in a list of their
//! own. Its meaning is total: what is missing counts as left out, so that neither its truth nor its tree
//! has to ask whether a list is whole.

ghost use Rattle.std.specs.Prelude.{◌≡◌, [], ◌∷◌, ◌++◌, OnOk};
ghost use Rattle.pep508_marker.specs.Expression.{expression_of};
ghost use Rattle.pep508_formula.specs.Postfix.{Compared, Passed, ByAnd, ByOr, parts_in};

use crate::formula_parts::Parts;
use pep508_marker::MarkerExpression;
use std::alloc::{AllocError, Global};
use std::marker::Model;

/// One part of a formula in postfix order.
#[derive(Clone, Copy)]
pub(crate) enum Token {
    /// The next comparison.
    Says,
    /// A meaningless comparison, which is ignored.
    LeftOut,
    /// The last two formulas, joined by `and`.
    And,
    /// The last two formulas, joined by `or`.
    Or,
}

/// Comparisons, some of them left out, joined by `and` and `or`, in postfix order.
///
/// Takes a byte for each comparison, `and` and `or`, and besides what each comparison takes.
#[derive(Drop)]
pub struct MarkerFormula {
    pub(crate) tokens: Vec<Token>,
    pub(crate) said: Vec<Box<MarkerExpression>>,
}

impl Model for MarkerFormula {
    ghost use Rattle.std.specs.Prelude.{List, ◌≡◌, length};
    ghost use Rattle.pep508_marker.specs.Expression.{ExpressionRecord};
    ghost use Rattle.pep508_formula.specs.Postfix.{Part, said_of, parts_of, count_said};

    ghost Value = { List (Part ExpressionRecord) };

    ghost view = { λ f. parts_of f.tokens.items (said_of f.said.items) };

    ghost invariant = { λ f. count_said f.tokens.items ≡ length f.said.items };
}

impl MarkerFormula {
    /// Returns a formula of no parts yet.
    pub fn new(alloc: Global) -> MarkerFormula
        ensures { result ≡ [] }
    {
        MarkerFormula {
            tokens: Vec::new(alloc),
            said: Vec::new(alloc),
        }
    }

    /// Appends a comparison.
    ///
    /// # Errors
    ///
    /// `AllocError` when memory runs out.
    pub fn say(&mut self, alloc: Global, expression: MarkerExpression) -> Result<(), AllocError>
        ensures { OnOk result (self.new ≡ self.old ++ Compared (expression_of expression) ∷ []) }
    {
        let kept = Box::new(alloc, expression)?;
        self.tokens.reserve(1)?;
        self.said.push(kept)?;
        match self.tokens.push(Token::Says) {
            Ok(()) => Ok(()),
            Err(_) => unreachable!(),
        }
    }

    /// Appends a comparison that is left out.
    ///
    /// # Errors
    ///
    /// `AllocError` when memory runs out.
    pub fn leave_out(&mut self) -> Result<(), AllocError>
        ensures { OnOk result (self.new ≡ self.old ++ Passed ∷ []) }
    {
        self.tokens.push(Token::LeftOut)?;
        Ok(())
    }

    /// Joins the last two formulas by `and`.
    ///
    /// # Errors
    ///
    /// `AllocError` when memory runs out.
    pub fn and(&mut self) -> Result<(), AllocError>
        ensures { OnOk result (self.new ≡ self.old ++ ByAnd ∷ []) }
    {
        self.tokens.push(Token::And)?;
        Ok(())
    }

    /// Joins the last two formulas by `or`.
    ///
    /// # Errors
    ///
    /// `AllocError` when memory runs out.
    pub fn or(&mut self) -> Result<(), AllocError>
        ensures { OnOk result (self.new ≡ self.old ++ ByOr ∷ []) }
    {
        self.tokens.push(Token::Or)?;
        Ok(())
    }

    /// Returns the formula's parts, in postfix order.
    pub fn parts(&self) -> Parts<'_>
        ensures { parts_in result ≡ self.now }
    {
        Parts {
            tokens: &self.tokens,
            said: &self.said,
        }
    }
}
