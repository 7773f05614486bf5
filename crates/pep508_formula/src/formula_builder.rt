//! Building formulas, in which `and` binds before `or`.
//!
//! What was read before an `and` or `or` is known by two flags for each open bracket
//! (`specs/Building.antt`).

ghost use Rattle.std.specs.Prelude.{◌≡◌, [], ◌∷◌, List, Some, None, OnOk, true};
ghost use Rattle.pep508_marker.specs.Expression.{expression_of};
ghost use Rattle.pep508_formula.specs.Formula.{Says, LeftOut, Both, Either};
ghost use Rattle.pep508_formula.specs.Postfix.{formula_of};
ghost use Rattle.pep508_formula.specs.Building.{Begun, Said, nothing, whole_of, join_on, Stands};

use crate::MarkerFormula;
use pep508_marker::MarkerExpression;
use std::alloc::{AllocError, Global};

/// The state of a formula that is being read: whether a chain of `and` has ended, and whether one has
/// begun.
#[derive(Clone, Copy, Drop)]
pub(crate) struct Level {
    pub either: bool,
    pub both: bool,
}

/// A formula that is being read: its parts so far, and the formulas around its open brackets.
#[derive(Drop)]
pub struct FormulaBuilder {
    pub(crate) formula: MarkerFormula,
    pub(crate) waiting: Vec<Level>,
    pub(crate) here: Level,
}

impl FormulaBuilder {
    /// Returns a builder of no parts.
    pub fn new(alloc: Global) -> FormulaBuilder
        ensures { Stands result None nothing [] }
    {
        FormulaBuilder {
            formula: MarkerFormula::new(alloc),
            waiting: Vec::new(alloc),
            here: Level {
                either: false,
                both: false,
            },
        }
    }

    /// Adds a comparison as the next piece.
    ///
    /// # Errors
    ///
    /// `AllocError` when memory runs out.
    pub fn say(&mut self, alloc: Global, expression: MarkerExpression) -> Result<(), AllocError>
        ensures { OnOk result ((begun : Begun) (waiting : List Begun) → Stands self.old None begun waiting →
            Stands self.new (Some (Says (expression_of expression))) begun waiting) }
    {
        self.formula.say(alloc, expression)
    }

    /// Adds that the next piece is left out.
    ///
    /// # Errors
    ///
    /// `AllocError` when memory runs out.
    pub fn leave_out(&mut self) -> Result<(), AllocError>
        ensures { OnOk result ((begun : Begun) (waiting : List Begun) → Stands self.old None begun waiting →
            Stands self.new (Some LeftOut) begun waiting) }
    {
        self.formula.leave_out()
    }

    /// Opens a bracket: a formula begins, and the one around it waits.
    ///
    /// # Errors
    ///
    /// `AllocError` when memory runs out.
    pub fn open(&mut self) -> Result<(), AllocError>
        ensures { OnOk result ((begun : Begun) (waiting : List Begun) → Stands self.old None begun waiting →
            Stands self.new None nothing (begun ∷ waiting)) }
    {
        self.waiting.push(self.here)?;
        self.here = Level {
            either: false,
            both: false,
        };
        Ok(())
    }

    /// Appends the piece to the chain of `and`.
    ///
    /// # Errors
    ///
    /// `AllocError` when memory runs out.
    pub fn take(&mut self) -> Result<(), AllocError>
        ensures { OnOk result ((piece : Said) (begun : Begun) (waiting : List Begun) →
            Stands self.old (Some piece) begun waiting →
            Stands self.new None (record begun { both = Some (join_on Both begun.both piece) }) waiting) }
    {
        if self.here.both {
            self.formula.and()?;
        }
        self.here.both = true;
        Ok(())
    }

    /// Ends the chain of `and`, and appends it to that of `or`.
    ///
    /// # Errors
    ///
    /// `AllocError` when memory runs out.
    pub fn end_chain(&mut self) -> Result<(), AllocError>
        ensures { OnOk result ((chain : Said) (begun : Begun) (waiting : List Begun) →
            Stands self.old None (record begun { both = Some chain }) waiting →
            Stands self.new None (whole_of (join_on Either begun.either chain)) waiting) }
    {
        if self.here.either {
            self.formula.or()?;
        }
        self.here = Level {
            either: true,
            both: false,
        };
        Ok(())
    }

    /// Closes a bracket: its formula is the next piece of the one around it. Returns false, and does
    /// nothing, where no bracket is open.
    pub fn close(&mut self) -> bool
        ensures { (whole : Said) (begun : Begun) (waiting : List Begun) →
            Stands self.old None (whole_of whole) (begun ∷ waiting) →
            (result ≡ true) × Stands self.new (Some whole) begun waiting }
    {
        match self.waiting.pop() {
            Some(level) => {
                self.here = level;
                true
            }
            None => false,
        }
    }

    /// Returns the formula.
    pub fn finish(self) -> MarkerFormula
        ensures { (whole : Said) → Stands self None (whole_of whole) [] →
            formula_of result ≡ whole }
    {
        self.formula
    }
}
