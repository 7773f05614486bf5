//! Markers as formulas of comparisons (PEP 508, "Environment Markers").
//!
//! Markers are read as formulas, and trees are made of these: some short formulas have no small tree, since
//! a tree tests its variables in one order, and whether a formula holds can be found without one.
#![tactic(auto)]

mod formula;
mod formula_builder;
mod formula_parts;
pub mod laws;
mod truth;

pub use formula::MarkerFormula;
pub use formula_builder::FormulaBuilder;
pub use formula_parts::{FormulaPart, Parts};
pub use truth::{ExpressionTruth, formula_holds};
