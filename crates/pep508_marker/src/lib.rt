//! The parts of markers of Python packages, as PEP 508 has them: keys, operators, comparisons, and warnings
//! with their reporters.
#![tactic(auto)]

mod expression;
mod expression_print;
mod keys;
pub mod laws;
mod operators;
mod reporters;
mod values;
mod warnings;
mod written;

pub use expression::MarkerExpression;
pub use keys::{MarkerValueString, MarkerValueVersion};
pub use operators::{ExtraOperator, MarkerOperator, MarkerTextError};
pub use reporters::ClosureReporter;
pub use values::{MarkerValue, MarkerValueExtra};
pub use warnings::{MarkerWarningKind, Reporter, Silent};
