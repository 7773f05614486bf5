//! Whether formulas hold in an environment with extras.

ghost use Rattle.std.specs.Prelude.{◌≡◌, IfOk};
ghost use Rattle.pep508_formula.specs.Formula.{formula_holds};
ghost use Rattle.pep508_formula.specs.Postfix.{formula_of};
ghost use Rattle.pep508_expression.specs.Expressions.{expression_holds};
ghost use Rattle.pep508_evaluation.specs.Valuations.{valuation_of, variable_in};
ghost use Rattle.pep508_expression.specs.Expressions.{variable_of};

use crate::comparisons::{extra_holds, listed_holds, text_holds, version_holds};
use pep440_version::Version;
use pep508_environment::MarkerEnvironment;
use pep508_formula::{ExpressionTruth, MarkerFormula, formula_holds};
use pep508_marker::{MarkerExpression, MarkerValueVersion};
use pep508_name::ExtraName;
use std::alloc::{AllocError, Global};

/// An environment with extras, as the truth of comparisons.
#[derive(Clone, Copy)]
pub struct InEnvironment<'a> {
    pub environment: &'a MarkerEnvironment,
    pub extras: &'a [ExtraName],
}

/// Returns the version that a key compares; that of `python_version` is read off `python_full_version`.
fn version_of(environment: &MarkerEnvironment, key: MarkerValueVersion) -> &Version
    ensures { result.now ≡ variable_in environment.now (variable_of key) }
{
    match key {
        MarkerValueVersion::ImplementationVersion => &environment.implementation_version().version,
        MarkerValueVersion::PythonFullVersion | MarkerValueVersion::PythonVersion => {
            &environment.python_full_version().version
        }
    }
}

impl<'a> ExpressionTruth for InEnvironment<'a> {
    ghost use Rattle.pep508_expression.specs.Expressions.{expression_holds};
    ghost use Rattle.pep508_evaluation.specs.Valuations.{valuation_of};

    ghost truth = { λ at e. expression_holds e (valuation_of at.environment.now at.extras.now) };

    #[tactic(auto, unfolding(pep508_expression::specs::Expressions::expression_holds))]
    fn holds(&self, alloc: Global, expression: &MarkerExpression) -> Result<bool, AllocError> {
        match expression {
            MarkerExpression::Version { key, specifier } => {
                let version = version_of(self.environment, *key);
                version_holds(alloc, *key, specifier, version)
            }
            MarkerExpression::VersionIn {
                key,
                versions,
                negated,
            } => {
                let version = version_of(self.environment, *key);
                listed_holds(alloc, *key, versions, *negated, version)
            }
            MarkerExpression::String {
                key,
                operator,
                value,
            } => Ok(text_holds(self.environment, *key, *operator, value)),
            MarkerExpression::Extra { operator, name } => {
                Ok(extra_holds(self.extras, *operator, name))
            }
        }
    }
}

/// Returns whether a marker's formula holds in an environment with extras (PEP 508, "Environment Markers").
///
/// Each comparison is evaluated once; one with n versions takes O(n log n) comparisons of versions, and one
/// of an extra goes through the extras. Takes memory for the range of one comparison at a time, and two
/// bytes for each formula that is begun and not yet joined with another; no stack.
///
/// # Errors
///
/// `AllocError` when memory runs out.
pub fn holds_in(
    alloc: Global,
    formula: &MarkerFormula,
    environment: &MarkerEnvironment,
    extras: &[ExtraName],
) -> Result<bool, AllocError>
    ensures { IfOk result (λ answer. answer ≡ formula_holds
        (λ e. expression_holds e (valuation_of environment.now extras.now)) (formula_of formula.now)) }
{
    formula_holds(
        alloc,
        &InEnvironment {
            environment,
            extras,
        },
        formula,
    )
}
