//! Requirements whose markers are kept as they were read.

ghost use Rattle.std.specs.Prelude.{◌≡◌, IfOk, None};
ghost use Rattle.pep508_evaluation.specs.Valuations.{valuation_of};
ghost use Rattle.pep508_expression.specs.Expressions.{expression_holds};
ghost use Rattle.pep508_formula.specs.Formula.{formula_holds};
ghost use Rattle.pep508_formula.specs.Postfix.{formula_of};
ghost use Rattle.pep508_marker_parser.specs.MarkerOutcome.{IsTreeOf};
ghost use Rattle.pep508_tree.specs.Meaning.{Extends};

use crate::{Requirement, VersionOrUrl};
use pep508_environment::MarkerEnvironment;
use pep508_formula::MarkerFormula;
use pep508_formula_truth::holds_in;
use pep508_marker_parser::tree_of;
use pep508_name::{ExtraName, PackageName};
use pep508_tree::Interner;
use pep508_url::{Pep508Url, VerbatimUrl};
use std::alloc::{AllocError, Global};

/// A requirement as it is read: its marker is a formula, of which no tree is made yet (PEP 508).
#[derive(Drop)]
pub struct MarkedRequirement<T: Pep508Url = VerbatimUrl> {
    pub name: PackageName,
    /// In the order given.
    pub extras: Vec<ExtraName>,
    /// `None` where any version is accepted.
    pub version_or_url: Option<VersionOrUrl<T>>,
    /// Without comparisons where there is no marker.
    pub formula: MarkerFormula,
}

impl<T: Pep508Url> MarkedRequirement<T> {
    /// Returns whether the requirement applies to an environment with extras, by its marker. Makes no tree;
    /// costs what `holds_in` does, and may run out of memory as that does.
    ///
    /// # Errors
    ///
    /// `AllocError` when memory runs out.
    pub fn evaluate_markers(
        &self,
        alloc: Global,
        environment: &MarkerEnvironment,
        extras: &[ExtraName],
    ) -> Result<bool, AllocError>
        ensures { IfOk result (λ answer. answer ≡ formula_holds
            (λ e. expression_holds e (valuation_of environment.now extras.now))
            (formula_of self.now.formula)) }
    {
        holds_in(alloc, &self.formula, environment, extras)
    }

    /// Returns the requirement with a tree of the interner as its marker. The only error is lack of memory,
    /// and earlier trees keep their meaning, also after an error. Costs what `tree_of` does.
    ///
    /// # Errors
    ///
    /// `AllocError` when memory runs out.
    pub fn with_tree(
        self,
        alloc: Global,
        interner: &mut Interner,
    ) -> Result<Requirement<T>, AllocError>
        ensures tree { IfOk result (λ made.
            IsTreeOf interner.new.nodes made.marker (formula_of self.formula)) }
        ensures same { IfOk result (λ made. made ≡ record {
          name = self.name;
          extras = self.extras;
          version_or_url = self.version_or_url;
          marker = made.marker;
          origin = None;
        }) }
        ensures keeps { Extends interner.old.nodes interner.new.nodes }
        ensures counts { interner.new.conjunctions ≡ interner.old.conjunctions }
    {
        let marker = tree_of(alloc, interner, &self.formula)?;
        Ok(Requirement {
            name: self.name,
            extras: self.extras,
            version_or_url: self.version_or_url,
            marker,
            origin: None,
        })
    }
}
