//! Evaluating requirements for environments and extras.

ghost use Rattle.std.specs.Prelude.{◌≡◌, ◌↔◌, IsTrue, IfOk, IfErr, map, option_copied, None};
ghost use Rattle.pep508_tree.specs.Meaning.{IsTree, holds, diagram_of};
ghost use Rattle.pep508_evaluation.specs.Valuations.{valuation_of, CanHold, AnswersIn};
ghost use Rattle.pep508_evaluation.specs.Warned.{warned};

use crate::{Requirement, UnnamedRequirement};
use pep440_version::Version;
use pep508_environment::MarkerEnvironment;
use pep508_evaluation::MarkerTreeEvaluation;
use pep508_marker::MarkerWarningKind;
use pep508_name::ExtraName;
use pep508_tree::Interner;
use pep508_url::{Pep508Url, UnnamedRequirementUrl};
use std::alloc::{AllocError, Global};

impl<T: Pep508Url> Requirement<T> {
    /// Returns whether the requirement applies to an environment with extras, by its marker. Takes no
    /// memory, and costs what `MarkerTree::evaluate` does.
    pub fn evaluate_markers(
        &self,
        interner: &Interner,
        environment: &MarkerEnvironment,
        extras: &[ExtraName],
    ) -> bool
        requires { IsTree interner.now.nodes self.now.marker }
        ensures { result ≡ holds interner.now.nodes self.now.marker
            (valuation_of environment.now extras.now) }
    {
        self.marker.evaluate(interner, environment, extras)
    }

    /// Returns whether the requirement applies to some environment with just these extras; the versions are
    /// not looked at. Costs what `MarkerTree::evaluate_extras` does, and may run out of memory as that
    /// does.
    ///
    /// # Errors
    ///
    /// `AllocError` when memory runs out.
    pub fn evaluate_extras_and_python_version(
        &self,
        alloc: Global,
        interner: &Interner,
        extras: &[ExtraName],
        python_versions: &[Version],
    ) -> Result<bool, AllocError>
        requires { IsTree interner.now.nodes self.now.marker }
        ensures { IfOk result (λ yes.
            IsTrue yes ↔ CanHold interner.now.nodes self.now.marker extras.now) }
    {
        self.marker
            .evaluate_extras_and_python_version(alloc, interner, extras, python_versions)
    }

    /// Returns `evaluate_markers`, and the warnings of the evaluation in their order. Takes memory for
    /// them, and costs what `MarkerTree::evaluate_collect_warnings` does.
    ///
    /// # Errors
    ///
    /// `AllocError` when memory runs out.
    pub fn evaluate_markers_and_report(
        &self,
        alloc: Global,
        interner: &Interner,
        environment: &MarkerEnvironment,
        extras: &[ExtraName],
    ) -> Result<(bool, Vec<(MarkerWarningKind, String)>), AllocError>
        requires { IsTree interner.now.nodes self.now.marker }
        ensures answer { IfOk result (λ told.
            told.0 ≡ holds interner.now.nodes self.now.marker (valuation_of environment.now extras.now)) }
        ensures kinds { IfOk result (λ told. map (λ warning. warning.0) told.1.items
            ≡ warned (valuation_of environment.now extras.now)
            (diagram_of interner.now.nodes self.now.marker)) }
    {
        self.marker
            .evaluate_collect_warnings(alloc, interner, environment, extras)
    }
}

impl<Url: UnnamedRequirementUrl> UnnamedRequirement<Url> {
    /// Returns whether the requirement applies to an environment with extras, by its marker. Takes no
    /// memory, and costs what `MarkerTree::evaluate` does.
    pub fn evaluate_markers(
        &self,
        interner: &Interner,
        environment: &MarkerEnvironment,
        extras: &[ExtraName],
    ) -> bool
        requires { IsTree interner.now.nodes self.now.marker }
        ensures { result ≡ holds interner.now.nodes self.now.marker
            (valuation_of environment.now extras.now) }
    {
        self.marker.evaluate(interner, environment, extras)
    }

    /// Returns `evaluate_markers` where there is an environment, and else whether the requirement applies
    /// to some environment with just these extras, for which alone it may run out of memory.
    ///
    /// # Errors
    ///
    /// `AllocError` when memory runs out.
    pub fn evaluate_optional_environment(
        &self,
        alloc: Global,
        interner: &Interner,
        environment: Option<&MarkerEnvironment>,
        extras: &[ExtraName],
    ) -> Result<bool, AllocError>
        requires { IsTree interner.now.nodes self.now.marker }
        ensures answer { IfOk result
            (AnswersIn interner.now.nodes self.now.marker (option_copied environment.entry) extras.now) }
        ensures grown { IfErr result (λ _. option_copied environment.entry ≡ None) }
    {
        self.marker
            .evaluate_optional_environment(alloc, interner, environment, extras)
    }
}
