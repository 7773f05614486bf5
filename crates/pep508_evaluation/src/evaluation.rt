//! The evaluation of marker trees, as a trait of trees.
//!
//! The calls are a trait whose ghost member sees the type as a tree. A borrowed node (`TreeNode`) is
//! matched where it is obtained and never passed on by reference: the borrow checker knows no module of the
//! stored children then.

ghost use Rattle.std.specs.Prelude.{◌≡◌, ◌↔◌, IsTrue, IfOk, IfErr, OnOk, map, option_copied, None};
ghost use Rattle.std.specs.List.{FoldsTo};
ghost use Rattle.pep508_tree.specs.Tree.{Tree};
ghost use Rattle.pep508_tree.specs.Meaning.{IsTree, holds, diagram_of};
ghost use Rattle.pep508_evaluation.specs.Valuations.{valuation_of, CanHold, AnswersIn};
ghost use Rattle.pep508_evaluation.specs.Warned.{warned, TakesKind};

use crate::chosen::evaluate;
use crate::holding::can_hold;
use crate::warned::{evaluate_collect_warnings, evaluate_reporter};
use pep440_version::Version;
use pep508_environment::MarkerEnvironment;
use pep508_marker::{MarkerWarningKind, Reporter};
use pep508_name::ExtraName;
use pep508_tree::{Interner, MarkerTree};
use std::alloc::{AllocError, Global};

/// The evaluation of a marker tree for environments and extras (PEP 508, "Environment Markers").
pub trait MarkerTreeEvaluation {
    ghost use Rattle.pep508_tree.specs.Tree.{Tree};

    /// The tree that a value is.
    ghost tree: { Self → Tree };

    /// Returns whether the tree holds in an environment with extras. Takes no memory. At each node on the
    /// way from the root it compares as many endpoints as the logarithm of their number, or looks through
    /// one text, or through the extras.
    ///
    /// Tests of `python_version` are made of `python_full_version`: the environment's `python_version` is
    /// not looked at.
    fn evaluate(
        self,
        interner: &Interner,
        environment: &MarkerEnvironment,
        extras: &[ExtraName],
    ) -> bool
        requires { IsTree interner.now.nodes (tree self) }
        ensures { result ≡ holds interner.now.nodes (tree self) (valuation_of environment.now extras.now) };

    /// Returns `evaluate` where there is an environment, which takes no memory, and else `evaluate_extras`.
    fn evaluate_optional_environment(
        self,
        alloc: Global,
        interner: &Interner,
        environment: Option<&MarkerEnvironment>,
        extras: &[ExtraName],
    ) -> Result<bool, AllocError>
        requires { IsTree interner.now.nodes (tree self) }
        ensures answer { IfOk result
            (AnswersIn interner.now.nodes (tree self) (option_copied environment.entry) extras.now) }
        ensures grown { IfErr result (λ _. option_copied environment.entry ≡ None) };

    /// Returns whether versions and texts can be such that the tree holds with just these extras, whether
    /// or not an environment has them all. The only error is lack of memory, for a list of trees to look
    /// at.
    ///
    /// Looks at each node below the root twice at most, for its tree and the negation, and at each endpoint
    /// as often; extras are looked through for each node that tests one. No recursion, however deep the
    /// tree is.
    fn evaluate_extras(
        self,
        alloc: Global,
        interner: &Interner,
        extras: &[ExtraName],
    ) -> Result<bool, AllocError>
        requires { IsTree interner.now.nodes (tree self) }
        ensures { IfOk result (λ yes. IsTrue yes ↔ CanHold interner.now.nodes (tree self) extras.now) };

    /// Returns `evaluate_extras`; the versions are not looked at.
    fn evaluate_extras_and_python_version(
        self,
        alloc: Global,
        interner: &Interner,
        extras: &[ExtraName],
        python_versions: &[Version],
    ) -> Result<bool, AllocError>
        requires { IsTree interner.now.nodes (tree self) }
        ensures { IfOk result (λ yes. IsTrue yes ↔ CanHold interner.now.nodes (tree self) extras.now) };

    /// Returns `evaluate`, and first reports each old name of PEP 345 in the tree, one warning for each
    /// path to a node of it, and then each bound that a text is compared with on the way to the result. The
    /// only error is lack of memory, for a warning's text or in the reporter.
    ///
    /// Goes over each path from the root, of which there can be many more than nodes. No recursion, however
    /// deep the tree is. For a reporter that wants no warning it is `evaluate` alone.
    fn evaluate_reporter<R: Reporter>(
        self,
        alloc: Global,
        interner: &Interner,
        environment: &MarkerEnvironment,
        extras: &[ExtraName],
        reporter: &mut R,
    ) -> Result<bool, AllocError>
        requires made { IsTree interner.now.nodes (tree self) }
        requires can { R.can_report reporter.old }
        ensures answer { IfOk result (λ yes.
            yes ≡ holds interner.now.nodes (tree self) (valuation_of environment.now extras.now)) }
        ensures taken { OnOk result (FoldsTo (TakesKind R.takes) reporter.old
            (warned (valuation_of environment.now extras.now) (diagram_of interner.now.nodes (tree self)))
            reporter.new) }
        ensures again { R.can_report reporter.new };

    /// Returns `evaluate` with the warnings of `evaluate_reporter`, in order. Takes memory for them.
    fn evaluate_collect_warnings(
        self,
        alloc: Global,
        interner: &Interner,
        environment: &MarkerEnvironment,
        extras: &[ExtraName],
    ) -> Result<(bool, Vec<(MarkerWarningKind, String)>), AllocError>
        requires { IsTree interner.now.nodes (tree self) }
        ensures answer { IfOk result (λ told.
            told.0 ≡ holds interner.now.nodes (tree self) (valuation_of environment.now extras.now)) }
        ensures kinds { IfOk result (λ told. map (λ warning. warning.0) told.1.items
            ≡ warned (valuation_of environment.now extras.now) (diagram_of interner.now.nodes (tree self))) };
}

impl MarkerTreeEvaluation for MarkerTree {
    ghost tree = { λ tree. tree };

    fn evaluate(
        self,
        interner: &Interner,
        environment: &MarkerEnvironment,
        extras: &[ExtraName],
    ) -> bool {
        evaluate(self, interner, environment, extras)
    }

    fn evaluate_optional_environment(
        self,
        alloc: Global,
        interner: &Interner,
        environment: Option<&MarkerEnvironment>,
        extras: &[ExtraName],
    ) -> Result<bool, AllocError> {
        match environment {
            Some(environment) => Ok(evaluate(self, interner, environment, extras)),
            None => can_hold(alloc, self, interner, extras),
        }
    }

    fn evaluate_extras(
        self,
        alloc: Global,
        interner: &Interner,
        extras: &[ExtraName],
    ) -> Result<bool, AllocError> {
        can_hold(alloc, self, interner, extras)
    }

    fn evaluate_extras_and_python_version(
        self,
        alloc: Global,
        interner: &Interner,
        extras: &[ExtraName],
        _python_versions: &[Version],
    ) -> Result<bool, AllocError> {
        can_hold(alloc, self, interner, extras)
    }

    fn evaluate_reporter<R: Reporter>(
        self,
        alloc: Global,
        interner: &Interner,
        environment: &MarkerEnvironment,
        extras: &[ExtraName],
        reporter: &mut R,
    ) -> Result<bool, AllocError> {
        evaluate_reporter(alloc, self, interner, environment, extras, reporter)
    }

    fn evaluate_collect_warnings(
        self,
        alloc: Global,
        interner: &Interner,
        environment: &MarkerEnvironment,
        extras: &[ExtraName],
    ) -> Result<(bool, Vec<(MarkerWarningKind, String)>), AllocError> {
        evaluate_collect_warnings(alloc, self, interner, environment, extras)
    }
}
