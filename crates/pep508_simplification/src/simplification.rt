//! Simplifications, as a trait of trees.

ghost use Rattle.std.specs.Prelude.{◌≡◌, ◌&&◌, ℕ, Bool, List, IfOk};
ghost use Rattle.pep440_specifier.specs.Bounds.{lent_bound};
ghost use Rattle.pep508_diagram.specs.Question.{Valuation};
ghost use Rattle.pep508_diagram.specs.declared.variable.VersionVariable.TheVariants.{PythonFullVersion};
ghost use Rattle.pep508_tree.specs.Meaning.{IsTree, Extends, holds};
ghost use Rattle.pep508_simplification.specs.Simplified.{between, is_listed, with_named, IsSimplified};
ghost use Rattle.pep508_simplification.specs.Named.{AnswersBy};

use crate::complexified::complexified;
use crate::named::{with_extras, with_listed};
use crate::narrowed::simplified;
use pep440_version::Version;
use pep508_name::ExtraName;
use pep508_tree::{Interner, MarkerTree};
use std::alloc::{AllocError, Global};
use std::ops::Bound;

/// Simplifying a marker tree by known properties of environments. Each call's only error is lack of memory;
/// earlier trees keep their meaning, also after an error, and no conjunction is counted.
pub trait MarkerTreeSimplification: Sized {
    ghost use Rattle.pep508_tree.specs.Tree.{Tree};

    /// The tree that a value is.
    ghost tree: { Self → Tree };

    /// Returns the tree that holds where this one does and `python_full_version` lies between the bounds.
    /// Bounds are kept without the zeros at the end of their releases. Costs what a conjunction with a tree
    /// of two endpoints does.
    fn complexify_python_versions(
        self,
        alloc: Global,
        interner: &mut Interner,
        lower: Bound<&Version>,
        upper: Bound<&Version>,
    ) -> Result<Self, AllocError>
        requires { IsTree interner.old.nodes (tree self) }
        ensures made { IfOk result (λ both. IsTree interner.new.nodes (tree both)) }
        ensures truth { IfOk result (λ both. (v : Valuation) → holds interner.new.nodes (tree both) v
            ≡ (holds interner.old.nodes (tree self) v
            && between (lent_bound lower.entry) (lent_bound upper.entry) (v.version PythonFullVersion))) }
        ensures keeps { Extends interner.old.nodes interner.new.nodes }
        ensures counts { interner.new.conjunctions ≡ interner.old.conjunctions };

    /// Returns the tree simplified by assuming that `python_full_version` lies between the bounds: there it
    /// means the same, and it tests no more of `python_full_version` than that takes. Below the bounds it
    /// is what it is where they begin, above them what it is from some point on up to their end. Where no
    /// point lies between them, what depends on `python_full_version` becomes false. Compares each endpoint
    /// of a version of Python with both bounds, and copies what is kept.
    fn simplify_python_versions(
        self,
        alloc: Global,
        interner: &mut Interner,
        lower: Bound<&Version>,
        upper: Bound<&Version>,
    ) -> Result<Self, AllocError>
        requires { IsTree interner.old.nodes (tree self) }
        ensures made { IfOk result (λ simple. IsTree interner.new.nodes (tree simple)) }
        ensures truth { IfOk result (λ simple. IsSimplified
            (between (lent_bound lower.entry) (lent_bound upper.entry))
            (holds interner.old.nodes (tree self)) (holds interner.new.nodes (tree simple))) }
        ensures keeps { Extends interner.old.nodes interner.new.nodes }
        ensures counts { interner.new.conjunctions ≡ interner.old.conjunctions };

    /// Returns the tree simplified by assuming that the extras are present for which the predicate returns
    /// true; it is never called for an extra that is not a name. Copies each node of the tree once; looks
    /// up trees that were met. No recursion, however deep the tree is.
    fn simplify_extras_with<F: Fn(&ExtraName) -> bool>(
        self,
        alloc: Global,
        interner: &mut Interner,
        predicate: F,
    ) -> Result<Self, AllocError>
        requires callable { F.IsAlwaysCallable predicate }
        requires made { IsTree interner.old.nodes (tree self) }
        ensures made { IfOk result (λ simple. IsTree interner.new.nodes (tree simple)) }
        ensures truth { IfOk result (λ simple. (says : List ℕ → Bool) → AnswersBy (F.post predicate) says →
            (v : Valuation) → holds interner.new.nodes (tree simple) v
            ≡ holds interner.old.nodes (tree self) (with_named says v)) }
        ensures keeps { Extends interner.old.nodes interner.new.nodes }
        ensures counts { interner.new.conjunctions ≡ interner.old.conjunctions };

    /// Returns the tree simplified by assuming that the listed extras are present. Each extra in the tree
    /// is compared with all of them.
    fn simplify_extras(
        self,
        alloc: Global,
        interner: &mut Interner,
        extras: &[ExtraName],
    ) -> Result<Self, AllocError>
        requires { IsTree interner.old.nodes (tree self) }
        ensures made { IfOk result (λ simple. IsTree interner.new.nodes (tree simple)) }
        ensures truth { IfOk result (λ simple. (v : Valuation) → holds interner.new.nodes (tree simple) v
            ≡ holds interner.old.nodes (tree self) (with_named (is_listed extras.now) v)) }
        ensures keeps { Extends interner.old.nodes interner.new.nodes }
        ensures counts { interner.new.conjunctions ≡ interner.old.conjunctions };
}

impl MarkerTreeSimplification for MarkerTree {
    ghost tree = { λ tree. tree };

    fn complexify_python_versions(
        self,
        alloc: Global,
        interner: &mut Interner,
        lower: Bound<&Version>,
        upper: Bound<&Version>,
    ) -> Result<MarkerTree, AllocError> {
        complexified(alloc, interner, self, lower, upper)
    }

    fn simplify_python_versions(
        self,
        alloc: Global,
        interner: &mut Interner,
        lower: Bound<&Version>,
        upper: Bound<&Version>,
    ) -> Result<MarkerTree, AllocError> {
        simplified(alloc, interner, self, lower, upper)
    }

    fn simplify_extras_with<F: Fn(&ExtraName) -> bool>(
        self,
        alloc: Global,
        interner: &mut Interner,
        predicate: F,
    ) -> Result<MarkerTree, AllocError> {
        with_extras(alloc, interner, self, &predicate)
    }

    fn simplify_extras(
        self,
        alloc: Global,
        interner: &mut Interner,
        extras: &[ExtraName],
    ) -> Result<MarkerTree, AllocError> {
        with_listed(alloc, interner, self, extras)
    }
}
