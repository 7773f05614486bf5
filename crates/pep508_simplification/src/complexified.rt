//! Trees that are restricted to a range of versions of Python.

ghost use Rattle.std.specs.Prelude.{◌≡◌, ◌&&◌, IfOk};
ghost use Rattle.pep440_specifier.specs.Bounds.{lent_bound};
ghost use Rattle.pep508_diagram.specs.Question.{Valuation};
ghost use Rattle.pep508_diagram.specs.declared.variable.VersionVariable.TheVariants.{PythonFullVersion};
ghost use Rattle.pep508_tree.specs.Meaning.{IsTree, Extends, holds};
ghost use Rattle.pep508_simplification.specs.Simplified.{between};

use crate::bounds::copy_of_bound;
use pep440_version::Version;
use pep508_diagram::VersionVariable;
use pep508_tree::{Interner, MarkerTree, uncounted_conjunction};
use std::alloc::{AllocError, Global};
use std::ops::Bound;
use version_ranges::Ranges;

/// Returns the conjunction with `python_full_version` between two bounds.
pub(crate) fn complexified(
    alloc: Global,
    interner: &mut Interner,
    tree: MarkerTree,
    lower: Bound<&Version>,
    upper: Bound<&Version>,
) -> Result<MarkerTree, AllocError>
    requires { IsTree interner.old.nodes tree }
    ensures made { IfOk result (λ both. IsTree interner.new.nodes both) }
    ensures truth { IfOk result (λ both. (v : Valuation) → holds interner.new.nodes both v
        ≡ (holds interner.old.nodes tree v
        && between (lent_bound lower.entry) (lent_bound upper.entry) (v.version PythonFullVersion))) }
    ensures keeps { Extends interner.old.nodes interner.new.nodes }
    ensures counts { interner.new.conjunctions ≡ interner.old.conjunctions }
{
    let lower = copy_of_bound(alloc, lower)?;
    let upper = copy_of_bound(alloc, upper)?;
    let set = Ranges::from_range_bounds(alloc, (lower, upper))?;
    let range = interner.versions_tree(alloc, VersionVariable::PythonFullVersion, &set)?;
    uncounted_conjunction(alloc, interner, tree, range)
}
