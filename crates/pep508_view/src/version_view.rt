//! Views of trees that first test a version.

ghost use Rattle.std.specs.Prelude.{◌≡◌, ◌<◌, ◌^◌, length};
ghost use Rattle.std.specs.Map.Iter.{ShowsInOrder};
ghost use Rattle.std.specs.Ordering.{on};
ghost use Rattle.std.specs.Cmp.{on_equiv, partial_equiv_from_equiv};
ghost use Rattle.pep440_text.specs.Record.{VersionRecord};
ghost use Rattle.pep508_view.specs.Edges.{lent_edge};
ghost use Rattle.pep508_view.specs.Sameness.{tree_eq};
ghost use Rattle.pep508_view.specs.SamenessLaws.{tree_eq_equiv};
ghost use Rattle.pep508_view.specs.Views.{key_of, version_node, version_edges};

use crate::edges::Edges;
use pep440_version::Version;
use pep508_diagram::{Branch, VersionVariable};
use pep508_marker::MarkerValueVersion;
use pep508_tree::MarkerTree;

/// A view of a tree that first tests a key's version. It borrows the interner, takes no memory, and equals
/// the views of the same tree.
#[derive(Clone, Copy)]
pub struct VersionMarkerTree<'a> {
    tree: MarkerTree,
    variable: VersionVariable,
    first: MarkerTree,
    later: &'a [Branch<Version, MarkerTree>],
    negated: bool,
}

impl PartialEq for VersionMarkerTree<'_> {
    ghost eq = { on (λ view. view.tree) tree_eq };

    ghost laws = { partial_equiv_from_equiv (on_equiv (λ view. view.tree) tree_eq_equiv) };

    fn eq(&self, other: &Self) -> bool {
        self.tree == other.tree
    }
}

impl Eq for VersionMarkerTree<'_> {
    ghost laws = { on_equiv (λ view. view.tree) tree_eq_equiv };
}

impl<'a> VersionMarkerTree<'a> {
    pub(crate) fn new(
        tree: MarkerTree,
        variable: VersionVariable,
        first: MarkerTree,
        later: &'a [Branch<Version, MarkerTree>],
        negated: bool,
    ) -> VersionMarkerTree<'a>
        ensures { result ≡ record {
          tree = tree;
          variable = variable;
          first = first;
          later = later.entry;
          negated = negated;
        } }
    {
        VersionMarkerTree {
            tree,
            variable,
            first,
            later,
            negated,
        }
    }

    /// Returns the key: `implementation_version` or `python_full_version`. Comparisons of `python_version`
    /// are made of the full version.
    pub fn key(&self) -> MarkerValueVersion
        ensures { result ≡ key_of self.now.variable }
    {
        match self.variable {
            VersionVariable::ImplementationVersion => MarkerValueVersion::ImplementationVersion,
            VersionVariable::PythonFullVersion => MarkerValueVersion::PythonFullVersion,
        }
    }

    /// Returns an iterator over the subtrees with the versions that bound each, upwards. Takes no memory;
    /// each step takes constant time.
    pub fn edges(&self) -> Edges<'a, Version>
        ensures edges { result ≡ version_edges (version_node self.now) }
        ensures runs { ShowsInOrder (lent_edge {T = VersionRecord}) }
        ensures fits { length result < 2 ^ 64 }
    {
        Edges::new(self.first, self.later, self.negated)
    }
}
