//! Views of trees that first test an extra.

ghost use Rattle.std.specs.Prelude.{◌≡◌, [], ◌∷◌, true, false, cond};
ghost use Rattle.std.specs.Ordering.{on};
ghost use Rattle.std.specs.Cmp.{on_equiv, partial_equiv_from_equiv};
ghost use Rattle.pep508_view.specs.Sameness.{tree_eq};
ghost use Rattle.pep508_view.specs.SamenessLaws.{tree_eq_equiv};

use pep508_name::ExtraName;
use pep508_tree::MarkerTree;

/// An extra that a tree tests, borrowed.
#[derive(Clone, Copy)]
pub enum MarkerExtra<'a> {
    /// The extra of this name.
    Extra(&'a ExtraName),
    /// A text that is not a name, so that no extra has it.
    Arbitrary(&'a str),
}

/// A view of a tree that first tests whether an extra is requested, as in `extra == 'dev'`. It borrows the
/// interner, takes no memory, and equals the views of the same tree.
#[derive(Clone, Copy)]
pub struct ExtraMarkerTree<'a> {
    tree: MarkerTree,
    extra: MarkerExtra<'a>,
    set: MarkerTree,
    unset: MarkerTree,
}

impl PartialEq for ExtraMarkerTree<'_> {
    ghost eq = { on (λ view. view.tree) tree_eq };

    ghost laws = { partial_equiv_from_equiv (on_equiv (λ view. view.tree) tree_eq_equiv) };

    fn eq(&self, other: &Self) -> bool {
        self.tree == other.tree
    }
}

impl Eq for ExtraMarkerTree<'_> {
    ghost laws = { on_equiv (λ view. view.tree) tree_eq_equiv };
}

impl<'a> ExtraMarkerTree<'a> {
    pub(crate) fn new(
        tree: MarkerTree,
        extra: MarkerExtra<'a>,
        set: MarkerTree,
        unset: MarkerTree,
    ) -> ExtraMarkerTree<'a>
        ensures { result ≡ record { tree = tree; extra = extra.entry; set = set; unset = unset } }
    {
        ExtraMarkerTree {
            tree,
            extra,
            set,
            unset,
        }
    }

    /// Returns the extra.
    pub fn name(&self) -> MarkerExtra<'a>
        ensures { result ≡ self.now.extra }
    {
        self.extra
    }

    /// Returns the subtree where the extra is requested, and where it is not, in this order.
    pub fn children(&self) -> [(bool, MarkerTree); 2]
        ensures { result ≡ (true, self.now.set) ∷ (false, self.now.unset) ∷ [] }
    {
        [(true, self.set), (false, self.unset)]
    }

    /// Returns the subtree where the extra is requested, or where it is not.
    pub fn edge(&self, value: bool) -> MarkerTree
        ensures { result ≡ cond value self.now.set self.now.unset }
    {
        if value { self.set } else { self.unset }
    }
}
