//! Views of trees that first test whether a key's text occurs in another text, or that text in the key's.

ghost use Rattle.std.specs.Prelude.{◌≡◌, [], ◌∷◌, true, false, cond};
ghost use Rattle.std.specs.Ordering.{on};
ghost use Rattle.std.specs.Cmp.{on_equiv, partial_equiv_from_equiv};
ghost use Rattle.pep508_view.specs.Sameness.{tree_eq};
ghost use Rattle.pep508_view.specs.SamenessLaws.{tree_eq_equiv};

use pep508_diagram::MarkerText;
use pep508_marker::MarkerValueString;
use pep508_tree::MarkerTree;

/// A view of a tree that first tests whether one of two texts, that of a key and another, occurs in the
/// other. It borrows the interner, takes no memory, and equals the views of the same tree.
#[derive(Clone, Copy)]
pub struct OccurrenceMarkerTree<'a> {
    tree: MarkerTree,
    key: MarkerValueString,
    text: &'a MarkerText,
    set: MarkerTree,
    unset: MarkerTree,
}

/// A view of a tree that first tests whether a key's text occurs in another text, as in `os_name in
/// 'posix'`.
pub type InMarkerTree<'a> = OccurrenceMarkerTree<'a>;

/// A view of a tree that first tests whether a text occurs in a key's text, as in `'x' in os_name`.
pub type ContainsMarkerTree<'a> = OccurrenceMarkerTree<'a>;

impl PartialEq for OccurrenceMarkerTree<'_> {
    ghost eq = { on (λ view. view.tree) tree_eq };

    ghost laws = { partial_equiv_from_equiv (on_equiv (λ view. view.tree) tree_eq_equiv) };

    fn eq(&self, other: &Self) -> bool {
        self.tree == other.tree
    }
}

impl Eq for OccurrenceMarkerTree<'_> {
    ghost laws = { on_equiv (λ view. view.tree) tree_eq_equiv };
}

impl<'a> OccurrenceMarkerTree<'a> {
    pub(crate) fn new(
        tree: MarkerTree,
        key: MarkerValueString,
        text: &'a MarkerText,
        set: MarkerTree,
        unset: MarkerTree,
    ) -> OccurrenceMarkerTree<'a>
        ensures { result ≡ record { tree = tree; key = key; text = text.entry; set = set; unset = unset } }
    {
        OccurrenceMarkerTree {
            tree,
            key,
            text,
            set,
            unset,
        }
    }

    /// Returns the key.
    pub fn key(&self) -> MarkerValueString
        ensures { result ≡ self.now.key }
    {
        self.key
    }

    /// Returns the text in which the key's text is searched for, or that is searched for in it.
    pub fn value(&self) -> &'a str
        ensures { result.now ≡ self.now.text.now }
    {
        self.text.as_str()
    }

    /// Returns the subtree where the one text occurs in the other, and where it does not, in this order.
    pub fn children(&self) -> [(bool, MarkerTree); 2]
        ensures { result ≡ (true, self.now.set) ∷ (false, self.now.unset) ∷ [] }
    {
        [(true, self.set), (false, self.unset)]
    }

    /// Returns the subtree where the one text occurs in the other, or where it does not.
    pub fn edge(&self, value: bool) -> MarkerTree
        ensures { result ≡ cond value self.now.set self.now.unset }
    {
        if value { self.set } else { self.unset }
    }
}
