//! Marker trees with their interners.
//!
//! `MarkerTreeRef` is `Copy` and so has no model; that its tree belongs to its interner is a fact next to
//! its fields, and `tree_in` says what contracts see. Its equality is that of its order. Whether two borrow
//! one interner cannot be told, since `==` has to follow from the values, so trees of one name are walked as
//! any two. The prover does not cover a function that copies one, nor one that copies a view; they are
//! borrowed.
//!
//! A comparison is a walk, whose way back is a list. It remembers the pairs of nodes that it found equal;
//! where memory for them is refused it walks them again. `==` and `cmp` cannot report that memory for the
//! list is refused, so they compare by recursion then, with the same result. A walk without both isn't
//! known: many paths lead to one node, and which of them is walked has to be kept somewhere.
//!
//! The text is made while it is printed, by the allocator that `new` was given: `new` allocates nothing,
//! and lack of memory while printing is `fmt::Error`. A tree that never holds prints its text, which tools
//! can read, and not `false`.

ghost use Rattle.pep508_tree.specs.Meaning.{IsTree};

use crate::order_walk::try_cmp_trees;
use crate::tree_order::cmp_trees;
use pep508_marker_display::MarkerTreeText;
use pep508_tree::{Interner, MarkerTree};
use std::alloc::{AllocError, Global};
use std::cmp::Ordering;
use std::fmt;

/// A marker tree with the interner that it was made with, so that trees of different interners can be
/// compared and printed (PEP 508, "Environment Markers"). Its model in contracts is `tree_in`, the tree
/// with the interner's nodes.
///
/// Two of them are equal exactly where their trees mean the same (`laws::equal_trees_mean_the_same`). A
/// comparison ends at the first difference. It takes memory for the way back to the roots, and for the pairs
/// of nodes that it found equal, so that it walks each node once or twice, in O(n log n) steps for n nodes.
/// Where memory for pairs is refused, a pair is walked again for each path that leads to it. Only where
/// memory for the way back is refused, `==`, `cmp` and `partial_cmp` recurse, as deep as the variables on a
/// path; `try_cmp` reports it. Trees of one interner are compared in constant time by the `==` of
/// `MarkerTree`.
///
/// It prints as the tree's text, `true` where the tree always holds. The text is made while it is printed,
/// and where memory for it runs out, printing fails with `fmt::Error`.
#[derive(Clone, Copy)]
pub struct MarkerTreeRef<'a> {
    alloc: Global,
    interner: &'a Interner,
    tree: MarkerTree,
    ghost made: { IsTree interner.now.nodes tree },
}

impl<'a> MarkerTreeRef<'a> {
    ghost use Rattle.std.specs.Prelude.{◌≡◌, IfOk, option_map};
    ghost use Rattle.std.specs.String.{string_bytes};
    ghost use Rattle.pep508_diagram.specs.Question.{IsCanonical};
    ghost use Rattle.pep508_diagram.specs.Shortened.{HasShortVersions};
    ghost use Rattle.pep508_marker_text_laws.specs.MarkerText.{marker_text};
    ghost use Rattle.pep508_tree.specs.Meaning.{IsTree};
    ghost use Rattle.pep508_tree_ref.specs.Lent.{tree_in, tree_ref_cmp};
    ghost use Rattle.pep508_tree_ref.specs.TreeIn.{diagram_in};

    /// Returns a tree with its interner, and the allocator by which it is printed or compared. Takes no
    /// memory.
    pub fn new(alloc: Global, interner: &'a Interner, tree: MarkerTree) -> MarkerTreeRef<'a>
        requires { IsTree interner.now.nodes tree }
        ensures { tree_in result ≡ record { nodes = interner.now.nodes; tree = tree } }
    {
        MarkerTreeRef {
            alloc,
            interner,
            tree,
        }
    }

    /// Returns the text of the tree, made by the allocator of `new`; `None` where the tree always holds.
    /// Takes memory as `MarkerTreeText::try_to_string`.
    ///
    /// # Errors
    ///
    /// `AllocError` when memory runs out.
    pub fn try_to_string(&self) -> Result<Option<String>, AllocError>
        ensures { IfOk result (λ text.
            option_map string_bytes text ≡ marker_text (diagram_in (tree_in self.now))) }
    {
        self.tree.try_to_string(self.alloc, self.interner)
    }

    /// Compares two trees as `cmp` does. The only error is lack of memory for the way back to the roots, of
    /// the allocator of `new`. No recursion, however deep the trees are.
    ///
    /// # Errors
    ///
    /// `AllocError` when memory runs out.
    pub fn try_cmp(&self, other: &MarkerTreeRef) -> Result<Ordering, AllocError>
        ensures { IfOk result (λ order. order ≡ tree_ref_cmp self.now other.now) }
    {
        try_cmp_trees(
            self.alloc,
            self.tree,
            self.interner,
            other.tree,
            other.interner,
        )
    }

    /// Shows that the tree has no needless question, and each version is in its shortest spelling. Does
    /// nothing.
    #[tactic(auto, using(crate::proofs::Sound::sound_trees))]
    pub fn is_canonical(&self)
        ensures canonical { IsCanonical (diagram_in (tree_in self.now)) }
        ensures short { HasShortVersions (diagram_in (tree_in self.now)) }
    {
        self.interner.are_sound()
    }
}

impl PartialEq for MarkerTreeRef<'_> {
    ghost use Rattle.std.specs.Cmp.{partial_equiv_from_equiv, eq_by_cmp_equiv};
    ghost use Rattle.std.specs.Ordering.{eq_by_cmp};
    ghost use Rattle.pep508_tree_ref.specs.Lent.{tree_ref_cmp, tree_refs_total};

    ghost eq = { eq_by_cmp tree_ref_cmp };

    ghost laws = { partial_equiv_from_equiv (eq_by_cmp_equiv tree_refs_total) };

    fn eq(&self, other: &Self) -> bool {
        self.cmp(other).is_eq()
    }
}

impl Eq for MarkerTreeRef<'_> {
    ghost use Rattle.std.specs.Cmp.{eq_by_cmp_equiv};
    ghost use Rattle.pep508_tree_ref.specs.Lent.{tree_refs_total};

    ghost laws = { eq_by_cmp_equiv tree_refs_total };
}

impl Ord for MarkerTreeRef<'_> {
    ghost use Rattle.std.specs.Prelude.{refl};
    ghost use Rattle.pep508_tree_ref.specs.Lent.{tree_ref_cmp, tree_refs_total};

    ghost cmp = { tree_ref_cmp };

    ghost total = { tree_refs_total };

    ghost matches_partial_cmp = { λ x y. refl };

    ghost matches_eq = { λ x y. refl };

    fn cmp(&self, other: &Self) -> Ordering {
        match self.try_cmp(other) {
            Ok(order) => order,
            Err(_) => cmp_trees(
                self.alloc,
                self.tree,
                self.interner,
                other.tree,
                other.interner,
            ),
        }
    }
}

impl PartialOrd for MarkerTreeRef<'_> {
    ghost use Rattle.std.specs.Cmp.{partial_order_from_total};
    ghost use Rattle.std.specs.Ordering.{as_partial_cmp};
    ghost use Rattle.pep508_tree_ref.specs.Lent.{tree_ref_cmp, tree_refs_total};

    ghost partial_cmp = { as_partial_cmp tree_ref_cmp };

    ghost laws = { partial_order_from_total tree_refs_total };

    fn partial_cmp(&self, other: &Self) -> Option<Ordering> {
        Some(self.cmp(other))
    }
}

impl fmt::Display for MarkerTreeRef<'_> {
    ghost use Rattle.std.specs.Prelude.{Some};
    ghost use Rattle.pep508_tree_ref.specs.Lent.{tree_in};
    ghost use Rattle.pep508_tree_ref.specs.TreeIn.{diagram_in};
    ghost use Rattle.pep508_tree_ref.specs.TreeText.{tree_text};

    ghost output = { λ r. Some (tree_text (diagram_in (tree_in r))) };

    fn fmt<W: fmt::Write>(&self, f: &mut fmt::Formatter<W>) -> fmt::Result {
        match self.tree.try_to_string(self.alloc, self.interner) {
            Ok(Some(text)) => f.write_str(&text),
            Ok(None) => f.write_str("true"),
            Err(_) => Err(fmt::Error),
        }
    }
}
