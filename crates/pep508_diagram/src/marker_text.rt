//! Texts that compare by their bytes.
//!
//! Texts of nodes have a type of their own, which contracts see as its bytes: a `String` has a capacity
//! too, and a copy has to be the very same value.

ghost use Rattle.std.specs.Prelude.{◌≡◌, IfOk, refl};
ghost use Rattle.std.specs.Str.{bytes_eq};
ghost use Rattle.std.specs.Cmp.{partial_equiv_from_equiv};
ghost use Rattle.std.specs.Cmp.Lexicographic.{nat_list_eq_equiv, nat_list_cmp_total, texts_ties, texts_po};
ghost use Rattle.std.specs.Ordering.{as_partial_cmp};
ghost use Rattle.pep508_diagram.specs.Text.{text_cmp};

use crate::node_value::NodeValue;
use std::alloc::{AllocError, Global};
use std::cmp::Ordering;
use std::marker::Model;

/// A text of a marker: a bound of a key, a text that is searched for in another, or an extra that is not a
/// name. Compares by its bytes, which are its model in contracts.
#[derive(Drop)]
pub struct MarkerText {
    text: String,
}

impl Model for MarkerText {
    ghost use Rattle.std.specs.Prelude.{List, ℕ};
    ghost use Rattle.std.specs.String.{string_bytes};

    ghost Value = { List ℕ };

    ghost view = { λ t. string_bytes t.text };
}

impl MarkerText {
    /// Returns a copy of a text.
    ///
    /// # Errors
    ///
    /// `AllocError` when memory runs out.
    pub fn copy_of(alloc: Global, text: &str) -> Result<MarkerText, AllocError>
        ensures { IfOk result (λ copy. copy ≡ text.now) }
    {
        Ok(MarkerText {
            text: String::from_str(alloc, text)?,
        })
    }

    /// Returns the text.
    pub fn as_str(&self) -> &str
        ensures { result.now ≡ self.now }
    {
        &self.text
    }
}

impl PartialEq for MarkerText {
    ghost eq = { bytes_eq };

    ghost laws = { partial_equiv_from_equiv nat_list_eq_equiv };

    fn eq(&self, other: &MarkerText) -> bool {
        self.text.as_str() == other.text.as_str()
    }
}

impl Eq for MarkerText {
    ghost laws = { nat_list_eq_equiv };
}

impl Ord for MarkerText {
    ghost cmp = { text_cmp };

    ghost total = { nat_list_cmp_total };

    ghost matches_partial_cmp = { λ x y. refl };

    ghost matches_eq = { texts_ties };

    fn cmp(&self, other: &MarkerText) -> Ordering {
        self.text.as_str().cmp(other.text.as_str())
    }
}

impl PartialOrd for MarkerText {
    ghost partial_cmp = { as_partial_cmp text_cmp };

    ghost laws = { texts_po };

    fn partial_cmp(&self, other: &MarkerText) -> Option<Ordering> {
        Some(self.cmp(other))
    }
}

impl NodeValue for MarkerText {
    fn copied(&self, alloc: Global) -> Result<MarkerText, AllocError> {
        MarkerText::copy_of(alloc, self.as_str())
    }
}
