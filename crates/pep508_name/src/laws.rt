//! Laws of names. The functions do nothing: each one's contract is its law.

ghost use Rattle.std.specs.Prelude.{◌≡◌, ◌↔◌, ℕ, List, IsTrue, Some};
ghost use Rattle.pep508_name.specs.Name.{name_of, name_eq, name_cmp, fed_name};

use crate::{ExtraName, PackageName};
use std::hash::Hash;

/// A normal name is a name, and its own normal name.
#[tactic(auto, using(crate::proofs::Again::normal_again))]
pub fn normal_name_is_normal()
    ensures { (text name : List ℕ) → name_of text ≡ Some name → name_of name ≡ Some name }
{}

/// Names are equal exactly where they are the same bytes.
#[tactic(auto, using(crate::proofs::Again::equal_is_same))]
pub fn equal_is_same()
    ensures { (a b : List ℕ) → IsTrue (name_eq a b) ↔ (a ≡ b) }
{}

/// Names of packages and of extras are equal, ordered and hashed alike, by their bytes.
pub fn names_compare_by_bytes()
    ensures package_eq { (a b : List ℕ) → ⟦<PackageName as PartialEq>⟧.eq a b ≡ name_eq a b }
    ensures extra_eq { (a b : List ℕ) → ⟦<ExtraName as PartialEq>⟧.eq a b ≡ name_eq a b }
    ensures package_cmp { (a b : List ℕ) → ⟦<PackageName as Ord>⟧.cmp a b ≡ name_cmp a b }
    ensures extra_cmp { (a b : List ℕ) → ⟦<ExtraName as Ord>⟧.cmp a b ≡ name_cmp a b }
    ensures package_hash { (name : List ℕ) → ⟦<PackageName as Hash>⟧.hash_input name ≡ fed_name name }
    ensures extra_hash { (name : List ℕ) → ⟦<ExtraName as Hash>⟧.hash_input name ≡ fed_name name }
{}
