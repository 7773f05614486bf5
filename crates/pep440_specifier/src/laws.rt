//! Laws of specifiers. The functions do nothing: each one's contract is its law.

ghost use Rattle.std.specs.Prelude.{◌≡◌, ◌↔◌, ℕ, not, true, false, List, [], ◌∷◌, Some, None};
ghost use Rattle.pep440_version.specs.Record.{VersionRecord, release_record};
ghost use Rattle.pep440_operator.specs.declared.operator.Operator.TheVariants.{Equal, EqualStar, NotEqual};
ghost use Rattle.pep440_operator.specs.declared.operator.Operator.TheVariants.{NotEqualStar};
ghost use Rattle.pep440_specifier.specs.Matching.{SpecifierRecord, matches, takes};
ghost use Rattle.pep440_specifier.specs.Building.{IsBuilt, equal_star};
ghost use Rattle.pep440_specifier.specs.SpecifierOrder.{specifier_eq};
ghost use Rattle.pep440_specifier.specs.SpecifierReading.{specifier_of};
ghost use Rattle.pep440_specifier.specs.SpecifierText.{IsSpecifierText};

use pep440_text::laws::pattern_text_is_read;

/// `!=` accepts exactly what `==` rejects, with a star and without (PEP 440, "Version exclusion").
pub fn exclusion_is_the_rest()
    ensures plain { (version candidate : VersionRecord)
        → matches NotEqual version candidate ≡ not (matches Equal version candidate) }
    ensures star { (version candidate : VersionRecord)
        → matches NotEqualStar version candidate ≡ not (matches EqualStar version candidate) }
{}

/// A text is read as a specifier exactly where the grammar says that it is that specifier's.
pub fn specifier_text_is_read()
    ensures { (text : List ℕ) (specifier : SpecifierRecord)
        → (specifier_of text ≡ Some specifier) ↔ IsSpecifierText text specifier }
{
    pattern_text_is_read();
}

/// A text is that of at most one specifier.
pub fn text_has_one_specifier()
    ensures { (text : List ℕ) (specifier other : SpecifierRecord)
        → IsSpecifierText text specifier → IsSpecifierText text other → specifier ≡ other }
{
    pattern_text_is_read();
}

/// A specifier that is read from a text is valid: its operator allows its version, and the version has no
/// mark as the end of a range.
pub fn a_read_specifier_is_built()
    ensures built { (text : List ℕ) (specifier : SpecifierRecord)
        → specifier_of text ≡ Some specifier → IsBuilt specifier }
    ensures ends { (text : List ℕ) (specifier : SpecifierRecord) → specifier_of text ≡ Some specifier
        → (specifier.version.least ≡ None) × (specifier.version.most ≡ None) }
{
    specifier_text_is_read();
}

/// Equal specifiers with a star may accept different versions: `==1.*` and `==1.0.*` are equal, since `1`
/// and `1.0` are one version, but only `==1.*` accepts `1.1` (PEP 440, "Version matching").
#[tactic(auto, unfolding(crate::specs::SpecifierOrder::specifier_key, pep440_version::specs::Order::key_of))]
pub fn equal_stars_may_differ()
    ensures built { IsBuilt (equal_star (1 ∷ [])) × IsBuilt (equal_star (1 ∷ 0 ∷ [])) }
    ensures equal { specifier_eq (equal_star (1 ∷ [])) (equal_star (1 ∷ 0 ∷ [])) ≡ true }
    ensures taken { takes (release_record (1 ∷ 1 ∷ [])) (equal_star (1 ∷ [])) ≡ true }
    ensures refused { takes (release_record (1 ∷ 1 ∷ [])) (equal_star (1 ∷ 0 ∷ [])) ≡ false }
{}
