//! Laws of versions. The functions do nothing: each one's contract is its law.

ghost use Rattle.std.specs.Prelude.{◌≡◌, ◌≢◌, ℕ, ◌↔◌, List, IsTrue};
ghost use Rattle.std.specs.Result.{result_ok};
ghost use Rattle.std.specs.Ordering.{nat_cmp};
ghost use Rattle.std.specs.Cmp.Lexicographic.{slice_cmp};
ghost use Rattle.pep440_text.specs.Record.{VersionRecord, with_end_zeros};
ghost use Rattle.pep440_text.specs.Print.{version_text};
ghost use Rattle.pep440_text.specs.Reading.{version_of, pattern_of};
ghost use Rattle.pep440_version.specs.VersionReading.{version_reading, pattern_reading};
ghost use Rattle.pep440_version.specs.Order.{key_of, padded_cmp, stripped, version_cmp, version_eq};
ghost use Rattle.pep440_version.specs.Packing.{Fits, word_of};

/// Versions are equal exactly where their keys are the same, and then they hash alike.
#[tactic(auto, using(crate::specs::OrderLaws::key_decides))]
pub fn key_decides()
    ensures { (a b : VersionRecord) → IsTrue (version_eq a b) ↔ (key_of a ≡ key_of b) }
{}

/// Zeros at the end of a release change neither order nor equality nor hash, as `1.0` equals `1`: the keys
/// are the same. They do change the print.
pub fn end_zeros_change_nothing()
    ensures key { (version : VersionRecord) (count : ℕ)
        → key_of (with_end_zeros count version) ≡ key_of version }
    ensures order { (version other : VersionRecord) (count : ℕ)
        → version_cmp (with_end_zeros count version) other ≡ version_cmp version other }
    ensures equality { (version : VersionRecord) (count : ℕ)
        → IsTrue (version_eq (with_end_zeros count version) version) }
    ensures print { (version : VersionRecord) (count other : ℕ) → count ≢ other
        → version_text (with_end_zeros count version) ≢ version_text (with_end_zeros other version) }
{}

/// Releases compare number by number, the shorter one padded with zeros.
pub fn releases_compare_padded()
    ensures { (a b : List ℕ) → slice_cmp nat_cmp (stripped a) (stripped b) ≡ padded_cmp a b }
{}

/// A reading that reports the texts of a fault finds a version, or a pattern, exactly where the text is
/// one.
pub fn readings_find_what_texts_are()
    ensures version { (text : List ℕ) → version_of text ≡ result_ok (version_reading text) }
    ensures pattern { (text : List ℕ) → pattern_of text ≡ result_ok (pattern_reading text) }
{}

/// Versions that have a word, a number of 64 bits, compare as their words do.
#[tactic(auto, using(crate::proofs::PackedOrder::words_compare))]
pub fn words_compare_as_versions()
    ensures { (a b : VersionRecord) → Fits a → Fits b → nat_cmp (word_of a) (word_of b) ≡ version_cmp a b }
{}
