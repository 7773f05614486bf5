//! Laws of lists of specifiers. The functions do nothing: each one's contract is its law.

ghost use Rattle.std.specs.Prelude.{◌≡◌, ◌↔◌, ℕ, [], true, List, All, IsTrue, Some};
ghost use Rattle.std.specs.Str.{IsUtf8};
ghost use Rattle.pep440_version.specs.Record.{VersionRecord};
ghost use Rattle.pep440_specifier.specs.Matching.{SpecifierRecord, takes};
ghost use Rattle.pep440_specifier_list.specs.Lists.{matches_all, IsInOrder};
ghost use Rattle.pep440_specifier_list.specs.ListText.{IsSpecifierListText};
ghost use Rattle.pep440_specifier_list.specs.ListReading.{specifiers_of, IsReadFromText};

use pep440_specifier::laws::specifier_text_is_read;

/// A list accepts a version exactly where each of its members does (PEP 440, "Version specifiers").
pub fn a_list_takes_what_each_member_takes()
    ensures { (members : List SpecifierRecord) (candidate : VersionRecord)
        → IsTrue (matches_all members candidate) ↔ All (λ member. IsTrue (takes candidate member)) members }
{}

/// The empty list accepts every version.
pub fn the_empty_list_takes_all()
    ensures { (candidate : VersionRecord) → matches_all [] candidate ≡ true }
{}

/// A text is read as a list exactly where it is the text of that list: specifiers with commas between them,
/// or nothing.
pub fn list_text_is_read()
    ensures { (text : List ℕ) (members : List SpecifierRecord) → IsUtf8 text
        → ((given : List SpecifierRecord) × (specifiers_of text ≡ Some given) × IsInOrder given members)
        ↔ IsSpecifierListText text members }
{
    specifier_text_is_read();
}

/// Each member of a list that was read from a text is a specifier that can itself be read from some text.
pub fn members_are_read_from_texts()
    ensures { (text : List ℕ) (given members : List SpecifierRecord) → specifiers_of text ≡ Some given
        → IsInOrder given members → All IsReadFromText members }
{}
