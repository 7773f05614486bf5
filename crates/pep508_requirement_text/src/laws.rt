//! Laws of the fronts of requirements. The functions do nothing: each one's contract is its law.

ghost use Rattle.std.specs.Prelude.{◌≡◌, ◌≢◌, ◌↔◌, ℕ, Bool, false, List, [], ◌++◌, Ok, Err};
ghost use Rattle.std.specs.Char.{is_whitespace};
ghost use Rattle.pep508_requirement_text.specs.UrlEnds.{url_split, IsUrlBefore};
ghost use Rattle.pep508_error.specs.Cuts.{begins_by};
ghost use Rattle.pep508_requirement_text.specs.FrontReading.{Front, Refused, Reading, front_reading};
ghost use Rattle.pep508_requirement_text.specs.FrontText.{IsFrontText, IsRequirementText};
ghost use Rattle.pep508_requirement_text.specs.UnnamedReading.{UnnamedFront, IsUnnamedReading};
ghost use Rattle.pep508_requirement_text.specs.UnnamedText.{IsUnnamedText, IsUnnamedRequirementText};

use pep440_specifier::laws::specifier_text_is_read;

/// A front that is read from a text is written there as the grammar has it (PEP 508, "Grammar").
pub fn a_read_front_is_written()
    ensures { (text : List ℕ) (front : Front) (rest : List ℕ)
        → front_reading text ≡ Ok (front, rest) → IsFrontText text front rest }
{
    specifier_text_is_read();
}

/// A front that is written at the front of a text as the grammar has it is read (PEP 508, "Grammar").
pub fn a_written_front_is_read()
    ensures { (text : List ℕ) (front : Front) (rest : List ℕ)
        → IsFrontText text front rest → front_reading text ≡ Ok (front, rest) }
{
    specifier_text_is_read();
}

/// A text begins with at most one front of a requirement, and just one rest follows it.
pub fn a_text_has_one_front()
    ensures { (text : List ℕ) (front other : Front) (rest left : List ℕ)
        → IsFrontText text front rest → IsFrontText text other left → (front ≡ other) × (rest ≡ left) }
{
    a_written_front_is_read();
}

/// A text is that of at most one requirement without a marker.
pub fn a_text_has_one_requirement()
    ensures { (text : List ℕ) (front other : Front)
        → IsRequirementText text front → IsRequirementText text other → front ≡ other }
{
    a_written_front_is_read();
}

/// A text whose front is refused is not that of any requirement.
pub fn a_refused_text_is_none()
    ensures { (text : List ℕ) (refused : Refused) → front_reading text ≡ Err refused
        → (front : Front) → IsRequirementText text front → ⊥ }
{
    a_written_front_is_read();
}

/// A URL is split off exactly where it ends: at the first place after its beginning at which one may end.
pub fn a_url_is_split_where_it_ends()
    ensures { (brackets : Bool) (url rest : List ℕ)
        → (url_split brackets 0 (url ++ rest) ≡ (url, rest)) × (url ≢ [])
        × (begins_by is_whitespace url ≡ false)
        ↔ IsUrlBefore brackets url rest }
{}

/// A text begins with at most one reading where no name is wanted: a URL with its extras, or why there is
/// none.
pub fn a_text_has_one_unnamed_front()
    ensures { (text : List ℕ) (reading other : Reading UnnamedFront)
        → IsUnnamedReading text reading → IsUnnamedReading text other → reading ≡ other }
{}

/// Each text begins with a URL with its extras to read, or a reason why there is none.
pub fn a_text_has_an_unnamed_reading()
    ensures { (text : List ℕ) → (reading : Reading UnnamedFront) × IsUnnamedReading text reading }
{}

/// A front without a name that is read from a text is written there as the grammar has it: white space, and
/// a URL with extras at its end.
pub fn a_read_unnamed_front_is_written()
    ensures { (text : List ℕ) (front : UnnamedFront) (rest : List ℕ)
        → IsUnnamedReading text (Ok (front, rest)) → IsUnnamedText text front rest }
{}

/// A URL with extras at its end that is written at the front of a text, as the grammar has it, is read
/// there.
pub fn a_written_unnamed_front_is_read()
    ensures { (text : List ℕ) (front : UnnamedFront) (rest : List ℕ)
        → IsUnnamedText text front rest → IsUnnamedReading text (Ok (front, rest)) }
{}

/// A text is that of at most one requirement without a name and without a marker.
pub fn a_text_has_one_unnamed_requirement()
    ensures { (text : List ℕ) (front other : UnnamedFront)
        → IsUnnamedRequirementText text front → IsUnnamedRequirementText text other → front ≡ other }
{
    a_written_unnamed_front_is_read();
}

/// A text whose front without a name is refused is not that of any requirement without a name.
pub fn a_refused_text_is_no_unnamed_requirement()
    ensures { (text : List ℕ) (refused : Refused) → IsUnnamedReading text (Err refused)
        → (front : UnnamedFront) → IsUnnamedRequirementText text front → ⊥ }
{
    a_written_unnamed_front_is_read();
}
