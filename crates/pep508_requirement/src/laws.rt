//! Laws of reading requirements. The functions do nothing: each one's contract is its law.

ghost use Rattle.std.specs.Prelude.{◌≡◌, ℕ, List, Option, Ok};
ghost use Rattle.std.specs.Str.{skip_leading_whitespace};
ghost use Rattle.pep508_url.specs.Vars.{Variables};
ghost use Rattle.pep508_tree.specs.Meaning.{NodeRecord};
ghost use Rattle.pep508_marker_parser.specs.MarkerReading.{Marker};
ghost use Rattle.pep508_marker_parser.specs.MarkerOutcome.{IsTreeOf};
ghost use Rattle.pep508_requirement_text.specs.FrontReading.{Front, front_reading};
ghost use Rattle.pep508_requirement_text.specs.UnnamedReading.{UnnamedFront, IsUnnamedReading};
ghost use Rattle.pep508_requirement.specs.MarkerBehind.{marker_behind};
ghost use Rattle.pep508_requirement.specs.RequirementText.{IsMarkedText, IsUnnamedMarkedText, IsOfText};
ghost use Rattle.pep508_requirement.specs.RequirementReading.{AsksFor, IsRead, RefusedBy};
ghost use Rattle.pep508_requirement.specs.UnnamedUrls.{ReadsUnnamed};
ghost use Rattle.pep508_requirement.specs.UnnamedRequirementReading.{ReadsGiven, IsUnnamedRead};
ghost use Rattle.pep508_requirement.specs.UnnamedRequirementReading.{UnnamedRefusedBy};

use pep508_marker_parser::laws::{a_read_marker_is_written, a_written_marker_is_read};
use pep508_requirement_text::laws::{
    a_read_front_is_written, a_read_unnamed_front_is_written, a_text_has_one_unnamed_front,
    a_written_front_is_read, a_written_unnamed_front_is_read,
};
use pep508_url::{Pep508Url, UnnamedRequirementUrl};

/// A requirement that is read from a text is written there as the grammar has it (PEP 508, "Grammar"): a
/// front with the requirement's parts, and a marker of which it has a tree.
pub fn a_read_requirement_is_written<T: Pep508Url>()
    ensures { (vars : Variables) (directory : Option (List ℕ)) (nodes : List NodeRecord) (text : List ℕ)
        (r : _) → IsRead (λ url. T.reads vars url directory) nodes text r
        → (front : Front) × (marker : Marker) × IsMarkedText text front marker × (r.name ≡ front.name)
        × (r.extras.items ≡ front.extras)
        × AsksFor (λ url. T.reads vars url directory) front.source r.version_or_url
        × IsTreeOf nodes r.marker marker.formula }
{
    a_read_front_is_written();
    a_read_marker_is_written();
}

/// The front and the marker of a text that is written as the grammar has it are read (PEP 508, "Grammar").
pub fn a_written_requirement_is_read()
    ensures { (text : List ℕ) (front : Front) (marker : Marker) → IsMarkedText text front marker
        → (rest : List ℕ) × (front_reading text ≡ Ok (front, rest))
        × (marker_behind (skip_leading_whitespace rest) ≡ Ok marker) }
{
    a_written_front_is_read();
    a_written_marker_is_read();
}

/// A text that is written as the grammar has it is refused only for its URL, or for lack of memory.
pub fn a_written_requirement_is_not_refused<T: Pep508Url>()
    ensures { (vars : Variables) (directory : Option (List ℕ)) (text : List ℕ) (source : _)
        → RefusedBy (λ url. T.reads vars url directory) T.lacks_memory vars text source → IsOfText source
        → (front : Front) (marker : Marker) → IsMarkedText text front marker → ⊥ }
{
    a_written_front_is_read();
    a_written_marker_is_read();
}

/// A text is that of at most one requirement.
pub fn a_text_has_one_requirement()
    ensures { (text : List ℕ) (front other : Front) (marker another : Marker)
        → IsMarkedText text front marker → IsMarkedText text other another
        → (front ≡ other) × (marker ≡ another) }
{
    a_written_front_is_read();
    a_written_marker_is_read();
}

/// A requirement without a name that is read from a text is written there as the grammar has it.
pub fn a_read_unnamed_requirement_is_written<U: UnnamedRequirementUrl>()
    ensures { (vars : Variables) (directory : Option (List ℕ)) (nodes : List NodeRecord) (text : List ℕ)
        (r : _)
        → IsUnnamedRead
        (ReadsGiven (ReadsUnnamed (λ path. U.reads_path path directory) U.reads_url) U.is_given vars)
        nodes text r
        → (front : UnnamedFront) × (marker : Marker) × IsUnnamedMarkedText text front marker
        × ReadsGiven (ReadsUnnamed (λ path. U.reads_path path directory) U.reads_url) U.is_given vars
        front.url (Ok r.url)
        × (r.extras.items ≡ front.extras)
        × IsTreeOf nodes r.marker marker.formula }
{
    a_read_unnamed_front_is_written();
    a_read_marker_is_written();
}

/// The front and the marker of a text without a name that is written as the grammar has it are read.
pub fn a_written_unnamed_requirement_is_read()
    ensures { (text : List ℕ) (front : UnnamedFront) (marker : Marker) → IsUnnamedMarkedText text front marker
        → (rest : List ℕ) × IsUnnamedReading text (Ok (front, rest))
        × (marker_behind (skip_leading_whitespace rest) ≡ Ok marker) }
{
    a_written_unnamed_front_is_read();
    a_written_marker_is_read();
}

/// A text without a name that is written as the grammar has it is refused only for its URL, or for lack of
/// memory.
pub fn a_written_unnamed_requirement_is_not_refused<U: UnnamedRequirementUrl>()
    ensures { (vars : Variables) (directory : Option (List ℕ)) (text : List ℕ) (source : _)
        → UnnamedRefusedBy
        (ReadsGiven (ReadsUnnamed (λ path. U.reads_path path directory) U.reads_url) U.is_given vars)
        U.lacks_memory text source → IsOfText source
        → (front : UnnamedFront) (marker : Marker) → IsUnnamedMarkedText text front marker → ⊥ }
{
    a_text_has_one_unnamed_front();
    a_written_unnamed_front_is_read();
    a_written_marker_is_read();
}

/// A text is that of at most one requirement without a name.
pub fn a_text_has_one_unnamed_requirement()
    ensures { (text : List ℕ) (front other : UnnamedFront) (marker another : Marker)
        → IsUnnamedMarkedText text front marker → IsUnnamedMarkedText text other another
        → (front ≡ other) × (marker ≡ another) }
{
    a_text_has_one_unnamed_front();
    a_written_unnamed_front_is_read();
    a_written_marker_is_read();
}
