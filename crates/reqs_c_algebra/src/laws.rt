//! Laws about the meaning of markers. The functions do nothing: each one's contract is its law.

ghost use Rattle.std.specs.Prelude.{◌≡◌, ◌↔◌, not, ℕ, List};
ghost use Rattle.pep508_diagram.specs.Question.{Valuation};
ghost use Rattle.pep508_simplification.specs.Simplified.{is_listed, with_named};
ghost use Rattle.reqs_c_markers.specs.Markers.{marker_holds, GivesText, ReadsBack};
ghost use Rattle.reqs_c_markers.specs.declared.bounds.Bounds.{Bounds};
ghost use Rattle.reqs_c_algebra.specs.Keys.{GivesKey};
ghost use Rattle.reqs_c_algebra.specs.Made.{HoldsElsewhere};
ghost use Rattle.reqs_c_algebra.specs.Simplified.{GivesWith};

use pep508_marker_key::laws::one_key;

/// The keys of two markers, however these are written and within whatever bounds, are equal exactly if the
/// markers hold under the same valuations.
pub fn keys_are_of_meanings()
    ensures { (nodes limit : ℕ) (left right key other : List ℕ)
        (given : GivesKey nodes left key) (also : GivesKey limit right other) →
        (key ≡ other)
        ↔ ((v : Valuation) → marker_holds given.marker v ≡ marker_holds also.marker v) }
{
    one_key();
}

/// The normal text of a negation can be read as a marker that holds exactly where the negated marker doesn't.
pub fn a_negation_reads_back()
    ensures { (bounds : Bounds) (bytes text : List ℕ) (given : GivesText bounds bytes HoldsElsewhere text) →
        ReadsBack text (λ v. not (marker_holds given.marker v)) }
{}

/// The normal text of a marker with extras present can be read as one that holds exactly where that marker
/// does with them.
pub fn a_marker_with_extras_reads_back()
    ensures { (bounds : Bounds) (bytes extras text : List ℕ) (given : GivesWith bounds bytes extras text) →
        ReadsBack text (λ v. marker_holds given.gives.marker (with_named (is_listed given.names) v)) }
{}
