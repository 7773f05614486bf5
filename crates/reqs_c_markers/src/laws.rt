//! Laws about normal texts of markers. The functions do nothing: each one's contract is its law.

ghost use Rattle.std.specs.Prelude.{◌≡◌, ℕ, List};
ghost use Rattle.pep508_diagram.specs.Question.{Valuation};
ghost use Rattle.reqs_c_markers.specs.Markers.{marker_holds, GivesText, HoldsAlike, ReadsBack};
ghost use Rattle.reqs_c_markers.specs.declared.bounds.Bounds.{Bounds};

/// The normal text of a marker, within any bounds, can be read as a marker that holds under the same
/// valuations.
pub fn a_normal_text_reads_back()
    ensures { (bounds : Bounds) (bytes text : List ℕ) (given : GivesText bounds bytes HoldsAlike text) →
        ReadsBack text (marker_holds given.marker) }
{}

/// Markers that hold under the same valuations have the same normal text, within whatever bounds each is
/// printed.
pub fn markers_that_hold_alike_have_one_text()
    ensures { (bounds limits : Bounds) (bytes others text other : List ℕ)
        (given : GivesText bounds bytes HoldsAlike text) (also : GivesText limits others HoldsAlike other) →
        ((v : Valuation) → marker_holds given.marker v ≡ marker_holds also.marker v) → text ≡ other }
{}
