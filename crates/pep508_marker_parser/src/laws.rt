//! Laws of reading markers. The functions do nothing: each one's contract is its law.

ghost use Rattle.std.specs.Prelude.{◌≡◌, ℕ, Bool, true, List, Ok, Err};
ghost use Rattle.pep508_marker.specs.Expression.{ExpressionRecord};
ghost use Rattle.pep508_marker_parser.specs.Formula.{Formula, Both, Either, formula_holds, IsLeftOut};
ghost use Rattle.pep508_comparison_parser.specs.SideReading.{Refused};
ghost use Rattle.pep508_marker_parser.specs.MarkerReading.{Marker, marker_at};
ghost use Rattle.pep508_marker_parser.specs.MarkerText.{IsMarkerText};

/// Characters that are read as a marker are written as the grammar has it (PEP 508, "Grammar").
pub fn a_read_marker_is_written()
    ensures { (cs : List ℕ) (marker : Marker) → marker_at cs ≡ Ok marker → IsMarkerText cs marker }
{}

/// Characters that are written as a marker as the grammar has it are read as that marker (PEP 508,
/// "Grammar").
pub fn a_written_marker_is_read()
    ensures { (cs : List ℕ) (marker : Marker) → IsMarkerText cs marker → marker_at cs ≡ Ok marker }
{}

/// Characters are those of at most one marker.
pub fn a_text_has_one_marker()
    ensures { (cs : List ℕ) (marker other : Marker)
        → IsMarkerText cs marker → IsMarkerText cs other → marker ≡ other }
{
    a_written_marker_is_read();
}

/// Characters that are refused are not those of any marker.
pub fn a_refused_text_is_no_marker()
    ensures { (cs : List ℕ) (refused : Refused) → marker_at cs ≡ Err refused
        → (marker : Marker) → IsMarkerText cs marker → ⊥ }
{
    a_written_marker_is_read();
}

/// A formula whose comparisons are all left out holds.
pub fn a_formula_left_out_holds()
    ensures { (truth : ExpressionRecord → Bool) (f : Formula ExpressionRecord)
        → IsLeftOut f → formula_holds truth f ≡ true }
{}

/// A part that is left out is ignored, on either side of `and` and of `or`.
pub fn a_part_left_out_is_passed_over()
    ensures { (truth : ExpressionRecord → Bool) (f g : Formula ExpressionRecord) → IsLeftOut g
        → (formula_holds truth (Both f g) ≡ formula_holds truth f)
        × (formula_holds truth (Both g f) ≡ formula_holds truth f)
        × (formula_holds truth (Either f g) ≡ formula_holds truth f)
        × (formula_holds truth (Either g f) ≡ formula_holds truth f) }
{}
