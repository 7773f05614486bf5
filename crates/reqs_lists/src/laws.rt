//! Laws about what these commands write. The functions do nothing: each one's contract is its law.

ghost use Rattle.std.specs.Prelude.{◌≡◌, ◌⊎◌, ℕ, List, codes, Ok};
ghost use Rattle.pep508_diagram.specs.Diagram.{Diagram};
ghost use Rattle.pep508_diagram.specs.Question.{Question};
ghost use Rattle.pep508_url.specs.Vars.{Variables};
ghost use Rattle.reqtable_cases.specs.Requires.{RequireTheSame};
ghost use Rattle.reqtable_compare.specs.Compared.{MayCompare};
ghost use Rattle.reqtable_conflicts.specs.Contradictions.{ConflictRecord, FindsConflicts};
ghost use Rattle.reqtable_covers.specs.Covering.{CoversLines};
ghost use Rattle.reqtable_normal.specs.Normalized.{IsNormalText};
ghost use Rattle.reqs_io_faults.specs.declared.fault.Status.{Status};
ghost use Rattle.reqs_json.specs.declared.format.Format.TheVariants.{Text, Json};
ghost use Rattle.reqs_json.specs.Lines.{line_of};
ghost use Rattle.reqs_lists.specs.Comparison.{SameAnswersAs, IsToldDifference, difference_text};
ghost use Rattle.reqs_lists.specs.Comparison.{difference_value, same_value};
ghost use Rattle.reqs_lists.specs.Contradictions.{ConflictsAnswerAs, conflicts_text, conflicts_value};
ghost use Rattle.reqs_lists.specs.Covered.{CoversAnswersAs, IsToldUncovered, covers_value};
ghost use Rattle.reqs_lists.specs.Covered.{uncovered_text, uncovered_value};
ghost use Rattle.reqs_lists.specs.Lists.{IsRead, one_list, two_lists};
ghost use Rattle.reqs_lists.specs.Normal.{NormalAnswersAs, normal_value};

/// `same` writes the same answer on two lists in both formats, and ends with the same status: that they
/// require the same, or the same package and marker of their first difference.
pub fn both_formats_of_same_say_the_same()
    ensures { (limit : ℕ) (vars : Variables) (inputs : List (List ℕ)) (ended other : Status)
        (text object : List ℕ) → SameAnswersAs Text limit vars inputs ended text →
        SameAnswersAs Json limit vars inputs other object →
        (ended ≡ other) × IsRead (two_lists vars inputs) (λ lists. MayCompare limit lists.0 lists.1
        × ((RequireTheSame lists.0 lists.1 × (text ≡ codes "yes\n") × (object ≡ line_of same_value))
        ⊎ ((name : List ℕ) × (diagram : Diagram Question) × IsToldDifference lists name diagram
        × (text ≡ difference_text name diagram) × (object ≡ line_of (difference_value name diagram))))) }
{}

/// `covers` writes the same answer on two lists in both formats, and ends with the same status: that the
/// first covers the second, or the same package, marker and lines of the first place where it doesn't.
pub fn both_formats_of_covers_say_the_same()
    ensures { (limit : ℕ) (vars : Variables) (inputs : List (List ℕ)) (ended other : Status)
        (text object : List ℕ) → CoversAnswersAs Text limit vars inputs ended text →
        CoversAnswersAs Json limit vars inputs other object →
        (ended ≡ other) × IsRead (two_lists vars inputs) (λ lists. MayCompare limit lists.0 lists.1
        × ((CoversLines lists.0 lists.1 × (text ≡ codes "yes\n") × (object ≡ line_of covers_value))
        ⊎ ((name : List ℕ) × (diagram : Diagram Question) × (numbers : List ℕ)
        × IsToldUncovered lists name diagram numbers × (text ≡ uncovered_text name diagram numbers)
        × (object ≡ line_of (uncovered_value name diagram numbers))))) }
{}

/// `conflicts` writes the same conflicts of a list in both formats: those of the list.
pub fn both_formats_have_the_same_conflicts()
    ensures { (limit : ℕ) (vars : Variables) (inputs : List (List ℕ)) (ended other : Status)
        (text object : List ℕ) → ConflictsAnswerAs Text limit vars inputs ended text →
        ConflictsAnswerAs Json limit vars inputs other object →
        (ended ≡ other) × IsRead (one_list vars inputs) (λ lines. (found : List ConflictRecord)
        × FindsConflicts (λ all. all) limit lines (Ok found) × (text ≡ conflicts_text found)
        × (object ≡ line_of (conflicts_value found))) }
{}

/// `normal` writes the same lines of a list in both formats: those of its normal text.
pub fn both_formats_have_the_same_normal_text()
    ensures { (vars : Variables) (inputs : List (List ℕ)) (ended other : Status) (text object : List ℕ) →
        NormalAnswersAs Text vars inputs ended text → NormalAnswersAs Json vars inputs other object →
        (ended ≡ other) × IsRead (one_list vars inputs) (λ lines. IsNormalText lines text
        × (object ≡ line_of (normal_value text))) }
{}
