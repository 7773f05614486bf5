//! Laws about lists where a condition holds. The functions do nothing: each one's contract is its law.

ghost use Rattle.std.specs.Prelude.{◌≡◌, ◌↔◌, ℕ, Bool, true, false, [], List};
ghost use Rattle.pep508_diagram.specs.Question.{Valuation};
ghost use Rattle.reqtable_requirements.specs.Asks.{lines_of};
ghost use Rattle.reqtable_requirements.specs.LineReading.{LineRecord};
ghost use Rattle.reqtable_cases.specs.Conflicts.{AreConflicts};
ghost use Rattle.reqtable_cases.specs.Requires.{RequireTheSame, asked_of};
ghost use Rattle.reqtable_covers.specs.Covering.{CoversLines};
ghost use Rattle.reqtable_assumption.specs.Where.{Condition, is_met, lines_where, RequireTheSameWhere};
ghost use Rattle.reqtable_assumption.specs.Where.{CoversLinesWhere, AreConflictsWhere};

/// Restricted lines require what the lines do where the condition holds, and nothing elsewhere.
pub fn a_condition_restricts()
    ensures met { (formula : Condition) (lines : List LineRecord) (name : List ℕ) (v : Valuation) →
        is_met formula v ≡ true → asked_of name v (lines_where formula lines) ≡ asked_of name v lines }
    ensures unmet { (formula : Condition) (lines : List LineRecord) (name : List ℕ) (v : Valuation) →
        is_met formula v ≡ false → asked_of name v (lines_where formula lines) ≡ [] }
{}

/// Two restricted lists require the same exactly if the lists do wherever the condition holds.
pub fn same_lists_where_a_condition_holds()
    ensures { (formula : Condition) (left right : List LineRecord) →
        RequireTheSame (lines_where formula left) (lines_where formula right)
        ↔ RequireTheSameWhere formula left right }
{}

/// A restricted list covers another exactly if the list does wherever the condition holds.
pub fn covered_lists_where_a_condition_holds()
    ensures { (formula : Condition) (lock lines : List LineRecord) →
        CoversLines (lines_where formula lock) (lines_where formula lines)
        ↔ CoversLinesWhere formula lock lines }
{}

/// The conflicts of a package's restricted lines are those of its lines in cases that there are where the
/// condition holds.
pub fn conflicts_where_a_condition_holds()
    ensures lines { (formula : Condition) (lines : List LineRecord) (name : List ℕ) →
        lines_of name (lines_where formula lines) ≡ lines_where formula (lines_of name lines) }
    ensures conflicts { (formula : Condition) (lines : List LineRecord) (found : List (List ℕ × Bool)) →
        AreConflicts (lines_where formula lines) found ↔ AreConflictsWhere formula lines found }
{}
