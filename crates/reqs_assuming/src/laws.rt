//! Laws about what is answered where a condition holds. The functions do nothing: each one's contract is its
//! law.

ghost use Rattle.std.specs.Prelude.{ℕ, List};
ghost use Rattle.reqtable_assumption.specs.Where.{Condition, RequireTheSameWhere, CoversLinesWhere};
ghost use Rattle.reqs_io_faults.specs.declared.fault.Status.TheVariants.{Answered};
ghost use Rattle.reqs_json.specs.declared.format.Format.{Format};
ghost use Rattle.reqs_lists.specs.Comparison.{Lists, IsSameAnswer};
ghost use Rattle.reqs_lists.specs.Covered.{IsCoversAnswer};
ghost use Rattle.reqs_assuming.specs.Lists.{both_where};

/// Where `same` says yes of restricted lists, the lists require the same wherever the condition holds; so it
/// is with `covers`.
pub fn yes_is_said_where_the_condition_holds()
    ensures same { (condition : Condition) (format : Format) (limit : ℕ) (lists : Lists) (text : List ℕ) →
        IsSameAnswer format limit (both_where condition lists) Answered text →
        RequireTheSameWhere condition lists.0 lists.1 }
    ensures covers { (condition : Condition) (format : Format) (limit : ℕ) (lists : Lists) (text : List ℕ) →
        IsCoversAnswer format limit (both_where condition lists) Answered text →
        CoversLinesWhere condition lists.0 lists.1 }
{}
