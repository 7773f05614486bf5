//! Laws about normal texts. The functions do nothing: each one's contract is its law.

ghost use Rattle.std.specs.Prelude.{◌≡◌, ◌↔◌, ℕ, List, Ok};
ghost use Rattle.std.specs.List.{AllZip};
ghost use Rattle.pep508_diagram.specs.Question.{Valuation};
ghost use Rattle.pep508_url.specs.Vars.{Variables};
ghost use Rattle.reqtable_candidates.specs.declared.candidates.Candidate.{Candidate};
ghost use Rattle.reqtable_answer.specs.Answer.{Admits, IsAnswerText};
ghost use Rattle.reqtable_requirements.specs.Asks.{asks_of};
ghost use Rattle.reqtable_requirements.specs.LineReading.{LineRecord};
ghost use Rattle.reqtable_requirements.specs.Requirements.{requirements_of};
ghost use Rattle.reqtable_normal.specs.Meant.{SayAlike, LeavesOut, ReadsAs};
ghost use Rattle.reqtable_normal.specs.Normalized.{IsFirstFault, IsNormalText};
ghost use Rattle.reqtable_normal.specs.declared.error.NormalCause.{NormalCause};

use reqtable_requirements::laws::requirements_are_their_lines;

/// The lines of a text have at most one normal text.
pub fn there_is_one_normal_text()
    ensures { (said : List LineRecord) (text other : List ℕ) →
        IsNormalText said text → IsNormalText said other → text ≡ other }
{}

/// Lines that have a normal text are without fault.
pub fn what_has_a_normal_text_has_no_fault()
    ensures { (said : List LineRecord) (text : List ℕ) (number : ℕ) (cause : NormalCause) →
        IsNormalText said text → IsFirstFault said number cause → ⊥ }
{}

/// A normal text can be read, with any variables, as lines that require what the original lines do; so both
/// have the same answers.
pub fn a_normal_text_reads_back()
    ensures read { (vars others : Variables) (bytes text : List ℕ) (said : List LineRecord) →
        requirements_of vars bytes ≡ Ok said → IsNormalText said text → ReadsAs others text said }
    ensures answers { (vars others : Variables) (bytes text : List ℕ) (said again : List LineRecord)
        (v : Valuation) (admits : Admits) (candidates : List Candidate) (answer : List ℕ) →
        requirements_of vars bytes ≡ Ok said → IsNormalText said text →
        requirements_of others text ≡ Ok again →
        IsAnswerText admits (asks_of v said) candidates answer
        ↔ IsAnswerText admits (asks_of v again) candidates answer }
{
    requirements_are_their_lines();
}

/// Lists whose lines say the same in the same order, without those that never apply, have the same normal
/// text.
pub fn what_says_the_same_has_one_normal_text()
    ensures { (said others left right : List LineRecord) (text other : List ℕ) →
        LeavesOut said left → LeavesOut others right → AllZip SayAlike left right →
        IsNormalText said text → IsNormalText others other → text ≡ other }
{}

/// The normal text of a normal text is that text itself.
pub fn a_normal_text_is_its_own()
    ensures { (vars others : Variables) (bytes text : List ℕ) (said again : List LineRecord) →
        requirements_of vars bytes ≡ Ok said → IsNormalText said text →
        requirements_of others text ≡ Ok again → IsNormalText again text }
{
    requirements_are_their_lines();
}
