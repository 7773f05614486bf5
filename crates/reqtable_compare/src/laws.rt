//! Laws about comparing lists. The functions do nothing: each one's contract is its law.

ghost use Rattle.std.specs.Prelude.{◌≡◌, ◌↔◌, ℕ, List, None, Ok};
ghost use Rattle.pep508_diagram.specs.Question.{Valuation};
ghost use Rattle.pep508_url.specs.Vars.{Variables};
ghost use Rattle.reqtable_candidates.specs.declared.candidates.Candidate.{Candidate};
ghost use Rattle.reqtable_answer.specs.Answer.{Admits, RowRecord, IsAnswer, IsAnswerText};
ghost use Rattle.reqtable_requirements.specs.LineReading.{LineRecord};
ghost use Rattle.reqtable_requirements.specs.Asks.{asks_of};
ghost use Rattle.reqtable_requirements.specs.Requirements.{requirements_of};
ghost use Rattle.reqtable_cases.specs.Requires.{RequireTheSame};
ghost use Rattle.reqtable_compare.specs.Refusals.{line_refusal};
ghost use Rattle.reqtable_compare.specs.Answered.{AreOfTexts, ArePlain};

use pep440_specifier::laws::{a_read_specifier_is_built, specifier_text_is_read};
use reqtable_requirements::laws::requirements_are_their_lines;

/// Lists that can be compared and require the same have equal answers in each environment with extras, if all
/// candidates are plain (without a local part, and no post-releases), and under every admission test,
/// whatever it does with pre-releases.
pub fn texts_that_require_the_same_are_answered_alike()
    ensures rows { (left right : List LineRecord) → line_refusal left right ≡ None → AreOfTexts left →
        AreOfTexts right → RequireTheSame left right → (v : Valuation) (admits : Admits) →
        (candidates : List Candidate) → ArePlain candidates → (rows : List RowRecord) →
        IsAnswer admits (asks_of v left) candidates rows ↔ IsAnswer admits (asks_of v right) candidates rows }
    ensures text { (left right : List LineRecord) → line_refusal left right ≡ None → AreOfTexts left →
        AreOfTexts right → RequireTheSame left right → (v : Valuation) (admits : Admits) →
        (candidates : List Candidate) → ArePlain candidates → (text : List ℕ) →
        IsAnswerText admits (asks_of v left) candidates text
        ↔ IsAnswerText admits (asks_of v right) candidates text }
{}

/// The specifiers of lines that were read from a text are ones that can be written.
pub fn specifiers_of_read_lines_are_of_texts()
    ensures { (vars : Variables) (bytes : List ℕ) (lines : List LineRecord) →
        requirements_of vars bytes ≡ Ok lines → AreOfTexts lines }
{
    requirements_are_their_lines();
    specifier_text_is_read();
    a_read_specifier_is_built();
}
