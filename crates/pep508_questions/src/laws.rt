//! Laws of the kinds of questions. The functions do nothing: each one's contract is its law.

ghost use Rattle.std.specs.Prelude.{◌≡◌, ◌≢◌, ◌↔◌, false};
ghost use Rattle.pep508_diagram.specs.Diagram.{Diagram, Leaf};
ghost use Rattle.pep508_diagram.specs.Question.{Question};
ghost use Rattle.pep508_marker_text_laws.specs.ReleaseBounds.{HasReleasesAlone};
ghost use Rattle.pep508_diagram.specs.Questions.{AllQuestions};
ghost use Rattle.pep508_reading_back.specs.Unquoted.{AsksOfModernKey, IsPlainDiagram, IsUnquotedDiagram};
ghost use Rattle.pep508_questions.specs.Asks.{asks_any, has_quote, is_of_deprecated_key, is_other_bound};

/// No question has a single quote exactly where no text of the diagram has one.
pub fn no_quote_is_asked()
    ensures { (diagram : Diagram Question) →
        (asks_any has_quote diagram ≡ false) ↔ IsUnquotedDiagram diagram }
{}

/// No question is about a key by an old name exactly where each is about a modern key.
pub fn no_old_key_is_asked()
    ensures { (diagram : Diagram Question) →
        (asks_any is_of_deprecated_key diagram ≡ false) ↔ AllQuestions AsksOfModernKey diagram }
{}

/// No question is about a version with more than epoch 0 and release numbers exactly where all versions are
/// releases of epoch 0.
pub fn no_other_bound_is_asked()
    ensures { (diagram : Diagram Question) →
        (asks_any is_other_bound diagram ≡ false) ↔ HasReleasesAlone diagram }
{}

/// A diagram is plain exactly where it has no question of the three kinds and sometimes holds.
pub fn nothing_is_asked_of_a_plain_diagram()
    ensures { (diagram : Diagram Question) →
        ((asks_any has_quote diagram ≡ false) × (asks_any is_of_deprecated_key diagram ≡ false)
        × (asks_any is_other_bound diagram ≡ false) × (diagram ≢ Leaf false)) ↔ IsPlainDiagram diagram }
{}
