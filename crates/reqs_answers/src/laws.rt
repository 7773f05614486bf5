//! Laws about what these commands write. The functions do nothing: each one's contract is its law.

ghost use Rattle.std.specs.Prelude.{◌≡◌, List, ℕ, map, Ok};
ghost use Rattle.std.specs.List.{AllZip};
ghost use Rattle.pep508_environment.specs.Environment.{EnvironmentRecord};
ghost use Rattle.pep508_evaluation.specs.Valuations.{valuation_of};
ghost use Rattle.reqtable_answer.specs.Answer.{IsAnswer, IsAnswerText, RowRecord, answer_text};
ghost use Rattle.reqtable_requirements.specs.Asks.{asks_of};
ghost use Rattle.reqtable_requirements.specs.LineReading.{LineRecord};
ghost use Rattle.reqtable_candidates.specs.declared.candidates.Candidate.{Candidate};
ghost use Rattle.reqs_json.specs.declared.format.Format.TheVariants.{Text, Json};
ghost use Rattle.reqs_json.specs.Lines.{line_of};
ghost use Rattle.reqs_json.specs.Rows.{answer_value, answers_value};
ghost use Rattle.reqs_answers.specs.Check.{on_request, CheckTexts, IsCheckText};
ghost use Rattle.reqs_answers.specs.Matrix.{AreAnswers, IsMatrixText, IsMatrixIn, numbered};
ghost use Rattle.reqs_answers.specs.Texts.{ReadTexts};

/// `matrix` writes what `check` writes for one environment after another, each after its environment's line.
pub fn matrix_writes_what_check_writes()
    ensures { (extras : List (List ℕ)) (lines : List LineRecord) (candidates : List Candidate)
        (environments : List EnvironmentRecord) (answers : List (List ℕ)) (text : List ℕ) → AllZip
        (λ e answer. IsAnswerText on_request (asks_of (valuation_of e extras) lines) candidates answer)
        environments answers →
        IsMatrixText on_request extras lines candidates 1 environments text → text ≡ numbered 1 answers }
{}

/// `check` writes the same rows in both formats, those of the inputs' answer.
pub fn both_formats_have_the_same_rows()
    ensures { (texts : CheckTexts) (lines object : List ℕ) →
        IsCheckText Text texts lines → IsCheckText Json texts object →
        (read : ReadTexts EnvironmentRecord) × (rows : List RowRecord) × (texts ≡ Ok read)
        × IsAnswer on_request (asks_of (valuation_of read.second read.extras) read.lines) read.candidates rows
        × (lines ≡ answer_text read.candidates rows)
        × (object ≡ line_of (answer_value read.candidates rows)) }
{}

/// `matrix` writes the same rows in both formats, environment by environment.
pub fn both_formats_of_matrix_have_the_same_rows()
    ensures { (extras : List (List ℕ)) (lines : List LineRecord) (candidates : List Candidate)
        (environments : List EnvironmentRecord) (text object : List ℕ) →
        IsMatrixIn Text on_request extras lines candidates environments text →
        IsMatrixIn Json on_request extras lines candidates environments object →
        (answers : List (List RowRecord))
        × AreAnswers on_request extras lines candidates environments answers
        × (text ≡ numbered 1 (map (answer_text candidates) answers))
        × (object ≡ line_of (answers_value candidates answers)) }
{}
