//! Laws about answers. The functions do nothing: each one's contract is its law.

ghost use Rattle.std.specs.Prelude.{◌≡◌, ℕ, List, filter};
ghost use Rattle.std.specs.List.Sorted.{IsPermutation};
ghost use Rattle.std.specs.Str.{bytes_eq};
ghost use Rattle.pep508_requirement_text.specs.FrontReading.{Front};
ghost use Rattle.reqtable_candidates.specs.declared.candidates.Candidate.{Candidate};
ghost use Rattle.reqtable_answer.specs.Asks.{is_of};
ghost use Rattle.reqtable_answer.specs.Answer.{Admits, RowRecord, IsRow, IsAnswer, IsAnswerText, row_text};

/// Requirements and candidates have only one answer.
pub fn there_is_one_answer()
    ensures { (admits : Admits) (asks : List Front) (candidates : List Candidate)
        (rows others : List RowRecord) →
        IsAnswer admits asks candidates rows → IsAnswer admits asks candidates others → rows ≡ others }
{}

/// Requirements and candidates have only one answer text.
pub fn the_answer_has_one_text()
    ensures { (admits : Admits) (asks : List Front) (candidates : List Candidate) (a b : List ℕ) →
        IsAnswerText admits asks candidates a → IsAnswerText admits asks candidates b → a ≡ b }
{}

/// The order of the requirements doesn't change the answer.
pub fn order_of_asks_changes_nothing()
    ensures { (admits : Admits) (asks others : List Front) (candidates : List Candidate)
        (rows : List RowRecord) → IsPermutation asks others →
        IsAnswer admits asks candidates rows → IsAnswer admits others candidates rows }
{}

/// Requirements on other packages don't change a package's row.
pub fn other_packages_change_no_row()
    ensures { (admits : Admits) (asks others : List Front) (candidates : List Candidate) (row : RowRecord) →
        filter (is_of row.name) asks ≡ filter (is_of row.name) others →
        IsRow admits asks candidates row → IsRow admits others candidates row }
{}

/// Candidates of other packages don't change a package's line of text.
pub fn other_candidates_change_no_line()
    ensures { (admits : Admits) (asks : List Front) (candidates others : List Candidate)
        (row other : RowRecord) →
        IsRow admits asks candidates row → IsRow admits asks others other → row.name ≡ other.name →
        filter (λ c. bytes_eq row.name c.name) candidates ≡ filter (λ c. bytes_eq row.name c.name) others →
        row_text candidates row ≡ row_text others other }
{}
