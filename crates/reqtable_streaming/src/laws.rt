//! Laws about selections. The functions do nothing: each one's contract is its law.

ghost use Rattle.std.specs.Prelude.{◌≡◌, List};
ghost use Rattle.std.specs.List.{AllZip};
ghost use Rattle.pep508_requirement_text.specs.FrontReading.{Front};
ghost use Rattle.reqtable_candidates.specs.declared.candidates.Candidate.{Candidate};
ghost use Rattle.reqtable_answer.specs.Answer.{Admits, RowRecord, IsAnswer, answer_text};
ghost use Rattle.reqtable_streaming.specs.Selection.{IsRowAs, IsSelection};

/// Judging while candidates are read answers what judging their list does: the same rows, and the same text.
pub fn both_roads_have_one_answer()
    ensures rows { (admits : Admits) (asks : List Front) (candidates selected : List Candidate)
        (rows answer : List RowRecord) → IsSelection admits asks candidates selected rows →
        IsAnswer admits asks candidates answer → AllZip (IsRowAs selected candidates) rows answer }
    ensures text { (admits : Admits) (asks : List Front) (candidates selected : List Candidate)
        (rows answer : List RowRecord) → IsSelection admits asks candidates selected rows →
        IsAnswer admits asks candidates answer → answer_text selected rows ≡ answer_text candidates answer }
{}
