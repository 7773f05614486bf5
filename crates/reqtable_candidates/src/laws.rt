//! Laws about the definitions that the contracts cite. The functions do nothing: each one's contract is its
//! law.

ghost use Rattle.std.specs.Prelude.{◌≡◌, ◌↔◌, ℕ, List, Ok, Err};
ghost use Rattle.std.specs.List.{AllZip};
ghost use Rattle.std.specs.Str.{IsUtf8};
ghost use Rattle.reqtable_candidates.specs.declared.candidates.Candidate.{Candidate};
ghost use Rattle.reqtable_candidates.specs.declared.candidates.CandidateFault.{CandidateFault};
ghost use Rattle.reqtable_candidates.specs.declared.candidates.CandidatesError.TheVariants.{Line};
ghost use Rattle.reqtable_candidates.specs.TextLines.{text_lines};
ghost use Rattle.reqtable_candidates.specs.CandidateLine.{candidate_of};
ghost use Rattle.reqtable_candidates.specs.CandidateText.{IsCandidateLine, IsNumberedCandidate, IsFirstFault};
ghost use Rattle.reqtable_candidates.specs.Candidates.{candidates_of, HavePrintableVersions};

use pep440_text::laws::{read_is_printable, version_text_is_read};

/// A text is read as a candidate exactly if the grammar says that it is that candidate's line.
pub fn candidate_line_is_read()
    ensures { (line : List ℕ) (candidate : Candidate) → IsUtf8 line →
        (candidate_of line ≡ Ok candidate) ↔ IsCandidateLine line candidate }
{
    version_text_is_read();
}

/// A text is the line of at most one candidate.
pub fn text_is_one_candidate_line()
    ensures { (line : List ℕ) (candidate other : Candidate) → IsUtf8 line →
        IsCandidateLine line candidate → IsCandidateLine line other → candidate ≡ other }
{
    version_text_is_read();
}

/// Bytes are read as a candidate list exactly if they are UTF-8 and each line that is not blank is a
/// candidate's; these are the candidates that are read, in order.
pub fn candidates_are_their_lines()
    ensures { (bytes : List ℕ) (candidates : List Candidate) →
        (candidates_of bytes ≡ Ok candidates) ↔
        (IsUtf8 bytes × AllZip IsNumberedCandidate (text_lines bytes) candidates) }
{
    version_text_is_read();
}

/// `Line` has the number of the first line that is not a candidate, and what is wrong with it.
pub fn first_line_at_fault_is_named()
    ensures { (bytes : List ℕ) (number : ℕ) (cause : CandidateFault) →
        (candidates_of bytes ≡ Err (Line number cause)) ↔
        (IsUtf8 bytes × IsFirstFault (text_lines bytes) number cause) }
{
    version_text_is_read();
}

/// Each candidate that is read from a list has a version that can be written, whose print is read as that
/// version.
pub fn candidates_have_printable_versions()
    ensures { (bytes : List ℕ) (candidates : List Candidate) → candidates_of bytes ≡ Ok candidates →
        HavePrintableVersions candidates }
{
    version_text_is_read();
    read_is_printable();
}
