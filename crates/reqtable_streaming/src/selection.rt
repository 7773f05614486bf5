//! An answer with the candidates that it selects.

use reqtable_answer::Answer;
use reqtable_candidates::Candidate;

/// An answer, and the candidates that it selects, which it names by their index in this list.
#[derive(Debug, Drop)]
pub struct Selection {
    pub answer: Answer,
    /// The selected candidates, in the order of the answer's rows.
    pub candidates: Vec<Candidate>,
}
