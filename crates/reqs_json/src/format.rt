//! The format in which an answer is written.
//!
//! A format is a parameter of what a command answers: which rows or lines are answered is stated once, and
//! the format says what text they have (`rows_text`, `IsMatrixIn`, `same_in`, `difference_in`,
//! `conflicts_in`, `normal_in`).

/// The format of an answer, and of the message for a fault.
#[derive(Clone, Copy, Debug, PartialEq, Eq)]
pub enum Format {
    /// Lines of text.
    Text,
    /// One JSON object, on one line.
    Json,
}
