//! Why an answer ends before its question is answered, and writers of answers.

use std::alloc::AllocError;
use std::fmt::{Display, Write};

/// Lack of memory, or an answer that is written already: how a text is refused, or what is wrong with the
/// question.
#[derive(Clone, Copy)]
pub enum Stop {
    Memory,
    Told,
}

impl From<AllocError> for Stop {
    fn from(_: AllocError) -> Stop {
        Stop::Memory
    }
}

/// Whether a question was answered to its end.
pub type Told = Result<(), Stop>;

/// Returns the stop after an answer was written, if there was memory for it.
pub fn stop_behind(written: Result<(), AllocError>) -> Stop {
    match written {
        Ok(()) => Stop::Told,
        Err(_) => Stop::Memory,
    }
}

/// Returns whether an answer was written, if there was memory for it.
pub fn answered(written: Result<(), AllocError>) -> Told {
    match written {
        Ok(()) => Ok(()),
        Err(_) => Err(Stop::Memory),
    }
}

/// Answers with a few words.
pub fn said(answer: &mut String, words: &str) -> Told {
    answered(answer.push_str(words))
}

/// Answers with yes or no.
pub fn truth(answer: &mut String, holds: bool) -> Told {
    said(answer, if holds { "true" } else { "false" })
}

/// Answers with the print of a value.
pub fn put<T: Display>(answer: &mut String, value: &T) -> Told {
    answered(write!(answer, "{value}"))
}

/// Answers with the print of a value that may be absent, or with these words.
pub fn put_or<T: Display + Drop>(
    answer: &mut String,
    found: Result<Option<T>, AllocError>,
    absent: &str,
) -> Told {
    match found {
        Ok(Some(value)) => put(answer, &value),
        Ok(None) => said(answer, absent),
        Err(_) => Err(Stop::Memory),
    }
}

/// Answers with two texts, one after the other.
pub fn both(answer: &mut String, front: &str, back: &str) -> Told {
    answered(write!(answer, "{front}{back}"))
}
