//! The parts of a question.

use pep508_name::{ExtraName, InvalidNameError};
use serde_json::Value;
use std::alloc::{AllocError, Global};

/// Returns the text at a place of a list; empty where there is none.
pub fn text_at(question: &Value, place: usize) -> &str {
    question.get(place).and_then(Value::as_str).unwrap_or("")
}

/// Returns the extras whose names are at a place and after it; an invalid name is left out.
pub fn extras_from(
    alloc: Global,
    question: &Value,
    first: usize,
) -> Result<Vec<ExtraName>, AllocError> {
    let mut extras = Vec::new(alloc);
    if let Some(texts) = question.as_array() {
        for text in texts.iter().skip(first) {
            push_extra(alloc, &mut extras, text.as_str().unwrap_or(""))?;
        }
    }
    Ok(extras)
}

fn push_extra(alloc: Global, extras: &mut Vec<ExtraName>, text: &str) -> Result<(), AllocError> {
    match ExtraName::from_str(alloc, text) {
        Ok(extra) => Ok(extras.push(extra)?),
        Err(InvalidNameError::Memory) => Err(AllocError),
        Err(InvalidNameError::InvalidName(_)) => Ok(()),
    }
}
