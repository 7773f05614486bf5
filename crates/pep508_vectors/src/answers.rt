//! The answers.

use crate::urls;
use pep508_url::Vars;
use serde_json::{Error, Value};
use std::alloc::{AllocError, Global};

/// The directory of relative paths.
pub const DIRECTORY: &str = "/w";

/// Returns the answer to a question; `no question` for another form.
pub fn answer(alloc: Global, vars: &Vars, question: &str) -> Result<String, AllocError> {
    match Value::from_str(alloc, question) {
        Ok(question) => told(alloc, vars, &question),
        Err(error) => no_json(alloc, "no question", &error),
    }
}

/// Returns the answer where a text is not JSON.
pub fn no_json(alloc: Global, answer: &str, error: &Error) -> Result<String, AllocError> {
    if error.is_memory() {
        Err(AllocError)
    } else {
        String::from_str(alloc, answer)
    }
}

fn told(alloc: Global, vars: &Vars, question: &Value) -> Result<String, AllocError> {
    urls::answer(
        alloc,
        vars,
        text_at(question, 0),
        text_at(question, 1),
        text_at(question, 2),
    )
}

/// Returns the text at a place of a list; empty where there is none.
fn text_at(question: &Value, place: usize) -> &str {
    question.get(place).and_then(Value::as_str).unwrap_or("")
}
