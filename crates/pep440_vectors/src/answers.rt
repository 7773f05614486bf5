//! The answers. Each is appended to one text, so that no function below owns a text.

use crate::{built, lists, patterns, releases, sets, specifiers, values, versions};
use serde_json::{Error, Value};
use std::alloc::{AllocError, Global};
use std::cmp::Ordering;
use std::fmt::{Display, Write};
use std::hash::{DefaultHasher, Hash, Hasher};

/// Whether there was memory for an answer.
pub type Told = Result<(), AllocError>;

/// The answer where a text is invalid.
pub const REFUSED: &str = "refused";

/// Returns the answer to a question: `refused` where a text can't be read, `no question` for another form.
pub fn answer(alloc: Global, question: &str) -> Result<String, AllocError> {
    let mut answer = String::new(alloc);
    told(alloc, &mut answer, question)?;
    Ok(answer)
}

fn told(alloc: Global, answer: &mut String, question: &str) -> Told {
    match Value::from_str(alloc, question) {
        Ok(question) => of_texts(
            alloc,
            answer,
            text_at(&question, 0),
            text_at(&question, 1),
            text_at(&question, 2),
            text_at(&question, 3),
        ),
        Err(error) => no_json(answer, "no question", &error),
    }
}

/// Appends the answer where a text is not JSON.
pub fn no_json(answer: &mut String, words: &str, error: &Error) -> Told {
    if error.is_memory() {
        Err(AllocError)
    } else {
        answer.push_str(words)
    }
}

/// Returns the text at a place of a list; empty where there is none.
fn text_at(question: &Value, place: usize) -> &str {
    question.get(place).and_then(Value::as_str).unwrap_or("")
}

fn of_texts(
    alloc: Global,
    answer: &mut String,
    kind: &str,
    first: &str,
    second: &str,
    third: &str,
) -> Told {
    if versions::KINDS.contains(&kind) {
        versions::of_text(alloc, answer, kind, first, second)
    } else if specifiers::KINDS.contains(&kind) {
        specifiers::of_text(alloc, answer, kind, first, second)
    } else if lists::KINDS.contains(&kind) {
        lists::of_text(alloc, answer, kind, first, second)
    } else {
        of_others(alloc, answer, kind, first, second, third)
    }
}

/// Answers a question on what is neither a version nor a specifier nor a list.
fn of_others(
    alloc: Global,
    answer: &mut String,
    kind: &str,
    first: &str,
    second: &str,
    third: &str,
) -> Told {
    match kind {
        "pattern" | "pattern copy" | "patterns" => {
            patterns::of_text(alloc, answer, kind, first, second)
        }
        "value" | "specifier value" | "list value" => values::of_text(alloc, answer, kind, first),
        "below" | "up to" | "but from" | "but up to" | "around" => {
            releases::of_texts(alloc, answer, kind, first, second, third)
        }
        "union" | "intersection" => sets::of_two(alloc, answer, kind, first, second, third),
        "of pattern" | "of version" => built::of_texts(alloc, answer, kind, first, second),
        "list of" => lists::of_members(alloc, answer, [first, second, third]),
        "operator" => specifiers::operator(alloc, answer, first),
        "want of memory" => specifiers::want_of_memory(answer, first),
        "operators" => specifiers::operators(alloc, answer),
        "specifiers of 1" => specifiers::made_of_operators(alloc, answer),
        "pattern of 1.2" => patterns::made(alloc, answer),
        "no intervals" => releases::no_intervals(alloc, answer),
        "changed" => versions::changed(alloc, answer),
        _ => answer.push_str("no question"),
    }
}

/// Appends the print of a value.
pub fn shown<T: Display>(answer: &mut String, value: &T) -> Told {
    write!(answer, "{value}")
}

pub fn yes_or_no(answer: &mut String, found: Result<bool, AllocError>) -> Told {
    answer.push_str(if found? { "true" } else { "false" })
}

pub fn sign(ordering: Ordering) -> &'static str {
    match ordering {
        Ordering::Less => "<",
        Ordering::Equal => "=",
        Ordering::Greater => ">",
    }
}

pub fn hash_of<T: Hash>(value: &T) -> u64 {
    let mut hasher = DefaultHasher::new();
    value.hash(&mut hasher);
    hasher.finish()
}
