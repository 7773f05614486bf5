//! Answers on JSON values.

use crate::answers::{Told, no_json, shown};
use crate::{lists, specifiers, versions};
use pep440_specifier::VersionSpecifier;
use pep440_specifier_list::VersionSpecifiers;
use pep440_version::{FromValueError, Version};
use serde_json::Value;
use std::alloc::{AllocError, Global};

/// Answers a question on the text of a JSON value.
pub fn of_text(alloc: Global, answer: &mut String, kind: &str, text: &str) -> Told {
    match Value::from_str(alloc, text) {
        Ok(value) => told(alloc, answer, kind, &value),
        Err(error) => no_json(answer, "no JSON", &error),
    }
}

fn told(alloc: Global, answer: &mut String, kind: &str, value: &Value) -> Told {
    match kind {
        "value" => version(alloc, answer, value),
        "specifier value" => specifier(alloc, answer, value),
        _ => list(alloc, answer, value),
    }
}

/// Answers with the version that a JSON value is, and its value.
fn version(alloc: Global, answer: &mut String, value: &Value) -> Told {
    match Version::from_value(alloc, value) {
        Ok(version) => again(answer, version.to_value(alloc)),
        Err(FromValueError::Shape) => answer.push_str("shape"),
        Err(FromValueError::Text(error)) => versions::unread(answer, "value", &error),
    }
}

/// Answers with the specifier that a JSON value is, and its value.
fn specifier(alloc: Global, answer: &mut String, value: &Value) -> Told {
    match VersionSpecifier::from_value(alloc, value) {
        Ok(specifier) => again(answer, specifier.to_value(alloc)),
        Err(FromValueError::Shape) => answer.push_str("shape"),
        Err(FromValueError::Text(error)) => specifiers::unread(answer, "specifier value", &error),
    }
}

fn again(answer: &mut String, value: Result<Value, AllocError>) -> Told {
    shown(answer, &value?)
}

/// Answers with the list that a JSON value is.
fn list(alloc: Global, answer: &mut String, value: &Value) -> Told {
    match VersionSpecifiers::from_value(alloc, value) {
        Ok(list) => shown(answer, &list),
        Err(FromValueError::Shape) => answer.push_str("shape"),
        Err(FromValueError::Text(error)) => lists::unread(answer, "list value", &error),
    }
}
