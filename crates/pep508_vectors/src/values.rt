//! Answers on JSON values.

use crate::answers::no_json;
use crate::{names, requirements};
use pep508_environment::{EnvironmentError, MarkerEnvironment};
use pep508_name::{ExtraName, InvalidNameError, PackageName, RequirementOrigin};
use pep508_url::Vars;
use read_outcome::FromValueError;
use serde_json::{Error, Value};
use std::alloc::{AllocError, Global};

/// Returns the answer to a question on JSON values, or to one of another kind.
pub fn answer(
    alloc: Global,
    vars: &Vars,
    kind: &str,
    text: &str,
    other: &str,
) -> Result<String, AllocError> {
    match kind {
        "origin" | "origin-fault" | "package-value" | "extra-value" | "environment" | "value" => {
            of_text(alloc, vars, kind, text)
        }
        "origins" => origins(alloc, text, other),
        _ => requirements::answer(alloc, vars, kind, text, other),
    }
}

fn of_text(alloc: Global, vars: &Vars, kind: &str, text: &str) -> Result<String, AllocError> {
    match Value::from_str(alloc, text) {
        Ok(value) => told(alloc, vars, kind, &value),
        Err(error) => no_value(alloc, kind, &error),
    }
}

fn no_value(alloc: Global, kind: &str, error: &Error) -> Result<String, AllocError> {
    if kind == "origin" {
        no_json(alloc, "refused", error)
    } else {
        no_json(alloc, "no JSON", error)
    }
}

fn told(alloc: Global, vars: &Vars, kind: &str, value: &Value) -> Result<String, AllocError> {
    match kind {
        "origin" => origin(alloc, value),
        "origin-fault" => origin_fault(alloc, value),
        "package-value" => package(alloc, value),
        "extra-value" => extra(alloc, value),
        "environment" => environment(alloc, value),
        _ => requirements::of_value(alloc, vars, value),
    }
}

/// Returns the name of a package that a JSON value is.
fn package(alloc: Global, value: &Value) -> Result<String, AllocError> {
    match PackageName::from_value(alloc, value) {
        Ok(name) => String::from_str(alloc, name.as_str()),
        Err(error) => no_name(alloc, &error),
    }
}

/// Returns the name of an extra that a JSON value is.
fn extra(alloc: Global, value: &Value) -> Result<String, AllocError> {
    match ExtraName::from_value(alloc, value) {
        Ok(name) => name.to_string(alloc),
        Err(error) => no_name(alloc, &error),
    }
}

fn no_name(alloc: Global, error: &FromValueError<InvalidNameError>) -> Result<String, AllocError> {
    match error {
        FromValueError::Shape => String::from_str(alloc, "shape"),
        FromValueError::Text(error) => names::no_name(alloc, error),
    }
}

/// Returns an origin's value and its path.
fn origin(alloc: Global, value: &Value) -> Result<String, AllocError> {
    match RequirementOrigin::from_value(alloc, value) {
        Ok(origin) => origin_told(alloc, &origin),
        Err(error) => refused(alloc, &error),
    }
}

fn origin_told(alloc: Global, origin: &RequirementOrigin) -> Result<String, AllocError> {
    let value = origin.to_value(alloc)?;
    let path = origin.path();
    format!(in alloc; "{value} of {path}")
}

fn refused(alloc: Global, error: &FromValueError<InvalidNameError>) -> Result<String, AllocError> {
    match error {
        FromValueError::Text(InvalidNameError::Memory) => Err(AllocError),
        _ => String::from_str(alloc, "refused"),
    }
}

/// Returns what is wrong with an origin's value.
fn origin_fault(alloc: Global, value: &Value) -> Result<String, AllocError> {
    match RequirementOrigin::from_value(alloc, value) {
        Ok(_) => String::from_str(alloc, "read"),
        Err(error) => no_origin(alloc, &error),
    }
}

fn no_origin(
    alloc: Global,
    error: &FromValueError<InvalidNameError>,
) -> Result<String, AllocError> {
    match error {
        FromValueError::Shape => String::from_str(alloc, "shape"),
        FromValueError::Text(error) => names::refused(alloc, error),
    }
}

/// Returns the full version of the interpreter, or what is wrong with the environment.
fn environment(alloc: Global, value: &Value) -> Result<String, AllocError> {
    match MarkerEnvironment::from_value(alloc, value) {
        Ok(environment) => environment.python_full_version().version.to_string(alloc),
        Err(error) => no_environment(alloc, &error),
    }
}

fn no_environment(alloc: Global, error: &EnvironmentError) -> Result<String, AllocError> {
    match error {
        EnvironmentError::Memory => Err(AllocError),
        error => format!(in alloc; "refused: {error}"),
    }
}

/// Returns the order of two origins, whether their hashes are equal, and whether the first one's copy is
/// equal.
fn origins(alloc: Global, left: &str, right: &str) -> Result<String, AllocError> {
    match Value::from_str(alloc, left) {
        Ok(left) => left_read(alloc, &left, right),
        Err(error) => no_json(alloc, "refused", &error),
    }
}

fn left_read(alloc: Global, left: &Value, right: &str) -> Result<String, AllocError> {
    match RequirementOrigin::from_value(alloc, left) {
        Ok(left) => beside(alloc, &left, right),
        Err(error) => refused(alloc, &error),
    }
}

fn beside(alloc: Global, left: &RequirementOrigin, right: &str) -> Result<String, AllocError> {
    match Value::from_str(alloc, right) {
        Ok(right) => right_read(alloc, left, &right),
        Err(error) => no_json(alloc, "refused", &error),
    }
}

fn right_read(
    alloc: Global,
    left: &RequirementOrigin,
    right: &Value,
) -> Result<String, AllocError> {
    match RequirementOrigin::from_value(alloc, right) {
        Ok(right) => compared(alloc, left, &right),
        Err(error) => refused(alloc, &error),
    }
}

fn compared(
    alloc: Global,
    left: &RequirementOrigin,
    right: &RequirementOrigin,
) -> Result<String, AllocError> {
    let is_same = left.try_clone(alloc)? == *left;
    let order = names::compared(alloc, left, right)?;
    format!(in alloc; "{order}, equal {is_same}")
}
