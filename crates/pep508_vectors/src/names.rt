//! Answers on names.

use crate::values;
use pep508_environment::EnvironmentError;
use pep508_name::{ExtraName, InvalidNameError, PackageName, is_name};
use pep508_url::Vars;
use serde_json::Value;
use std::alloc::{AllocError, Global};
use std::cmp::Ordering;
use std::fmt::Debug;
use std::hash::{DefaultHasher, Hash, Hasher};

/// Returns the answer to a question on names, or to one of another kind.
pub fn answer(
    alloc: Global,
    vars: &Vars,
    kind: &str,
    text: &str,
    other: &str,
) -> Result<String, AllocError> {
    match kind {
        "name" | "dist-info" | "packages" => of_package(alloc, kind, text, other),
        "package" => package(alloc, text),
        "extra" => extra(alloc, text),
        "extra-names" => extras(alloc, text, other),
        "want of memory" => want_of_memory(alloc),
        _ => values::answer(alloc, vars, kind, text, other),
    }
}

fn of_package(alloc: Global, kind: &str, text: &str, other: &str) -> Result<String, AllocError> {
    match PackageName::from_str(alloc, text) {
        Ok(name) => told(alloc, kind, &name, other),
        Err(error) => refused(alloc, &error),
    }
}

/// Returns the answer where a text is not a name.
pub fn refused(alloc: Global, error: &InvalidNameError) -> Result<String, AllocError> {
    match error {
        InvalidNameError::Memory => Err(AllocError),
        error => format!(in alloc; "refused: {error}"),
    }
}

fn told(alloc: Global, kind: &str, name: &PackageName, other: &str) -> Result<String, AllocError> {
    match kind {
        "name" => name.to_string(alloc),
        "dist-info" => name.as_dist_info_name(alloc)?.into_owned(alloc),
        _ => packages(alloc, name, other),
    }
}

/// Returns the order of two names of packages, and whether their hashes are equal.
fn packages(alloc: Global, left: &PackageName, right: &str) -> Result<String, AllocError> {
    match PackageName::from_str(alloc, right) {
        Ok(right) => compared(alloc, left, &right),
        Err(error) => refused(alloc, &error),
    }
}

/// Returns the order of two names of extras, and whether their hashes are equal.
fn extras(alloc: Global, left: &str, right: &str) -> Result<String, AllocError> {
    match ExtraName::from_str(alloc, left) {
        Ok(left) => beside(alloc, &left, right),
        Err(error) => refused(alloc, &error),
    }
}

fn beside(alloc: Global, left: &ExtraName, right: &str) -> Result<String, AllocError> {
    match ExtraName::from_str(alloc, right) {
        Ok(right) => compared(alloc, left, &right),
        Err(error) => refused(alloc, &error),
    }
}

/// Returns the order of two values, and whether their hashes are equal.
pub fn compared<T: Ord + Hash>(alloc: Global, left: &T, right: &T) -> Result<String, AllocError> {
    let sign = sign(left.cmp(right));
    let is_one = hash_of(left) == hash_of(right);
    format!(in alloc; "{sign}, one hash {is_one}")
}

fn sign(ordering: Ordering) -> &'static str {
    match ordering {
        Ordering::Less => "<",
        Ordering::Equal => "=",
        Ordering::Greater => ">",
    }
}

fn hash_of<T: Hash>(value: &T) -> u64 {
    let mut hasher = DefaultHasher::new();
    value.hash(&mut hasher);
    hasher.finish()
}

/// Returns the name of a package: as programmers see it, as a value, and whether its copy is equal.
fn package(alloc: Global, text: &str) -> Result<String, AllocError> {
    match PackageName::new(alloc, String::from_str(alloc, text)?) {
        Ok(name) => package_told(alloc, &name),
        Err(error) => no_name(alloc, &error),
    }
}

fn package_told(alloc: Global, name: &PackageName) -> Result<String, AllocError> {
    let is_same = name.try_clone(alloc)? == *name;
    let value = name.to_value(alloc)?;
    shown(alloc, name, &value, is_same)
}

/// Returns the name of an extra: as programmers see it, as a value, and whether its copy is equal.
fn extra(alloc: Global, text: &str) -> Result<String, AllocError> {
    match ExtraName::new(alloc, String::from_str(alloc, text)?) {
        Ok(name) => extra_told(alloc, &name),
        Err(error) => no_name(alloc, &error),
    }
}

fn extra_told(alloc: Global, name: &ExtraName) -> Result<String, AllocError> {
    let is_same = name.try_clone(alloc)? == *name;
    let value = name.to_value(alloc)?;
    shown(alloc, name, &value, is_same)
}

fn shown<T: Debug>(
    alloc: Global,
    name: &T,
    value: &Value,
    is_same: bool,
) -> Result<String, AllocError> {
    format!(in alloc; "{name:?}, value {value}, equal {is_same}")
}

/// Returns the text that is not a name, as a copy of the error keeps it, and whether `is_name` accepts it.
pub fn no_name(alloc: Global, error: &InvalidNameError) -> Result<String, AllocError> {
    let copy = error.try_clone(alloc)?;
    kept(alloc, &copy)
}

fn kept(alloc: Global, error: &InvalidNameError) -> Result<String, AllocError> {
    match error {
        InvalidNameError::Memory => Err(AllocError),
        error => text_kept(alloc, error.as_str()),
    }
}

fn text_kept(alloc: Global, text: &str) -> Result<String, AllocError> {
    let is_name = is_name(text);
    format!(in alloc; "refused: {text}, a name {is_name}")
}

/// Returns the prints of the errors of memory, and the text that the one of a name keeps.
fn want_of_memory(alloc: Global) -> Result<String, AllocError> {
    let (name, environment) = (InvalidNameError::Memory, EnvironmentError::Memory);
    memory_shown(alloc, &name, &environment)
}

fn memory_shown(
    alloc: Global,
    name: &InvalidNameError,
    environment: &EnvironmentError,
) -> Result<String, AllocError> {
    let text = name.as_str();
    format!(in alloc; "{name} for `{text}`, {environment}")
}
