//! The environments that questions refer to.

use crate::stop::{Stop, stop_behind};
use pep508_environment::{EnvironmentError, EnvironmentMember, MarkerEnvironment};
use serde_json::Value;
use std::alloc::Global;

/// Returns the environment of a name: the text after the name and a tab in a line of a text.
pub fn environment(
    alloc: Global,
    answer: &mut String,
    environments: &str,
    name: &str,
) -> Result<MarkerEnvironment, Stop> {
    match line_of(environments, name) {
        Some(text) => environment_of(alloc, answer, text),
        None => Err(stop_behind(answer.push_str("no environment"))),
    }
}

/// Returns the environment of a JSON text.
pub fn environment_of(
    alloc: Global,
    answer: &mut String,
    text: &str,
) -> Result<MarkerEnvironment, Stop> {
    match Value::from_str(alloc, text) {
        Ok(value) => environment_in(alloc, answer, &value),
        Err(error) if error.is_memory() => Err(Stop::Memory),
        Err(_) => Err(stop_behind(answer.push_str("no JSON"))),
    }
}

fn environment_in(
    alloc: Global,
    answer: &mut String,
    value: &Value,
) -> Result<MarkerEnvironment, Stop> {
    match MarkerEnvironment::from_value(alloc, value) {
        Ok(environment) => Ok(environment),
        Err(error) => Err(fault(answer, error)),
    }
}

/// Answers with what is wrong with an environment, and the name of the member at fault.
fn fault(answer: &mut String, error: EnvironmentError) -> Stop {
    let words = match error {
        EnvironmentError::Memory => return Stop::Memory,
        EnvironmentError::Float => "float",
        EnvironmentError::Shape => "shape",
        EnvironmentError::Member(member) | EnvironmentError::Version(member) => {
            EnvironmentMember::name(member)
        }
    };
    stop_behind(answer.push_str(words))
}

fn line_of<'a>(environments: &'a str, name: &str) -> Option<&'a str> {
    for line in environments.lines() {
        if let Some((front, back)) = line.split_once('\t') {
            if front == name {
                return Some(back);
            }
        }
    }
    None
}
