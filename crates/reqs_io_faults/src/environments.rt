//! A list of environments.
//!
//! The list is looked at as a whole before any member: floats, then that it is a list, then each element's
//! shape. So which of these faults is reported does not depend on what members come before.

ghost use Rattle.std.specs.Prelude.{◌≡◌, map, Some};
ghost use Rattle.std.specs.List.{list_all};
ghost use Rattle.serde_json.specs.Read.{read};
ghost use Rattle.serde_json.specs.View.{view, items_view};
ghost use Rattle.reqs_io_faults.specs.Faults.{AnswersRun};
ghost use Rattle.reqs_io_faults.specs.Inputs.{is_object, environments_of, environments_listed};
ghost use Rattle.reqs_io_faults.specs.Inputs.{environments_in, environments_from};

use crate::fault::{Input, JsonShape, RunFault};
use crate::input::{environment_of, text_of, value_of};
use pep508_environment::{MarkerEnvironment, has_float};
use serde_json::Value;
use std::alloc::Global;

/// Parses a list of environments, numbered from 1, and drops its bytes.
///
/// # Errors
///
/// `RunFault::NotText`, `Json`, `Float`, `Shape`, `Member` or `Version` for the first thing that is wrong,
/// `RunFault::Memory` when memory runs out.
pub fn read_environments(
    alloc: Global,
    input: Input,
    bytes: &mut Vec<u8>,
) -> Result<Vec<MarkerEnvironment>, RunFault>
    ensures { AnswersRun (λ list. list.items) result (environments_from input bytes.old.items) }
{
    let read = environments_from(alloc, input, bytes);
    *bytes = Vec::new(alloc);
    read
}

/// The environments of a JSON list in UTF-8.
#[tactic(auto, unfolding(crate::specs::Inputs::environments_from))]
fn environments_from(
    alloc: Global,
    input: Input,
    bytes: &[u8],
) -> Result<Vec<MarkerEnvironment>, RunFault>
    ensures { AnswersRun (λ list. list.items) result (environments_from input bytes.now) }
{
    environments_of_text(alloc, input, text_of(input, bytes)?)
}

/// The environments of a JSON list as text.
fn environments_of_text(
    alloc: Global,
    input: Input,
    text: &str,
) -> Result<Vec<MarkerEnvironment>, RunFault>
    ensures { AnswersRun (λ list. list.items) result (environments_in input (read text.now)) }
{
    match value_of(alloc, input, text) {
        Ok(value) => environments_in(alloc, input, &value),
        Err(fault) => Err(fault),
    }
}

/// The environments of a value, which has to be a list of objects without floats.
fn environments_in(
    alloc: Global,
    input: Input,
    value: &Value,
) -> Result<Vec<MarkerEnvironment>, RunFault>
    ensures { AnswersRun (λ list. list.items) result (environments_in input (Some (view value.now))) }
{
    if has_float(value) {
        return Err(RunFault::Float { input });
    }
    match value.as_array() {
        Some(values) => environments_listed(alloc, input, values),
        None => Err(RunFault::Shape {
            input,
            wanted: JsonShape::List,
        }),
    }
}

/// The environments of a list's members, each of which has to be an object.
fn environments_listed(
    alloc: Global,
    input: Input,
    values: &[Value],
) -> Result<Vec<MarkerEnvironment>, RunFault>
    ensures { AnswersRun (λ list. list.items) result
        (environments_listed input (Some (items_view values.now))) }
{
    if are_objects(values) {
        each_environment(alloc, input, values)
    } else {
        Err(RunFault::Shape {
            input,
            wanted: JsonShape::Object,
        })
    }
}

fn are_objects(values: &[Value]) -> bool
    ensures { result ≡ list_all is_object (map view values.now) }
{
    for value in values {
        if !value.is_object() {
            return false;
        }
    }
    true
}

/// The environments of objects, or the fault of the first that is not an environment.
fn each_environment(
    alloc: Global,
    input: Input,
    values: &[Value],
) -> Result<Vec<MarkerEnvironment>, RunFault>
    ensures { AnswersRun (λ list. list.items) result
        (environments_of input 1 (map view values.now)) }
{
    let mut environments = Vec::with_capacity(alloc, values.len())?;
    for (place, value) in values.iter().enumerate() {
        match environment_of(alloc, input, place + 1, value) {
            Ok(environment) => environments.push(environment)?,
            Err(fault) => return Err(fault),
        }
    }
    Ok(environments)
}
