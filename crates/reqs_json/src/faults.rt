//! Faults as JSON objects.
//!
//! A fault's object has its kind and place, so that no program has to find them in the message. The message
//! is the text of the fault after its place, word for word, which a law states.

ghost use Rattle.std.specs.Prelude.{◌≡◌, ◌++◌, map, codes, None, IfOk, option_map, string_bytes};
ghost use Rattle.serde_json.specs.Data.{string};
ghost use Rattle.serde_json.specs.View.{view};
ghost use Rattle.reqs_io_faults.specs.Ends.{of_input};
ghost use Rattle.reqs_io_faults.specs.declared.fault.RunFault.TheVariants.{Memory};
ghost use Rattle.reqs_json.specs.Lines.{number_of, value_or_null, line_of};
ghost use Rattle.reqs_json.specs.Faults.{kind_of, input_in, line_in, start_in, length_in, place_in};
ghost use Rattle.reqs_json.specs.Faults.{nowhere, usage_value, excess_kind, excess_input, excess_line};
ghost use Rattle.reqs_json.specs.Faults.{error_members, error_value, fault_value, IsFaultLine};
ghost use Rattle.reqs_json.specs.Faults.{IsAssumptionLine};

use crate::json_lines::line_of;
use crate::messages::message_of;
use pep508_error::Pep508Error;
use pep508_url::VerbatimUrl;
use reqs_io_faults::{Excess, Input, RunFault};
use serde_json::{Value, json};
use std::alloc::{AllocError, Global};

/// The place of a fault in its input.
#[derive(Clone, Copy)]
pub(crate) struct Place {
    /// The number of the line, from 1.
    pub(crate) line: Option<usize>,
    /// The first byte at fault, from 0, in the line without its comment, or in the input if there is no line.
    pub(crate) start: Option<usize>,
    /// The number of bytes at fault.
    pub(crate) len: Option<usize>,
}

/// A fault as an object on a line: its kind, its message, and its place, with null for what it doesn't have.
/// `paths` are those of the inputs, in the order of the command line. Linear in the text.
///
/// # Errors
///
/// `AllocError` when memory runs out.
pub fn fault_line(alloc: Global, fault: &RunFault, paths: &[&str]) -> Result<String, AllocError>
    ensures { IfOk result (λ text.
        IsFaultLine (of_input (map (λ p. p.now) paths.now)) fault.now (string_bytes text)) }
{
    let message = message_of(alloc, fault)?;
    let path = path_of(fault, paths);
    error_line(
        alloc,
        kind_of(fault),
        message.as_str(),
        path,
        place_in(fault),
    )
}

/// The object, on a line, for a command line whose words are valid and which is invalid otherwise, with this
/// message.
///
/// # Errors
///
/// `AllocError` when memory runs out.
pub fn usage_line(alloc: Global, message: &str) -> Result<String, AllocError>
    ensures { IfOk result (λ text. string_bytes text ≡ line_of (usage_value message.now)) }
{
    let place = Place {
        line: None,
        start: None,
        len: None,
    };
    error_line(alloc, "command-line", message, None, place)
}

/// The object, on a line, for an assumption of the command line that is no marker, which has one line.
///
/// # Errors
///
/// `AllocError` when memory runs out.
pub fn assumption_line(
    alloc: Global,
    error: &Pep508Error<VerbatimUrl>,
) -> Result<String, AllocError>
    ensures { IfOk result (λ text. IsAssumptionLine error.now (string_bytes text)) }
{
    let message = error.to_string(alloc)?;
    let place = Place {
        line: Some(1),
        start: Some(error.start()),
        len: Some(error.len()),
    };
    error_line(alloc, "assumption", message.as_str(), None, place)
}

/// The object, on a line, for running out of memory; needs no memory.
pub fn memory_line() -> &'static str
    ensures { result.now ≡ line_of (error_value (kind_of Memory) (codes "out of memory") None nowhere) }
{
    "{\"error\":{\"kind\":\"memory\",\"length\":null,\"line\":null,\"message\":\"out of memory\",\
        \"path\":null,\"start\":null}}\n"
}

/// The object, on a line, of a fault of this kind with this message.
fn error_line(
    alloc: Global,
    kind: &str,
    message: &str,
    path: Option<&str>,
    place: Place,
) -> Result<String, AllocError>
    ensures { IfOk result (λ text. string_bytes text
        ≡ line_of (error_value kind.now message.now (option_map (λ p. p.now) path.entry) place)) }
{
    let object = error_value(alloc, kind, message, path, place)?;
    line_of(alloc, &object)
}

/// The object of a fault of this kind with this message.
fn error_value(
    alloc: Global,
    kind: &str,
    message: &str,
    path: Option<&str>,
    place: Place,
) -> Result<Value, AllocError>
    ensures { IfOk result (λ value. view value
        ≡ error_value kind.now message.now (option_map (λ p. p.now) path.entry) place) }
{
    let members = error_members(alloc, kind, message, path, place)?;
    json!(in alloc; {"error": members})
}

/// The members of a fault's object: its kind, message, path and place.
fn error_members(
    alloc: Global,
    kind: &str,
    message: &str,
    path: Option<&str>,
    place: Place,
) -> Result<Value, AllocError>
    ensures { IfOk result (λ value. view value
        ≡ error_members kind.now message.now (option_map (λ p. p.now) path.entry) place) }
{
    let path = text_or_null(alloc, path)?;
    json!(in alloc; {
        "kind": kind,
        "length": number_or_null(place.len),
        "line": number_or_null(place.line),
        "message": message,
        "path": path,
        "start": number_or_null(place.start),
    })
}

/// A number, or null.
fn number_or_null(number: Option<usize>) -> Value
    ensures { view result ≡ value_or_null number_of number }
{
    match number {
        Some(number) => Value::from(number),
        None => Value::Null,
    }
}

/// A string, or null.
fn text_or_null(alloc: Global, text: Option<&str>) -> Result<Value, AllocError>
    ensures { IfOk result (λ value.
        view value ≡ value_or_null string (option_map (λ t. t.now) text.entry)) }
{
    match text {
        Some(text) => Value::try_from_str(alloc, text),
        None => Ok(Value::Null),
    }
}

/// The path of the input that a fault is in, if it is in one.
fn path_of<'a>(fault: &RunFault, paths: &[&'a str]) -> Option<&'a str>
    ensures { option_map (λ p. p.now) result
        ≡ option_map (of_input (map (λ p. p.now) paths.now)) (input_in fault.now) }
{
    match input_in(fault) {
        Some(input) => Some(input.path(paths)),
        None => None,
    }
}

/// The input that a fault is in, if it is in one.
fn input_in(fault: &RunFault) -> Option<Input>
    ensures { result ≡ input_in fault.now }
{
    match fault {
        RunFault::Write | RunFault::Memory | RunFault::Extra { .. } => None,
        RunFault::TooMany(excess) => excess_input(excess),
        RunFault::Read { input }
        | RunFault::TooLong { input }
        | RunFault::NotText { input, .. }
        | RunFault::Requirement { input, .. }
        | RunFault::NumberAtEnd { input, .. }
        | RunFault::Refused { input, .. }
        | RunFault::Json { input }
        | RunFault::Float { input }
        | RunFault::Shape { input, .. }
        | RunFault::Member { input, .. }
        | RunFault::Version { input, .. }
        | RunFault::Candidate { input, .. }
        | RunFault::TooManyCases { input, .. } => Some(*input),
    }
}

/// The input in which there is too much, if it is in one.
fn excess_input(excess: &Excess) -> Option<Input>
    ensures { result ≡ excess_input excess.now }
{
    match excess {
        Excess::NodesAt { input, .. }
        | Excess::ClausesAt { input, .. }
        | Excess::Cases { input, .. } => Some(*input),
        Excess::Nodes { .. } | Excess::ClausesFor { .. } => None,
    }
}

/// The place of a fault in its input.
fn place_in(fault: &RunFault) -> Place
    ensures { result ≡ place_in fault.now }
{
    Place {
        line: line_in(fault),
        start: start_in(fault),
        len: length_in(fault),
    }
}

/// The number of the line that is at fault, if there is one.
fn line_in(fault: &RunFault) -> Option<usize>
    ensures { result ≡ line_in fault.now }
{
    match fault {
        RunFault::Requirement { number, .. }
        | RunFault::NumberAtEnd { number, .. }
        | RunFault::Refused { number, .. }
        | RunFault::Candidate { number, .. } => Some(*number),
        RunFault::TooMany(excess) => excess_line(excess),
        _ => None,
    }
}

/// The number of the line at which there is too much, if there is one.
fn excess_line(excess: &Excess) -> Option<usize>
    ensures { result ≡ excess_line excess.now }
{
    match excess {
        Excess::NodesAt { number, .. } | Excess::ClausesAt { number, .. } => Some(*number),
        _ => None,
    }
}

/// The first byte that is at fault, if it is known.
fn start_in(fault: &RunFault) -> Option<usize>
    ensures { result ≡ start_in fault.now }
{
    match fault {
        RunFault::NotText { offset, .. } => Some(*offset),
        RunFault::Requirement { error, .. } => Some(error.start()),
        _ => None,
    }
}

/// The number of bytes that are at fault, if it is known.
fn length_in(fault: &RunFault) -> Option<usize>
    ensures { result ≡ length_in fault.now }
{
    match fault {
        RunFault::Requirement { error, .. } => Some(error.len()),
        _ => None,
    }
}

/// The kind of a fault, in one word.
fn kind_of(fault: &RunFault) -> &'static str
    ensures { result.now ≡ kind_of fault.now }
{
    match fault {
        RunFault::Read { .. } => "read",
        RunFault::Write => "write",
        RunFault::Memory => "memory",
        RunFault::TooLong { .. } => "too-long",
        RunFault::NotText { .. } => "not-text",
        RunFault::Extra { .. } => "extra",
        RunFault::Requirement { .. } => "requirement",
        RunFault::NumberAtEnd { .. } => "number-at-end",
        RunFault::Refused { .. } => "refused",
        RunFault::Json { .. } => "json",
        RunFault::Float { .. } => "float",
        RunFault::Shape { .. } => "shape",
        RunFault::Member { .. } => "member",
        RunFault::Version { .. } => "version",
        RunFault::Candidate { .. } => "candidate",
        RunFault::TooManyCases { .. } => "too-many-cases",
        RunFault::TooMany(excess) => excess_kind(excess),
    }
}

/// The kind of what there is too much of, in one word.
fn excess_kind(excess: &Excess) -> &'static str
    ensures { result.now ≡ excess_kind excess.now }
{
    match excess {
        Excess::NodesAt { .. } | Excess::Nodes { .. } => "too-many-nodes",
        Excess::ClausesAt { .. } | Excess::ClausesFor { .. } => "too-many-clauses",
        Excess::Cases { .. } => "too-many-cases",
    }
}
