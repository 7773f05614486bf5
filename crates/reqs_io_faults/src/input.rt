//! The inputs of a command: each is read whole, and then parsed.
//!
//! Inputs are read whole in the order of the command line; then come the extras, and then each text in that
//! order. Each reader of an input takes its bytes as `&mut Vec<u8>` and leaves an empty list, so the bytes
//! are dropped once they are read as what they are. A fault's input without a path has the empty one, so
//! that no text requires a number of paths.

ghost use Rattle.std.specs.Prelude.{◌≡◌, ◌≤◌, ◌⊎◌, length, map, IfOk, IfErr, Some, None};
ghost use Rattle.std.specs.Prelude.{true, false};
ghost use Rattle.std.specs.Str.{is_utf8};
ghost use Rattle.std.specs.Str.Lossy.{utf8_valid_len};
ghost use Rattle.serde_json.specs.Read.{read};
ghost use Rattle.serde_json.specs.View.{view};
ghost use Rattle.pep508_tree.specs.Meaning.{Extends};
ghost use Rattle.reqtable_requirements.specs.Requirements.{SaysLine, StandsFor};
ghost use Rattle.reqs_io_faults.specs.Faults.{AnswersRun};
ghost use Rattle.reqs_io_faults.specs.Inputs.{ReadsInput, extra_of, extras_of, AnswersLines};
ghost use Rattle.reqs_io_faults.specs.Inputs.{environment_in, environment_from, candidates_from};
ghost use Rattle.reqs_io_faults.specs.Within.{LinesWithin};

use crate::fault::{Input, RefusedWord, RunFault};
use pep508_environment::MarkerEnvironment;
use pep508_name::{ExtraName, InvalidNameError};
use pep508_tree::Interner;
use pep508_url::Vars;
use reqs_io::{ASK_LIMIT, INPUT_LIMIT, read_whole};
use reqtable_candidates::Candidates;
use reqtable_requirements::{MarkedLines, Requirements};
use serde_json::Value;
use std::alloc::Global;
use std::io::Read;

/// Reads an input to its end.
///
/// # Errors
///
/// `RunFault::Read` if the reader fails or never ends, `RunFault::TooLong` for an input longer than
/// `INPUT_LIMIT`, `RunFault::Memory` when memory runs out.
pub fn read_input<R: Read>(alloc: Global, input: Input, reader: &mut R) -> Result<Vec<u8>, RunFault>
    ensures { ReadsInput input (λ bytes. bytes.items) (R.remaining reader.old) result }
{
    match read_whole(alloc, reader, INPUT_LIMIT, ASK_LIMIT) {
        Ok(bytes) => Ok(bytes),
        Err(fault) => Err(RunFault::of_reading(input, fault)),
    }
}

/// Parses extras as names, in order.
///
/// # Errors
///
/// `RunFault::Extra` for the first that is not a name, `RunFault::Memory` when memory runs out.
pub fn read_extras(alloc: Global, extras: &[&str]) -> Result<Vec<ExtraName>, RunFault>
    ensures { AnswersRun (λ names. names.items) result (extras_of (map (λ e. e.now) extras.now)) }
{
    let mut names = Vec::new(alloc);
    for extra in extras {
        names.push(read_extra(alloc, extra)?)?;
    }
    Ok(names)
}

/// Parses an extra as a name.
fn read_extra(alloc: Global, extra: &str) -> Result<ExtraName, RunFault>
    ensures { AnswersRun (λ name. name) result (extra_of extra.now) }
{
    match ExtraName::from_str(alloc, extra) {
        Ok(name) => Ok(name),
        Err(InvalidNameError::InvalidName(text)) => Err(RunFault::Extra {
            text: RefusedWord::new(text),
        }),
        Err(InvalidNameError::Memory) => Err(RunFault::Memory),
    }
}

/// Parses a list of requirements, and drops its bytes.
///
/// # Errors
///
/// The fault of the first line that is invalid, `RunFault::NotText`, or `RunFault::Memory`.
pub fn read_requirements(
    alloc: Global,
    input: Input,
    bytes: &mut Vec<u8>,
    interner: &mut Interner,
    vars: &Vars,
) -> Result<Requirements, RunFault>
    ensures lines { AnswersLines (StandsFor vars.now interner.new.nodes) vars.now input bytes.old.items
        result }
    ensures keeps { Extends interner.old.nodes interner.new.nodes }
{
    let read = Requirements::parse(alloc, bytes, interner, vars);
    *bytes = Vec::new(alloc);
    match read {
        Ok(requirements) => Ok(requirements),
        Err(fault) => Err(RunFault::of_requirements(input, fault)),
    }
}

/// Parses a list of requirements as `read_requirements` does, and stops once the interner has more than
/// `most` nodes, as `Requirements::parse_within` does. Drops its bytes.
///
/// # Errors
///
/// Those of `read_requirements`, and then `Excess::NodesAt` in `RunFault::TooMany` for the first line after
/// whose tree there are more nodes.
pub fn requirements_within(
    alloc: Global,
    input: Input,
    bytes: &mut Vec<u8>,
    interner: &mut Interner,
    vars: &Vars,
    most: usize,
) -> Result<Requirements, RunFault>
    requires { length interner.old.nodes ≤ most }
    ensures lines { LinesWithin vars.now input most interner.new.nodes bytes.old.items result }
    ensures keeps { Extends interner.old.nodes interner.new.nodes }
{
    let read = Requirements::parse_within(alloc, bytes, interner, vars, most);
    *bytes = Vec::new(alloc);
    match read {
        Ok(requirements) => Ok(requirements),
        Err(stopped) => Err(RunFault::of_requirements(input, stopped)),
    }
}

/// Parses a list of requirements without making marker trees, and drops its bytes.
///
/// # Errors
///
/// The fault of the first line that is invalid, `RunFault::NotText`, or `RunFault::Memory`.
pub fn read_marked_lines(
    alloc: Global,
    input: Input,
    bytes: &mut Vec<u8>,
    vars: &Vars,
) -> Result<MarkedLines, RunFault>
    ensures { AnswersLines (SaysLine vars.now) vars.now input bytes.old.items result }
{
    let read = MarkedLines::parse(alloc, bytes, vars);
    *bytes = Vec::new(alloc);
    match read {
        Ok(lines) => Ok(lines),
        Err(refused) => Err(RunFault::of_requirements(input, refused)),
    }
}

/// An input's bytes as text.
pub(crate) fn text_of(input: Input, bytes: &[u8]) -> Result<&str, RunFault>
    ensures text { IfOk result (λ text. (text.now ≡ bytes.now) × (is_utf8 bytes.now ≡ true)) }
    ensures fault { IfErr result
        (λ fault. (fault ≡ RunFault.NotText input (utf8_valid_len bytes.now)) × (is_utf8 bytes.now ≡ false)) }
{
    match str::from_utf8(bytes) {
        Ok(text) => Ok(text),
        Err(error) => Err(RunFault::NotText {
            input,
            offset: error.valid_up_to(),
        }),
    }
}

/// The value of a JSON text.
pub(crate) fn value_of(alloc: Global, input: Input, text: &str) -> Result<Value, RunFault>
    ensures value { IfOk result (λ value. read text.now ≡ Some (view value)) }
    ensures fault { IfErr result (λ fault.
        (fault ≡ RunFault.Memory) ⊎ ((fault ≡ RunFault.Json input) × (read text.now ≡ None))) }
{
    match Value::from_str(alloc, text) {
        Ok(value) => Ok(value),
        Err(error) => {
            if error.is_memory() {
                return Err(RunFault::Memory);
            }
            Err(RunFault::Json { input })
        }
    }
}

/// The environment in a value, which is the one of this number in an input.
pub(crate) fn environment_of(
    alloc: Global,
    input: Input,
    index: usize,
    value: &Value,
) -> Result<MarkerEnvironment, RunFault>
    ensures { AnswersRun (λ e. e) result (environment_in input index (Some (view value.now))) }
{
    match MarkerEnvironment::from_value(alloc, value) {
        Ok(environment) => Ok(environment),
        Err(fault) => Err(RunFault::of_environment(input, index, fault)),
    }
}

/// The environment in a JSON text, which is the one of this number in an input.
fn environment_of_text(
    alloc: Global,
    input: Input,
    index: usize,
    text: &str,
) -> Result<MarkerEnvironment, RunFault>
    ensures { AnswersRun (λ e. e) result (environment_in input index (read text.now)) }
{
    match value_of(alloc, input, text) {
        Ok(value) => environment_of(alloc, input, index, &value),
        Err(fault) => Err(fault),
    }
}

/// The environment in JSON bytes in UTF-8.
#[tactic(auto, unfolding(crate::specs::Inputs::environment_from))]
fn environment_from(
    alloc: Global,
    input: Input,
    index: usize,
    bytes: &[u8],
) -> Result<MarkerEnvironment, RunFault>
    ensures { AnswersRun (λ e. e) result (environment_from input index bytes.now) }
{
    environment_of_text(alloc, input, index, text_of(input, bytes)?)
}

/// Parses the environment of this number, from 1, in an input, and drops its bytes.
///
/// # Errors
///
/// `RunFault::NotText`, `Json`, `Float`, `Shape`, `Member` or `Version` for what is wrong, `RunFault::Memory`
/// when memory runs out.
pub fn read_environment(
    alloc: Global,
    input: Input,
    index: usize,
    bytes: &mut Vec<u8>,
) -> Result<MarkerEnvironment, RunFault>
    ensures { AnswersRun (λ e. e) result (environment_from input index bytes.old.items) }
{
    let read = environment_from(alloc, input, index, bytes);
    *bytes = Vec::new(alloc);
    read
}

/// Parses a candidate list, and drops its bytes.
///
/// # Errors
///
/// `RunFault::NotText`, `RunFault::Candidate` for the first invalid line, or `RunFault::Memory`.
pub fn read_candidates(
    alloc: Global,
    input: Input,
    bytes: &mut Vec<u8>,
) -> Result<Candidates, RunFault>
    ensures { AnswersRun (λ candidates. candidates) result (candidates_from input bytes.old.items) }
{
    let read = Candidates::parse(alloc, bytes);
    *bytes = Vec::new(alloc);
    match read {
        Ok(candidates) => Ok(candidates),
        Err(fault) => Err(RunFault::of_candidates(input, fault)),
    }
}
