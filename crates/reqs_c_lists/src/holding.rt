//! Which markers hold.

ghost use Rattle.std.specs.Prelude.{◌≡◌, map, IfOk};
ghost use Rattle.pep508_evaluation.specs.Valuations.{valuation_of};
ghost use Rattle.reqs_io_faults.specs.Faults.{AnswersRun};
ghost use Rattle.reqs_c_reply.specs.Endings.{RepliesAs, ending_of};
ghost use Rattle.reqs_c_reply.specs.Lines.{batch_lines};
ghost use Rattle.reqs_c_markers.specs.Markers.{mark_in};
ghost use Rattle.reqs_c_lists.specs.Holding.{together, surroundings_of, HoldsIn, HoldEnds};

use crate::refused_inputs::refused;
use pep508_environment::MarkerEnvironment;
use pep508_name::ExtraName;
use reqs_c_markers::mark_of_line;
use reqs_c_reply::{Ended, Reply, batch_lines, filled_lines, text_of};
use reqs_io_faults::{Input, RunFault, read_environment, read_extras};
use std::alloc::{AllocError, Global};

/// The names of the inputs in messages.
const NAMES: [&str; 2] = ["", "environment"];

/// The number of the argument with the extras.
const EXTRAS: u32 = 3;

/// Replies with a byte for each line of `markers`: `1` if the marker on the line holds in the environment,
/// which is JSON as for `check`, with the extras, one per line; `0` if it doesn't; `?` if the line is not a
/// marker (PEP 508, "Environment Markers"). Each marker is read on its own.
///
/// # Errors
///
/// Refuses an extra that is not a name and an invalid environment. Status 3 when memory runs out.
pub fn markers_hold(
    alloc: Global,
    markers: &[u8],
    environment: &[u8],
    extras: &[u8],
    out: &mut [u8],
) -> Reply
    ensures { RepliesAs (HoldEnds markers.now environment.now extras.now) out.old out.new result }
{
    held(alloc, markers, environment, extras).reply(out)
}

/// Evaluates markers in an environment with extras, and returns how the call ends.
fn held(alloc: Global, markers: &[u8], environment: &[u8], extras: &[u8]) -> Ended
    ensures { HoldEnds markers.now environment.now extras.now (ending_of result) }
{
    let extras = match text_of(alloc, EXTRAS, extras) {
        Ok(text) => text,
        Err(ended) => return ended,
    };
    let Ok(extras) = filled_lines(alloc, extras) else {
        return Ended::OutOfMemory;
    };
    held_with(alloc, markers, environment, &extras)
}

/// How the call ends with these extras.
fn held_with(alloc: Global, markers: &[u8], environment: &[u8], extras: &[&str]) -> Ended
    ensures { HoldsIn (surroundings_of (map (λ e. e.now) extras.now) environment.now) markers.now
        (ending_of result) }
{
    match surroundings(alloc, environment, extras) {
        Ok((names, environment)) => match marks(alloc, markers, &environment, &names) {
            Ok(marks) => Ended::Answered(marks),
            Err(_) => Ended::OutOfMemory,
        },
        Err(fault) => refused(alloc, &fault, &NAMES, EXTRAS),
    }
}

/// The parsed extras and environment.
fn surroundings(
    alloc: Global,
    environment: &[u8],
    extras: &[&str],
) -> Result<(Vec<ExtraName>, MarkerEnvironment), RunFault>
    ensures { AnswersRun (λ read. together read.0.items read.1) result
        (surroundings_of (map (λ e. e.now) extras.now) environment.now) }
{
    let names = read_extras(alloc, extras)?;
    let mut bytes = Vec::from_slice(alloc, environment)?;
    let environment = read_environment(alloc, Input::Second, 1, &mut bytes)?;
    Ok((names, environment))
}

/// The byte for each line.
fn marks(
    alloc: Global,
    markers: &[u8],
    environment: &MarkerEnvironment,
    extras: &[ExtraName],
) -> Result<Vec<u8>, AllocError>
    ensures { IfOk result (λ marks. marks.items
        ≡ map (mark_in (valuation_of environment.now extras.now)) (batch_lines markers.now)) }
{
    let lines = batch_lines(alloc, markers)?;
    let mut marks = Vec::with_capacity(alloc, lines.len())?;
    for line in &lines {
        marks.push(mark_of_line(alloc, line, environment, extras)?)?;
    }
    Ok(marks)
}
