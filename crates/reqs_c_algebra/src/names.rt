//! The texts of extras, which are names.

ghost use Rattle.std.specs.Prelude.{ℕ, List, Result, map, IfOk, IfErr};
ghost use Rattle.read_outcome.specs.Outcome.{Answers, Tells};
ghost use Rattle.pep508_name.specs.Name.{told_name};
ghost use Rattle.reqs_c_reply.specs.Endings.{EndsIn, NoAnswer, ending_of};
ghost use Rattle.reqs_c_algebra.specs.Arguments.{AreNamesIn, IsNoName, RefusesNames, names_of};

use pep508_name::{ExtraName, InvalidNameError};
use reqs_c_reply::{Ended, Place, filled_lines, text_of};
use std::alloc::Global;

/// The names on the lines of an argument, of which empty lines are skipped.
///
/// # Errors
///
/// How the call ends: refused at argument `input` if it is not UTF-8 or a line is not a name, or out of
/// memory.
pub(crate) fn read_names(alloc: Global, input: u32, bytes: &[u8]) -> Result<Vec<ExtraName>, Ended>
    ensures names { IfOk result (λ names. AreNamesIn bytes.now names.items) }
    ensures none { IfErr result (λ ended. EndsIn NoAnswer (RefusesNames input bytes.now) (ending_of ended)) }
{
    let text = text_of(alloc, input, bytes)?;
    let Ok(lines) = filled_lines(alloc, text) else {
        return Err(Ended::OutOfMemory);
    };
    match names_of_lines(alloc, &lines) {
        Ok(names) => Ok(names),
        Err(error) => Err(no_name(alloc, input, &error)),
    }
}

/// The name on each line, in order.
fn names_of_lines(alloc: Global, lines: &[&str]) -> Result<Vec<ExtraName>, InvalidNameError>
    ensures { Answers (λ names. names.items) told_name result (names_of (map (λ line. line.now) lines.now)) }
{
    let mut names = Vec::new(alloc);
    for line in lines {
        match names.push(ExtraName::from_str(alloc, line)?) {
            Ok(()) => {}
            Err(_) => return Err(InvalidNameError::Memory),
        }
    }
    Ok(names)
}

/// The end of a call with a line that is not a name, or for which memory ran out.
fn no_name(alloc: Global, input: u32, error: &InvalidNameError) -> Ended
    ensures { (names : Result (List (List ℕ)) (List ℕ)) → Tells (told_name error.now) names →
        EndsIn NoAnswer (IsNoName input names) (ending_of result) }
{
    match error {
        InvalidNameError::Memory => Ended::OutOfMemory,
        InvalidNameError::InvalidName(line) => Ended::refused(
            Place::span(input, 0, 0),
            format!(in alloc; "extra {line} is no name"),
        ),
    }
}
