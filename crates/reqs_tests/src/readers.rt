//! Commands whose readers fail, are always interrupted or never end.
//!
//! Whatever a reader does, nothing is written, no reader of a later input is called, and none after its end.

use crate::commands::{
    COMMANDS, Command, INPUTS, Inlets, answer, behind, difference, ended, run, status, texts,
};
use crate::faulty::{Manner, Outlet, WIDE};
use reqs_json::Format;
use std::alloc::{AllocError, Global};
use std::cmp::Ordering;
use std::fmt::Write;
use std::test::Fail;

/// The calls of an endless reader: 1,024 that give 16,384 bytes each, and one that gives too many.
const CALLS_TO_TOO_LONG: u64 = 1025;

/// How a command ended whose reader at a place is given in this manner, how often its readers were called,
/// and how much was written.
fn read(
    alloc: Global,
    command: Command,
    format: Format,
    place: usize,
    manner: Manner,
) -> Result<String, AllocError> {
    let mut inlets = Inlets::new(texts(command), place, manner);
    let mut output = Outlet::new(alloc, WIDE);
    let how = run(alloc, command, format, &mut inlets, &mut output);
    let end = ended(alloc, how)?;
    counted(alloc, &end, &inlets, &output)
}

fn counted(
    alloc: Global,
    end: &str,
    inlets: &Inlets,
    output: &Outlet,
) -> Result<String, AllocError> {
    let (first, second, third) = (inlets.first.asked, inlets.second.asked, inlets.third.asked);
    let (late, bytes, writes) = (inlets.late_calls(), output.taken.len(), output.asked);
    let mut text = String::new(alloc);
    write!(text, "{end}; calls {first} {second} {third}")?;
    write!(text, ", {late} late; {bytes} bytes by {writes} writes")?;
    Ok(text)
}

/// The calls of the reader at a place, where the one at `failing` ends the command at its call with a number.
fn calls(place: usize, failing: usize, number: u64, text: &str) -> u64 {
    match place.cmp(&failing) {
        Ordering::Less => (text.len() as u64).saturating_add(1),
        Ordering::Equal => number,
        Ordering::Greater => 0,
    }
}

/// Appends the calls of each reader.
fn push_calls(
    text: &mut String,
    command: Command,
    failing: usize,
    number: u64,
) -> Result<(), AllocError> {
    let (first, second, third) = texts(command);
    for (place, given) in [(1, first), (2, second), (3, third)] {
        let count = calls(place, failing, number, given);
        write!(text, " {count}")?;
    }
    Ok(())
}

/// What comes of a command that the reader at a place ends by a fault at its call with a number.
fn refused(
    alloc: Global,
    command: Command,
    place: usize,
    number: u64,
    fault: &str,
) -> Result<String, AllocError> {
    let path = match place {
        1 => "FIRST",
        2 => "SECOND",
        _ => "THIRD",
    };
    let code = if fault == "read fault" { 3 } else { 2 };
    let mut text = String::new(alloc);
    write!(text, "status {code}, {path}: {fault}; calls")?;
    push_calls(&mut text, command, place, number)?;
    text.push_str(", 0 late; 0 bytes by 0 writes")?;
    Ok(text)
}

/// Empty where the reader at a place, given in this manner, ends a command by a fault at its call with a
/// number.
fn unlike(
    alloc: Global,
    (command, place): (Command, usize),
    format: Format,
    manner: Manner,
    number: u64,
    fault: &str,
) -> Result<String, AllocError> {
    let found = read(alloc, command, format, place, manner)?;
    let wanted = refused(alloc, command, place, number, fault)?;
    difference(alloc, &found, &wanted)
}

/// The number of calls of the reader at a place that gives its whole text.
fn all_calls(command: Command, place: usize) -> u64 {
    let (first, second, third) = texts(command);
    match place {
        1 => calls(0, 1, 0, first),
        2 => calls(0, 1, 0, second),
        _ => calls(0, 1, 0, third),
    }
}

/// Each fault of a reader at its first, a middle and its last call that isn't as it is wanted.
fn failing(alloc: Global, input: (Command, usize), format: Format) -> Result<String, AllocError> {
    let last = all_calls(input.0, input.1);
    let mut text = String::new(alloc);
    for number in [1, last / 2, last] {
        let manner = Manner::FailsAt(number);
        let found = unlike(alloc, input, format, manner, number, "read fault")?;
        text.push_str(found.as_str())?;
    }
    Ok(text)
}

#[test]
fn names_the_input_that_fails_at_any_call(rt: HostRuntime) -> Result<(), Fail> {
    for input in INPUTS {
        assert_eq!(rt; failing(rt.alloc(), input, Format::Text)?.as_str(), "");
        assert_eq!(rt; failing(rt.alloc(), input, Format::Json)?.as_str(), "");
    }
    Ok(())
}

fn interrupted(alloc: Global, input: (Command, usize)) -> Result<String, AllocError> {
    let manner = Manner::IsInterrupted;
    unlike(alloc, input, Format::Text, manner, 33_554_432, "read fault")
}

// One input of each command, since each takes as many calls.
#[test]
fn calls_an_input_that_is_always_interrupted_up_to_the_limit(rt: HostRuntime) -> Result<(), Fail> {
    for input in [
        (Command::Check, 3),
        (Command::Matrix, 2),
        (Command::Same, 2),
        (Command::Covers, 2),
        (Command::Conflicts, 1),
        (Command::Normal, 1),
    ] {
        assert_eq!(rt; interrupted(rt.alloc(), input)?.as_str(), "");
    }
    Ok(())
}

fn endless(alloc: Global, input: (Command, usize), format: Format) -> Result<String, AllocError> {
    let (manner, fault) = (Manner::NeverEnds, "longer than 16777216 bytes");
    unlike(alloc, input, format, manner, CALLS_TO_TOO_LONG, fault)
}

#[test]
fn names_the_input_that_never_ends(rt: HostRuntime) -> Result<(), Fail> {
    for input in INPUTS {
        assert_eq!(rt; endless(rt.alloc(), input, Format::Text)?.as_str(), "");
        assert_eq!(rt; endless(rt.alloc(), input, Format::Json)?.as_str(), "");
    }
    Ok(())
}

/// What comes of a command whose readers all end.
fn answered(alloc: Global, command: Command, format: Format) -> Result<String, AllocError> {
    let (code, bytes) = (status(command), answer(command, format).len());
    let mut text = String::new(alloc);
    write!(text, "status {code}; calls")?;
    push_calls(&mut text, command, behind(command), 0)?;
    write!(text, ", 0 late; {bytes} bytes by 1 writes")?;
    Ok(text)
}

/// Empty where a command calls each reader up to its end and no further.
fn unlike_answered(alloc: Global, command: Command, format: Format) -> Result<String, AllocError> {
    let found = read(alloc, command, format, 0, Manner::Ends)?;
    let wanted = answered(alloc, command, format)?;
    difference(alloc, &found, &wanted)
}

#[test]
fn calls_each_reader_up_to_its_end(rt: HostRuntime) -> Result<(), Fail> {
    for command in COMMANDS {
        assert_eq!(rt;
            unlike_answered(rt.alloc(), command, Format::Text)?.as_str(),
            ""
        );
        assert_eq!(rt;
            unlike_answered(rt.alloc(), command, Format::Json)?.as_str(),
            ""
        );
    }
    Ok(())
}
