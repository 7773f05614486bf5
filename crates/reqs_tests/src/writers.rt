//! Commands whose writer takes little, fails or is interrupted: what it took is a front of the answer.

use crate::commands::{
    COMMANDS, Command, Inlets, answer, difference, ended, run, status, texts, texts_of_nothing,
};
use crate::faulty::{CLOSED, Manner, Outlet, Width, busy, short};
use reqs_json::Format;
use std::alloc::{AllocError, Global};
use std::test::Fail;

/// How a command ended whose writer has these limits, what was taken, and how often the writer was called.
fn written(
    alloc: Global,
    command: Command,
    format: Format,
    width: Width,
) -> Result<String, AllocError> {
    let mut inlets = Inlets::new(texts(command), 0, Manner::Ends);
    let mut output = Outlet::new(alloc, width);
    let how = run(alloc, command, format, &mut inlets, &mut output);
    let end = ended(alloc, how)?;
    taken(alloc, &end, answer(command, format), &output)
}

fn taken(alloc: Global, end: &str, answer: &str, output: &Outlet) -> Result<String, AllocError> {
    let is_front = answer.as_bytes().starts_with(&output.taken);
    let (bytes, writes) = (output.taken.len(), output.asked);
    format!(in alloc; "{end}; a front {is_front}, {bytes} bytes by {writes} writes")
}

/// What comes of a command of whose answer this many bytes are taken in a number of calls.
fn wanted(
    alloc: Global,
    command: Command,
    format: Format,
    bytes: usize,
    writes: u64,
) -> Result<String, AllocError> {
    if bytes < answer(command, format).len() {
        return format!(in alloc;
            "status 3, write fault; a front true, {bytes} bytes by {writes} writes"
        );
    }
    let code = status(command);
    format!(in alloc; "status {code}; a front true, {bytes} bytes by {writes} writes")
}

/// Empty where a writer with these limits takes this many bytes in a number of calls.
fn unlike(
    alloc: Global,
    command: Command,
    format: Format,
    width: Width,
    (bytes, writes): (usize, u64),
) -> Result<String, AllocError> {
    let found = written(alloc, command, format, width)?;
    let wanted = wanted(alloc, command, format, bytes, writes)?;
    difference(alloc, &found, &wanted)
}

/// Each end by a writer that takes a part of the answer and then fails that isn't as it is wanted.
fn cut(alloc: Global, command: Command, format: Format) -> Result<String, AllocError> {
    let mut text = String::new(alloc);
    for room in 0..answer(command, format).len() {
        let writes = if room == 0 { 1 } else { 2 };
        let found = unlike(alloc, command, format, short(room), (room, writes))?;
        text.push_str(found.as_str())?;
    }
    Ok(text)
}

#[test]
fn writes_up_to_the_byte_at_which_the_writer_fails(rt: HostRuntime) -> Result<(), Fail> {
    for command in COMMANDS {
        assert_eq!(rt; cut(rt.alloc(), command, Format::Text)?.as_str(), "");
        assert_eq!(rt; cut(rt.alloc(), command, Format::Json)?.as_str(), "");
    }
    Ok(())
}

/// Each end by a slow writer that isn't as it is wanted. 1,024 interruptions in a row are allowed, and they
/// are counted anew after each byte.
fn slow(alloc: Global, command: Command, format: Format) -> Result<String, AllocError> {
    let all = answer(command, format).len();
    let calls = all as u64;
    let mut text = String::new(alloc);
    for (width, bytes, writes) in [
        ((usize::MAX, 1, 0, 0), all, calls),
        (CLOSED, 0, 1),
        (busy(u32::MAX), 0, 1025),
        (busy(1025), 0, 1025),
        (busy(1024), all, 1025),
        ((usize::MAX, 1, 1024, 1024), all, calls.saturating_mul(1025)),
        ((usize::MAX, 1, 1025, 0), 1, 1026),
    ] {
        let found = unlike(alloc, command, format, width, (bytes, writes))?;
        text.push_str(found.as_str())?;
    }
    Ok(text)
}

#[test]
fn writes_again_after_each_interruption_up_to_the_limit(rt: HostRuntime) -> Result<(), Fail> {
    for command in COMMANDS {
        assert_eq!(rt; slow(rt.alloc(), command, Format::Text)?.as_str(), "");
        assert_eq!(rt; slow(rt.alloc(), command, Format::Json)?.as_str(), "");
    }
    Ok(())
}

/// What comes of a command whose answer is empty, where the writer takes nothing.
fn of_nothing(alloc: Global, command: Command) -> Result<String, AllocError> {
    let mut inlets = Inlets::new(texts_of_nothing(command), 0, Manner::Ends);
    let mut output = Outlet::new(alloc, CLOSED);
    let how = run(alloc, command, Format::Text, &mut inlets, &mut output);
    let end = ended(alloc, how)?;
    taken(alloc, &end, "", &output)
}

#[test]
fn makes_no_write_of_an_empty_answer(rt: HostRuntime) -> Result<(), Fail> {
    let wanted = "status 0; a front true, 0 bytes by 0 writes";
    for command in [
        Command::Check,
        Command::Matrix,
        Command::Conflicts,
        Command::Normal,
    ] {
        assert_eq!(rt; of_nothing(rt.alloc(), command)?.as_str(), wanted);
    }
    Ok(())
}
