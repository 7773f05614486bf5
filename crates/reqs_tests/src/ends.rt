//! Readers and writers that are interrupted, fail or never end, and the limits up to which this is tolerated.

use crate::commands::ENVIRONMENT;
use crate::faulty::{CLOSED, Inlet, Manner, Outlet, WIDE, Width, busy, narrow};
use pep508_url::Vars;
use reqs_answers::{check, matrix};
use reqs_io::{ASK_LIMIT, ReadFault, WriteFault, read_whole, write_whole};
use reqs_io_faults::{RunFault, Status};
use reqs_json::Format;
use std::alloc::{AllocError, Global};
use std::io::Read;
use std::test::Fail;

const REQUIREMENTS: &[u8] = b"foo>=1\nbar==2";

const CANDIDATES: &[u8] = b"foo 1.5\nbar 3";

const ANSWER: &str = "bar none\nfoo 1.5\n";

const ANSWERS: &str = "env 1\nbar none\nfoo 1.5\nenv 2\nbar none\nfoo 1.5\n";

/// What was written, and then how the command ended.
fn told(
    alloc: Global,
    output: &[u8],
    ended: Result<Status, RunFault>,
) -> Result<String, AllocError> {
    let output = str::from_utf8(output).unwrap_or("no text");
    match ended {
        Ok(status) => {
            let code = status.code();
            format!(in alloc; "{output}status {code}")
        }
        Err(fault) => {
            let status = fault.status();
            let text = fault.text(alloc, &["REQS", "ENV", "CANDIDATES"])?;
            format!(in alloc; "{output}status {status}, {text}")
        }
    }
}

/// Runs `check` with this reader of requirements.
fn read_from<R: Read>(alloc: Global, requirements: &mut R) -> Result<String, AllocError> {
    let mut output = Vec::new(alloc);
    let mut environment = ENVIRONMENT.as_bytes();
    let mut candidates = CANDIDATES;
    let vars = Vars::new(alloc, &[], "/")?;
    let result = check(
        alloc,
        requirements,
        &mut environment,
        &mut candidates,
        &[],
        &vars,
        Format::Text,
        &mut output,
    );
    told(alloc, &output, result)
}

/// Runs `matrix` or `check` with a hesitant reader for each input, of which the one with the number `failing`
/// fails at its end.
fn run(
    alloc: Global,
    is_matrix: bool,
    failing: usize,
    environments: &[u8],
    output: &mut Outlet,
) -> Result<Status, RunFault> {
    let mut requirements = Inlet::hesitant(REQUIREMENTS, failing == 1);
    let mut environments = Inlet::hesitant(environments, failing == 2);
    let mut candidates = Inlet::hesitant(CANDIDATES, failing == 3);
    let vars = Vars::new(alloc, &[], "/")?;
    let (requirements, environments) = (&mut requirements, &mut environments);
    if is_matrix {
        let (candidates, limit) = (&mut candidates, 4096);
        matrix(
            alloc,
            requirements,
            environments,
            candidates,
            &[],
            &vars,
            limit,
            Format::Text,
            output,
        )
    } else {
        check(
            alloc,
            requirements,
            environments,
            &mut candidates,
            &[],
            &vars,
            Format::Text,
            output,
        )
    }
}

/// What a writer wrote of the command's answer, how the command ended, and how many interruptions were left.
fn run_told(
    alloc: Global,
    is_matrix: bool,
    failing: usize,
    environments: &[u8],
    output: &mut Outlet,
) -> Result<String, AllocError> {
    let ended = run(alloc, is_matrix, failing, environments, output);
    let text = told(alloc, &output.taken, ended)?;
    let left = output.left;
    format!(in alloc; "{text}, {left} left")
}

/// The result of `check` with these ends.
fn checked(alloc: Global, failing: usize, width: Width) -> Result<String, AllocError> {
    let mut output = Outlet::new(alloc, width);
    run_told(alloc, false, failing, ENVIRONMENT.as_bytes(), &mut output)
}

// A reader that is interrupted is called again, and the one that failed is named. A writer writes the whole
// answer, or a prefix of it if it fails, and may be interrupted 1024 times in a row.
#[test]
fn tells_how_check_ends(rt: HostRuntime) -> Result<(), Fail> {
    for (failing, width, wanted) in [
        (0, WIDE, "bar none\nfoo 1.5\nstatus 0, 0 left"),
        (1, WIDE, "status 3, REQS: read fault, 0 left"),
        (2, WIDE, "status 3, ENV: read fault, 0 left"),
        (3, WIDE, "status 3, CANDIDATES: read fault, 0 left"),
        (
            0,
            narrow(ANSWER.len()),
            "bar none\nfoo 1.5\nstatus 0, 1 left",
        ),
        (0, narrow(3), "barstatus 3, write fault, 1 left"),
        (0, busy(1024), "bar none\nfoo 1.5\nstatus 0, 0 left"),
        (0, busy(1025), "status 3, write fault, 0 left"),
        (0, CLOSED, "status 3, write fault, 0 left"),
    ] {
        assert_eq!(rt; checked(rt.alloc(), failing, width)?.as_str(), wanted);
    }
    Ok(())
}

/// The result of `matrix` with these ends, on the environment above twice.
fn matrix_told(alloc: Global, failing: usize, room: usize) -> Result<String, AllocError> {
    let environments = format!(in alloc; "[{ENVIRONMENT}, {ENVIRONMENT}]")?;
    let mut output = Outlet::new(alloc, narrow(room));
    run_told(alloc, true, failing, environments.as_bytes(), &mut output)
}

// Each reader and the writer, with all of the answers or a prefix of them.
#[test]
fn tells_how_matrix_ends(rt: HostRuntime) -> Result<(), Fail> {
    for (failing, room, wanted) in [
        (
            0,
            ANSWERS.len(),
            "env 1\nbar none\nfoo 1.5\nenv 2\nbar none\nfoo 1.5\nstatus 0, 1 left",
        ),
        (0, 8, "env 1\nbastatus 3, write fault, 1 left"),
        (1, 8, "status 3, REQS: read fault, 1 left"),
        (2, 8, "status 3, ENV: read fault, 1 left"),
        (3, 8, "status 3, CANDIDATES: read fault, 1 left"),
    ] {
        assert_eq!(rt; matrix_told(rt.alloc(), failing, room)?.as_str(), wanted);
    }
    Ok(())
}

#[test]
fn refuses_an_input_that_never_ends(rt: HostRuntime) -> Result<(), Fail> {
    assert_eq!(rt;
        read_from(rt.alloc(), &mut Inlet::new(b"", Manner::NeverEnds))?.as_str(),
        "status 2, REQS: longer than 16777216 bytes"
    );
    Ok(())
}

#[test]
fn writes_each_piece_behind_interruptions(rt: HostRuntime) -> Result<(), Fail> {
    let mut output = Outlet::new(rt.alloc(), narrow(2000));
    let text = [7u8; 2000];
    assert_eq!(rt; write_whole(&mut output, &text), Ok(()));
    assert_eq!(rt; output.taken.len(), 2000);
    assert_eq!(rt; write_whole(&mut output, &text), Err(WriteFault));
    Ok(())
}

#[test]
fn asks_a_reader_up_to_its_limit(rt: HostRuntime) -> Result<(), Fail> {
    assert_eq!(rt; ASK_LIMIT, 33_554_432);
    let mut reader = Inlet::interrupted(99_999);
    assert_eq!(rt; read_from(rt.alloc(), &mut reader)?.as_str(), "status 0");
    assert_eq!(rt; reader.asked, 100_000);
    let mut reader = Inlet::interrupted(u64::MAX);
    let read = read_whole(rt.alloc(), &mut reader, 10, 1000);
    assert_eq!(rt; read.err(), Some(ReadFault::Read));
    assert_eq!(rt; reader.asked, 1000);
    Ok(())
}

#[test]
fn reads_up_to_its_limit(rt: HostRuntime) -> Result<(), Fail> {
    let text = b"as long as it may be";
    let mut reader = text.as_slice();
    let bytes = read_whole(rt.alloc(), &mut reader, text.len(), 2).or(Err("refused"))?;
    assert_eq!(rt; bytes.as_slice(), text.as_slice());
    let mut reader = text.as_slice();
    let read = read_whole(rt.alloc(), &mut reader, text.len() - 1, 2);
    assert_eq!(rt; read.err(), Some(ReadFault::TooLong));
    Ok(())
}
