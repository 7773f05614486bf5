//! The command line: which files are opened, what is printed for a fault, and the exit status.

ghost use Rattle.std.specs.Prelude.{◌≡◌, ◌≢◌, map, option_map, string_bytes, Result, IfErr, IfOk};
ghost use Rattle.std.specs.Process.{exit_status};
ghost use Rattle.pep508_error.specs.declared.error.Pep508ErrorSource.TheVariants.{Memory};
ghost use Rattle.pep508_formula.specs.Postfix.{formula_of};
ghost use Rattle.reqs_io_faults.specs.Faults.{status_of};
ghost use Rattle.reqs_command.specs.Exits.{status_after};
ghost use Rattle.reqs_command.specs.Opened.{RunsOpened};
ghost use Rattle.reqs_command.specs.Source.{IfFile, IsAboveStandard};
ghost use Rattle.reqs_command.specs.Variables.{variables_in};

use crate::opened::{open_all, run_read};
use crate::request::{Asked, Options, condition_of, format_of, matches, options_of};
use crate::source::{Source, open_file};
use crate::variables::{entries, variables};
use crate::words::{WordsFault, words};
use clap::error::ErrorKind;
use clap::{ArgMatches, Error};
use pep508_error::{Pep508Error, Pep508ErrorSource};
use pep508_url::VerbatimUrl;
use reqs_io_faults::{Input, RunFault, Status};
use reqs_json::{Format, assumption_line, fault_line, memory_line, usage_line};
use reqs_messages::{requirement_text, shown_fault, shown_lines, shown_text};
use std::alloc::{AllocError, Global};
use std::io::{self, Read, Write};
use std::os::fd::AsRawFd;
use std::process::ExitCode;
use std::rt::Runtime;

/// The exit status of an invalid command line.
const USAGE_STATUS: u8 = 2;

/// The exit status when memory runs out.
const MEMORY_STATUS: u8 = 3;

/// The path that means standard input.
const STANDARD_INPUT: &str = "-";

/// Runs the command that the process was started with.
pub fn run<R: Runtime + AllocGlobal>(rt: &R) -> ExitCode
where
    R::File: AsRawFd,
{
    let words = match words(rt, rt.alloc()) {
        Ok(words) => words,
        Err(WordsFault::NotText(word)) => return refuse_word(rt, word.as_str()),
        Err(WordsFault::Memory) => return end(rt, MEMORY_STATUS, "out of memory"),
    };
    match matches(rt.alloc(), words.as_slice()) {
        Ok(matches) => match matches.subcommand() {
            Some((name, given)) => run_named(rt, name, given),
            None => ExitCode::from(USAGE_STATUS),
        },
        Err(error) => refuse_words(rt, &error, words.as_slice()),
    }
}

/// Runs the command of this name.
fn run_named<R: Runtime + AllocGlobal>(rt: &R, name: &str, given: &ArgMatches<'_>) -> ExitCode
where
    R::File: AsRawFd,
{
    match Asked::of_words(name, given) {
        Some(asked) => match condition_of(rt.alloc(), given) {
            Ok(condition) => run_asked(rt, asked, &options_of(given, condition.as_ref()), given),
            Err(error) => refuse_assumption(rt, format_of(given), &error),
        },
        None => ExitCode::from(USAGE_STATUS),
    }
}

/// Prints why an assumption is no marker, and ends with status 2; with 3 if memory ran out.
fn refuse_assumption<R: Runtime + AllocGlobal>(
    rt: &R,
    format: Format,
    error: &Pep508Error<VerbatimUrl>,
) -> ExitCode
    ensures refused { error.now.message ≢ Memory → exit_status result ≡ 2 }
    ensures memory { error.now.message ≡ Memory → exit_status result ≡ 3 }
{
    if let Pep508ErrorSource::Memory = error.message() {
        return end_without_memory(rt, format, MEMORY_STATUS);
    }
    match format {
        Format::Text => match requirement_text(rt.alloc(), "assumption", 1, error) {
            Ok(text) => end(rt, USAGE_STATUS, text.as_str()),
            Err(_) => end(rt, USAGE_STATUS, "out of memory"),
        },
        Format::Json => match assumption_line(rt.alloc(), error) {
            Ok(line) => end_with(rt, USAGE_STATUS, line.as_str()),
            Err(_) => end_with(rt, USAGE_STATUS, memory_line()),
        },
    }
}

/// Prints the word of the command line that is not UTF-8, and ends with status 2.
fn refuse_word<R: Runtime + AllocGlobal>(rt: &R, word: &str) -> ExitCode
    ensures { exit_status result ≡ 2 }
{
    match word_text(rt.alloc(), word) {
        Ok(text) => end(rt, USAGE_STATUS, text.as_str()),
        Err(_) => end(rt, USAGE_STATUS, "out of memory"),
    }
}

/// The message for a word that is not UTF-8.
fn word_text(alloc: Global, word: &str) -> Result<String, AllocError> {
    let word = shown_text(alloc, word)?;
    format!(in alloc; "argument {word} is not UTF-8")
}

/// Prints what is wrong with the words, or the help that they request.
fn refuse_words<R: Runtime + AllocGlobal>(rt: &R, error: &Error, words: &[String]) -> ExitCode {
    if error.kind() == ErrorKind::OutOfMemory {
        return end(rt, MEMORY_STATUS, "out of memory");
    }
    if error.use_stderr() {
        return match words_text(rt.alloc(), error, words) {
            Ok(text) => end_with(rt, USAGE_STATUS, text.as_str()),
            Err(_) => end(rt, USAGE_STATUS, "out of memory"),
        };
    }
    match error.print(rt) {
        Ok(()) => ExitCode::from(Status::Answered.code()),
        Err(_) => ExitCode::from(RunFault::Write.status()),
    }
}

/// What clap says of the words. Its text has several lines; where a word has a line feed no line end can be
/// told from that, and the text is shown as one line.
fn words_text(alloc: Global, error: &Error, words: &[String]) -> Result<String, AllocError> {
    let text = error.to_string(alloc)?;
    if words.iter().any(|word| word.as_str().contains('\n')) {
        let line = shown_text(alloc, text.as_str().trim_end())?;
        return format!(in alloc; "{line}\n");
    }
    shown_lines(alloc, text.as_str())
}

/// Runs a command with these options on the files that were named.
fn run_asked<R: Runtime + AllocGlobal>(
    rt: &R,
    asked: Asked,
    options: &Options<'_>,
    given: &ArgMatches<'_>,
) -> ExitCode
where
    R::File: AsRawFd,
{
    let Ok(paths) = asked.paths(rt.alloc(), given) else {
        return end_without_memory(rt, options.format, MEMORY_STATUS);
    };
    if paths.iter().filter(|path| **path == STANDARD_INPUT).count() > 1 {
        return refuse_inputs(rt, options.format);
    }
    let Ok(entries) = entries(rt, rt.alloc()) else {
        return end_without_memory(rt, options.format, MEMORY_STATUS);
    };
    end_asked(
        rt,
        asked,
        options,
        &paths,
        given.get_strs("EXTRA").unwrap_or(&[]),
        &entries,
        |input| open(rt, input, input.path(&paths)),
        &mut io::writer(rt),
    )
}

/// Runs a command on the inputs that `opener` returns, and ends the program with the command's exit status.
fn end_asked<R, S, F, W>(
    rt: &R,
    asked: Asked,
    options: &Options<'_>,
    paths: &[&str],
    extras: &[&str],
    entries: &[String],
    opener: F,
    output: &mut W,
) -> ExitCode
where
    R: Runtime + AllocGlobal,
    S: Read + Drop,
    F: Fn(Input) -> Result<S, RunFault>,
    W: Write,
    requires { F.IsAlwaysCallable opener }
    ensures { (ended : Result Status RunFault)
        × RunsOpened (option_map (λ c. formula_of c.now) options.now.condition) options.now.strict
        options.now.bounds asked options.now.format (F.post opener)
        S.remaining (variables_in (map string_bytes entries.now)) (map (λ e. e.now) extras.now)
        W.contents output.old output.new ended × (exit_status result ≡ status_after ended) }
{
    let ended = run_opened(rt.alloc(), asked, options, extras, entries, opener, output);
    exit_after(rt, options.format, &ended, paths)
}

/// Opens all inputs, in the order of the command line, and runs a command on them with these options, and
/// with the environment variables in `entries`.
fn run_opened<S, F, W>(
    alloc: Global,
    asked: Asked,
    options: &Options<'_>,
    extras: &[&str],
    entries: &[String],
    opener: F,
    output: &mut W,
) -> Result<Status, RunFault>
where
    S: Read + Drop,
    F: Fn(Input) -> Result<S, RunFault>,
    W: Write,
    requires { F.IsAlwaysCallable opener }
    ensures { RunsOpened (option_map (λ c. formula_of c.now) options.now.condition) options.now.strict
        options.now.bounds asked options.now.format (F.post opener)
        S.remaining (variables_in (map string_bytes entries.now)) (map (λ e. e.now) extras.now)
        W.contents output.old output.new result }
{
    let mut opened = open_all(asked, opener)?;
    let vars = variables(alloc, entries)?;
    run_read(alloc, &mut opened, extras, &vars, options, output)
}

/// Ends the program with the exit status of the command's result, and prints why if it is a fault.
fn exit_after<R: Runtime + AllocGlobal>(
    rt: &R,
    format: Format,
    ended: &Result<Status, RunFault>,
    paths: &[&str],
) -> ExitCode
    ensures { exit_status result ≡ status_after ended.now }
{
    match ended {
        Ok(status) => ExitCode::from(status.code()),
        Err(fault) => match format {
            Format::Text => end_refused(rt, fault, paths),
            Format::Json => end_refused_as_object(rt, fault, paths),
        },
    }
}

/// Ends the program with a fault's exit status, and prints the fault as text.
fn end_refused<R: Runtime + AllocGlobal>(rt: &R, fault: &RunFault, paths: &[&str]) -> ExitCode
    ensures { exit_status result ≡ status_of fault.now }
{
    match shown_fault(rt.alloc(), fault, paths) {
        Ok(text) => end(rt, fault.status(), text.as_str()),
        Err(_) => end(rt, fault.status(), "out of memory"),
    }
}

/// Ends the program with a fault's exit status, and prints the fault as an object.
fn end_refused_as_object<R: Runtime + AllocGlobal>(
    rt: &R,
    fault: &RunFault,
    paths: &[&str],
) -> ExitCode
    ensures { exit_status result ≡ status_of fault.now }
{
    match fault_line(rt.alloc(), fault, paths) {
        Ok(line) => end_with(rt, fault.status(), line.as_str()),
        Err(_) => end_with(rt, fault.status(), memory_line()),
    }
}

/// Ends the program because standard input is named as more than one input.
fn refuse_inputs<R: Runtime + AllocGlobal>(rt: &R, format: Format) -> ExitCode {
    let message = "standard input (-) can be one input alone";
    match format {
        Format::Text => end(rt, USAGE_STATUS, message),
        Format::Json => match usage_line(rt.alloc(), message) {
            Ok(line) => end_with(rt, USAGE_STATUS, line.as_str()),
            Err(_) => end_with(rt, USAGE_STATUS, memory_line()),
        },
    }
}

/// Ends the program with this status because memory ran out.
fn end_without_memory<R: Eprint>(rt: &R, format: Format, status: u8) -> ExitCode
    ensures { exit_status result ≡ status }
{
    match format {
        Format::Text => end(rt, status, "out of memory"),
        Format::Json => end_with(rt, status, memory_line()),
    }
}

/// Opens an input, a file under none of the descriptors of the standard streams.
fn open<R: Runtime>(
    rt: &R,
    input: Input,
    path: &str,
) -> Result<Source<R::File, R::Reader>, RunFault>
where
    R::File: AsRawFd,
    ensures refused { IfErr result (λ fault. fault ≡ RunFault.Read input) }
    ensures above { IfOk result (λ source. IfFile (λ file. IsAboveStandard (R.File.raw_fd file)) source) }
{
    if path == STANDARD_INPUT {
        return Ok(Source::Standard(rt.reader()));
    }
    match open_file(rt, path) {
        Ok(file) => Ok(Source::File(file)),
        Err(_) => Err(RunFault::Read { input }),
    }
}

/// Prints why the program ends, and ends it with this status.
fn end<R: Eprint>(rt: &R, status: u8, text: &str) -> ExitCode
    ensures { exit_status result ≡ status }
{
    // If not even this can be printed, there still is the status.
    let _ = eprintln!(rt; "reqs: {text}");
    ExitCode::from(status)
}

/// Prints a line that says why the program ends, and ends it with this status.
fn end_with<R: Eprint>(rt: &R, status: u8, line: &str) -> ExitCode
    ensures { exit_status result ≡ status }
{
    // If not even this can be printed, there still is the status.
    let _ = eprint!(rt; "{line}");
    ExitCode::from(status)
}
