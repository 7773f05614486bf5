//! The texts of faults whose inputs have no paths: an input is named by its place.

ghost use Rattle.std.specs.Prelude.{Some};
ghost use Rattle.std.specs.Fmt.{DisplaysOnOk};
ghost use Rattle.pep508_environment.specs.Environment.{member_name};
ghost use Rattle.reqs_io_faults.specs.FaultText.{input_words, member_text, requirement_front};
ghost use Rattle.reqs_io_faults.specs.FaultText.{requirement_text, line_text, input_text};
ghost use Rattle.reqs_io_faults.specs.FaultText.{excess_text, excess_words};
ghost use Rattle.reqs_io_faults.specs.FaultText.{fault_text};
ghost use Rattle.reqs_io_faults.specs.Faults.{IsOfEnvironment};

use crate::bounds::Excess;
use crate::fault::{Input, RunFault, shape_text};
use pep508_environment::EnvironmentMember;
use pep508_error::Pep508Error;
use pep508_url::VerbatimUrl;
use std::error::Error;
use std::fmt;

impl fmt::Display for Input {
    ghost output = { λ input. Some (input_words input) };

    fn fmt<W: fmt::Write>(&self, f: &mut fmt::Formatter<W>) -> fmt::Result {
        match self {
            Input::First => write!(f, "first input"),
            Input::Second => write!(f, "second input"),
            Input::Third => write!(f, "third input"),
        }
    }
}

impl fmt::Display for RunFault {
    ghost output = { fault_text input_words };

    fn fmt<W: fmt::Write>(&self, f: &mut fmt::Formatter<W>) -> fmt::Result {
        match self {
            RunFault::Read { input } => write!(f, "{input}: read fault"),
            RunFault::Write => write!(f, "write fault"),
            RunFault::Memory => write!(f, "out of memory"),
            RunFault::TooLong { input } => write!(f, "{input}: longer than 16777216 bytes"),
            RunFault::NotText { input, offset } => {
                write!(f, "{input}: not UTF-8 at byte {offset}")
            }
            RunFault::Extra { text } => write!(f, "extra {text} is no name"),
            RunFault::Requirement {
                input,
                number,
                error,
            } => write_requirement(*input, *number, error, f),
            RunFault::NumberAtEnd { input, number } => {
                write!(
                    f,
                    "{input}: line {number}: a version number can't be raised"
                )
            }
            RunFault::Refused {
                input,
                number,
                cause,
            } => write!(f, "{input}: line {number}: {cause}"),
            RunFault::Candidate {
                input,
                number,
                cause,
            } => write!(f, "{input}: line {number}: {cause}"),
            RunFault::TooManyCases {
                input,
                limit,
                package,
            } => write!(f, "{input}: more than {limit} cases for {package}"),
            RunFault::TooMany(excess) => write_excess(excess, f),
            fault => write_environment(fault, f),
        }
    }
}

impl Error for RunFault {}

/// Writes the text of an invalid requirement line.
fn write_requirement<W: fmt::Write>(
    input: Input,
    number: usize,
    error: &Pep508Error<VerbatimUrl>,
    f: &mut fmt::Formatter<W>,
) -> fmt::Result
    ensures { DisplaysOnOk W.write_str_gives f.old result
        (requirement_text (input_words input) number error.now) f.new }
{
    write_front(input, number, error, f)?;
    write!(f, "{error}")
}

/// Writes the number of an invalid line, and the place of what is wrong in it.
fn write_front<W: fmt::Write>(
    input: Input,
    number: usize,
    error: &Pep508Error<VerbatimUrl>,
    f: &mut fmt::Formatter<W>,
) -> fmt::Result
    ensures { DisplaysOnOk W.write_str_gives f.old result
        (Some (requirement_front (input_words input) number error.now)) f.new }
{
    let start = error.start();
    let len = error.len();
    writeln!(f, "{input}: line {number}, byte {start}, length {len}")
}

/// Writes the text of a bound that was passed.
fn write_excess<W: fmt::Write>(excess: &Excess, f: &mut fmt::Formatter<W>) -> fmt::Result
    ensures { DisplaysOnOk W.write_str_gives f.old result
        (Some (excess_text input_words excess.now)) f.new }
{
    match excess {
        Excess::NodesAt { input, number, .. } => write_at_line(*input, *number, excess, f),
        Excess::ClausesAt { input, number, .. } => write_at_line(*input, *number, excess, f),
        Excess::Cases { input, .. } => write_at_input(*input, excess, f),
        Excess::Nodes { .. } => write!(f, "{excess}"),
        Excess::ClausesFor { .. } => write!(f, "{excess}"),
    }
}

/// Writes what a line has more of.
fn write_at_line<W: fmt::Write>(
    input: Input,
    number: usize,
    excess: &Excess,
    f: &mut fmt::Formatter<W>,
) -> fmt::Result
    ensures { DisplaysOnOk W.write_str_gives f.old result
        (Some (line_text (input_words input) number (excess_words excess.now))) f.new }
{
    write!(f, "{input}: line {number}: {excess}")
}

/// Writes what an input has more of.
fn write_at_input<W: fmt::Write>(
    input: Input,
    excess: &Excess,
    f: &mut fmt::Formatter<W>,
) -> fmt::Result
    ensures { DisplaysOnOk W.write_str_gives f.old result
        (Some (input_text (input_words input) (excess_words excess.now))) f.new }
{
    write!(f, "{input}: {excess}")
}

/// Writes the text of a fault of an environment.
fn write_environment<W: fmt::Write>(fault: &RunFault, f: &mut fmt::Formatter<W>) -> fmt::Result
    requires { IsOfEnvironment fault.now }
    ensures { DisplaysOnOk W.write_str_gives f.old result (fault_text input_words fault.now) f.new }
{
    match fault {
        RunFault::Json { input } => write!(f, "{input}: not JSON"),
        RunFault::Float { input } => write!(f, "{input}: a number is a float"),
        RunFault::Shape { input, wanted } => {
            let what = shape_text(*wanted);
            write!(f, "{input}: {what}")
        }
        RunFault::Member { input, index, name } => {
            write_member(*input, *index, *name, "missing or no text", f)
        }
        RunFault::Version { input, index, name } => {
            write_member(*input, *index, *name, "no version", f)
        }
        _ => unreachable!(),
    }
}

/// Writes the text of a fault of an environment's member.
fn write_member<W: fmt::Write>(
    input: Input,
    index: usize,
    name: EnvironmentMember,
    fault: &str,
    f: &mut fmt::Formatter<W>,
) -> fmt::Result
    ensures { DisplaysOnOk W.write_str_gives f.old result
        (Some (member_text (input_words input) index (member_name name) fault.now)) f.new }
{
    write!(f, "{input}: environment {index}: member {name} is {fault}")
}
