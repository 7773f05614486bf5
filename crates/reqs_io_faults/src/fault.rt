//! How a command ends: its statuses, its faults and their texts.
//!
//! All faults of one line that is no requirement have the same `Cause`, which names the line: no definition
//! decides the message and its place. Contracts say besides that the error is that of some line with this
//! number. A text may have words of the crate `url`, of which nothing is claimed (`fault_text` gives none).
//! `RunFault::Extra` holds a `RefusedWord`, a text that contracts see as its bytes, so that definitions can
//! name every fault of the inputs.

ghost use Rattle.std.specs.Prelude.{◌≡◌, map, string_bytes, IfOk, IfSome};
ghost use Rattle.std.specs.Io.{StartsWith};
ghost use Rattle.pep508_environment.specs.Environment.{member_name};
ghost use Rattle.reqs_io_faults.specs.Ends.{place_of, of_input, status_of_answer};
ghost use Rattle.reqs_io_faults.specs.Faults.{status_of, unbounded, IsOfEnvironment};
ghost use Rattle.reqs_io_faults.specs.Faults.{of_reading, of_requirements, of_environment, of_candidates};
ghost use Rattle.reqs_io_faults.specs.FaultText.{shape_text, refused_text, input_text, line_text};
ghost use Rattle.reqs_io_faults.specs.FaultText.{member_text};
ghost use Rattle.reqs_io_faults.specs.FaultText.{cases_text};
ghost use Rattle.reqs_io_faults.specs.FaultText.{requirement_front, requirement_text, fault_text};
ghost use Rattle.reqs_io_faults.specs.FaultText.{HasItsFront};

use crate::bounds::Excess;
use pep508_environment::{EnvironmentError, EnvironmentMember};
use pep508_error::Pep508Error;
use pep508_name::PackageName;
use pep508_url::VerbatimUrl;
use reqs_io::ReadFault;
use reqtable_candidates::{CandidateFault, CandidatesError};
use reqtable_requirements::RequirementsError;
use std::alloc::{AllocError, AllocFailed, Global};
use std::fmt;
use std::marker::Model;

/// An input, by its place on the command line.
#[derive(Clone, Copy, Debug, PartialEq, Eq)]
pub enum Input {
    First,
    Second,
    Third,
}

impl Input {
    /// The place on the command line, from 0.
    fn place(self) -> usize
        ensures { result ≡ place_of self }
    {
        match self {
            Input::First => 0,
            Input::Second => 1,
            Input::Third => 2,
        }
    }

    /// The path of this input among those of a command line, empty if there is none.
    pub fn path<'a>(self, paths: &[&'a str]) -> &'a str
        ensures { result.now ≡ of_input (map (λ p. p.now) paths.now) self }
    {
        match paths.get(self.place()) {
            Some(path) => path,
            None => "",
        }
    }
}

/// How a command ended without a fault.
#[derive(Clone, Copy, Debug, PartialEq, Eq)]
pub enum Status {
    Answered,
    /// Two lists that were compared require different things.
    Different,
    /// A strict command answered that something can't be satisfied: a row is `none`, or lines contradict each
    /// other.
    Unsatisfied,
}

impl Status {
    /// The exit status: 0, 1 or 4.
    pub fn code(self) -> u8
        ensures answered { self ≡ Status.Answered → result ≡ 0 }
        ensures different { self ≡ Status.Different → result ≡ 1 }
        ensures unsatisfied { self ≡ Status.Unsatisfied → result ≡ 4 }
    {
        match self {
            Status::Answered => 0,
            Status::Different => 1,
            Status::Unsatisfied => 4,
        }
    }

    /// The status after an answer of a command that looks for what can't be satisfied, if it is strict.
    pub fn of_answer(has_unsatisfied: bool) -> Status
        ensures { result ≡ status_of_answer has_unsatisfied }
    {
        if has_unsatisfied {
            Status::Unsatisfied
        } else {
            Status::Answered
        }
    }
}

/// A word of the command line that is not a name.
#[derive(Debug, Drop)]
pub struct RefusedWord {
    word: String,
}

impl Model for RefusedWord {
    ghost use Rattle.std.specs.Prelude.{ℕ, List};
    ghost use Rattle.std.specs.String.{string_bytes};

    ghost Value = { List ℕ };

    ghost view = { λ w. string_bytes w.word };
}

impl RefusedWord {
    /// Keeps the word as it was given.
    pub fn new(word: String) -> Self
        ensures { result ≡ string_bytes word }
    {
        RefusedWord { word }
    }
}

impl fmt::Display for RefusedWord {
    ghost use Rattle.std.specs.Prelude.{Some};

    ghost output = { λ word. Some word };

    fn fmt<W: fmt::Write>(&self, f: &mut fmt::Formatter<W>) -> fmt::Result {
        let word = self.word.as_str();
        write!(f, "{word}")
    }
}

/// The shape that a JSON value has to have.
#[derive(Clone, Copy, Debug, PartialEq, Eq)]
pub enum JsonShape {
    Object,
    List,
}

/// Why a line of a list can't be compared or has no normal form.
#[derive(Clone, Copy, Debug, PartialEq, Eq)]
pub enum RefusedCause {
    /// The line requires a URL.
    Url,
    /// A specifier has `===`, which compares texts.
    ExactEqual,
    /// A specifier has `<` or `>` with a post-release.
    PostAfterBound,
    /// A string in the marker has a single quote.
    SingleQuote,
    /// The marker depends on a key with a deprecated name, as `os.name`.
    DeprecatedKey,
    /// A version in the marker is more than release numbers of epoch 0.
    Bound,
}

impl RefusedCause {
    /// The cause in a few words.
    pub fn as_str(self) -> &'static str
        ensures { result.now ≡ refused_text self }
    {
        match self {
            RefusedCause::Url => "URL",
            RefusedCause::ExactEqual => "===",
            RefusedCause::PostAfterBound => "post-release after a bound",
            RefusedCause::SingleQuote => "single quote",
            RefusedCause::DeprecatedKey => "deprecated key",
            RefusedCause::Bound => "version bound",
        }
    }
}

impl fmt::Display for RefusedCause {
    ghost use Rattle.std.specs.Prelude.{Some};

    ghost output = { λ cause. Some (refused_text cause) };

    fn fmt<W: fmt::Write>(&self, f: &mut fmt::Formatter<W>) -> fmt::Result {
        write!(f, "{}", self.as_str())
    }
}

/// Why a command gave no answer. Lines and environments are numbered from 1.
#[derive(Debug, Drop)]
pub enum RunFault {
    /// The input could not be read to its end.
    Read {
        input: Input,
    },
    /// The output failed; only a prefix of the answer was written.
    Write,
    Memory,
    /// The input is longer than 16,777,216 bytes.
    TooLong {
        input: Input,
    },
    /// The input is not UTF-8; the offset is of the first invalid byte, from 0.
    NotText {
        input: Input,
        offset: usize,
    },
    /// An extra of the command line is not a name.
    Extra {
        text: RefusedWord,
    },
    /// The first invalid line is not a requirement (PEP 508, "Grammar").
    Requirement {
        input: Input,
        number: usize,
        error: Pep508Error<VerbatimUrl>,
    },
    /// The first invalid line has a version number that can't be raised: in its marker, or, if lists are
    /// compared, in a specifier.
    NumberAtEnd {
        input: Input,
        number: usize,
    },
    /// The first line that can't be compared, or has no normal form.
    Refused {
        input: Input,
        number: usize,
        cause: RefusedCause,
    },
    Json {
        input: Input,
    },
    /// The environment has a number that JSON keeps as a float.
    Float {
        input: Input,
    },
    /// A JSON value has another shape than the one wanted.
    Shape {
        input: Input,
        wanted: JsonShape,
    },
    /// A member of the environment is missing or not a string.
    Member {
        input: Input,
        index: usize,
        name: EnvironmentMember,
    },
    /// A member of the environment is not a version.
    Version {
        input: Input,
        index: usize,
        name: EnvironmentMember,
    },
    Candidate {
        input: Input,
        number: usize,
        cause: CandidateFault,
    },
    /// The first package of a list of requirements, by the bytes of its name, that has more cases than the
    /// limit.
    TooManyCases {
        input: Input,
        limit: u64,
        package: PackageName,
    },
    /// A bound that the caller set was passed.
    TooMany(Excess),
}

impl From<AllocError> for RunFault {
    ghost use Rattle.reqs_io_faults.specs.declared.fault.RunFault.TheVariants.{Memory};

    ghost from_gives = { λ _ fault. fault ≡ Memory };

    fn from(_: AllocError) -> RunFault {
        RunFault::Memory
    }
}

impl<T: Drop> From<AllocFailed<T>> for RunFault {
    ghost use Rattle.reqs_io_faults.specs.declared.fault.RunFault.TheVariants.{Memory};

    ghost from_gives = { λ _ fault. fault ≡ Memory };

    fn from(_: AllocFailed<T>) -> RunFault {
        RunFault::Memory
    }
}

impl RunFault {
    /// The fault for an input that was not read whole.
    pub fn of_reading(input: Input, fault: ReadFault) -> Self
        ensures { result ≡ of_reading input fault }
    {
        match fault {
            ReadFault::Read => RunFault::Read { input },
            ReadFault::TooLong => RunFault::TooLong { input },
            ReadFault::Memory => RunFault::Memory,
        }
    }

    /// The fault for an invalid list of requirements.
    pub fn of_requirements(input: Input, fault: RequirementsError) -> Self
        ensures { result ≡ of_requirements input fault }
    {
        match fault {
            RequirementsError::NotText { offset } => RunFault::NotText { input, offset },
            RequirementsError::Line { number, error } => RunFault::Requirement {
                input,
                number,
                error,
            },
            RequirementsError::NumberAtEnd { number } => RunFault::NumberAtEnd { input, number },
            RequirementsError::TooManyNodes { number, most } => RunFault::TooMany(
                Excess::NodesAt {
                    input,
                    number,
                    most,
                },
            ),
            RequirementsError::Memory => RunFault::Memory,
        }
    }

    /// The fault for the invalid environment of this number in an input.
    pub fn of_environment(input: Input, index: usize, fault: EnvironmentError) -> Self
        ensures { result ≡ of_environment input index fault }
    {
        match fault {
            EnvironmentError::Float => RunFault::Float { input },
            EnvironmentError::Shape => RunFault::Shape {
                input,
                wanted: JsonShape::Object,
            },
            EnvironmentError::Member(name) => RunFault::Member { input, index, name },
            EnvironmentError::Version(name) => RunFault::Version { input, index, name },
            EnvironmentError::Memory => RunFault::Memory,
        }
    }

    /// The fault for an invalid candidate list.
    pub fn of_candidates(input: Input, fault: CandidatesError) -> Self
        ensures { result ≡ of_candidates input fault }
    {
        match fault {
            CandidatesError::NotText { offset } => RunFault::NotText { input, offset },
            CandidatesError::Line { number, cause } => RunFault::Candidate {
                input,
                number,
                cause,
            },
            CandidatesError::Memory => RunFault::Memory,
        }
    }

    /// The exit status: 2 for an invalid input or command line, 3 if memory, a reader or the writer failed.
    pub fn status(&self) -> u8
        ensures { result ≡ status_of self.now }
    {
        match self {
            RunFault::Read { .. } | RunFault::Write | RunFault::Memory => 3,
            _ => 2,
        }
    }

    /// The message for the fault, without a line end. `paths` are those of the inputs, in the order of the
    /// command line. Linear in the text.
    ///
    /// # Errors
    ///
    /// `AllocError` when memory runs out.
    pub fn text(&self, alloc: Global, paths: &[&str]) -> Result<String, AllocError>
        ensures text { IfOk result (λ text.
            IfSome (fault_text (of_input (map (λ p. p.now) paths.now)) self.now)
            (λ wanted. string_bytes text ≡ wanted)) }
        ensures front { IfOk result (λ text.
            HasItsFront (of_input (map (λ p. p.now) paths.now)) self.now (string_bytes text)) }
    {
        match self {
            RunFault::Read { input } => at(alloc, input.path(paths), "read fault"),
            RunFault::Write => format!(in alloc; "write fault"),
            RunFault::Memory => format!(in alloc; "out of memory"),
            RunFault::TooLong { input } => {
                at(alloc, input.path(paths), "longer than 16777216 bytes")
            }
            RunFault::NotText { input, offset } => {
                let path = input.path(paths);
                format!(in alloc; "{path}: not UTF-8 at byte {offset}")
            }
            RunFault::Extra { text } => format!(in alloc; "extra {text} is no name"),
            RunFault::Requirement {
                input,
                number,
                error,
            } => { at_requirement(alloc, input.path(paths), *number, error) }
            RunFault::NumberAtEnd { input, number } => {
                let fault = "a version number can't be raised";
                at_line(alloc, input.path(paths), *number, fault)
            }
            RunFault::Refused {
                input,
                number,
                cause,
            } => { at_line(alloc, input.path(paths), *number, cause.as_str()) }
            RunFault::Candidate {
                input,
                number,
                cause,
            } => { at_line(alloc, input.path(paths), *number, cause.as_str()) }
            RunFault::TooManyCases {
                input,
                limit,
                package,
            } => { at_package(alloc, input.path(paths), *limit, package) }
            RunFault::TooMany(excess) => excess.text(alloc, paths),
            _ => self.environment_text(alloc, paths),
        }
    }

    /// The fault of a run without bounds: what would pass the greatest numbers has no room in memory.
    pub fn unbounded(self) -> RunFault
        ensures { result ≡ unbounded self }
    {
        match self {
            RunFault::TooMany(_) => RunFault::Memory,
            fault => fault,
        }
    }

    /// The message for a fault of an environment.
    fn environment_text(&self, alloc: Global, paths: &[&str]) -> Result<String, AllocError>
        requires { IsOfEnvironment self.now }
        ensures { IfOk result (λ text. IfSome (fault_text (of_input (map (λ p. p.now) paths.now)) self.now)
            (λ wanted. string_bytes text ≡ wanted)) }
    {
        match self {
            RunFault::Json { input } => at(alloc, input.path(paths), "not JSON"),
            RunFault::Float { input } => at(alloc, input.path(paths), "a number is a float"),
            RunFault::Shape { input, wanted } => {
                at(alloc, input.path(paths), shape_text(*wanted))
            }
            RunFault::Member { input, index, name } => {
                at_member(
                    alloc,
                    input.path(paths),
                    *index,
                    *name,
                    "missing or no text",
                )
            }
            RunFault::Version { input, index, name } => {
                at_member(alloc, input.path(paths), *index, *name, "no version")
            }
            _ => unreachable!(),
        }
    }
}

/// The words for a JSON value that doesn't have the shape wanted.
pub(crate) fn shape_text(wanted: JsonShape) -> &'static str
    ensures { result.now ≡ shape_text wanted }
{
    match wanted {
        JsonShape::Object => "not an object",
        JsonShape::List => "not a list",
    }
}

/// The message for a fault of an input as a whole.
pub(crate) fn at(alloc: Global, path: &str, fault: &str) -> Result<String, AllocError>
    ensures { IfOk result (λ text. string_bytes text ≡ input_text path.now fault.now) }
{
    format!(in alloc; "{path}: {fault}")
}

/// The message for a fault of a line.
pub(crate) fn at_line(
    alloc: Global,
    path: &str,
    number: usize,
    fault: &str,
) -> Result<String, AllocError>
    ensures { IfOk result (λ text. string_bytes text ≡ line_text path.now number fault.now) }
{
    format!(in alloc; "{path}: line {number}: {fault}")
}

/// The message for an invalid requirement line.
fn at_requirement(
    alloc: Global,
    path: &str,
    number: usize,
    error: &Pep508Error<VerbatimUrl>,
) -> Result<String, AllocError>
    ensures text { IfOk result (λ text. IfSome (requirement_text path.now number error.now)
        (λ wanted. string_bytes text ≡ wanted)) }
    ensures front { IfOk result (λ text.
        StartsWith (string_bytes text) (requirement_front path.now number error.now)) }
{
    let text = error.to_string(alloc)?;
    let start = error.start();
    let len = error.len();
    format!(in alloc; "{path}: line {number}, byte {start}, length {len}\n{text}")
}

/// The message for a fault of an environment's member.
fn at_member(
    alloc: Global,
    path: &str,
    index: usize,
    name: EnvironmentMember,
    fault: &str,
) -> Result<String, AllocError>
    ensures { IfOk result (λ text.
        string_bytes text ≡ member_text path.now index (member_name name) fault.now) }
{
    format!(in alloc; "{path}: environment {index}: member {name} is {fault}")
}

/// The message for a package that has more cases than the limit.
fn at_package(
    alloc: Global,
    path: &str,
    limit: u64,
    name: &PackageName,
) -> Result<String, AllocError>
    ensures { IfOk result (λ text. string_bytes text ≡ cases_text path.now limit name.now) }
{
    format!(in alloc; "{path}: more than {limit} cases for {name}")
}
