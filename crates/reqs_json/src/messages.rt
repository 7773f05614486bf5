//! The messages for faults, without their places.

ghost use Rattle.std.specs.Prelude.{◌≡◌, ◌++◌, codes, string_bytes, IfOk, IfSome};
ghost use Rattle.std.specs.Fmt.{decimal};
ghost use Rattle.pep508_environment.specs.Environment.{member_name};
ghost use Rattle.reqs_io_faults.specs.Faults.{IsOfEnvironment};
ghost use Rattle.reqs_io_faults.specs.FaultText.{shape_text};
ghost use Rattle.reqs_json.specs.Faults.{member_message, message_of};

use pep508_environment::EnvironmentMember;
use pep508_name::PackageName;
use reqs_io_faults::{JsonShape, RunFault};
use std::alloc::{AllocError, Global};

/// The message for a fault: what follows its place in `RunFault::text`.
pub(crate) fn message_of(alloc: Global, fault: &RunFault) -> Result<String, AllocError>
    ensures { IfOk result (λ text.
        IfSome (message_of fault.now) (λ wanted. string_bytes text ≡ wanted)) }
{
    match fault {
        RunFault::Read { .. } => format!(in alloc; "read fault"),
        RunFault::Write => format!(in alloc; "write fault"),
        RunFault::Memory => format!(in alloc; "out of memory"),
        RunFault::TooLong { .. } => format!(in alloc; "longer than 16777216 bytes"),
        RunFault::NotText { offset, .. } => format!(in alloc; "not UTF-8 at byte {offset}"),
        RunFault::Extra { text } => format!(in alloc; "extra {text} is no name"),
        RunFault::Requirement { error, .. } => error.to_string(alloc),
        RunFault::NumberAtEnd { .. } => format!(in alloc; "a version number can't be raised"),
        RunFault::Refused { cause, .. } => format!(in alloc; "{cause}"),
        RunFault::Candidate { cause, .. } => format!(in alloc; "{cause}"),
        RunFault::TooManyCases { limit, package, .. } => cases_message(alloc, *limit, package),
        RunFault::TooMany(excess) => excess.to_string(alloc),
        _ => environment_message(alloc, fault),
    }
}

/// The message for a fault of an environment.
fn environment_message(alloc: Global, fault: &RunFault) -> Result<String, AllocError>
    requires { IsOfEnvironment fault.now }
    ensures { IfOk result (λ text.
        IfSome (message_of fault.now) (λ wanted. string_bytes text ≡ wanted)) }
{
    match fault {
        RunFault::Json { .. } => format!(in alloc; "not JSON"),
        RunFault::Float { .. } => format!(in alloc; "a number is a float"),
        RunFault::Shape { wanted, .. } => shape_message(alloc, *wanted),
        RunFault::Member { index, name, .. } => {
            member_message(alloc, *index, *name, "missing or no text")
        }
        RunFault::Version { index, name, .. } => {
            member_message(alloc, *index, *name, "no version")
        }
        _ => unreachable!(),
    }
}

/// The message for a package that has more cases than the limit.
fn cases_message(alloc: Global, limit: u64, name: &PackageName) -> Result<String, AllocError>
    ensures { IfOk result (λ text. string_bytes text
        ≡ codes "more than " ++ decimal limit ++ codes " cases for " ++ name.now) }
{
    format!(in alloc; "more than {limit} cases for {name}")
}

/// The message for a JSON value that doesn't have the shape wanted.
fn shape_message(alloc: Global, wanted: JsonShape) -> Result<String, AllocError>
    ensures { IfOk result (λ text. string_bytes text ≡ shape_text wanted) }
{
    match wanted {
        JsonShape::Object => format!(in alloc; "not an object"),
        JsonShape::List => format!(in alloc; "not a list"),
    }
}

/// The message for a fault of an environment's member.
fn member_message(
    alloc: Global,
    index: usize,
    name: EnvironmentMember,
    what: &str,
) -> Result<String, AllocError>
    ensures { IfOk result (λ text.
        string_bytes text ≡ member_message index (member_name name) what.now) }
{
    format!(in alloc; "environment {index}: member {name} is {what}")
}
