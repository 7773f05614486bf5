//! The end of a call whose inputs are refused.

ghost use Rattle.std.specs.Prelude.{◌≡◌, map};
ghost use Rattle.reqs_c_reply.specs.Endings.{EndsIn, NoAnswer, ending_of};
ghost use Rattle.reqs_c_lists.specs.Refusals.{argument_of, excess_place, place_told, in_line, IsToldAt};

use reqs_c_reply::{Ended, Place};
use reqs_io_faults::{Excess, Input, RunFault};
use std::alloc::Global;

/// The end of a call whose inputs, which have these names, are refused for a fault, or for which memory ran
/// out. The argument of the number `extras` has the extras.
pub(crate) fn refused(alloc: Global, fault: &RunFault, names: &[&str], extras: u32) -> Ended
    ensures { EndsIn NoAnswer (IsToldAt (map (λ n. n.now) names.now) extras fault.now) (ending_of result) }
{
    if fault.status() == 3 {
        return Ended::OutOfMemory;
    }
    Ended::refused(place_told(fault, extras), fault.text(alloc, names))
}

/// The place of a fault.
fn place_told(fault: &RunFault, extras: u32) -> Place
    ensures { result ≡ place_told extras fault.now }
{
    match fault {
        RunFault::Requirement {
            input,
            number,
            error,
        } => in_line(*input, *number, error.start(), error.len()),
        RunFault::NumberAtEnd { input, number } => in_line(*input, *number, 0, 0),
        RunFault::Refused { input, number, .. } => in_line(*input, *number, 0, 0),
        RunFault::Candidate { input, number, .. } => in_line(*input, *number, 0, 0),
        RunFault::NotText { input, offset } => Place::span(argument_of(*input), *offset, 0),
        RunFault::Extra { .. } => Place::span(extras, 0, 0),
        RunFault::Write | RunFault::Memory => Place::nowhere(),
        RunFault::Read { input }
        | RunFault::TooLong { input }
        | RunFault::Json { input }
        | RunFault::Float { input }
        | RunFault::Shape { input, .. }
        | RunFault::Member { input, .. }
        | RunFault::Version { input, .. }
        | RunFault::TooManyCases { input, .. } => Place::span(argument_of(*input), 0, 0),
        RunFault::TooMany(excess) => excess_place(excess),
    }
}

/// The place of what there is too much of.
fn excess_place(excess: &Excess) -> Place
    ensures { result ≡ excess_place excess.now }
{
    match excess {
        Excess::NodesAt { input, number, .. } => in_line(*input, *number, 0, 0),
        Excess::ClausesAt { input, number, .. } => in_line(*input, *number, 0, 0),
        Excess::Nodes { .. } => Place::nowhere(),
        Excess::ClausesFor { .. } => Place::nowhere(),
        Excess::Cases { input, .. } => Place::span(argument_of(*input), 0, 0),
    }
}

/// A span of `len` bytes of a line of an input, from `start` on.
fn in_line(input: Input, line: usize, start: usize, len: usize) -> Place
    ensures { result ≡ in_line (argument_of input) line start len }
{
    Place {
        input: argument_of(input),
        line,
        start,
        len,
    }
}

/// The number of an input among the arguments, from 1.
fn argument_of(input: Input) -> u32
    ensures { result ≡ argument_of input }
{
    match input {
        Input::First => 1,
        Input::Second => 2,
        Input::Third => 3,
    }
}
