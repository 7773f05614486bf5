//! The end of a call by the result of its command.

ghost use Rattle.std.specs.Prelude.{map};
ghost use Rattle.reqs_c_reply.specs.Endings.{ending_of};
ghost use Rattle.reqs_c_lists.specs.Commands.{TellsRun};

use crate::refused_inputs::refused;
use reqs_c_reply::Ended;
use reqs_io_faults::{RunFault, Status};
use std::alloc::Global;

/// The end of a call whose command returned `ran` and wrote this text. `names` are those of the inputs, and
/// the argument of the number `extras` has the extras.
pub fn ended(
    alloc: Global,
    ran: Result<Status, RunFault>,
    text: Vec<u8>,
    names: &[&str],
    extras: u32,
) -> Ended
    ensures { TellsRun (map (λ n. n.now) names.now) extras ran text.items (ending_of result) }
{
    match ran {
        Ok(Status::Answered) => Ended::Answered(text),
        Ok(Status::Different) => Ended::Different(text),
        // (no call is strict, so no command ends so)
        Ok(Status::Unsatisfied) => Ended::OutOfMemory,
        Err(fault) => refused(alloc, &fault, names, extras),
    }
}
