//! The output of a command: the text of its answer.

ghost use Rattle.reqs_io_faults.specs.Ends.{WritesAnswer};

use crate::fault::{RunFault, Status};
use reqs_io::write_whole;
use std::io::Write;

/// Writes the whole text of an answer and returns its status. An empty text makes no write.
///
/// # Errors
///
/// `RunFault::Write` if the output fails; a prefix of the text may be written then.
pub fn write_answer<W: Write>(
    output: &mut W,
    text: &str,
    status: Status,
) -> Result<Status, RunFault>
    ensures { WritesAnswer W.contents output.old output.new text.now status result }
{
    match write_whole(output, text.as_bytes()) {
        Ok(()) => Ok(status),
        Err(_) => Err(RunFault::Write),
    }
}
