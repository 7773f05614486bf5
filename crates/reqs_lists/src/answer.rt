//! The answer of a command, before it is written.

use reqs_io_faults::Status;

/// The text of an answer, and the status with which the command ends after writing it.
#[derive(Drop)]
pub struct Answer {
    pub status: Status,
    pub text: String,
}
