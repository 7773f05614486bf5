//! The end of a call whose text is refused.

ghost use Rattle.reqs_c_reply.specs.Endings.{EndsIn, NoAnswer, ending_of};
ghost use Rattle.reqs_c_markers.specs.Errors.{IsToldBy};

use pep508_error::{Pep508Error, Pep508ErrorSource};
use pep508_url::VerbatimUrl;
use reqs_c_reply::{Ended, Place};
use std::alloc::Global;

/// The end of a call whose argument of this number is refused with an error, or for which memory ran out.
pub(crate) fn refused(alloc: Global, input: u32, error: &Pep508Error<VerbatimUrl>) -> Ended
    ensures { EndsIn NoAnswer (IsToldBy input error.now) (ending_of result) }
{
    match error.message() {
        Pep508ErrorSource::Memory => Ended::OutOfMemory,
        message => {
            let start = error.start();
            Ended::refused(
                Place::span(input, start, error.len()),
                message.to_string(alloc),
            )
        }
    }
}
