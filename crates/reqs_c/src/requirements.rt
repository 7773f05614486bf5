//! Requirements (PEP 508).

ghost use Rattle.reqs_c_reply.specs.Endings.{RepliesAs};
ghost use Rattle.reqs_c_markers.specs.Parts.{RequirementEnds};

use reqs_c_reply::Reply;
use std::alloc::Global;

/// The parts of a requirement, and the place of its marker.
#[unsafe(no_mangle)]
pub extern "C" fn reqs_requirement(alloc: Global, text: &[u8], out: &mut [u8]) -> Reply
    ensures { RepliesAs (RequirementEnds text.now) out.old out.new result }
{
    reqs_c_markers::requirement(alloc, text, out)
}
