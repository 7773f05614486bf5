//! The text of what is assumed.

ghost use Rattle.std.specs.Prelude.{◌≡◌, ◌==◌, not, option_map, string_bytes, IfOk, IfErr, MatchOption};
ghost use Rattle.reqs_assuming.specs.Assumptions.{assumption_text};
ghost use Rattle.reqs_c_reply.specs.Endings.{EndsIn, NoAnswer, RepliesAs, ending_of};
ghost use Rattle.reqs_c_versions.specs.Specifiers.{IsListIn, RefusesList};
ghost use Rattle.reqs_c_assuming.specs.Assumptions.{AssumptionEnds, IsGivenMarker, RefusesGiven, given};

use pep440_specifier_list::VersionSpecifiers;
use reqs_c_markers::read_formula;
use reqs_c_reply::{Ended, Reply, text_of};
use reqs_c_versions::read_list;
use std::alloc::Global;

/// The number of the argument with the marker.
const MARKER: u32 = 1;

/// The number of the argument with the specifiers of the Python version.
const PYTHON: u32 = 2;

/// Replies with the text of a marker that holds where all that is assumed does, as `--assume`, `--python` and
/// `--assume-real` join it: the marker, specifiers that accept `python_full_version`, and, where `real`,
/// `reqs_assuming::REAL`. An empty marker is none, and specifiers may be none. The text is empty if nothing is
/// assumed. It is no marker where a specifier has an operator that markers don't have. Linear in the texts,
/// but for sorting the specifiers.
///
/// # Errors
///
/// Refuses a marker that is none, then the first piece between commas that is not a specifier. Status 3 when
/// memory runs out.
pub fn assumption(alloc: Global, marker: &[u8], python: &[u8], real: bool, out: &mut [u8]) -> Reply
    ensures { RepliesAs (AssumptionEnds marker.now python.now real) out.old out.new result }
{
    assumed(alloc, marker, python, real).reply(out)
}

/// How the call ends.
fn assumed(alloc: Global, marker: &[u8], python: &[u8], real: bool) -> Ended
    ensures { AssumptionEnds marker.now python.now real (ending_of result) }
{
    let text = match given_marker(alloc, marker) {
        Ok(text) => text,
        Err(ended) => return ended,
    };
    let specifiers = match read_list(alloc, PYTHON, python) {
        Ok(specifiers) => specifiers,
        Err(ended) => return ended,
    };
    Ended::answered(reqs_assuming::assumption_text(alloc, text, &specifiers, real))
}

/// The text of the marker in an argument; there is none where the argument is empty.
///
/// # Errors
///
/// How the call ends: refused if it is not a marker, or out of memory.
fn given_marker(alloc: Global, bytes: &[u8]) -> Result<Option<&str>, Ended>
    ensures text { IfOk result (λ text. option_map (λ t. t.now) text ≡ given bytes.now) }
    ensures marker { IfOk result (λ text. IsGivenMarker bytes.now) }
    ensures none { IfErr result (λ ended. EndsIn NoAnswer (RefusesGiven bytes.now) (ending_of ended)) }
{
    if bytes.is_empty() {
        return Ok(None);
    }
    read_formula(alloc, MARKER, bytes)?;
    Ok(Some(text_of(alloc, MARKER, bytes)?))
}
