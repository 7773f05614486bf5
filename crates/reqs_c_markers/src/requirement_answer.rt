//! Requirements.

ghost use Rattle.std.specs.Prelude.{◌≡◌, ◌∷◌, ◌++◌, ℕ, List, Ok, unwrap_or, IfOk, OnOk, string_bytes};
ghost use Rattle.std.specs.List.{flat_map, join_with_byte};
ghost use Rattle.std.specs.Str.{skip_leading_whitespace};
ghost use Rattle.pep508_error.specs.Cursors.{behind};
ghost use Rattle.pep508_requirement_text.specs.FrontReading.{Front, front_reading};
ghost use Rattle.reqs_c_reply.specs.Endings.{RepliesAs, ending_of};
ghost use Rattle.reqs_c_markers.specs.Parts.{no_variables, asked_lines, front_lines, IsMarkerPlace};
ghost use Rattle.reqs_c_markers.specs.Parts.{place_text};
ghost use Rattle.reqs_c_markers.specs.Parts.{HasParts, RequirementEnds};

use crate::refused_text::refused;
use pep508_error::Cursor;
use pep508_name::ExtraName;
use pep508_requirement::{MarkedRequirement, VersionOrUrl};
use pep508_requirement_text::read_front;
use pep508_url::{Vars, VerbatimUrl};
use reqs_c_reply::{Ended, Reply, text_of};
use std::alloc::{AllocError, Global};
use std::fmt::Write;

/// The directory against which relative paths are resolved.
const ROOT: &str = "/";

/// No environment variables, for a caller whose process's variables aren't used.
///
/// # Errors
///
/// `AllocError` when memory runs out.
pub fn no_variables(alloc: Global) -> Result<Vars, AllocError>
    ensures { IfOk result (λ vars. vars ≡ no_variables) }
{
    Vars::new(alloc, &[], ROOT)
}

/// Replies with the parts of a requirement (PEP 508, "Grammar"), each on a line: its name, its extras and its
/// specifiers, both with commas between them, and its URL as it is written; and then the place of its marker
/// in the text: the index of the first byte and the number of bytes, which are all that follow the `;`.
///
/// Makes no tree of the marker: linear in the text, except for sorting the specifiers, and that n versions
/// which a key is compared with at once need O(n log n) comparisons.
///
/// # Errors
///
/// Refuses a text that is not a requirement, at the byte where it stops being one. Status 3 when memory runs
/// out.
pub fn requirement(alloc: Global, bytes: &[u8], out: &mut [u8]) -> Reply
    ensures { RepliesAs (RequirementEnds bytes.now) out.old out.new result }
{
    requirement_parts(alloc, bytes).reply(out)
}

/// The end of the call that replies with the parts.
fn requirement_parts(alloc: Global, bytes: &[u8]) -> Ended
    ensures { RequirementEnds bytes.now (ending_of result) }
{
    let text = match text_of(alloc, 1, bytes) {
        Ok(text) => text,
        Err(ended) => return ended,
    };
    let Ok(vars) = no_variables(alloc) else {
        return Ended::OutOfMemory;
    };
    match MarkedRequirement::parse(alloc, &vars, text, Some(ROOT)) {
        Ok(requirement) => Ended::answered(parts_text(alloc, &vars, text, &requirement)),
        Err(error) => refused(alloc, 1, &error),
    }
}

/// The place of the marker, if there is one, in a text whose front can be read.
fn marker_place(
    alloc: Global,
    vars: &Vars,
    text: &str,
) -> Result<Option<(usize, usize)>, AllocError>
    ensures { IfOk result (λ place. (front : Front) (rest : List ℕ) →
        front_reading text.now ≡ Ok (front, rest) →
        IsMarkerPlace text.now (skip_leading_whitespace rest) place) }
{
    match read_front(alloc, Cursor::new(text), vars) {
        Ok((_, rest)) => Ok(inside_place(rest.after_whitespace())),
        // The front can be read, so only memory can be lacking.
        Err(_) => Err(AllocError),
    }
}

/// The index and the number of the bytes after the first character of the rest of a text; `None` if the rest
/// is empty.
fn inside_place(left: Cursor<'_>) -> Option<(usize, usize)>
    ensures { IsMarkerPlace left.entry.input.now (behind left.entry) result }
{
    let (_, inside) = left.split_first()?;
    Some((inside.position(), inside.rest().len()))
}

/// The parts of a requirement that was read from the text.
fn parts_text(
    alloc: Global,
    vars: &Vars,
    text: &str,
    requirement: &MarkedRequirement<VerbatimUrl>,
) -> Result<String, AllocError>
    ensures { IfOk result (λ parts. (front : Front) (rest : List ℕ) →
        front_reading text.now ≡ Ok (front, rest) →
        HasParts text.now (skip_leading_whitespace rest) requirement.now (string_bytes parts)) }
{
    let place = marker_place(alloc, vars, text)?;
    let mut parts = front_lines(alloc, requirement)?;
    push_place(&mut parts, place)?;
    Ok(parts)
}

/// Appends the place of a marker, if there is one.
fn push_place(text: &mut String, place: Option<(usize, usize)>) -> Result<(), AllocError>
    ensures { OnOk result (string_bytes text.new ≡ string_bytes text.old ++ place_text place) }
{
    match place {
        None => Ok(()),
        Some((start, len)) => { write!(text, "{start} {len}") }
    }
}

/// The lines of a requirement's name, extras, specifiers and URL.
fn front_lines(
    alloc: Global,
    requirement: &MarkedRequirement<VerbatimUrl>,
) -> Result<String, AllocError>
    ensures { IfOk result (λ text. string_bytes text ≡ front_lines requirement.now) }
{
    let mut text = String::from_str(alloc, requirement.name.as_str())?;
    text.push('\n')?;
    push_names(&mut text, &requirement.extras)?;
    text.push('\n')?;
    push_asked(&mut text, &requirement.version_or_url)?;
    Ok(text)
}

/// Appends names with commas between them.
fn push_names(text: &mut String, names: &[ExtraName]) -> Result<(), AllocError>
    ensures { OnOk result (string_bytes text.new ≡ string_bytes text.old ++ join_with_byte 44 names.now) }
{
    match names.split_first() {
        None => Ok(()),
        Some((first, others)) => {
            text.push_str(first.as_str())?;
            push_others(text, others)
        }
    }
}

/// Appends each name after a comma.
fn push_others(text: &mut String, names: &[ExtraName]) -> Result<(), AllocError>
    ensures { OnOk result (string_bytes text.new
        ≡ string_bytes text.old ++ flat_map (λ name. 44 ∷ name) names.now) }
{
    for name in names {
        write!(text, ",{name}")?;
    }
    Ok(())
}

/// Appends the lines of the specifiers and the URL.
fn push_asked(
    text: &mut String,
    asked: &Option<VersionOrUrl<VerbatimUrl>>,
) -> Result<(), AllocError>
    ensures { OnOk result (string_bytes text.new ≡ string_bytes text.old ++ asked_lines asked.now) }
{
    match asked {
        None => text.push_str("\n\n"),
        Some(VersionOrUrl::VersionSpecifier(list)) => { write!(text, "{}\n\n", list.bare_commas()) }
        Some(VersionOrUrl::Url(url)) => {
            let given = url.given().unwrap_or("");
            write!(text, "\n{given}\n")
        }
    }
}
