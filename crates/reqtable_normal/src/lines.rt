//! The normal text of requirement lines.
//!
//! A marker's fault is looked for in its diagram, so whether a line has a normal text depends on what its
//! marker means and not on how it is written. Lines keep their order: a line's text depends on that line
//! alone, and is the print of its requirement.

ghost use Rattle.std.specs.Prelude.{◌≡◌, ◌++◌, false, List, IfOk, OnOk, string_bytes};
ghost use Rattle.std.specs.List.{AllZip};
ghost use Rattle.pep508_url.specs.Vars.{Variables};
ghost use Rattle.pep508_questions.specs.Asks.{asked_by};
ghost use Rattle.pep508_diagram.specs.Diagram.{Diagram};
ghost use Rattle.pep508_diagram.specs.Question.{Question};
ghost use Rattle.pep508_tree.specs.Meaning.{IsTree, diagram_of};
ghost use Rattle.reqtable_answer.specs.Asks.{has_url};
ghost use Rattle.reqtable_answer.specs.Says.{requirement_seen};
ghost use Rattle.reqtable_requirements.specs.Asks.{AreOfNodes};
ghost use Rattle.reqtable_requirements.specs.LineReading.{LineRecord};
ghost use Rattle.reqtable_requirements.specs.Requirements.{StandsFor};
ghost use Rattle.reqtable_normal.specs.Normalized.{Normalizes, line_text, marker_fault, never_holds};
ghost use Rattle.reqtable_normal.specs.Normalized.{normal_fault};
ghost use Rattle.reqtable_normal.specs.Seen.{PushesLine, normal_of};
ghost use Rattle.reqtable_normal.specs.Bounded.{NormalizesWithin, exceeds};

use crate::error::{NormalCause, NormalError};
use pep508_marker_display::has_more_clauses;
use pep508_questions::{Asked, MarkerTreeQuestions};
use pep508_requirement::{Requirement, VersionOrUrl};
use pep508_requirement_ref::RequirementRef;
use pep508_tree::{Interner, MarkerTree};
use reqtable_requirements::{Line, Requirements};
use std::alloc::{AllocError, Global};
use std::fmt::Write;

/// The normal text of a requirement list: for each line whose marker can hold, its name, extras and
/// specifiers, the marker after a `;` unless it always holds, and a line feed.
///
/// `interner` is the one that the lines were read with. Lists that say the same have the same normal text,
/// and a normal text can be read as what it was printed from.
///
/// Visits the nodes of each line's marker once, and writes its text directly after the others. Needs memory
/// for the text, and for printing one marker.
///
/// # Errors
///
/// `NormalError::Line` for the first line without a normal text: one with a URL, whatever its marker; or one
/// whose marker depends on a string with a single quote, a deprecated key, or a version that is more than
/// release numbers of epoch 0. This is decided by what the marker's truth depends on, not by how it was
/// written. `NormalError::Memory` when memory runs out.
pub fn normal(
    alloc: Global,
    requirements: &Requirements,
    interner: &Interner,
) -> Result<String, NormalError>
    requires { AreOfNodes interner.now.nodes requirements.now }
    ensures { (vars : Variables) (said : List LineRecord) →
        AllZip (StandsFor vars interner.now.nodes) requirements.now said → Normalizes said result }
{
    normal_text(alloc, requirements, interner, None)
}

/// The normal text of a requirement list, as `normal` gives it, where the marker of each line has at most
/// `most_clauses` clauses. A clause is what is printed between two `or`; counted are those before needless
/// ones are left out. The marker `(a or b) and (c or d)` has four, and n such brackets have 2^n.
///
/// Counts each line's clauses before any of them is made, and goes no further than one clause too many.
///
/// # Errors
///
/// The error of the first line that can't be printed: `NormalError::Line` if it has no normal text, as
/// `normal` says, and otherwise `NormalError::TooManyClauses` if its marker has more clauses.
/// `NormalError::Memory` when memory runs out.
pub fn normal_within(
    alloc: Global,
    requirements: &Requirements,
    interner: &Interner,
    most_clauses: usize,
) -> Result<String, NormalError>
    requires { AreOfNodes interner.now.nodes requirements.now }
    ensures { (vars : Variables) (said : List LineRecord) →
        AllZip (StandsFor vars interner.now.nodes) requirements.now said →
        NormalizesWithin (Some most_clauses) said result }
{
    normal_text(alloc, requirements, interner, Some(most_clauses))
}

/// The normal text of a list; with a bound, each of its markers has at most that many clauses.
fn normal_text(
    alloc: Global,
    requirements: &Requirements,
    interner: &Interner,
    most_clauses: Option<usize>,
) -> Result<String, NormalError>
    requires { AreOfNodes interner.now.nodes requirements.now }
    ensures { (vars : Variables) (said : List LineRecord) →
        AllZip (StandsFor vars interner.now.nodes) requirements.now said →
        NormalizesWithin most_clauses said result }
{
    interner.are_sound();
    let mut text = String::new(alloc);
    for line in requirements.lines() {
        push_line(alloc, &mut text, line, interner, most_clauses)?;
    }
    Ok(text)
}

/// Appends a line's text, or nothing if its marker never holds.
#[tactic(auto, using(crate::proofs::Pushing::pushed, crate::proofs::Pushing::skipped))]
fn push_line(
    alloc: Global,
    text: &mut String,
    line: &Line,
    interner: &Interner,
    most_clauses: Option<usize>,
) -> Result<(), NormalError>
    requires { IsTree interner.now.nodes line.now.requirement.marker }
    ensures { PushesLine most_clauses interner.now.nodes line.now
        (string_bytes text.old) (string_bytes text.new) result }
{
    let requirement = &line.requirement;
    let number = line.number;
    if let Some(cause) = fault(alloc, requirement, interner)? {
        return Err(NormalError::Line { number, cause });
    }
    if exceeds(alloc, requirement.marker, interner, most_clauses)? {
        return Err(NormalError::TooManyClauses { number });
    }
    if !never_holds(requirement.marker, interner) {
        push_requirement(alloc, text, requirement, interner)?;
    }
    Ok(())
}

/// Whether a marker has more clauses than a bound allows, if there is one.
fn exceeds(
    alloc: Global,
    marker: MarkerTree,
    interner: &Interner,
    most_clauses: Option<usize>,
) -> Result<bool, AllocError>
    requires { IsTree interner.now.nodes marker }
    ensures { IfOk result (λ more. more ≡ exceeds most_clauses (diagram_of interner.now.nodes marker)) }
{
    match most_clauses {
        None => Ok(false),
        Some(most) => has_more_clauses(alloc, marker, interner, most),
    }
}

/// Whether a marker never holds.
fn never_holds(marker: MarkerTree, interner: &Interner) -> bool
    requires { IsTree interner.now.nodes marker }
    ensures { result ≡ never_holds (diagram_of interner.now.nodes marker) }
{
    interner.are_sound();
    marker.is_false()
}

/// Appends a requirement's text and a line feed.
fn push_requirement(
    alloc: Global,
    text: &mut String,
    requirement: &Requirement,
    interner: &Interner,
) -> Result<(), AllocError>
    requires tree { IsTree interner.now.nodes requirement.now.marker }
    requires no_url { has_url (requirement_seen requirement.now) ≡ false }
    ensures { OnOk result (string_bytes text.new
        ≡ string_bytes text.old ++ line_text (normal_of interner.now.nodes requirement.now)) }
{
    let shown = RequirementRef::new(alloc, interner, requirement);
    writeln!(text, "{shown}")
}

/// The cause for which a requirement has no normal text, or `None` if it has one.
fn fault(
    alloc: Global,
    requirement: &Requirement,
    interner: &Interner,
) -> Result<Option<NormalCause>, AllocError>
    requires { IsTree interner.now.nodes requirement.now.marker }
    ensures { IfOk result (λ fault.
        fault ≡ normal_fault (normal_of interner.now.nodes requirement.now)) }
{
    if let Some(VersionOrUrl::Url(_)) = &requirement.version_or_url {
        return Ok(Some(NormalCause::Url));
    }
    let asked = requirement.marker.asked(alloc, interner)?;
    Ok(marker_fault(asked))
}

/// The first cause for which a marker with these questions has no normal text.
fn marker_fault(asked: Asked) -> Option<NormalCause>
    ensures { (diagram : Diagram Question) → asked ≡ asked_by diagram → result ≡ marker_fault diagram }
{
    if asked.single_quote {
        Some(NormalCause::SingleQuote)
    } else if asked.deprecated_key {
        Some(NormalCause::DeprecatedKey)
    } else if asked.other_bound {
        Some(NormalCause::Bound)
    } else {
        None
    }
}
