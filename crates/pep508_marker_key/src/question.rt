//! The bytes of a node's questions.

ghost use Rattle.std.specs.Prelude.{◌≡◌, [], ◌∷◌, ◌++◌, OnOk};
ghost use Rattle.pep440_key.specs.Key.{component_bytes, version_bytes};
ghost use Rattle.pep508_diagram.specs.Question.{VersionBelow, TextBelow, IsSet, version_rank};
ghost use Rattle.pep508_marker_key.specs.Told.{boundary_bytes};
ghost use Rattle.pep508_marker_key.specs.Key.{question_bytes};

use pep440_key::{push_number, push_text, version_key};
use pep440_version::Version;
use pep508_diagram::{Flag, MarkerText, VersionVariable, text_rank};
use pep508_marker::MarkerValueString;
use std::alloc::{AllocError, Global};
use version_ranges::Boundary;

/// The byte before a question.
const QUESTION: u8 = 2;

fn version_rank(variable: VersionVariable) -> u8
    ensures { result ≡ version_rank variable }
{
    match variable {
        VersionVariable::ImplementationVersion => 0,
        VersionVariable::PythonFullVersion => 1,
    }
}

/// Appends the rank of a key among the variables.
fn push_rank(key: &mut Vec<u8>, rank: u8) -> Result<(), AllocError>
    ensures { OnOk result (key.new.items ≡ key.old.items ++ component_bytes (rank ∷ [])) }
{
    push_number(key, rank as u64)?;
    key.push(0)?;
    Ok(())
}

fn push_version(alloc: Global, key: &mut Vec<u8>, version: &Version) -> Result<(), AllocError>
    ensures { OnOk result (key.new.items ≡ key.old.items ++ version_bytes version.now) }
{
    let bytes = version_key(alloc, version)?;
    key.extend_from_slice(&bytes)
}

fn push_version_boundary(
    alloc: Global,
    key: &mut Vec<u8>,
    boundary: &Boundary<Version>,
) -> Result<(), AllocError>
    ensures { OnOk result (key.new.items ≡ key.old.items ++ boundary_bytes version_bytes boundary.now) }
{
    match boundary {
        Boundary::At(version) => {
            key.push(0)?;
            push_version(alloc, key, version)
        }
        Boundary::JustAbove(version) => {
            key.push(1)?;
            push_version(alloc, key, version)
        }
    }
}

fn push_text_boundary(key: &mut Vec<u8>, boundary: &Boundary<MarkerText>) -> Result<(), AllocError>
    ensures { OnOk result (key.new.items ≡ key.old.items ++ boundary_bytes component_bytes boundary.now) }
{
    match boundary {
        Boundary::At(text) => {
            key.push(0)?;
            push_text(key, text.as_str().as_bytes())
        }
        Boundary::JustAbove(text) => {
            key.push(1)?;
            push_text(key, text.as_str().as_bytes())
        }
    }
}

/// Appends the question whether the version of a key is below an endpoint.
#[tactic(auto, unfolding(crate::specs::Key::question_bytes))]
pub(crate) fn push_version_question(
    alloc: Global,
    key: &mut Vec<u8>,
    variable: VersionVariable,
    boundary: &Boundary<Version>,
) -> Result<(), AllocError>
    ensures { OnOk result
        (key.new.items ≡ key.old.items ++ 2 ∷ question_bytes (VersionBelow variable boundary.now)) }
{
    key.push(QUESTION)?;
    push_rank(key, version_rank(variable))?;
    key.push(1)?;
    push_version_boundary(alloc, key, boundary)?;
    key.extend_from_slice(&[0, 0])
}

/// Appends the question whether the text of a key is below an endpoint.
#[tactic(auto, unfolding(crate::specs::Key::question_bytes))]
pub(crate) fn push_text_question(
    key: &mut Vec<u8>,
    variable: MarkerValueString,
    boundary: &Boundary<MarkerText>,
) -> Result<(), AllocError>
    ensures { OnOk result
        (key.new.items ≡ key.old.items ++ 2 ∷ question_bytes (TextBelow variable boundary.now)) }
{
    key.push(QUESTION)?;
    push_rank(key, text_rank(variable))?;
    key.extend_from_slice(&[0, 1])?;
    push_text_boundary(key, boundary)?;
    key.push(0)?;
    Ok(())
}

/// Appends the question whether a flag is set.
#[tactic(auto, unfolding(crate::specs::Key::question_bytes))]
pub(crate) fn push_flag_question(key: &mut Vec<u8>, flag: &Flag) -> Result<(), AllocError>
    ensures { OnOk result (key.new.items ≡ key.old.items ++ 2 ∷ question_bytes (IsSet flag.now)) }
{
    key.push(QUESTION)?;
    push_number(key, flag.rank() as u64)?;
    push_text(key, flag.text().as_bytes())?;
    key.extend_from_slice(&[0, 0])
}
