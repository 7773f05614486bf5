//! The words of a line: a name, a version.

ghost use Rattle.std.specs.Prelude.{◌≡◌, IsTrue, IfOk, OnErr};
ghost use Rattle.pep440_version.specs.Reading.{version_of};
ghost use Rattle.pep508_name.specs.Name.{is_name, name_of};

use pep440_version::{Version, VersionParseError};
use pep508_name::{PackageName, is_name};
use std::alloc::{AllocError, Global};

/// The version that the whole text is, or `None` if it isn't one.
///
/// # Errors
///
/// `AllocError` when memory runs out.
#[tactic(auto, using(pep440_version::proofs::Found::reads_found))]
pub fn read_version(alloc: Global, text: &str) -> Result<Option<Version>, AllocError>
    ensures { IfOk result (λ version. version ≡ version_of text.now) }
{
    match Version::from_str(alloc, text) {
        Ok(version) => Ok(Some(version)),
        Err(VersionParseError::Memory) => Err(AllocError),
        Err(_) => Ok(None),
    }
}

/// The name that the whole text is, or `None` if it isn't one.
///
/// # Errors
///
/// `AllocError` when memory runs out. Rejecting a text never fails for lack of memory.
#[tactic(auto, unfolding(pep508_name::specs::Name::name_of))]
pub fn read_name(alloc: Global, text: &str) -> Result<Option<PackageName>, AllocError>
    ensures name { IfOk result (λ name. name ≡ name_of text.now) }
    ensures grown { OnErr result (IsTrue (is_name text.now)) }
{
    match PackageName::from_str(alloc, text) {
        Ok(name) => Ok(Some(name)),
        Err(_) if is_name(text) => Err(AllocError),
        Err(_) => Ok(None),
    }
}
