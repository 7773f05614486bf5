//! The URL of a requirement without a name.

ghost use Rattle.std.specs.Prelude.{IfOk, IfSome, option_copied};
ghost use Rattle.pep508_url.specs.Vars.{IsAbsolute};
ghost use Rattle.pep508_requirement.specs.UnnamedUrls.{ReadsUnnamed};

use pep508_url::{Place, UnnamedRequirementUrl, place_of};
use std::alloc::{AllocError, Global};

/// Reads the URL of a text whose variables are expanded. Lack of memory before the text is read as a URL or
/// a path is the outer error.
#[tactic(auto, unfolding(crate::specs::UnnamedUrls::ReadsUnnamed))]
pub(crate) fn read_unnamed_url<U: UnnamedRequirementUrl>(
    alloc: Global,
    text: &str,
    working_dir: Option<&str>,
) -> Result<Result<U, U::Err>, AllocError>
    requires { IfSome working_dir (λ directory. IsAbsolute directory.now) }
    ensures { IfOk result (λ outcome.
        ReadsUnnamed (λ path. U.reads_path path (option_copied working_dir.entry)) U.reads_url
        text.now outcome) }
{
    match place_of(alloc, text)? {
        Place::Path(path) => Ok(read_path(alloc, path.as_str(), working_dir)),
        Place::Url => Ok(U::parse_unnamed_url(alloc, text)),
    }
}

/// Returns the URL of a path, which is absolute or relative to the absolute directory.
fn read_path<U: UnnamedRequirementUrl>(
    alloc: Global,
    path: &str,
    working_dir: Option<&str>,
) -> Result<U, U::Err>
    requires { IfSome working_dir (λ directory. IsAbsolute directory.now) }
    ensures { U.reads_path path.now (option_copied working_dir.entry) result }
{
    match working_dir {
        Some(directory) => U::parse_path(alloc, path, directory),
        None => U::parse_absolute_path(alloc, path),
    }
}
