//! Whether a text names a path or a URL.

ghost use Rattle.std.specs.Prelude.{◌≡◌, IfOk};
ghost use Rattle.pep508_url.specs.UrlTexts.{named_by, place_of};

use crate::{Scheme, normalize_url_path, split_scheme, strip_host};
use std::alloc::{AllocError, Global};
use std::borrow::CowStr;

/// What a text names.
#[derive(Drop)]
pub enum Place<'a> {
    /// A path.
    Path(CowStr<'a>),
    /// A URL, which is the whole text.
    Url,
}

/// Returns what a text whose variables are expanded names, by its scheme: a path for `file`, a URL for
/// another `Scheme`, and a path where there is no scheme or an unknown one.
///
/// Linear in the text; takes memory for a path with escapes alone.
///
/// # Errors
///
/// `AllocError` when memory runs out.
#[tactic(auto, unfolding(crate::specs::UrlTexts::place_of))]
pub fn place_of(alloc: Global, text: &str) -> Result<Place<'_>, AllocError>
    ensures { IfOk result (λ place. named_by place ≡ place_of text.now) }
{
    let Some((scheme, rest)) = split_scheme(text) else {
        return Ok(Place::Path(CowStr::Borrowed(text)));
    };
    match Scheme::parse(scheme) {
        None => Ok(Place::Path(CowStr::Borrowed(text))),
        Some(Scheme::File) => Ok(Place::Path(normalize_url_path(alloc, strip_host(rest))?)),
        Some(_) => Ok(Place::Url),
    }
}
