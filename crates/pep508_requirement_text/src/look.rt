//! Texts that look like a URL or a path where a package's name is wanted.

ghost use Rattle.std.specs.Prelude.{◌≡◌, ◌↔◌, IsTrue, IfOk, is_some};
ghost use Rattle.std.specs.List.{list_any};
ghost use Rattle.pep508_requirement_text.specs.Unnamed.{is_slash, begins_with_dot, looks_like_url};
ghost use Rattle.pep508_requirement_text.specs.Unnamed.{IsBeforeExtras, LooksUnnamed};

use crate::archive::is_archive;
use pep508_url::{Vars, expand_env_vars, split_extras, split_scheme};
use std::alloc::{AllocError, Global};

/// Returns whether a text looks like a URL or a path without a package's name: with variables expanded and
/// without the extras at its end, it begins with `.`, or has a slash, a backslash or a scheme, or is the
/// file name of an archive.
///
/// Linear in the expanded text; takes memory for a text with a `$` alone.
///
/// # Errors
///
/// `AllocError` when memory runs out.
pub fn looks_unnamed(alloc: Global, text: &str, vars: &Vars) -> Result<bool, AllocError>
    ensures { IfOk result (λ looks. IsTrue looks ↔ LooksUnnamed vars.now text.now) }
{
    let expanded = expand_env_vars(alloc, text, vars)?;
    Ok(looks_like_url(before_extras(expanded.as_str())))
}

/// Returns the text before the extras at its end, or all of it where it has none.
fn before_extras(text: &str) -> &str
    ensures { IsBeforeExtras text.now result.now }
{
    match split_extras(text) {
        Some((url, _)) => url,
        None => text,
    }
}

#[tactic(auto, unfolding(crate::specs::Unnamed::looks_like_url))]
fn looks_like_url(text: &str) -> bool
    ensures { result ≡ looks_like_url text.now }
{
    begins_with_dot(text) || has_slash(text) || split_scheme(text).is_some() || is_archive(text)
}

fn begins_with_dot(text: &str) -> bool
    ensures { result ≡ begins_with_dot text.now }
{
    match text.as_bytes().first() {
        Some(first) => *first == b'.',
        None => false,
    }
}

fn has_slash(text: &str) -> bool
    ensures { result ≡ list_any is_slash text.now }
{
    text.as_bytes()
        .iter()
        .any(|byte| *byte == b'/' || *byte == b'\\')
}
