//! Absolute, relative and normal paths.

ghost use Rattle.std.specs.Prelude.{◌≡◌, ◌==◌, ◌++◌, map, IfOk, option_map, option_copied, string_bytes};
ghost use Rattle.std.specs.Cow.{cow_str_bytes};
ghost use Rattle.std.specs.List.{slice_split, join_with_byte};
ghost use Rattle.read_outcome.specs.Outcome.{Answers};
ghost use Rattle.pep508_url.specs.Paths.{normal_parts, normal_reading, changes_nothing, utf8_decoded};
ghost use Rattle.pep508_url.specs.Paths.{decoded, joined, root_of, absolute_reading};
ghost use Rattle.pep508_url.specs.UrlFaults.{told_url};

use crate::VerbatimUrlError;
use crate::cuts::is_absolute;
use percent_encoding::{DecodeError, percent_decode_str};
use std::alloc::{AllocError, Global};
use std::borrow::CowStr;

/// Returns the path without empty parts, `.` and `..`.
///
/// A relative path is normalized from its own beginning. One pass, and memory for the list of parts and the
/// path.
///
/// # Errors
/// `Normalization` where a `..` has no part before it to remove; `Memory` where memory ran out.
#[tactic(auto, unfolding(crate::specs::Paths::normal_path))]
pub fn normalize_absolute_path(alloc: Global, path: &str) -> Result<String, VerbatimUrlError>
    ensures { Answers (λ normal. string_bytes normal) told_url result (normal_reading path.now) }
{
    match kept_parts(alloc, path)? {
        Some(parts) => Ok(join_parts(alloc, path, &parts)?),
        None => Err(VerbatimUrlError::Normalization(String::from_str(alloc, path)?)),
    }
}

/// Returns the parts of the normal path, or `None` where a `..` goes beyond the path's beginning.
fn kept_parts<'a>(alloc: Global, path: &'a str) -> Result<Option<Vec<&'a str>>, AllocError>
    ensures { IfOk result (λ kept. option_map (λ parts. map (λ part. part.now) parts.items) kept
        ≡ normal_parts (slice_split (λ b. b == 47) path.now)) }
{
    let mut kept = Vec::new(alloc);
    for part in path.split('/') {
        if changes_nothing(part) {
            continue;
        }
        if part == ".." {
            let Some(_) = kept.pop() else {
                return Ok(None);
            };
        } else {
            kept.push(part)?;
        }
    }
    Ok(Some(kept))
}

/// Returns whether a part of a path is empty or `.`.
fn changes_nothing(part: &str) -> bool
    ensures { result ≡ changes_nothing part.now }
{
    part.is_empty() || part == "."
}

/// Joins the parts with slashes between them, after the slash with which the path begins.
fn join_parts(alloc: Global, path: &str, parts: &[&str]) -> Result<String, AllocError>
    ensures { IfOk result (λ text. string_bytes text
        ≡ root_of path.now ++ join_with_byte 47 (map (λ part. part.now) parts.now)) }
{
    let mut text = String::with_capacity(alloc, path.len())?;
    text.push_str(root(path))?;
    let Some((first, others)) = parts.split_first() else {
        return Ok(text);
    };
    text.push_str(first)?;
    for part in others {
        text.push('/')?;
        text.push_str(part)?;
    }
    Ok(text)
}

/// Returns the slash with which an absolute path begins; empty for a relative one.
fn root(path: &str) -> &'static str
    ensures { result.now ≡ root_of path.now }
{
    if is_absolute(path) { "/" } else { "" }
}

/// Returns the path that the path of a `file` URL means: its escapes decoded, or the path as it is where
/// the bytes are not UTF-8. A path without escapes is borrowed as it is.
///
/// # Errors
///
/// `AllocError` when memory runs out.
pub fn normalize_url_path(alloc: Global, path: &str) -> Result<CowStr<'_>, AllocError>
    ensures { IfOk result (λ text. cow_str_bytes text ≡ decoded path.now) }
{
    match utf8_decoded(alloc, path)? {
        Some(text) => Ok(text),
        None => Ok(CowStr::Borrowed(path)),
    }
}

/// Returns the text with its escapes decoded, where the bytes are UTF-8.
pub(crate) fn utf8_decoded(alloc: Global, text: &str) -> Result<Option<CowStr<'_>>, AllocError>
    ensures { IfOk result (λ found. option_map cow_str_bytes found ≡ utf8_decoded text.now) }
{
    match percent_decode_str(text).decode_utf8(alloc) {
        Ok(text) => Ok(Some(text)),
        Err(DecodeError::Utf8(_)) => Ok(None),
        Err(DecodeError::OutOfMemory) => Err(AllocError),
    }
}

/// Returns the path itself where it is absolute, and else the path in the directory.
#[tactic(auto, unfolding(crate::specs::Paths::absolute_reading))]
pub(crate) fn absolute_path<'a>(
    alloc: Global,
    path: &'a str,
    directory: Option<&str>,
) -> Result<CowStr<'a>, VerbatimUrlError>
    ensures { Answers (λ text. cow_str_bytes text) told_url result
        (absolute_reading path.now (option_copied directory.entry)) }
{
    if is_absolute(path) {
        return Ok(CowStr::Borrowed(path));
    }
    match directory {
        Some(directory) => Ok(CowStr::Owned(join_path(alloc, directory, path)?)),
        None => Err(VerbatimUrlError::WorkingDirectory(String::from_str(alloc, path)?)),
    }
}

#[tactic(auto, unfolding(crate::specs::Paths::joined))]
fn join_path(alloc: Global, directory: &str, path: &str) -> Result<String, AllocError>
    ensures { IfOk result (λ text. string_bytes text ≡ joined directory.now path.now) }
{
    let mut text = String::from_str(alloc, directory)?;
    if !directory.ends_with('/') {
        text.push('/')?;
    }
    text.push_str(path)?;
    Ok(text)
}
