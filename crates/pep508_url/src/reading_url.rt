//! Reading URLs.
//!
//! What follows the first `#` of a path is set as the URL's fragment and not appended to the path's text: a
//! fragment that ends in a control character keeps it, as upstream has it, where the crate `url` would trim
//! the end of a whole text. What stands before the `#` is normalized and read whole, so a slash there
//! stays; upstream's `from_file_path` drops it.

ghost use Rattle.std.specs.Prelude.{◌≡◌, ◌++◌, IfOk, OnOk, option_copied, option_map, string_bytes};
ghost use Rattle.read_outcome.specs.Outcome.{Answers};
ghost use Rattle.pep508_url.specs.UrlFaults.{told_url, error_of};
ghost use Rattle.pep508_url.specs.UrlTexts.{text_reading, file_text, with_fragment, file_reading};
ghost use Rattle.pep508_url.specs.UrlTexts.{path_reading, url_reading, path_of, local_path, is_local_file};
ghost use Rattle.pep508_url.specs.UrlTexts.{path_byte, is_path_byte};

use crate::VerbatimUrlError;
use crate::cuts::cut;
use crate::path::{absolute_path, normalize_absolute_path, utf8_decoded};
use crate::path_or_url::{Place, place_of};
use percent_encoding::percent_encode_byte;
use std::alloc::{AllocError, Global};
use url::{ParseError, Url};

/// Reads the URL of a text whose variables are expanded.
#[tactic(auto, unfolding(crate::specs::UrlTexts::url_reading))]
pub(crate) fn read_requirement_url(
    alloc: Global,
    text: &str,
    working_dir: Option<&str>,
) -> Result<Url, VerbatimUrlError>
    ensures { Answers (λ url. url) told_url result (url_reading text.now (option_copied working_dir.entry)) }
{
    match place_of(alloc, text)? {
        Place::Path(path) => read_path(alloc, path.as_str(), working_dir),
        Place::Url => read_url(alloc, text),
    }
}

/// Reads a URL by the crate `url`.
pub(crate) fn read_url(alloc: Global, text: &str) -> Result<Url, VerbatimUrlError>
    ensures { Answers (λ url. url) told_url result (text_reading text.now) }
{
    match Url::parse(alloc, text) {
        Ok(url) => Ok(url),
        Err(error) => Err(error_of(error)),
    }
}

/// Returns an error of the crate `url` as this crate's; lack of room is lack of memory.
pub(crate) fn error_of(error: ParseError) -> VerbatimUrlError
    ensures { result ≡ error_of error }
{
    match error {
        ParseError::OutOfMemory => VerbatimUrlError::Memory,
        ParseError::Overflow => VerbatimUrlError::Memory,
        other => VerbatimUrlError::Url(other),
    }
}

/// Returns the URL of a path, which is absolute or relative to the directory.
#[tactic(auto, unfolding(crate::specs::UrlTexts::path_reading))]
pub(crate) fn read_path(
    alloc: Global,
    path: &str,
    directory: Option<&str>,
) -> Result<Url, VerbatimUrlError>
    ensures { Answers (λ url. url) told_url result (path_reading path.now (option_copied directory.entry)) }
{
    let absolute = absolute_path(alloc, path, directory)?;
    let normal = normalize_absolute_path(alloc, absolute.as_str())?;
    read_file(alloc, normal.as_str())
}

/// Returns the URL of a normal absolute path.
#[tactic(auto, unfolding(crate::specs::UrlTexts::file_reading))]
fn read_file(alloc: Global, path: &str) -> Result<Url, VerbatimUrlError>
    ensures { Answers (λ url. url) told_url result (file_reading path.now) }
{
    match cut('#', path) {
        None => read_whole_path(alloc, path),
        Some((front, fragment)) => read_with_fragment(alloc, front, fragment),
    }
}

fn read_whole_path(alloc: Global, path: &str) -> Result<Url, VerbatimUrlError>
    ensures { Answers (λ url. url) told_url result (text_reading (file_text path.now)) }
{
    let text = file_text(alloc, path)?;
    read_url(alloc, text.as_str())
}

fn read_with_fragment(alloc: Global, path: &str, fragment: &str) -> Result<Url, VerbatimUrlError>
    ensures { Answers (λ url. url) told_url result
        (with_fragment fragment.now (text_reading (file_text path.now))) }
{
    let mut url = match read_whole_path(alloc, path) {
        Ok(url) => url,
        Err(error) => return Err(error),
    };
    match url.set_fragment(Some(fragment)) {
        Ok(()) => Ok(url),
        Err(error) => Err(error_of(error)),
    }
}

/// Returns the text of the URL of an absolute path.
#[tactic(auto, unfolding(crate::specs::UrlTexts::file_text))]
fn file_text(alloc: Global, path: &str) -> Result<String, AllocError>
    ensures { IfOk result (λ text. string_bytes text ≡ file_text path.now) }
{
    let mut text = String::with_capacity(alloc, path.len())?;
    text.push_str("file://")?;
    let bytes = path.as_bytes();
    for byte in bytes {
        push_path_byte(&mut text, *byte)?;
    }
    Ok(text)
}

fn push_path_byte(text: &mut String, byte: u8) -> Result<(), AllocError>
    ensures { OnOk result (string_bytes text.new ≡ string_bytes text.old ++ path_byte byte) }
{
    if is_path_byte(byte) {
        text.push(char::from(byte))
    } else {
        text.push_str(percent_encode_byte(byte))
    }
}

fn is_path_byte(byte: u8) -> bool
    ensures { result ≡ is_path_byte byte }
{
    byte.is_ascii_alphanumeric() || b"-._~!$&'()*+,;=:@/[]".contains(&byte)
}

/// Returns the path that a `file` URL without a host names.
pub(crate) fn path_of_url(alloc: Global, url: &Url) -> Result<String, VerbatimUrlError>
    ensures { Answers (λ path. string_bytes path) told_url result (path_of url.now) }
{
    match local_path(alloc, url)? {
        Some(path) => Ok(path),
        None => Err(VerbatimUrlError::UrlConversion(String::from_str(alloc, url.as_str())?)),
    }
}

#[tactic(auto, unfolding(crate::specs::UrlTexts::local_path))]
fn local_path(alloc: Global, url: &Url) -> Result<Option<String>, AllocError>
    ensures { IfOk result (λ path. option_map string_bytes path ≡ local_path url.now) }
{
    if !is_local_file(url) {
        return Ok(None);
    }
    match utf8_decoded(alloc, url.path())? {
        Some(path) => Ok(Some(path.into_owned(alloc)?)),
        None => Ok(None),
    }
}

fn is_local_file(url: &Url) -> bool
    ensures { result ≡ is_local_file url.now }
{
    url.scheme() == "file" && !url.has_host()
}
