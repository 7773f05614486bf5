//! Answers on URLs.

use crate::answers::DIRECTORY;
use crate::names;
use pep508_url::{
    Pep508Url, Scheme, UnnamedRequirementUrl, Vars, VerbatimUrl, VerbatimUrlError, expand_env_vars,
    split_extras, split_scheme, strip_host,
};
use std::alloc::{AllocError, Global};
use url::{ParseError, Url};

/// Returns the answer to a question on URLs, or to one of another kind.
pub fn answer(
    alloc: Global,
    vars: &Vars,
    kind: &str,
    text: &str,
    other: &str,
) -> Result<String, AllocError> {
    match kind {
        "url" | "url-nowhere" | "path" | "absolute-path" => of_text(alloc, vars, kind, text),
        "unnamed-path" | "unnamed-url" => unnamed(alloc, kind, text),
        "of-url" => of_url(alloc, text),
        "as-path" => as_path(alloc, text),
        "expand" => expand(alloc, vars, text),
        "scheme" => scheme(alloc, text),
        "strip-host" => String::from_str(alloc, strip_host(text)),
        "split-extras" => extras(alloc, text),
        _ => names::answer(alloc, vars, kind, text, other),
    }
}

/// Returns the URL of a text or of a path, and the text that it was given as.
fn of_text(alloc: Global, vars: &Vars, kind: &str, text: &str) -> Result<String, AllocError> {
    match read(alloc, vars, kind, text) {
        Ok(url) => told(alloc, &url),
        Err(error) => refused(alloc, &error),
    }
}

fn read(
    alloc: Global,
    vars: &Vars,
    kind: &str,
    text: &str,
) -> Result<VerbatimUrl, VerbatimUrlError> {
    match kind {
        "url" => <VerbatimUrl as Pep508Url>::parse_url(alloc, text, vars, Some(DIRECTORY)),
        "url-nowhere" => <VerbatimUrl as Pep508Url>::parse_url(alloc, text, vars, None),
        "path" => VerbatimUrl::from_path(alloc, text, DIRECTORY),
        _ => VerbatimUrl::from_absolute_path(alloc, text),
    }
}

fn told(alloc: Global, url: &VerbatimUrl) -> Result<String, AllocError> {
    match url.given() {
        Some(given) => format!(in alloc; "{url} given {given}"),
        None => url.to_string(alloc),
    }
}

fn refused(alloc: Global, error: &VerbatimUrlError) -> Result<String, AllocError> {
    match error {
        VerbatimUrlError::Memory => Err(AllocError),
        error => format!(in alloc; "refused: {error}"),
    }
}

/// Returns the URL of a path in a directory, or of a text, as a requirement without a name reads it.
fn unnamed(alloc: Global, kind: &str, text: &str) -> Result<String, AllocError> {
    match read_unnamed(alloc, kind, text) {
        Ok(url) => given(alloc, &url),
        Err(error) => refused(alloc, &error),
    }
}

fn read_unnamed(alloc: Global, kind: &str, text: &str) -> Result<VerbatimUrl, VerbatimUrlError> {
    if kind == "unnamed-path" {
        <VerbatimUrl as UnnamedRequirementUrl>::parse_path(alloc, text, DIRECTORY)
    } else {
        <VerbatimUrl as UnnamedRequirementUrl>::parse_unnamed_url(alloc, text)
    }
}

fn given<T: UnnamedRequirementUrl>(alloc: Global, url: &T) -> Result<String, AllocError> {
    let given = url.given().unwrap_or("nothing");
    format!(in alloc; "{url} given {given}")
}

/// Returns the URL that the crate `url` reads, without a given text.
fn of_url(alloc: Global, text: &str) -> Result<String, AllocError> {
    match Url::parse(alloc, text) {
        Ok(url) => given(alloc, &VerbatimUrl::from_url(url)),
        Err(ParseError::OutOfMemory) => Err(AllocError),
        Err(error) => format!(in alloc; "refused: {error}"),
    }
}

/// Returns the path of a URL.
fn as_path(alloc: Global, text: &str) -> Result<String, AllocError> {
    match VerbatimUrl::parse_url(alloc, text) {
        Ok(url) => path_of(alloc, &url),
        Err(error) => refused(alloc, &error),
    }
}

fn path_of(alloc: Global, url: &VerbatimUrl) -> Result<String, AllocError> {
    match url.as_path(alloc) {
        Ok(path) => Ok(path),
        Err(error) => refused(alloc, &error),
    }
}

fn expand(alloc: Global, vars: &Vars, text: &str) -> Result<String, AllocError> {
    expand_env_vars(alloc, text, vars)?.into_owned(alloc)
}

fn scheme(alloc: Global, text: &str) -> Result<String, AllocError> {
    match split_scheme(text) {
        Some((scheme, rest)) => format!(in alloc; "{scheme} ({}), then {rest}", kind_of(scheme)),
        None => String::from_str(alloc, "none"),
    }
}

fn kind_of(scheme: &str) -> &'static str {
    match Scheme::parse(scheme) {
        Some(listed) if listed.is_file() => "file",
        Some(_) => "listed",
        None => "other",
    }
}

fn extras(alloc: Global, text: &str) -> Result<String, AllocError> {
    match split_extras(text) {
        Some((url, extras)) => format!(in alloc; "{url} with {extras}"),
        None => String::from_str(alloc, "none"),
    }
}
