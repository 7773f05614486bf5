//! URLs that keep the text that they were given as.

ghost use Rattle.std.specs.Prelude.{◌≡◌, IfOk, Some, None, option_copied, string_bytes};
ghost use Rattle.read_outcome.specs.Outcome.{Answers, ReadsText};
ghost use Rattle.serde_json.specs.View.{view};
ghost use Rattle.serde_json.specs.Find as find;
ghost use Rattle.url.specs.Parts.{serialize};
ghost use Rattle.pep508_url.specs.UrlFaults.{told_url};
ghost use Rattle.pep508_url.specs.UrlTexts.{given_as, text_reading, path_reading, path_of};
ghost use Rattle.pep508_url.specs.Vars.{IsAbsolute};

use crate::VerbatimUrlError;
use crate::reading_url::{path_of_url, read_path, read_url};
use read_outcome::FromValueError;
use serde_json::Value;
use std::alloc::{AllocError, Global};
use std::marker::Model;
use url::Url;

/// A URL and, where there is one, the text that it was given as, with variables' names in place of their
/// values.
///
/// It compares, hashes and prints as the URL.
#[derive(Drop)]
pub struct VerbatimUrl {
    url: Url,
    given: Option<String>,
}

impl Model for VerbatimUrl {
    ghost use Rattle.std.specs.Prelude.{option_map};
    ghost use Rattle.std.specs.String.{string_bytes};
    ghost use Rattle.pep508_url.specs.UrlTexts.{Verbatim};

    ghost Value = { Verbatim };

    ghost view = { λ v. record { url = v.url; given = option_map string_bytes v.given } };
}

impl VerbatimUrl {
    /// Returns the URL without a given text.
    pub fn from_url(url: Url) -> Self
        ensures { result ≡ record { url = url; given = None } }
    {
        VerbatimUrl { url, given: None }
    }

    /// Reads a URL by the crate `url`, without variables and without keeping the text.
    ///
    /// # Errors
    /// `Url` where that crate refuses the text; `Memory` where memory ran out, or the URL grew to 4 GB.
    pub fn parse_url(alloc: Global, text: &str) -> Result<Self, VerbatimUrlError>
        ensures { Answers (λ url. url) told_url result (given_as None (text_reading text.now)) }
    {
        match read_url(alloc, text) {
            Ok(url) => Ok(VerbatimUrl { url, given: None }),
            Err(error) => Err(error),
        }
    }

    /// Reads a URL by the crate `url`, without variables, and keeps the text as given.
    ///
    /// # Errors
    /// `Url` where that crate refuses the text; `Memory` where memory ran out, or the URL grew to 4 GB.
    pub fn from_str(alloc: Global, text: &str) -> Result<Self, VerbatimUrlError>
        ensures { Answers (λ url. url) told_url result (given_as (Some text.now) (text_reading text.now)) }
    {
        let url = match read_url(alloc, text) {
            Ok(url) => url,
            Err(error) => return Err(error),
        };
        Ok(VerbatimUrl {
            url,
            given: Some(String::from_str(alloc, text)?),
        })
    }

    /// Returns the URL of a path, which is absolute or relative to the absolute directory, without a given
    /// text. The text after the path's first `#` is the URL's fragment.
    ///
    /// Linear in the two texts.
    ///
    /// # Errors
    /// `Normalization` where a `..` goes beyond the root; `Url` where the crate `url` refuses the path's
    /// text; `Memory` where memory ran out, or the URL grew to 4 GB.
    pub fn from_path(alloc: Global, path: &str, working_dir: &str) -> Result<Self, VerbatimUrlError>
        requires { IsAbsolute working_dir.now }
        ensures { Answers (λ url. url) told_url result
            (given_as None (path_reading path.now (Some working_dir.now))) }
    {
        match read_path(alloc, path, Some(working_dir)) {
            Ok(url) => Ok(VerbatimUrl { url, given: None }),
            Err(error) => Err(error),
        }
    }

    /// Returns the URL of an absolute path, as `from_path` does.
    ///
    /// # Errors
    /// `WorkingDirectory` where the path is relative; else those of `from_path`.
    pub fn from_absolute_path(alloc: Global, path: &str) -> Result<Self, VerbatimUrlError>
        ensures { Answers (λ url. url) told_url result (given_as None (path_reading path.now None)) }
    {
        match read_path(alloc, path, None) {
            Ok(url) => Ok(VerbatimUrl { url, given: None }),
            Err(error) => Err(error),
        }
    }

    /// Returns the URL with this as the text that it was given as. Takes no memory.
    pub fn with_given(self, given: String) -> Self
        ensures { result ≡ record self { given = Some (string_bytes given) } }
    {
        let VerbatimUrl { url, given: _ } = self;
        VerbatimUrl {
            url,
            given: Some(given),
        }
    }

    /// Returns the text that the URL was given as, where it keeps one.
    pub fn given(&self) -> Option<&str>
        ensures { option_copied result ≡ self.now.given }
    {
        match &self.given {
            Some(given) => Some(given.as_str()),
            None => None,
        }
    }

    /// Returns the URL itself.
    pub fn raw(&self) -> &Url
        ensures { result.now ≡ self.now.url }
    {
        &self.url
    }

    /// Returns a copy of the URL itself.
    ///
    /// # Errors
    ///
    /// `AllocError` when memory runs out.
    pub fn to_url(&self) -> Result<Url, AllocError>
        ensures { IfOk result (λ url. url ≡ self.now.url) }
    {
        self.url.clone()
    }

    /// Returns the URL itself, without the text that it was given as.
    pub fn into_url(self) -> Url
        ensures { result ≡ self.url }
    {
        let VerbatimUrl { url, given: _ } = self;
        url
    }

    /// Returns the path that a URL of the scheme `file` without a host names (RFC 8089, section 2), with
    /// its escapes decoded.
    ///
    /// # Errors
    /// `UrlConversion` for another URL, and where the decoded bytes are not UTF-8; `Memory` where memory
    /// ran out.
    pub fn as_path(&self, alloc: Global) -> Result<String, VerbatimUrlError>
        ensures { Answers (λ path. string_bytes path) told_url result (path_of self.now.url) }
    {
        path_of_url(alloc, &self.url)
    }

    /// Returns a copy, in memory of its own.
    ///
    /// # Errors
    ///
    /// `AllocError` when memory runs out.
    pub fn try_clone(&self, alloc: Global) -> Result<Self, AllocError>
        ensures { IfOk result (λ copy. copy ≡ self.now) }
    {
        let given = match &self.given {
            Some(given) => Some(String::from_str(alloc, given.as_str())?),
            None => None,
        };
        Ok(VerbatimUrl {
            url: self.url.clone()?,
            given,
        })
    }

    /// Returns the URL as a JSON text: its print.
    ///
    /// # Errors
    ///
    /// `AllocError` when memory runs out.
    pub fn to_value(&self, alloc: Global) -> Result<Value, AllocError>
        ensures { IfOk result (λ value. find.as_str (view value) ≡ Some (serialize self.now.url)) }
    {
        Ok(Value::String(String::from_str(alloc, self.url.as_str())?))
    }

    /// Reads a URL from a JSON text as `parse_url` does.
    ///
    /// # Errors
    /// `Shape` where the value is not a text; `Text` with the error of `parse_url`, lack of memory too.
    pub fn from_value(
        alloc: Global,
        value: &Value,
    ) -> Result<Self, FromValueError<VerbatimUrlError>>
        ensures { ReadsText
            (λ text read. Answers (λ url. url) told_url read (given_as None (text_reading text)))
            (find.as_str (view value.now)) result }
    {
        let Some(text) = value.as_str() else {
            return Err(FromValueError::Shape);
        };
        match VerbatimUrl::parse_url(alloc, text) {
            Ok(url) => Ok(url),
            Err(error) => Err(FromValueError::Text(error)),
        }
    }
}
