//! The error of a text that is not a requirement.

use crate::excerpt::Excerpt;
use crate::{Cursor, Refusal, RefusalKind};
use pep508_url::Pep508Url;
use std::alloc::Global;
use std::error::Error;
use std::fmt;

/// What is wrong with a text.
#[derive(Debug, Drop)]
pub enum Pep508ErrorSource<T: Pep508Url> {
    /// The text doesn't match its grammar, as this message says.
    String(String),
    /// The text of the requirement's URL is not a URL.
    UrlError(T::Err),
    /// The text is something that a requirement with a name can't be, as this message says.
    UnsupportedRequirement(String),
    /// A version number of the marker can't be raised.
    NumberAtEnd,
    /// Memory ran out.
    Memory,
}

/// What is wrong with a text, the text, and the part of it that is at fault.
#[derive(Debug, Drop)]
pub struct Pep508Error<T: Pep508Url> {
    message: Pep508ErrorSource<T>,
    excerpt: Excerpt,
}

impl<T: Pep508Url> Pep508Error<T> {
    ghost use Rattle.std.specs.Prelude.{◌≡◌, true, IfSome, Some};
    ghost use Rattle.std.specs.Str.{IsCharBoundary};
    ghost use Rattle.std.specs.String.{string_bytes};
    ghost use Rattle.pep508_error.specs.Spans.{IsSpan};
    ghost use Rattle.pep508_error.specs.Cursors.{rest_of};
    ghost use Rattle.pep508_error.specs.Errors.{fault_at, told_error, told_refusal};
    ghost use Rattle.pep508_error.specs.declared.error.Pep508ErrorSource.TheVariants.{Memory, UrlError};

    /// Returns the error of lack of memory, which reports no text. Takes none.
    pub fn memory(alloc: Global) -> Self
        ensures { result.message ≡ Memory }
    {
        Pep508Error {
            message: Pep508ErrorSource::Memory,
            excerpt: Excerpt {
                input: String::new(alloc),
                start: 0,
                len: 0,
            },
        }
    }

    /// Returns the error that reports a reader's refusal. Takes memory for a copy of the text; where that
    /// runs out the error is `Memory`.
    pub fn of(alloc: Global, refusal: Refusal<'_>) -> Self
        ensures { IfSome (told_error result) (λ fault. told_refusal refusal.entry ≡ Some fault) }
    {
        let Refusal {
            kind,
            input,
            start,
            len,
        } = refusal;
        let message = match kind {
            RefusalKind::Memory => return Pep508Error::memory(alloc),
            RefusalKind::String(message) => Pep508ErrorSource::String(message),
            RefusalKind::UnsupportedRequirement(message) => {
                Pep508ErrorSource::UnsupportedRequirement(message)
            }
            RefusalKind::NumberAtEnd => Pep508ErrorSource::NumberAtEnd,
        };
        match String::from_str(alloc, input) {
            Ok(input) => Pep508Error {
                message,
                excerpt: Excerpt { input, start, len },
            },
            Err(_) => Pep508Error::memory(alloc),
        }
    }

    /// Returns the error that reports why the text of a URL, the next `len` bytes after a place, is not a
    /// URL. Where the error is lack of memory, or memory for a copy of the text runs out, it is `Memory`.
    pub fn of_url(alloc: Global, error: T::Err, place: Cursor<'_>, len: usize) -> Self
        requires { IsCharBoundary (rest_of place) len }
        ensures lacks { T.lacks_memory error ≡ true → result.message ≡ Memory }
        ensures tells { IfSome (told_error result) (λ fault.
            fault_at (UrlError error) place.entry.input.now place.entry.position len ≡ Some fault) }
    {
        if T::is_memory(&error) {
            return Pep508Error::memory(alloc);
        }
        match String::from_str(alloc, place.input()) {
            Ok(input) => Pep508Error {
                message: Pep508ErrorSource::UrlError(error),
                excerpt: Excerpt {
                    input,
                    start: place.position(),
                    len,
                },
            },
            Err(_) => Pep508Error::memory(alloc),
        }
    }

    /// Returns what is wrong.
    pub fn message(&self) -> &Pep508ErrorSource<T>
        ensures { result.now ≡ self.now.message }
    {
        &self.message
    }

    /// Returns the whole text; empty where memory ran out.
    pub fn input(&self) -> &str
        ensures { result.now ≡ string_bytes self.now.excerpt.input }
    {
        self.excerpt.input.as_str()
    }

    /// Returns where the part at fault begins, in bytes.
    pub fn start(&self) -> usize
        ensures start { result ≡ self.now.excerpt.start }
        ensures placed { IsSpan (string_bytes self.now.excerpt.input)
            self.now.excerpt.start self.now.excerpt.len }
    {
        self.excerpt.start
    }

    /// Returns the length of the part at fault, in bytes.
    pub fn len(&self) -> usize
        ensures { result ≡ self.now.excerpt.len }
    {
        self.excerpt.len
    }
}

impl<T: Pep508Url> fmt::Display for Pep508ErrorSource<T> {
    ghost use Rattle.pep508_error.specs.Errors.{source_text};

    ghost output = { source_text T.Err.output };

    fn fmt<W: fmt::Write>(&self, f: &mut fmt::Formatter<W>) -> fmt::Result {
        match self {
            Pep508ErrorSource::String(message) => write!(f, "{message}"),
            Pep508ErrorSource::UrlError(error) => write!(f, "{error}"),
            Pep508ErrorSource::UnsupportedRequirement(message) => write!(f, "{message}"),
            Pep508ErrorSource::NumberAtEnd => {
                write!(f, "A version number of the marker can't be raised")
            }
            Pep508ErrorSource::Memory => write!(f, "out of memory"),
        }
    }
}

impl<T: Pep508Url> Error for Pep508ErrorSource<T> {}

impl<T: Pep508Url> fmt::Display for Pep508Error<T> {
    ghost use Rattle.pep508_error.specs.Errors.{error_text};

    ghost output = { error_text T.Err.output };

    fn fmt<W: fmt::Write>(&self, f: &mut fmt::Formatter<W>) -> fmt::Result {
        let message = &self.message;
        let picture = self.excerpt.underlined();
        write!(f, "{message}\n{picture}")
    }
}

impl<T: Pep508Url> Error for Pep508Error<T> {}
