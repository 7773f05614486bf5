//! Why a text is not a URL.

use std::alloc::AllocError;
use std::error::Error;
use std::fmt;
use url::ParseError;

/// Why a text is not a URL, or a URL is not a path. Each path is kept as it was when the fault was met.
#[derive(Debug, Drop)]
pub enum VerbatimUrlError {
    /// Memory ran out, or the URL grew to 4 GB.
    Memory,
    /// The crate `url` refuses the text.
    Url(ParseError),
    /// The path is relative, and there is no working directory.
    WorkingDirectory(String),
    /// The URL, whose text this is, does not name a path.
    UrlConversion(String),
    /// A `..` of the absolute path goes beyond the root.
    Normalization(String),
}

impl From<AllocError> for VerbatimUrlError {
    ghost use Rattle.std.specs.Prelude.{◌≡◌};
    ghost use Rattle.pep508_url.specs.declared.url_error.VerbatimUrlError.TheVariants.{Memory};

    ghost from_gives = { λ _ error. error ≡ Memory };

    fn from(_: AllocError) -> VerbatimUrlError {
        VerbatimUrlError::Memory
    }
}

impl fmt::Display for VerbatimUrlError {
    ghost use Rattle.pep508_url.specs.UrlFaults.{url_error_text};

    ghost output = { url_error_text };

    fn fmt<W: fmt::Write>(&self, f: &mut fmt::Formatter<W>) -> fmt::Result {
        match self {
            VerbatimUrlError::Memory => write!(f, "out of memory"),
            VerbatimUrlError::Url(error) => write!(f, "{error}"),
            VerbatimUrlError::WorkingDirectory(path) => {
                write!(f, "relative path without a working directory: {path}")
            }
            VerbatimUrlError::UrlConversion(path) => {
                write!(f, "path could not be converted to a URL: {path}")
            }
            VerbatimUrlError::Normalization(path) => {
                write!(f, "path could not be normalized: {path}")
            }
        }
    }
}

impl Error for VerbatimUrlError {}
