//! Why a requirement list has no normal text.

ghost use Rattle.std.specs.Prelude.{◌≡◌};
ghost use Rattle.reqtable_normal.specs.Errors.{cause_text};

use std::alloc::AllocError;
use std::error::Error;
use std::fmt;

/// Why a line has no normal text.
#[derive(Clone, Copy, Debug, PartialEq, Eq)]
pub enum NormalCause {
    /// The line requires a URL.
    Url,
    /// A string in the line's marker has a single quote, so it can't be written in single quotes.
    SingleQuote,
    /// The line's marker depends on a key with a deprecated name, as `os.name`, which prints under its new
    /// name.
    DeprecatedKey,
    /// The line's marker depends on a version that is more than release numbers of epoch 0, which can't be
    /// printed in a marker.
    Bound,
}

impl NormalCause {
    /// The cause in one or two words, as `single quote`.
    pub fn as_str(self) -> &'static str
        ensures { result.now ≡ cause_text self }
    {
        match self {
            NormalCause::Url => "URL",
            NormalCause::SingleQuote => "single quote",
            NormalCause::DeprecatedKey => "deprecated key",
            NormalCause::Bound => "version bound",
        }
    }
}

impl fmt::Display for NormalCause {
    ghost use Rattle.std.specs.Prelude.{Some};
    ghost use Rattle.reqtable_normal.specs.Errors.{cause_text};

    ghost output = { λ cause. Some (cause_text cause) };

    fn fmt<W: fmt::Write>(&self, f: &mut fmt::Formatter<W>) -> fmt::Result {
        write!(f, "{}", self.as_str())
    }
}

/// Why a requirement list has no normal text.
#[derive(Debug, PartialEq, Eq, Drop)]
pub enum NormalError {
    /// The first line, by its number from 1, that has no normal text.
    Line { number: usize, cause: NormalCause },
    /// The first line, by its number from 1, whose marker has more clauses than a bound allows.
    TooManyClauses { number: usize },
    /// Memory ran out.
    Memory,
}

impl From<AllocError> for NormalError {
    ghost use Rattle.reqtable_normal.specs.declared.error.NormalError.TheVariants.{Memory};

    ghost from_gives = { λ _ error. error ≡ Memory };

    fn from(_: AllocError) -> NormalError {
        NormalError::Memory
    }
}

impl fmt::Display for NormalError {
    ghost use Rattle.std.specs.Prelude.{Some};
    ghost use Rattle.reqtable_normal.specs.Errors.{normal_error_text};

    ghost output = { λ error. Some (normal_error_text error) };

    fn fmt<W: fmt::Write>(&self, f: &mut fmt::Formatter<W>) -> fmt::Result {
        match self {
            NormalError::Line { number, cause } => write!(f, "line {number}: {cause}"),
            NormalError::TooManyClauses { number } => write!(f, "line {number}: too many clauses"),
            NormalError::Memory => write!(f, "out of memory"),
        }
    }
}

impl Error for NormalError {}
