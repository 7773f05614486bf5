//! The results of comparing two lists.

ghost use Rattle.std.specs.Prelude.{◌≡◌};
ghost use Rattle.reqtable_compare.specs.Errors.{cause_text, side_text};

use pep508_name::PackageName;
use pep508_tree::MarkerTree;
use std::alloc::{AllocError, AllocFailed};
use std::error::Error;
use std::fmt;

/// One of two lists that are compared.
#[derive(Clone, Copy, Debug, PartialEq, Eq)]
pub enum Side {
    Left,
    Right,
}

/// What two lists are compared by.
#[derive(Clone, Copy, Debug, PartialEq, Eq)]
pub enum Relation {
    /// Both require the same.
    Alike,
    /// The left list requires whatever the right one does: each of its packages, at least with the same
    /// extras, and with no points of versions that the right one doesn't accept.
    Covering,
}

/// Why a line can't be compared by version ranges.
#[derive(Clone, Copy, Debug, PartialEq, Eq)]
pub enum LineCause {
    /// The line requires a URL.
    Url,
    /// A specifier has `===`, which compares texts.
    ExactEqual,
    /// A specifier has `<` or `>` with a post-release, so that its range doesn't decide which versions it
    /// accepts.
    PostAfterBound,
    /// The range of a specifier would need a number past 64 bits.
    NumberAtEnd,
}

impl LineCause {
    /// The cause in words, as in error messages.
    pub fn as_str(self) -> &'static str
        ensures { result.now ≡ cause_text self }
    {
        match self {
            LineCause::Url => "URL",
            LineCause::ExactEqual => "===",
            LineCause::PostAfterBound => "post-release after a bound",
            LineCause::NumberAtEnd => "a version number can't be raised",
        }
    }
}

impl fmt::Display for LineCause {
    ghost use Rattle.std.specs.Prelude.{Some};
    ghost use Rattle.reqtable_compare.specs.Errors.{cause_text};

    ghost output = { λ cause. Some (cause_text cause) };

    fn fmt<W: fmt::Write>(&self, f: &mut fmt::Formatter<W>) -> fmt::Result {
        write!(f, "{}", self.as_str())
    }
}

/// Whether two lists require the same, or what another relation has, and if not, where they don't.
#[derive(Debug, Drop)]
pub enum Same {
    /// Both lists require the same in every environment, with any extras.
    Yes,
    /// The lists require different things of this package, the first by the bytes of its name, wherever the
    /// tree holds.
    No {
        package: PackageName,
        tree: MarkerTree,
    },
}

/// Why two lists were not compared.
#[derive(Debug, Drop)]
pub enum SameError {
    /// The first line that can't be compared, those of the left list first.
    Line {
        side: Side,
        number: usize,
        cause: LineCause,
    },
    /// The first package that has more cases than the limit, those of the left list first, then by the bytes
    /// of their names.
    TooManyCases {
        side: Side,
        package: PackageName,
    },
    /// All packages of one list together have more cases than their limit, those of the left list first.
    TooManyCasesInAll {
        side: Side,
    },
    /// Memory ran out.
    Memory,
}

impl From<AllocError> for SameError {
    ghost use Rattle.std.specs.Prelude.{◌≡◌};
    ghost use Rattle.reqtable_compare.specs.declared.sides.SameError.TheVariants.{Memory};

    ghost from_gives = { λ _ error. error ≡ Memory };

    fn from(_: AllocError) -> SameError {
        SameError::Memory
    }
}

impl<T: Drop> From<AllocFailed<T>> for SameError {
    ghost use Rattle.std.specs.Prelude.{◌≡◌};
    ghost use Rattle.reqtable_compare.specs.declared.sides.SameError.TheVariants.{Memory};

    ghost from_gives = { λ _ error. error ≡ Memory };

    fn from(_: AllocFailed<T>) -> SameError {
        SameError::Memory
    }
}

impl fmt::Display for SameError {
    ghost use Rattle.std.specs.Prelude.{Some};
    ghost use Rattle.reqtable_compare.specs.Errors.{same_error_text};

    ghost output = { λ error. Some (same_error_text error) };

    fn fmt<W: fmt::Write>(&self, f: &mut fmt::Formatter<W>) -> fmt::Result {
        match self {
            SameError::Line {
                side,
                number,
                cause,
            } => {
                let side = side_name(*side);
                write!(f, "{side} list: line {number}: {cause}")
            }
            SameError::TooManyCases { side, package } => {
                let side = side_name(*side);
                write!(f, "{side} list: {package}: too many cases")
            }
            SameError::TooManyCasesInAll { side } => {
                let side = side_name(*side);
                write!(f, "{side} list: too many cases in all")
            }
            SameError::Memory => write!(f, "out of memory"),
        }
    }
}

fn side_name(side: Side) -> &'static str
    ensures { result.now ≡ side_text side }
{
    match side {
        Side::Left => "left",
        Side::Right => "right",
    }
}

impl Error for SameError {}
