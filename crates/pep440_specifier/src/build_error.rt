//! Why an operator and a version make no specifier.
//!
//! `Memory` is a variant as in every error type, although building allocates nothing.

ghost use Rattle.std.specs.Prelude.{Some};
ghost use Rattle.pep440_specifier.specs.SpecifierErrorPrints.{build_error_text};

use crate::Operator;
use pep440_version::Version;
use std::error::Error;
use std::fmt;

/// Why an operator and a version make no specifier.
#[derive(Debug, PartialEq, Eq, Drop)]
pub enum VersionSpecifierBuildError {
    /// Memory ran out. Building takes none; a caller that first reads the parts may report this.
    Memory,
    /// This operator does not allow a local part in its version.
    OperatorLocalCombo {
        operator: Operator,
        version: Version,
    },
    /// `.*` follows the version of an operator other than `==` and `!=`.
    OperatorWithStar {
        operator: Operator,
    },
    /// The version of `~=` has fewer than two release numbers.
    CompatibleRelease,
}

impl fmt::Display for VersionSpecifierBuildError {
    ghost output = { λ error. Some (build_error_text error) };

    fn fmt<W: fmt::Write>(&self, f: &mut fmt::Formatter<W>) -> fmt::Result {
        match self {
            VersionSpecifierBuildError::Memory => write!(f, "out of memory"),
            VersionSpecifierBuildError::OperatorLocalCombo { operator, version } => write!(
                f,
                "Operator {operator} is incompatible with versions containing non-empty \
                 local segments (`{version}`)"
            ),
            VersionSpecifierBuildError::OperatorWithStar { operator } => write!(
                f,
                "Operator {operator} cannot be used with a wildcard version specifier"
            ),
            VersionSpecifierBuildError::CompatibleRelease => write!(
                f,
                "The ~= operator requires at least two segments in the release version"
            ),
        }
    }
}

impl Error for VersionSpecifierBuildError {}
