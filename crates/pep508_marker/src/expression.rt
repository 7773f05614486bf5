//! Comparisons of markers.

ghost use Rattle.std.specs.Prelude.{◌≡◌, IfOk};

use crate::{
    ExtraOperator, MarkerOperator, MarkerValueExtra, MarkerValueString, MarkerValueVersion,
};
use pep440_specifier::VersionSpecifier;
use pep440_version::Version;
use std::alloc::{AllocError, Global};
use std::fmt;

/// A comparison of a marker, as `python_version > '3.8'` (PEP 508, "Environment Markers"). The key is on
/// the left; where it was written on the right, the operator is inverted.
///
/// Prints as a marker's text. Compares and hashes by the variant, then by the fields in order.
#[derive(Debug, PartialEq, Eq, PartialOrd, Ord, Hash, Drop)]
pub enum MarkerExpression {
    /// A version of the environment and a specifier.
    Version {
        key: MarkerValueVersion,
        specifier: VersionSpecifier,
    },
    /// A version of the environment and a list of versions, as `python_version in '3.8 3.9'`.
    VersionIn {
        key: MarkerValueVersion,
        versions: Vec<Version>,
        /// Whether the operator is `not in`.
        negated: bool,
    },
    /// A text of the environment and a text.
    String {
        key: MarkerValueString,
        operator: MarkerOperator,
        value: String,
    },
    /// The name of an extra that is requested, or not.
    Extra {
        operator: ExtraOperator,
        name: MarkerValueExtra,
    },
}

impl MarkerExpression {
    ghost use Rattle.pep508_marker.specs.Expression.{expression_of};

    /// Returns a copy, in memory of its own.
    ///
    /// # Errors
    ///
    /// `AllocError` when memory runs out.
    pub fn try_clone(&self, alloc: Global) -> Result<MarkerExpression, AllocError>
        ensures { IfOk result (λ copy. expression_of copy ≡ expression_of self.now) }
    {
        match self {
            MarkerExpression::Version { key, specifier } => Ok(MarkerExpression::Version {
                key: *key,
                specifier: specifier.try_clone(alloc)?,
            }),
            MarkerExpression::VersionIn {
                key,
                versions,
                negated,
            } => Ok(MarkerExpression::VersionIn {
                key: *key,
                versions: copy_versions(alloc, versions)?,
                negated: *negated,
            }),
            MarkerExpression::String {
                key,
                operator,
                value,
            } => Ok(MarkerExpression::String {
                key: *key,
                operator: *operator,
                value: String::from_str(alloc, value.as_str())?,
            }),
            MarkerExpression::Extra { operator, name } => Ok(MarkerExpression::Extra {
                operator: *operator,
                name: name.try_clone(alloc)?,
            }),
        }
    }
}

fn copy_versions(alloc: Global, versions: &[Version]) -> Result<Vec<Version>, AllocError>
    ensures { IfOk result (λ copies. copies.items ≡ versions.now) }
{
    let mut copies = Vec::with_capacity(alloc, versions.len())?;
    for version in versions {
        copies.push(version.try_clone(alloc)?)?;
    }
    Ok(copies)
}
