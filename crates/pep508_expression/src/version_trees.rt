//! Trees of comparisons of versions.

ghost use Rattle.std.specs.Prelude.{◌≡◌};
ghost use Rattle.pep440_range.specs.Ranges.{Gives};
ghost use Rattle.pep508_marker.specs.Expression as compared;
ghost use Rattle.pep508_tree.specs.Meaning.{Extends};
ghost use Rattle.pep508_expression.specs.Expressions.{variable_of, compared_points, listed_points};
ghost use Rattle.pep508_expression.specs.Trees.{GivesTree};

use pep440_range::{RangeError, release_specifier_to_range};
use pep440_specifier::VersionSpecifier;
use pep440_version::Version;
use pep508_comparison::{listed_range, python_listed_range, python_version_range};
use pep508_diagram::VersionVariable;
use pep508_marker::MarkerValueVersion;
use pep508_tree::{Interner, MarkerTree};
use std::alloc::Global;
use version_ranges::Ranges;

/// Returns the variable of a key.
fn variable_of(key: MarkerValueVersion) -> VersionVariable
    ensures { result ≡ variable_of key }
{
    match key {
        MarkerValueVersion::ImplementationVersion => VersionVariable::ImplementationVersion,
        MarkerValueVersion::PythonFullVersion | MarkerValueVersion::PythonVersion => {
            VersionVariable::PythonFullVersion
        }
    }
}

/// Returns the versions of the key's variable for which the comparison with the specifier holds. Costs what
/// `release_specifier_to_range` or `python_version_range` does.
///
/// # Errors
/// `NumberAtEnd` where a number of a bound would be past 64 bits; `Memory` where memory ran out.
pub fn compared_range(
    alloc: Global,
    key: MarkerValueVersion,
    specifier: &VersionSpecifier,
) -> Result<Ranges<Version>, RangeError>
    ensures { Gives result (compared_points key specifier.now) }
{
    match key {
        MarkerValueVersion::PythonVersion => python_version_range(alloc, specifier),
        MarkerValueVersion::ImplementationVersion | MarkerValueVersion::PythonFullVersion => {
            release_specifier_to_range(alloc, specifier)
        }
    }
}

/// Returns the versions of the key's variable for which the key is listed, or is not where `negated`. n
/// versions take O(n log n) comparisons.
///
/// # Errors
/// `NumberAtEnd` where a number of a bound would be past 64 bits; `Memory` where memory ran out.
pub fn listed_by(
    alloc: Global,
    key: MarkerValueVersion,
    versions: &[Version],
    negated: bool,
) -> Result<Ranges<Version>, RangeError>
    ensures { Gives result (listed_points key negated versions.now) }
{
    match key {
        MarkerValueVersion::PythonVersion => python_listed_range(alloc, negated, versions),
        MarkerValueVersion::ImplementationVersion | MarkerValueVersion::PythonFullVersion => {
            Ok(listed_range(alloc, negated, versions)?)
        }
    }
}

/// Returns the tree of a key and a specifier.
#[tactic(auto, using(crate::proofs::Points::version_points))]
pub(crate) fn version_tree(
    alloc: Global,
    interner: &mut Interner,
    key: MarkerValueVersion,
    specifier: &VersionSpecifier,
) -> Result<MarkerTree, RangeError>
    ensures answers { GivesTree interner.new.nodes result (compared.Version key specifier.now) }
    ensures keeps { Extends interner.old.nodes interner.new.nodes }
    ensures counts { interner.new.conjunctions ≡ interner.old.conjunctions }
{
    let set = compared_range(alloc, key, specifier)?;
    Ok(interner.versions_tree(alloc, variable_of(key), &set)?)
}

/// Returns the tree of a key and a list of versions.
#[tactic(auto, using(crate::proofs::Points::list_points))]
pub(crate) fn listed_tree(
    alloc: Global,
    interner: &mut Interner,
    key: MarkerValueVersion,
    versions: &[Version],
    negated: bool,
) -> Result<MarkerTree, RangeError>
    ensures answers { GivesTree interner.new.nodes result (compared.VersionIn key versions.now negated) }
    ensures keeps { Extends interner.old.nodes interner.new.nodes }
    ensures counts { interner.new.conjunctions ≡ interner.old.conjunctions }
{
    let set = listed_by(alloc, key, versions, negated)?;
    Ok(interner.versions_tree(alloc, variable_of(key), &set)?)
}
