//! Comparisons of a key of versions with a text.

ghost use Rattle.std.specs.Prelude.{◌≡◌, IfOk};
ghost use Rattle.std.specs.Result.{result_ok};
ghost use Rattle.pep508_comparison_parser.specs.Compared.{version_before, of_list, of_specifier};
ghost use Rattle.pep508_comparison_parser.specs.Compared.{specifier_behind, specifier_before, versions_of};
ghost use Rattle.pep508_comparison_parser.specs.Compared.{runs_of};
ghost use Rattle.pep508_comparison_parser.specs.Outcome.{IsCompared};

use crate::notice::{Notice, leave_out, warn};
use crate::reading_versions::{read_pattern, read_version, read_versions};
use pep440_specifier::{VersionSpecifier, VersionSpecifierBuildError};
use pep440_version::VersionPatternParseError;
use pep508_marker::{MarkerExpression, MarkerOperator, MarkerValueVersion, Reporter};
use std::alloc::{AllocError, Global};

/// Makes the comparison of a key with a text: one version or pattern, or a list of versions.
pub(crate) fn compare_version<R: Reporter>(
    alloc: Global,
    reporter: &mut R,
    key: MarkerValueVersion,
    operator: MarkerOperator,
    text: &str,
) -> Result<Option<MarkerExpression>, AllocError>
    requires { R.can_report reporter.old }
    ensures said { IfOk result (λ said. IsCompared R.takes reporter.old reporter.new said
        (version_before key operator text.now)) }
    ensures again { R.can_report reporter.new }
{
    match operator {
        MarkerOperator::In => compare_list(alloc, reporter, key, false, operator, text),
        MarkerOperator::NotIn => compare_list(alloc, reporter, key, true, operator, text),
        _ => compare_pattern(alloc, reporter, key, operator, text),
    }
}

/// Makes the comparison of a key with a list; where the text is not a list, with a pattern, after a warning.
fn compare_list<R: Reporter>(
    alloc: Global,
    reporter: &mut R,
    key: MarkerValueVersion,
    negated: bool,
    operator: MarkerOperator,
    text: &str,
) -> Result<Option<MarkerExpression>, AllocError>
    requires { R.can_report reporter.old }
    ensures said { IfOk result (λ said. IsCompared R.takes reporter.old reporter.new said
        (of_list key negated (versions_of (runs_of text.now))
        (of_specifier key (specifier_behind operator text.now)))) }
    ensures again { R.can_report reporter.new }
{
    match read_versions(alloc, text)? {
        Ok(versions) => Ok(Some(MarkerExpression::VersionIn {
            key,
            versions,
            negated,
        })),
        Err(error) => {
            warn(alloc, reporter, Notice::Listed(key, text, &error))?;
            compare_pattern(alloc, reporter, key, operator, text)
        }
    }
}

/// Makes the comparison of a key with a version or a pattern.
fn compare_pattern<R: Reporter>(
    alloc: Global,
    reporter: &mut R,
    key: MarkerValueVersion,
    operator: MarkerOperator,
    text: &str,
) -> Result<Option<MarkerExpression>, AllocError>
    requires { R.can_report reporter.old }
    ensures said { IfOk result (λ said. IsCompared R.takes reporter.old reporter.new said
        (of_specifier key (specifier_behind operator text.now))) }
    ensures again { R.can_report reporter.new }
{
    let pattern = match read_pattern(alloc, text)? {
        Ok(pattern) => pattern,
        Err(error) => return leave_out(alloc, reporter, Notice::Pattern(key, text, &error)),
    };
    match operator.to_pep440_operator() {
        Some(sign) => say(
            alloc,
            reporter,
            key,
            VersionSpecifier::from_pattern(sign, pattern),
        ),
        None => leave_out(
            alloc,
            reporter,
            Notice::Operator(key, pattern.version(), operator),
        ),
    }
}

/// Makes the comparison of a version with a key, where the operator is already that between the key and the
/// version.
pub(crate) fn compare_turned<R: Reporter>(
    alloc: Global,
    reporter: &mut R,
    key: MarkerValueVersion,
    operator: MarkerOperator,
    text: &str,
) -> Result<Option<MarkerExpression>, AllocError>
    requires { R.can_report reporter.old }
    ensures said { IfOk result (λ said. IsCompared R.takes reporter.old reporter.new said
        (of_specifier key (specifier_before operator text.now))) }
    ensures again { R.can_report reporter.new }
{
    let version = match read_version(alloc, text)? {
        Ok(version) => version,
        Err(error) => {
            let error = VersionPatternParseError::Version(error);
            return leave_out(alloc, reporter, Notice::Pattern(key, text, &error));
        }
    };
    match operator.to_pep440_operator() {
        Some(sign) => say(
            alloc,
            reporter,
            key,
            VersionSpecifier::from_version(sign, version),
        ),
        None => leave_out(alloc, reporter, Notice::Operator(key, &version, operator)),
    }
}

/// Returns the comparison by a specifier; where the operator doesn't allow the version it is left out with
/// a warning.
fn say<R: Reporter>(
    alloc: Global,
    reporter: &mut R,
    key: MarkerValueVersion,
    made: Result<VersionSpecifier, VersionSpecifierBuildError>,
) -> Result<Option<MarkerExpression>, AllocError>
    requires { R.can_report reporter.old }
    ensures said { IfOk result (λ said. IsCompared R.takes reporter.old reporter.new said
        (of_specifier key (result_ok made))) }
    ensures again { R.can_report reporter.new }
{
    match made {
        Ok(specifier) => Ok(Some(MarkerExpression::Version { key, specifier })),
        Err(error) => leave_out(alloc, reporter, Notice::Combination(&error)),
    }
}
