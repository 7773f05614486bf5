//! Warnings of comparisons that are meaningless, or don't mean what they seem to.
//!
//! A warning's text is made only where the reporter wants warnings: a `Notice` borrows the parts and prints
//! as the text. The contract states the warning's kind and not its text.

ghost use Rattle.std.specs.Prelude.{◌≡◌, OnOk, IfOk, ◌∷◌, []};
ghost use Rattle.pep508_comparison_parser.specs.Notices.{kind_of};
ghost use Rattle.pep508_comparison_parser.specs.Compared.{left_out};
ghost use Rattle.pep508_comparison_parser.specs.Outcome.{IsWarned, IsCompared};

use pep440_specifier::VersionSpecifierBuildError;
use pep440_version::{Version, VersionParseError, VersionPatternParseError};
use pep508_marker::{
    MarkerExpression, MarkerOperator, MarkerValue, MarkerValueVersion, MarkerWarningKind, Reporter,
};
use pep508_name::InvalidNameError;
use std::alloc::{AllocError, Global};
use std::fmt;

const KEYS: &str = "Comparing two markers with each other doesn't make any sense, will be ignored";

const EXTRA: &str =
    "Comparing extra with something other than a quoted string is wrong, will be ignored";

/// A warning whose text is yet to be made. Prints as that text.
#[derive(Clone, Copy)]
pub(crate) enum Notice<'a> {
    /// A key of versions is compared with something other than a quoted text.
    Unquoted(MarkerValueVersion, &'a MarkerValue),
    /// A word of the text after `in` or `not in` is not a version.
    Listed(MarkerValueVersion, &'a str, &'a VersionParseError),
    /// The text after a key is neither a version nor a pattern of versions, or that before one is not a
    /// version.
    Pattern(MarkerValueVersion, &'a str, &'a VersionPatternParseError),
    /// The operator doesn't compare versions.
    Operator(MarkerValueVersion, &'a Version, MarkerOperator),
    /// The operator doesn't allow the version.
    Combination(&'a VersionSpecifierBuildError),
    /// A key of texts is compared with a key.
    Keys,
    /// Texts are compared by `~=`.
    Compatible,
    /// `extra` is compared with a key, or by an operator that names don't have.
    Extra,
    /// `extra` is compared with a text that is not a name.
    Name(&'a str, &'a InvalidNameError),
    /// A quoted text is compared with a quoted text.
    Quoted(&'a str, MarkerOperator, &'a str),
}

impl Notice<'_> {
    /// Returns the kind of the warning.
    pub(crate) fn kind(&self) -> MarkerWarningKind
        ensures { result ≡ kind_of self.now }
    {
        match self {
            Notice::Keys => MarkerWarningKind::MarkerMarkerComparison,
            Notice::Compatible => MarkerWarningKind::LexicographicComparison,
            Notice::Extra | Notice::Name(..) => MarkerWarningKind::ExtraInvalidComparison,
            Notice::Quoted(..) => MarkerWarningKind::StringStringComparison,
            _ => MarkerWarningKind::Pep440Error,
        }
    }
}

impl fmt::Display for Notice<'_> {
    fn fmt<W: fmt::Write>(&self, f: &mut fmt::Formatter<W>) -> fmt::Result {
        match self {
            Notice::Unquoted(key, found) => {
                write!(
                    f,
                    "Expected double quoted PEP 440 version to compare with {key}, found "
                )?;
                write!(f, "{found}, will be ignored")
            }
            Notice::Listed(key, text, fault) => {
                write!(f, "Expected PEP 440 versions to compare with {key}, found ")?;
                write!(f, "{text}, will be ignored: {fault}")
            }
            Notice::Pattern(key, text, fault) => {
                write!(f, "Expected PEP 440 version to compare with {key}, found ")?;
                write!(f, "{text}, will be ignored: {fault}")
            }
            Notice::Operator(key, version, operator) => {
                write!(
                    f,
                    "Expected PEP 440 version operator to compare {key} with "
                )?;
                write!(f, "`{version}`, found `{operator}`, will be ignored")
            }
            Notice::Combination(fault) => write!(
                f,
                "Invalid operator/version combination: {fault}"
            ),
            Notice::Keys => write!(f, "{}", KEYS),
            Notice::Compatible => write!(f, "Can't compare strings with `~=`, will be ignored"),
            Notice::Extra => write!(f, "{}", EXTRA),
            Notice::Name(text, fault) => write!(f, "Expected extra name (found `{text}`): {fault}"),
            Notice::Quoted(left, operator, right) => {
                write!(
                    f,
                    "Comparing two quoted strings with each other doesn't make sense: "
                )?;
                write!(f, "'{left}' {operator} '{right}', will be ignored")
            }
        }
    }
}

/// Reports a warning, where warnings are wanted.
pub(crate) fn warn<R: Reporter>(
    alloc: Global,
    reporter: &mut R,
    notice: Notice<'_>,
) -> Result<(), AllocError>
    requires { R.can_report reporter.old }
    ensures taken { OnOk result (IsWarned R.takes reporter.old reporter.new (kind_of notice.entry ∷ [])) }
    ensures again { R.can_report reporter.new }
{
    if !reporter.wants() {
        return Ok(());
    }
    let text = format!(in alloc; "{notice}")?;
    reporter.report(notice.kind(), text)
}

/// Leaves a comparison out, with a warning.
pub(crate) fn leave_out<R: Reporter>(
    alloc: Global,
    reporter: &mut R,
    notice: Notice<'_>,
) -> Result<Option<MarkerExpression>, AllocError>
    requires { R.can_report reporter.old }
    ensures said { IfOk result (λ said. IsCompared R.takes reporter.old reporter.new said
        (left_out (kind_of notice.entry))) }
    ensures again { R.can_report reporter.new }
{
    warn(alloc, reporter, notice)?;
    Ok(None)
}
