//! Reading requirements without a name.

ghost use Rattle.std.specs.Prelude.{◌≡◌, chars, IfSome, IfErr, None, OnOk, option_copied};
ghost use Rattle.std.specs.Str.{skip_leading_whitespace};
ghost use Rattle.pep508_url.specs.Vars.{IsAbsolute};
ghost use Rattle.pep508_error.specs.Cursors.{rest_of};
ghost use Rattle.pep508_tree.specs.Meaning.{Extends};
ghost use Rattle.pep508_marker_parser.specs.MarkerOutcome.{ReadsMarker};
ghost use Rattle.pep508_error.specs.Refusals.{IsOf};
ghost use Rattle.pep508_requirement.specs.MarkerBehind.{marker_behind, TakesUnnamedWarnings};
ghost use Rattle.pep508_requirement.specs.Pieces.{ReadsPiece};
ghost use Rattle.pep508_requirement.specs.UnnamedUrls.{ReadsUnnamed};
ghost use Rattle.pep508_requirement.specs.UnnamedRequirementReading.{ReadsGiven, ReadsUnnamedRequirement};

use crate::UnnamedRequirement;
use crate::remaining_text::{last_mark, refuse_first};
use crate::unnamed_url::read_unnamed_url;
use pep508_error::{Cursor, Pep508Error, Refusal};
use pep508_marker::{Reporter, Silent};
use pep508_marker_parser::read_marker;
use pep508_requirement_text::{Unnamed, UrlPiece, read_unnamed};
use pep508_tree::{Interner, MarkerTree};
use pep508_url::{UnnamedRequirementUrl, Vars, expand_env_vars};
use std::alloc::Global;

impl<Url: UnnamedRequirementUrl> UnnamedRequirement<Url> {
    /// Reads a requirement without a name, as `https://example.org/pip.whl` or `./pip[dev] ; os_name ==
    /// 'nt'`: a URL or a path, extras at its end, and a marker. A relative path is resolved against the
    /// absolute directory, where there is one. The URL keeps its text as given, with variables' names in
    /// place of their values, without the extras. The marker and its warnings are those of
    /// `Requirement::parse_reporter`.
    ///
    /// Linear in the text, but for combining the marker's trees; takes memory for what is read and for an
    /// error. The nodes of the interner stay, also after an error.
    ///
    /// # Errors
    /// `UrlError` where the text's URL is invalid; `NumberAtEnd` where the marker has a version number that
    /// can't be raised; `String` where the text is otherwise not such a requirement; `Memory` where memory
    /// ran out. A fault of the extras comes before the URL's, and that before the marker's.
    pub fn parse<R: Reporter>(
        alloc: Global,
        interner: &mut Interner,
        vars: &Vars,
        text: &str,
        working_dir: Option<&str>,
        reporter: &mut R,
    ) -> Result<Self, Pep508Error<Url>>
        requires directory { IfSome working_dir (λ directory. IsAbsolute directory.now) }
        requires can_report { R.can_report reporter.old }
        ensures answered { ReadsUnnamedRequirement
            (ReadsGiven
            (ReadsUnnamed (λ path. Url.reads_path path (option_copied working_dir.entry)) Url.reads_url)
            Url.is_given vars.now)
            Url.lacks_memory interner.new.nodes text.now result }
        ensures warnings { OnOk result (TakesUnnamedWarnings R.takes reporter.old reporter.new text.now) }
        ensures again { R.can_report reporter.new }
        ensures keeps { Extends interner.old.nodes interner.new.nodes }
        ensures counts { interner.new.conjunctions ≡ interner.old.conjunctions }
    {
        let (front, rest) = match read_unnamed(alloc, Cursor::new(text)) {
            Ok(found) => found,
            Err(refusal) => return Err(Pep508Error::of(alloc, refusal)),
        };
        let Unnamed { whole, url, extras } = front;
        let url = match read_given(alloc, whole, url.text, vars, working_dir) {
            Ok(url) => url,
            Err(error) => return Err(error),
        };
        match read_behind(alloc, interner, &url, rest, reporter) {
            Ok(marker) => Ok(UnnamedRequirement {
                url,
                extras,
                marker,
                origin: None,
            }),
            Err(refusal) => Err(Pep508Error::of(alloc, refusal)),
        }
    }

    /// Reads a requirement as `parse` does, without a directory, so that a relative path is refused, and
    /// drops the warnings.
    ///
    /// # Errors
    /// Those of `parse`.
    pub fn from_str(
        alloc: Global,
        interner: &mut Interner,
        vars: &Vars,
        text: &str,
    ) -> Result<Self, Pep508Error<Url>>
        ensures answered { ReadsUnnamedRequirement
            (ReadsGiven (ReadsUnnamed (λ path. Url.reads_path path None) Url.reads_url) Url.is_given vars.now)
            Url.lacks_memory interner.new.nodes text.now result }
        ensures keeps { Extends interner.old.nodes interner.new.nodes }
        ensures counts { interner.new.conjunctions ≡ interner.old.conjunctions }
    {
        UnnamedRequirement::parse(alloc, interner, vars, text, None, &mut Silent)
    }
}

/// Reads the URL of a text, given as the text; a fault is shown at the whole piece.
fn read_given<U: UnnamedRequirementUrl>(
    alloc: Global,
    whole: UrlPiece<'_>,
    text: &str,
    vars: &Vars,
    working_dir: Option<&str>,
) -> Result<U, Pep508Error<U>>
    requires { IfSome working_dir (λ directory. IsAbsolute directory.now) }
    ensures { ReadsPiece
        (ReadsGiven (ReadsUnnamed (λ path. U.reads_path path (option_copied working_dir.entry)) U.reads_url)
        U.is_given vars.now)
        U.lacks_memory text.now whole.entry.start.input.now result }
{
    let Ok(expanded) = expand_env_vars(alloc, text, vars) else {
        return Err(Pep508Error::memory(alloc));
    };
    let Ok(read) = read_unnamed_url::<U>(alloc, expanded.as_str(), working_dir) else {
        return Err(Pep508Error::memory(alloc));
    };
    match read {
        Ok(url) => match String::from_str(alloc, text) {
            Ok(given) => Ok(url.with_given(given)),
            Err(_) => Err(Pep508Error::memory(alloc)),
        },
        Err(error) => Err(Pep508Error::of_url(alloc, error, whole.start, whole.text.len())),
    }
}

/// Reads the marker after a URL and its extras, which always holds where nothing is left. Refuses what is
/// left where it is not a marker.
fn read_behind<'a, U: UnnamedRequirementUrl, R: Reporter>(
    alloc: Global,
    interner: &mut Interner,
    url: &U,
    rest: Cursor<'a>,
    reporter: &mut R,
) -> Result<MarkerTree, Refusal<'a>>
    requires { R.can_report reporter.old }
    ensures read { ReadsMarker R.takes reporter.old reporter.new interner.new.nodes result
        (marker_behind (skip_leading_whitespace (chars (rest_of rest.entry)))) }
    ensures again { R.can_report reporter.new }
    ensures keeps { Extends interner.old.nodes interner.new.nodes }
    ensures counts { interner.new.conjunctions ≡ interner.old.conjunctions }
    ensures of { IfErr result (IsOf rest.entry) }
{
    let left = rest.after_whitespace();
    let Some((first, inside)) = left.split_first() else {
        return Ok(MarkerTree::TRUE);
    };
    if first == ';' {
        return read_marker(alloc, interner, inside, reporter);
    }
    let mark = url.given().and_then(|given| last_mark(given));
    Err(refuse_first(alloc, mark, rest, left, first))
}
