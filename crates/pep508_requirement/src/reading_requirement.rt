//! Reading requirements.
//!
//! A requirement is read in two parts: its front, which needs no type of URLs, and then its URL and the
//! rest. So the grammar and its laws speak of texts alone, and one relation (`ReadsRequirement`) joins them
//! with what the type of URLs reads. The warnings of its marker have a clause of their own
//! (`TakesWarnings`): both clauses speak of one marker, and a call without a reporter has the relation
//! alone.

ghost use Rattle.std.specs.Prelude.{◌≡◌, chars, IfSome, IfErr, None, OnOk, option_copied};
ghost use Rattle.serde_json.specs.View.{view};
ghost use Rattle.serde_json.specs.Find.{as_str};
ghost use Rattle.read_outcome.specs.Outcome.{ReadsText};
ghost use Rattle.std.specs.Str.{skip_leading_whitespace};
ghost use Rattle.pep508_url.specs.Vars.{IsAbsolute};
ghost use Rattle.pep508_error.specs.Cursors.{rest_of, IsBehind};
ghost use Rattle.pep508_tree.specs.Meaning.{Extends};
ghost use Rattle.pep508_marker_parser.specs.MarkerOutcome.{SaysMarker};
ghost use Rattle.pep508_requirement_text.specs.FrontOutcome.{IsPlain};
ghost use Rattle.pep508_error.specs.Refusals.{IsOf};
ghost use Rattle.pep508_requirement.specs.MarkedReading.{ReadsMarked};
ghost use Rattle.pep508_requirement.specs.MarkerBehind.{marker_behind, TakesWarnings};
ghost use Rattle.pep508_requirement.specs.Pieces.{ReadsAsked, ReadsPiece};
ghost use Rattle.pep508_requirement.specs.RequirementReading.{ReadsRequirement};

use crate::remaining_text::{last_mark, refuse_first};
use crate::{MarkedRequirement, Requirement, VersionOrUrl};
use pep508_error::{Cursor, Pep508Error, Refusal};
use pep508_formula::MarkerFormula;
use pep508_marker::{Reporter, Silent};
use pep508_marker_parser::read_formula;
use pep508_requirement_text::{Front, Source, UrlPiece, read_front};
use pep508_tree::Interner;
use pep508_url::{Pep508Url, Vars};
use read_outcome::FromValueError;
use serde_json::Value;
use std::alloc::{AllocError, Global};

impl<T: Pep508Url> Requirement<T> {
    /// Reads a requirement, as `requests[security]>=2.8.1,<3 ; python_version < '3.8'` or `pip @
    /// https://example.org/pip.whl` (PEP 508, "Grammar"). A URL that is a relative path is resolved against
    /// the absolute directory, where there is one. The marker is a tree of the interner, `TRUE` where there
    /// is none or where all its comparisons are meaningless.
    ///
    /// Linear in the text, but for sorting specifiers and for combining the marker's trees; takes memory
    /// for what is read and for an error. The nodes of the interner stay, also after an error.
    ///
    /// # Errors
    /// `UnsupportedRequirement` where a URL, a path or an archive is in the place of a name; `UrlError`
    /// where the text's URL is invalid; `NumberAtEnd` where the marker has a version number that can't be
    /// raised; `String` where the text is otherwise not a requirement; `Memory` where memory ran out. A
    /// fault of the front comes before the URL's, and that before the marker's.
    pub fn parse(
        alloc: Global,
        interner: &mut Interner,
        vars: &Vars,
        text: &str,
        working_dir: Option<&str>,
    ) -> Result<Self, Pep508Error<T>>
        requires { IfSome working_dir (λ directory. IsAbsolute directory.now) }
        ensures answered { ReadsRequirement (λ url. T.reads vars.now url (option_copied working_dir.entry))
            T.lacks_memory vars.now interner.new.nodes text.now result }
        ensures keeps { Extends interner.old.nodes interner.new.nodes }
        ensures counts { interner.new.conjunctions ≡ interner.old.conjunctions }
    {
        Requirement::parse_reporter(alloc, interner, vars, text, working_dir, &mut Silent)
    }

    /// Reads a requirement as `parse` does, and reports the warnings of its marker. Those of a marker that
    /// is refused may have been reported too, as far as it was read.
    ///
    /// # Errors
    /// Those of `parse`.
    pub fn parse_reporter<R: Reporter>(
        alloc: Global,
        interner: &mut Interner,
        vars: &Vars,
        text: &str,
        working_dir: Option<&str>,
        reporter: &mut R,
    ) -> Result<Self, Pep508Error<T>>
        requires directory { IfSome working_dir (λ directory. IsAbsolute directory.now) }
        requires can_report { R.can_report reporter.old }
        ensures answered { ReadsRequirement (λ url. T.reads vars.now url (option_copied working_dir.entry))
            T.lacks_memory vars.now interner.new.nodes text.now result }
        ensures warnings { OnOk result (TakesWarnings R.takes reporter.old reporter.new text.now) }
        ensures again { R.can_report reporter.new }
        ensures keeps { Extends interner.old.nodes interner.new.nodes }
        ensures counts { interner.new.conjunctions ≡ interner.old.conjunctions }
    {
        let read = match MarkedRequirement::parse_reporter(
            alloc,
            vars,
            text,
            working_dir,
            reporter,
        ) {
            Ok(read) => read,
            Err(error) => return Err(error),
        };
        match read.with_tree(alloc, interner) {
            Ok(requirement) => Ok(requirement),
            Err(_) => Err(Pep508Error::memory(alloc)),
        }
    }

    /// Reads a requirement as `parse` does, without a directory, so that a relative path is refused.
    ///
    /// # Errors
    /// Those of `parse`.
    pub fn from_str(
        alloc: Global,
        interner: &mut Interner,
        vars: &Vars,
        text: &str,
    ) -> Result<Self, Pep508Error<T>>
        ensures answered { ReadsRequirement (λ url. T.reads vars.now url None) T.lacks_memory
            vars.now interner.new.nodes text.now result }
        ensures keeps { Extends interner.old.nodes interner.new.nodes }
        ensures counts { interner.new.conjunctions ≡ interner.old.conjunctions }
    {
        Requirement::parse(alloc, interner, vars, text, None)
    }

    /// Reads a requirement from a JSON text as `from_str` does.
    ///
    /// # Errors
    /// `Shape` where the value is not a text; `Text` with the error of `from_str`, lack of memory too.
    pub fn from_value(
        alloc: Global,
        interner: &mut Interner,
        vars: &Vars,
        value: &Value,
    ) -> Result<Self, FromValueError<Pep508Error<T>>>
        ensures answered { ReadsText
            (λ text read. ReadsRequirement (λ url. T.reads vars.now url None) T.lacks_memory
            vars.now interner.new.nodes text read)
            (as_str (view value.now)) result }
        ensures keeps { Extends interner.old.nodes interner.new.nodes }
        ensures counts { interner.new.conjunctions ≡ interner.old.conjunctions }
    {
        let Some(text) = value.as_str() else {
            return Err(FromValueError::Shape);
        };
        match Requirement::from_str(alloc, interner, vars, text) {
            Ok(requirement) => Ok(requirement),
            Err(error) => Err(FromValueError::Text(error)),
        }
    }
}

impl<T: Pep508Url> MarkedRequirement<T> {
    /// Reads a requirement as `Requirement::parse` does, without making a tree of its marker: it accepts
    /// the same texts, and reports the same errors for others.
    ///
    /// Linear in the text, but for sorting specifiers and for the versions that a marker's key is compared
    /// with at once, of which n take O(n log n); takes memory for what is read and for an error.
    ///
    /// # Errors
    /// Those of `Requirement::parse`.
    pub fn parse(
        alloc: Global,
        vars: &Vars,
        text: &str,
        working_dir: Option<&str>,
    ) -> Result<Self, Pep508Error<T>>
        requires { IfSome working_dir (λ directory. IsAbsolute directory.now) }
        ensures { ReadsMarked (λ url. T.reads vars.now url (option_copied working_dir.entry))
            T.lacks_memory vars.now text.now result }
    {
        MarkedRequirement::parse_reporter(alloc, vars, text, working_dir, &mut Silent)
    }

    /// Reads a requirement as `parse` does, and reports the warnings of its marker. Those of a marker that
    /// is refused may have been reported too, as far as it was read.
    ///
    /// # Errors
    /// Those of `Requirement::parse`.
    pub fn parse_reporter<R: Reporter>(
        alloc: Global,
        vars: &Vars,
        text: &str,
        working_dir: Option<&str>,
        reporter: &mut R,
    ) -> Result<Self, Pep508Error<T>>
        requires directory { IfSome working_dir (λ directory. IsAbsolute directory.now) }
        requires can_report { R.can_report reporter.old }
        ensures answered { ReadsMarked (λ url. T.reads vars.now url (option_copied working_dir.entry))
            T.lacks_memory vars.now text.now result }
        ensures warnings { OnOk result (TakesWarnings R.takes reporter.old reporter.new text.now) }
        ensures again { R.can_report reporter.new }
    {
        let (front, rest) = match read_front(alloc, Cursor::new(text), vars) {
            Ok(found) => found,
            Err(refusal) => return Err(Pep508Error::of(alloc, refusal)),
        };
        let Front {
            name,
            extras,
            source,
        } = front;
        let version_or_url = match read_asked(alloc, source, vars, working_dir) {
            Ok(version_or_url) => version_or_url,
            Err(error) => return Err(error),
        };
        match read_behind(alloc, &version_or_url, rest, reporter) {
            Ok(formula) => Ok(MarkedRequirement {
                name,
                extras,
                version_or_url,
                formula,
            }),
            Err(refusal) => Err(Pep508Error::of(alloc, refusal)),
        }
    }
}

/// Returns the specifiers or the URL that the front requires.
fn read_asked<T: Pep508Url>(
    alloc: Global,
    source: Source<'_>,
    vars: &Vars,
    working_dir: Option<&str>,
) -> Result<Option<VersionOrUrl<T>>, Pep508Error<T>>
    requires { IfSome working_dir (λ directory. IsAbsolute directory.now) }
    ensures { ReadsAsked (λ url. T.reads vars.now url (option_copied working_dir.entry)) T.lacks_memory
        source.entry result }
{
    match source {
        Source::Any => Ok(None),
        Source::Specifiers(list) => Ok(Some(VersionOrUrl::VersionSpecifier(list))),
        Source::Url(piece) => match read_piece(alloc, piece, vars, working_dir) {
            Ok(url) => Ok(Some(VersionOrUrl::Url(url))),
            Err(error) => Err(error),
        },
    }
}

/// Reads the URL in a piece of the text.
fn read_piece<T: Pep508Url>(
    alloc: Global,
    piece: UrlPiece<'_>,
    vars: &Vars,
    working_dir: Option<&str>,
) -> Result<T, Pep508Error<T>>
    requires { IfSome working_dir (λ directory. IsAbsolute directory.now) }
    ensures { ReadsPiece (λ url. T.reads vars.now url (option_copied working_dir.entry)) T.lacks_memory
        piece.entry.text.now piece.entry.start.input.now result }
{
    match T::parse_url(alloc, piece.text, vars, working_dir) {
        Ok(url) => Ok(url),
        Err(error) => Err(Pep508Error::of_url(alloc, error, piece.start, piece.text.len())),
    }
}

/// Reads the formula of the marker after a front; one without comparisons where nothing is left. Refuses
/// what is left where it is not a marker.
fn read_behind<'a, T: Pep508Url, R: Reporter>(
    alloc: Global,
    version_or_url: &Option<VersionOrUrl<T>>,
    rest: Cursor<'a>,
    reporter: &mut R,
) -> Result<MarkerFormula, Refusal<'a>>
    requires { R.can_report reporter.old }
    ensures read { SaysMarker R.takes reporter.old reporter.new result
        (marker_behind (skip_leading_whitespace (chars (rest_of rest.entry)))) }
    ensures again { R.can_report reporter.new }
    ensures of { IfErr result (IsOf rest.entry) }
{
    let left = rest.after_whitespace();
    let Some((first, inside)) = left.split_first() else {
        return Ok(MarkerFormula::new(alloc));
    };
    if first == ';' {
        return read_formula(alloc, inside, reporter);
    }
    Err(refuse_left(alloc, version_or_url, rest, left, first))
}

/// Returns the refusal of a character that is left and begins no marker.
fn refuse_left<'a, T: Pep508Url>(
    alloc: Global,
    version_or_url: &Option<VersionOrUrl<T>>,
    rest: Cursor<'a>,
    left: Cursor<'a>,
    first: char,
) -> Refusal<'a>
    requires { IsBehind rest left }
    ensures plain { IsPlain result.kind }
    ensures of { IsOf rest.entry result }
{
    match printed_mark(alloc, version_or_url) {
        Ok(mark) => refuse_first(alloc, mark, rest, left, first),
        Err(_) => Refusal::memory(),
    }
}

/// Returns the `;` or `#` with which the print of the URL ends, where there is one that does.
fn printed_mark<T: Pep508Url>(
    alloc: Global,
    version_or_url: &Option<VersionOrUrl<T>>,
) -> Result<Option<char>, AllocError> {
    let Some(VersionOrUrl::Url(url)) = version_or_url else {
        return Ok(None);
    };
    let text = url.to_string(alloc)?;
    Ok(last_mark(text.as_str()))
}
