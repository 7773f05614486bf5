//! Reading a text that is a marker.

ghost use Rattle.std.specs.Prelude.{◌≡◌, chars};
ghost use Rattle.serde_json.specs.View.{view};
ghost use Rattle.serde_json.specs.Find.{as_str};
ghost use Rattle.read_outcome.specs.Outcome.{ReadsText};
ghost use Rattle.pep508_tree.specs.Tree.{Tree};
ghost use Rattle.pep508_tree.specs.Meaning.{Extends};
ghost use Rattle.pep508_marker_parser.specs.MarkerReading.{marker_at};
ghost use Rattle.pep508_marker_parser.specs.TextOutcome.{ReadsMarkerText, SaysMarkerText};

use crate::marker::{read_formula, read_marker};
use pep508_error::{Cursor, Pep508Error};
use pep508_formula::MarkerFormula;
use pep508_marker::{Reporter, Silent};
use pep508_tree::{Interner, MarkerTree};
use pep508_url::{Pep508Url, VerbatimUrl};
use read_outcome::FromValueError;
use serde_json::Value;
use std::alloc::Global;

/// Reads the formula of a marker, as `MarkerTree::parse_reporter` reads its tree; its warnings are reported
/// in their order. Cost and depth are those of `read_formula`, and an error takes memory for a copy of the
/// text.
///
/// # Errors
/// `String` where the text is not a marker, or brackets nest deeper than 256; `NumberAtEnd` where a version
/// number can't be raised; `Memory` where memory ran out.
pub fn parse_formula<T: Pep508Url, R: Reporter>(
    alloc: Global,
    text: &str,
    reporter: &mut R,
) -> Result<MarkerFormula, Pep508Error<T>>
    requires { R.can_report reporter.old }
    ensures read { SaysMarkerText R.takes reporter.old reporter.new text.now result
        (marker_at (chars text.now)) }
    ensures again { R.can_report reporter.new }
{
    match read_formula(alloc, Cursor::new(text), reporter) {
        Ok(formula) => Ok(formula),
        Err(refusal) => Err(Pep508Error::of(alloc, refusal)),
    }
}

/// Reading the texts of markers.
pub trait MarkerTreeReading {
    /// The tree that a value is.
    ghost named: { Self → Tree };

    /// Reads a marker, as `python_version > '3.8' and extra == 'test'`, with white space around it (PEP
    /// 508, "Environment Markers"); its warnings are reported in their order. Cost, depth and count are
    /// those of `read_marker`, and an error takes memory for a copy of the text.
    ///
    /// # Errors
    /// `String` where the text is not a marker, or brackets nest deeper than 256; `NumberAtEnd` where a
    /// version number can't be raised; `Memory` where memory ran out.
    fn parse_reporter<T: Pep508Url, R: Reporter>(
        alloc: Global,
        interner: &mut Interner,
        text: &str,
        reporter: &mut R,
    ) -> Result<Self, Pep508Error<T>>
        requires { R.can_report reporter.old }
        ensures read { ReadsMarkerText named R.takes reporter.old reporter.new interner.new.nodes text.now
            result (marker_at (chars text.now)) }
        ensures again { R.can_report reporter.new }
        ensures keeps { Extends interner.old.nodes interner.new.nodes }
        ensures counts { interner.new.conjunctions ≡ interner.old.conjunctions };

    /// Reads a marker as `parse_reporter` does, and drops its warnings.
    ///
    /// # Errors
    /// Those of `parse_reporter`.
    fn parse_str<T: Pep508Url>(
        alloc: Global,
        interner: &mut Interner,
        text: &str,
    ) -> Result<Self, Pep508Error<T>>
        ensures read { (old : Silent) → ReadsMarkerText named ⟦<Silent as Reporter>⟧.takes old old
            interner.new.nodes text.now result (marker_at (chars text.now)) }
        ensures keeps { Extends interner.old.nodes interner.new.nodes }
        ensures counts { interner.new.conjunctions ≡ interner.old.conjunctions };

    /// Reads a marker as `parse_str` does, with the error type of requirements with a `VerbatimUrl`.
    ///
    /// # Errors
    /// Those of `parse_reporter`.
    fn from_str(
        alloc: Global,
        interner: &mut Interner,
        text: &str,
    ) -> Result<Self, Pep508Error<VerbatimUrl>>
        ensures read { (old : Silent) → ReadsMarkerText named ⟦<Silent as Reporter>⟧.takes old old
            interner.new.nodes text.now result (marker_at (chars text.now)) }
        ensures keeps { Extends interner.old.nodes interner.new.nodes }
        ensures counts { interner.new.conjunctions ≡ interner.old.conjunctions };

    /// Reads the marker that a JSON text is, as `from_str` does.
    ///
    /// # Errors
    /// `Shape` where the value is not a text; `Text` with the error of `from_str`, lack of memory too.
    fn from_value(
        alloc: Global,
        interner: &mut Interner,
        value: &Value,
    ) -> Result<Self, FromValueError<Pep508Error<VerbatimUrl>>>
        ensures answered { (old : Silent) → ReadsText
            (λ text read. ReadsMarkerText named ⟦<Silent as Reporter>⟧.takes old old interner.new.nodes
            text read (marker_at (chars text)))
            (as_str (view value.now)) result }
        ensures keeps { Extends interner.old.nodes interner.new.nodes }
        ensures counts { interner.new.conjunctions ≡ interner.old.conjunctions };
}

impl MarkerTreeReading for MarkerTree {
    ghost named = { λ tree. tree };

    fn parse_reporter<T: Pep508Url, R: Reporter>(
        alloc: Global,
        interner: &mut Interner,
        text: &str,
        reporter: &mut R,
    ) -> Result<MarkerTree, Pep508Error<T>> {
        match read_marker(alloc, interner, Cursor::new(text), reporter) {
            Ok(tree) => Ok(tree),
            Err(refusal) => Err(Pep508Error::of(alloc, refusal)),
        }
    }

    fn parse_str<T: Pep508Url>(
        alloc: Global,
        interner: &mut Interner,
        text: &str,
    ) -> Result<MarkerTree, Pep508Error<T>> {
        MarkerTree::parse_reporter(alloc, interner, text, &mut Silent)
    }

    fn from_str(
        alloc: Global,
        interner: &mut Interner,
        text: &str,
    ) -> Result<MarkerTree, Pep508Error<VerbatimUrl>> {
        MarkerTree::parse_str(alloc, interner, text)
    }

    fn from_value(
        alloc: Global,
        interner: &mut Interner,
        value: &Value,
    ) -> Result<MarkerTree, FromValueError<Pep508Error<VerbatimUrl>>> {
        let Some(text) = value.as_str() else {
            return Err(FromValueError::Shape);
        };
        match MarkerTree::from_str(alloc, interner, text) {
            Ok(tree) => Ok(tree),
            Err(error) => Err(FromValueError::Text(error)),
        }
    }
}
