//! Answers on reading markers.

ghost use Rattle.std.specs.Prelude.{IfOk};
ghost use Rattle.pep508_tree.specs.Meaning.{IsTree, Extends};

use crate::stop::{Stop, Told, answered, both, stop_behind, truth};
use crate::warnings::Warnings;
use pep508_comparison_parser::{parse_expression, parse_expression_reporter};
use pep508_error::{Cursor, Pep508Error, Pep508ErrorSource};
use pep508_marker::{MarkerExpression, Silent};
use pep508_marker_parser::{MarkerTreeReading, read_marker};
use pep508_tree::{Interner, MarkerTree};
use pep508_url::VerbatimUrl;
use std::alloc::Global;
use std::fmt::Write;

/// Reads a marker.
pub fn read(
    alloc: Global,
    answer: &mut String,
    interner: &mut Interner,
    text: &str,
) -> Result<MarkerTree, Stop>
    ensures made { IfOk result (IsTree interner.new.nodes) }
    ensures keeps { Extends interner.old.nodes interner.new.nodes }
{
    match read_marker(alloc, interner, Cursor::new(text), &mut Silent) {
        Ok(tree) => Ok(tree),
        Err(refusal) => {
            let error: Pep508Error<VerbatimUrl> = Pep508Error::of(alloc, refusal);
            Err(refused(answer, &error))
        }
    }
}

/// Answers with the place, the length and the message of a refusal.
pub fn refused(answer: &mut String, error: &Pep508Error<VerbatimUrl>) -> Stop {
    let message = error.message();
    if let Pep508ErrorSource::Memory = message {
        return Stop::Memory;
    }
    let (start, len) = (error.start(), error.len());
    stop_behind(write!(answer, "refused at {start}, {len}: {message}"))
}

/// Answers whether a marker always or never holds, with the warnings of its reading.
pub fn marker(alloc: Global, answer: &mut String, interner: &mut Interner, text: &str) -> Told {
    let mut warnings = Warnings::new(alloc);
    match MarkerTree::parse_reporter(alloc, interner, text, &mut warnings) {
        Ok(tree) => both(answer, name_of(tree), &warnings.text),
        Err(error) => Err(refused(answer, &error)),
    }
}

/// Returns a constant's name.
fn name_of(tree: MarkerTree) -> &'static str {
    if tree.is_true() {
        "TRUE"
    } else if tree.is_false() {
        "FALSE"
    } else {
        "a tree"
    }
}

/// Answers whether a marker is one tree with another where warnings of its reading are dropped.
pub fn unwarned(
    alloc: Global,
    answer: &mut String,
    interner: &mut Interner,
    text: &str,
    other: &str,
) -> Told {
    let other = read(alloc, answer, interner, other)?;
    let by_str = tree_of(answer, MarkerTree::parse_str(alloc, interner, text))?;
    let from_str = tree_of(answer, MarkerTree::from_str(alloc, interner, text))?;
    truth(answer, by_str == other && from_str == other)
}

fn tree_of(
    answer: &mut String,
    read: Result<MarkerTree, Pep508Error<VerbatimUrl>>,
) -> Result<MarkerTree, Stop> {
    match read {
        Ok(tree) => Ok(tree),
        Err(error) => Err(refused(answer, &error)),
    }
}

/// Answers with the print of a comparison, and the warnings of its reading.
pub fn expression(alloc: Global, answer: &mut String, text: &str) -> Told {
    let mut warnings = Warnings::new(alloc);
    match parse_expression_reporter(alloc, text, &mut warnings) {
        Ok(read) => print_before(answer, &read, &warnings.text),
        Err(error) => Err(refused(answer, &error)),
    }
}

/// Answers with the print of a comparison where warnings of its reading are dropped.
pub fn unwarned_expression(alloc: Global, answer: &mut String, text: &str) -> Told {
    match parse_expression(alloc, text) {
        Ok(read) => print_before(answer, &read, ""),
        Err(error) => Err(refused(answer, &error)),
    }
}

fn print_before(answer: &mut String, read: &Option<MarkerExpression>, warnings: &str) -> Told {
    match read {
        Some(expression) => answered(write!(answer, "{expression}{warnings}")),
        None => both(answer, "left out", warnings),
    }
}
