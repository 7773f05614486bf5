//! The rows of an answer, as a text in a format: all of them, or one by one for answers that share rows.
//!
//! What becomes of a package is a word next to its version, since a version could be told from `none` and
//! `direct` only by its letters. The object of `matrix` is joined from those of its rows, each made into text
//! by itself, so that only one row's values are in memory besides the text.

ghost use Rattle.std.specs.Prelude.{◌≡◌, All, map, length, IfOk, string_bytes};
ghost use Rattle.serde_json.specs.View.{view};
ghost use Rattle.reqtable_answer.specs.Answer.{row_text};
ghost use Rattle.reqtable_answer.specs.Rows.{row_seen, IsTakenBelow};
ghost use Rattle.reqs_json.specs.Lines.{line_of, value_text};
ghost use Rattle.reqs_json.specs.Rows.{outcome_word, version_value, package_value, packages_value};
ghost use Rattle.reqs_json.specs.Rows.{answer_value, rows_text, row_in};

use crate::format::Format;
use crate::json_lines::{line_of, names_value, value_text};
use reqtable_answer::{Answer, Outcome, Row};
use reqtable_candidates::{Candidate, Candidates};
use serde_json::{Value, json};
use std::alloc::{AllocError, Global};

/// The rows of an answer in a format: as lines, by `Answer::text_among`, or as an object with an array of
/// them.
///
/// `candidates` is the list from which the answer was selected. Linear in the text; an object needs memory
/// for its values in addition to its text.
///
/// # Errors
///
/// `AllocError` when memory runs out.
pub fn answer_text(
    alloc: Global,
    format: Format,
    answer: &Answer,
    candidates: &[Candidate],
) -> Result<String, AllocError>
    requires { All (λ row. IsTakenBelow (length candidates.now) row.outcome) answer.now.rows.items }
    ensures { IfOk result (λ text.
        string_bytes text ≡ rows_text format candidates.now (map row_seen answer.now.rows.items)) }
{
    match format {
        Format::Text => answer.text_among(alloc, candidates),
        Format::Json => answer_line(alloc, &answer.rows, candidates),
    }
}

/// The object of rows, as a line.
fn answer_line(alloc: Global, rows: &[Row], candidates: &[Candidate]) -> Result<String, AllocError>
    requires { All (λ row. IsTakenBelow (length candidates.now) row.outcome) rows.now }
    ensures { IfOk result (λ text.
        string_bytes text ≡ line_of (answer_value candidates.now (map row_seen rows.now))) }
{
    let object = answer_value(alloc, rows, candidates)?;
    line_of(alloc, &object)
}

/// The object of rows.
fn answer_value(alloc: Global, rows: &[Row], candidates: &[Candidate]) -> Result<Value, AllocError>
    requires { All (λ row. IsTakenBelow (length candidates.now) row.outcome) rows.now }
    ensures { IfOk result (λ value. view value ≡ answer_value candidates.now (map row_seen rows.now)) }
{
    let packages = packages_value(alloc, rows, candidates)?;
    json!(in alloc; {"packages": packages})
}

/// The text of one row in a format: a line, or an object without a line feed.
///
/// `candidates` is the list from which the row was selected. Linear in the text; an object needs memory for
/// its values in addition to its text.
///
/// # Errors
///
/// `AllocError` when memory runs out.
pub fn row_text(
    alloc: Global,
    format: Format,
    row: Row,
    candidates: &Candidates,
) -> Result<String, AllocError>
    requires { IsTakenBelow (length candidates.now) row.outcome }
    ensures { IfOk result (λ text. string_bytes text ≡ row_in format candidates.now (row_seen row)) }
{
    match format {
        Format::Text => row_line(alloc, row, candidates),
        Format::Json => row_object(alloc, &row, candidates.items()),
    }
}

/// The line of a row.
fn row_line(alloc: Global, row: Row, candidates: &Candidates) -> Result<String, AllocError>
    requires { IsTakenBelow (length candidates.now) row.outcome }
    ensures { IfOk result (λ text. string_bytes text ≡ row_text candidates.now (row_seen row)) }
{
    let mut rows = Vec::with_capacity(alloc, 1)?;
    rows.push(row)?;
    let answer = Answer { rows };
    answer.text(alloc, candidates)
}

/// The text of a row's object.
fn row_object(alloc: Global, row: &Row, candidates: &[Candidate]) -> Result<String, AllocError>
    requires { IsTakenBelow (length candidates.now) row.now.outcome }
    ensures { IfOk result (λ text.
        string_bytes text ≡ value_text (package_value candidates.now (row_seen row.now))) }
{
    let object = package_value(alloc, row, candidates)?;
    value_text(alloc, &object)
}

/// Rows as an array.
fn packages_value(
    alloc: Global,
    rows: &[Row],
    candidates: &[Candidate],
) -> Result<Value, AllocError>
    requires { All (λ row. IsTakenBelow (length candidates.now) row.outcome) rows.now }
    ensures { IfOk result (λ value.
        view value ≡ packages_value candidates.now (map row_seen rows.now)) }
{
    let mut values = Vec::with_capacity(alloc, rows.len())?;
    for row in rows {
        values.push(package_value(alloc, row, candidates)?)?;
    }
    Ok(Value::Array(values))
}

/// A row as an object.
fn package_value(alloc: Global, row: &Row, candidates: &[Candidate]) -> Result<Value, AllocError>
    requires { IsTakenBelow (length candidates.now) row.now.outcome }
    ensures { IfOk result (λ value. view value ≡ package_value candidates.now (row_seen row.now)) }
{
    let extras = names_value(alloc, &row.extras)?;
    let version = version_value(alloc, row.outcome, candidates)?;
    json!(in alloc; {
        "extras": extras,
        "name": row.package.as_str(),
        "outcome": outcome_word(row.outcome),
        "version": version,
    })
}

/// The outcome of a package in a word: `version`, `none` or `direct`.
fn outcome_word(outcome: Outcome) -> &'static str
    ensures { result.now ≡ outcome_word outcome }
{
    match outcome {
        Outcome::Taken(_) => "version",
        Outcome::Nothing => "none",
        Outcome::Direct => "direct",
    }
}

/// The selected version as a string, or null.
fn version_value(
    alloc: Global,
    outcome: Outcome,
    candidates: &[Candidate],
) -> Result<Value, AllocError>
    requires { IsTakenBelow (length candidates.now) outcome }
    ensures { IfOk result (λ value. view value ≡ version_value candidates.now outcome) }
{
    match outcome {
        Outcome::Taken(place) => {
            let text = candidates[place].version.to_string(alloc)?;
            Ok(Value::String(text))
        }
        Outcome::Nothing | Outcome::Direct => Ok(Value::Null),
    }
}
