//! The answer to requirements on packages, and its text.
//!
//! A row owns its name and extras and names the candidate by its index in the given list: equal versions
//! are told apart, an answer borrows nothing, and a table can return the same rows. A candidate is printed
//! by its version's print and not as it was written: `01.0` prints `1.0`, and zeros at a release's end
//! stay.

ghost use Rattle.std.specs.List.{flat_map, join_with_byte};
ghost use Rattle.std.specs.Prelude.{◌≡◌, ◌∷◌, ◌++◌, All, map, length, codes, IfOk, OnOk, string_bytes};
ghost use Rattle.reqtable_answer.specs.Answer.{row_text, extras_text, outcome_text, answer_text};
ghost use Rattle.reqtable_answer.specs.Rows.{row_seen, IsTakenBelow};

use pep508_name::{ExtraName, PackageName};
use reqtable_candidates::{Candidate, Candidates};
use std::alloc::{AllocError, Global};
use std::fmt::Write;

/// What is selected for a package.
#[derive(Clone, Copy, Debug, PartialEq, Eq)]
pub enum Outcome {
    /// The candidate at this index of the candidate list is selected.
    Taken(usize),
    /// No candidate can be selected.
    Nothing,
    /// The package is required by a URL, so no candidate is looked for.
    Direct,
}

/// A required package, with the candidate selected for it.
#[derive(Debug, PartialEq, Eq, Drop)]
pub struct Row {
    pub package: PackageName,
    /// The extras that are required, each once and in the order of their bytes.
    pub extras: Vec<ExtraName>,
    pub outcome: Outcome,
}

impl Row {
    /// A deep copy of the row. Linear in the extras.
    ///
    /// # Errors
    ///
    /// `AllocError` when memory runs out.
    pub fn try_clone(&self, alloc: Global) -> Result<Row, AllocError>
        ensures { IfOk result (λ copy. row_seen copy ≡ row_seen self.now) }
    {
        Ok(Row {
            package: self.package.try_clone(alloc)?,
            extras: copies(alloc, &self.extras)?,
            outcome: self.outcome,
        })
    }
}

fn copies(alloc: Global, names: &[ExtraName]) -> Result<Vec<ExtraName>, AllocError>
    ensures { IfOk result (λ copies. copies.items ≡ names.now) }
{
    let mut copies = Vec::with_capacity(alloc, names.len())?;
    for name in names {
        copies.push(name.try_clone(alloc)?)?;
    }
    Ok(copies)
}

/// A row for each required package, in the order of the bytes of their names.
#[derive(Debug, PartialEq, Eq, Drop)]
pub struct Answer {
    pub rows: Vec<Row>,
}

impl Answer {
    /// A deep copy of the answer. Linear in the rows and their extras.
    ///
    /// # Errors
    ///
    /// `AllocError` when memory runs out.
    pub fn try_clone(&self, alloc: Global) -> Result<Answer, AllocError>
        ensures { IfOk result (λ copy.
            map row_seen copy.rows.items ≡ map row_seen self.now.rows.items) }
    {
        let mut rows = Vec::with_capacity(alloc, self.rows.len())?;
        for row in &self.rows {
            rows.push(row.try_clone(alloc)?)?;
        }
        Ok(Answer { rows })
    }

    /// The rows as lines of text. A line has the package's name, its extras, if any, in brackets and with
    /// commas but no blanks between them, a blank, and the selected version, `none` or `direct`.
    ///
    /// `candidates` is the list from which the answer was selected. Linear in the text.
    ///
    /// # Errors
    ///
    /// `AllocError` when memory runs out.
    pub fn text(&self, alloc: Global, candidates: &Candidates) -> Result<String, AllocError>
        requires { All (λ row. IsTakenBelow (length candidates.now) row.outcome) self.now.rows.items }
        ensures { IfOk result (λ text.
            string_bytes text ≡ answer_text candidates.now (map row_seen self.now.rows.items)) }
    {
        self.text_among(alloc, candidates.items())
    }

    /// The rows as lines of text, as `text` returns them; they index the slice `candidates`.
    ///
    /// # Errors
    ///
    /// `AllocError` when memory runs out.
    pub fn text_among(&self, alloc: Global, candidates: &[Candidate]) -> Result<String, AllocError>
        requires { All (λ row. IsTakenBelow (length candidates.now) row.outcome) self.now.rows.items }
        ensures { IfOk result (λ text.
            string_bytes text ≡ answer_text candidates.now (map row_seen self.now.rows.items)) }
    {
        let mut text = String::new(alloc);
        for row in &self.rows {
            push_row(&mut text, row, candidates)?;
        }
        Ok(text)
    }
}

/// Appends a row's line to a text.
fn push_row(text: &mut String, row: &Row, candidates: &[Candidate]) -> Result<(), AllocError>
    requires { IsTakenBelow (length candidates.now) row.now.outcome }
    ensures { OnOk result
        (string_bytes text.new ≡ string_bytes text.old ++ row_text candidates.now (row_seen row.now)) }
{
    text.push_str(row.package.as_str())?;
    push_extras(text, &row.extras)?;
    push_outcome(text, row.outcome, candidates)
}

/// Appends extras in brackets, or nothing if there are none.
fn push_extras(text: &mut String, extras: &[ExtraName]) -> Result<(), AllocError>
    ensures { OnOk result (string_bytes text.new ≡ string_bytes text.old ++ extras_text extras.now) }
{
    match extras.split_first() {
        None => Ok(()),
        Some((first, others)) => push_bracketed(text, first, others),
    }
}

/// Appends a first extra and the others, in brackets.
fn push_bracketed(
    text: &mut String,
    first: &ExtraName,
    others: &[ExtraName],
) -> Result<(), AllocError>
    ensures { OnOk result (string_bytes text.new ≡
        string_bytes text.old ++ (codes "[" ++ (join_with_byte 44 (first.now ∷ others.now) ++ codes "]"))) }
{
    text.push('[')?;
    text.push_str(first.as_str())?;
    push_others(text, others)?;
    text.push(']')?;
    Ok(())
}

/// Appends each extra after a comma.
fn push_others(text: &mut String, extras: &[ExtraName]) -> Result<(), AllocError>
    ensures { OnOk result
        (string_bytes text.new ≡ string_bytes text.old ++ flat_map (λ extra. 44 ∷ extra) extras.now) }
{
    for extra in extras {
        text.push(',')?;
        text.push_str(extra.as_str())?;
    }
    Ok(())
}

/// Appends a blank, the outcome, and the end of the line.
fn push_outcome(
    text: &mut String,
    outcome: Outcome,
    candidates: &[Candidate],
) -> Result<(), AllocError>
    requires { IsTakenBelow (length candidates.now) outcome }
    ensures { OnOk result (string_bytes text.new ≡
        string_bytes text.old ++ (codes " " ++ (outcome_text candidates.now outcome ++ codes "\n"))) }
{
    match outcome {
        Outcome::Taken(place) => writeln!(text, " {}", candidates[place].version),
        Outcome::Nothing => writeln!(text, " none"),
        Outcome::Direct => writeln!(text, " direct"),
    }
}
