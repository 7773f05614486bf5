//! A requirements text that is read line by line, without making marker trees.
//!
//! Lists are read without trees because some short markers have no small tree, and one environment needs
//! none. All reading has this one body: `Requirements` are `MarkedLines` with the trees of their formulas.
//! A list is read line by line, without a list of its lines first, so that only what is read takes memory.
//!
//! What a line is read as is a function that for an error names the line alone, since no definition decides
//! its message; a second clause says that the error is that of reading this line's text. `IsErrorOf` knows
//! the line that was read, `IsErrorIn` says that there is one; both cite `IsRefused`.

ghost use Rattle.std.specs.Prelude.{◌≡◌};
ghost use Rattle.reqtable_candidates.specs.TextLines.{text_lines, each_line};
ghost use Rattle.reqtable_requirements.specs.LineReading.{line_of};
ghost use Rattle.reqtable_requirements.specs.Requirements.{SaysLine, ReadsLine, ReadsLines};
ghost use Rattle.reqtable_requirements.specs.Requirements.{SaysRequirements, refusal_of};

use crate::RequirementsError;
use pep508_error::{Pep508Error, Pep508ErrorSource};
use pep508_requirement::MarkedRequirement;
use pep508_url::{Vars, VerbatimUrl};
use reqtable_candidates::text_lines::{as_text, is_blank, line_text};
use std::alloc::Global;
use std::marker::Model;

/// A requirement line of a text, with its marker as a formula.
#[derive(Drop)]
pub struct MarkedLine {
    /// The line's number in its text, from 1.
    pub number: usize,
    pub requirement: MarkedRequirement<VerbatimUrl>,
}

/// The requirements of a text, in order, with their markers as formulas.
#[derive(Drop)]
pub struct MarkedLines {
    lines: Vec<MarkedLine>,
}

impl Model for MarkedLines {
    ghost use Rattle.std.specs.Prelude.{List};
    ghost use Rattle.reqtable_requirements.specs.declared.marked.MarkedLine.{MarkedLine};

    ghost Value = { List MarkedLine };

    ghost view = { λ r. r.lines.items };
}

impl MarkedLines {
    /// Reads a requirements text line by line, as `Requirements::parse` does, but makes no marker trees. Both
    /// accept the same texts and return the same errors for others.
    ///
    /// Time and memory are those of reading each line by `MarkedRequirement::parse`.
    ///
    /// # Errors
    ///
    /// `RequirementsError::NotText` if the bytes are not UTF-8, `RequirementsError::Line` or
    /// `RequirementsError::NumberAtEnd` for the first line that is rejected, and `RequirementsError::Memory`
    /// when memory runs out.
    pub fn parse(alloc: Global, bytes: &[u8], vars: &Vars) -> Result<MarkedLines, RequirementsError>
        ensures { SaysRequirements vars.now bytes.now result }
    {
        let text = match as_text(bytes) {
            Ok(text) => text,
            Err(offset) => return Err(RequirementsError::NotText { offset }),
        };
        let lines = read_lines(alloc, text, vars)?;
        Ok(MarkedLines { lines })
    }

    /// The requirements in the order of the text, borrowed.
    pub fn lines(&self) -> &[MarkedLine]
        ensures { result.now ≡ self.now }
    {
        &self.lines
    }

    /// The requirements in the order of the text, moved out.
    pub fn into_lines(self) -> Vec<MarkedLine>
        ensures { result.items ≡ self }
    {
        self.lines
    }
}

/// The error of a line for this error of its requirement.
fn refusal(number: usize, error: Pep508Error<VerbatimUrl>) -> RequirementsError
    ensures { result ≡ refusal_of number error }
{
    match error.message() {
        Pep508ErrorSource::Memory => RequirementsError::Memory,
        Pep508ErrorSource::NumberAtEnd => RequirementsError::NumberAtEnd { number },
        _ => RequirementsError::Line { number, error },
    }
}

/// The requirement that is written on a line.
fn read_line(
    alloc: Global,
    number: usize,
    text: &str,
    vars: &Vars,
) -> Result<MarkedLine, RequirementsError>
    ensures { ReadsLine vars.now number text.now result }
{
    match MarkedRequirement::parse(alloc, vars, text, Some(vars.project_root())) {
        Ok(requirement) => Ok(MarkedLine {
            number,
            requirement,
        }),
        Err(error) => Err(refusal(number, error)),
    }
}

fn read_lines(alloc: Global, text: &str, vars: &Vars) -> Result<Vec<MarkedLine>, RequirementsError>
    ensures { ReadsLines (SaysLine vars.now) (λ read. read.items) vars.now (text_lines text.now)
        (each_line (line_of vars.now) (text_lines text.now)) result }
{
    let mut read = Vec::new(alloc);
    for (index, line) in text.split('\n').enumerate() {
        let line = line_text(line);
        if !is_blank(line) {
            read.push(read_line(alloc, index + 1, line, vars)?)?;
        }
    }
    Ok(read)
}
