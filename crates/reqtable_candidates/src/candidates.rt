//! A candidate list: one candidate per line.

ghost use Rattle.std.specs.Prelude.{◌≡◌, IsTrue, IfOk, OnOk, Err};
ghost use Rattle.read_outcome.specs.Outcome.{Answers};
ghost use Rattle.reqtable_candidates.specs.TextLines.{text_lines, each_line};
ghost use Rattle.std.specs.Option.{option_map};
ghost use Rattle.std.specs.Str.{IsUtf8, trim};
ghost use Rattle.reqtable_candidates.specs.CandidateLine.{parts_in, has_name};
ghost use Rattle.reqtable_candidates.specs.Errors.{cause_text};
ghost use Rattle.reqtable_candidates.specs.Candidates.{candidate_at, candidates_of, told_candidates};
ghost use Rattle.reqtable_candidates.specs.Candidates.{IsNameReached};
ghost use Rattle.reqtable_candidates.specs.Candidates.{HavePrintableVersions};

use crate::laws::candidates_have_printable_versions;
use crate::pieces::{read_name, read_version};
use crate::text_lines::{as_text, is_blank, line_text};
use pep440_version::Version;
use pep508_name::PackageName;
use std::alloc::{AllocError, AllocFailed, Global};
use std::error::Error;
use std::fmt;
use std::marker::Model;

/// A version of a package that may be selected.
#[derive(Debug, PartialEq, Eq, Drop)]
pub struct Candidate {
    pub name: PackageName,
    pub version: Version,
}

impl Candidate {
    /// A deep copy of the candidate.
    ///
    /// # Errors
    ///
    /// `AllocError` when memory runs out.
    pub fn try_clone(&self, alloc: Global) -> Result<Candidate, AllocError>
        ensures { IfOk result (λ copy. copy ≡ self.now) }
    {
        Ok(Candidate {
            name: self.name.try_clone(alloc)?,
            version: self.version.try_clone(alloc)?,
        })
    }
}

/// What is wrong with a candidate line.
#[derive(Clone, Copy, Debug, PartialEq, Eq)]
pub enum CandidateFault {
    /// There is no white space inside, so name and version can't be separated.
    Shape,
    /// What is before the white space is not a name (PEP 508, "Names").
    Name,
    /// What is after the white space is not a version (PEP 440, "Version scheme").
    Version,
}

impl CandidateFault {
    /// The fault in one word, as `shape`.
    pub fn as_str(self) -> &'static str
        ensures { result.now ≡ cause_text self }
    {
        match self {
            CandidateFault::Shape => "shape",
            CandidateFault::Name => "name",
            CandidateFault::Version => "version",
        }
    }
}

impl fmt::Display for CandidateFault {
    ghost use Rattle.std.specs.Prelude.{Some};

    ghost output = { λ cause. Some (cause_text cause) };

    fn fmt<W: fmt::Write>(&self, f: &mut fmt::Formatter<W>) -> fmt::Result {
        write!(f, "{}", self.as_str())
    }
}

impl Error for CandidateFault {}

/// Why bytes are not a candidate list.
#[derive(Clone, Copy, Debug, PartialEq, Eq)]
pub enum CandidatesError {
    /// The offset of the first byte that is not UTF-8, from 0.
    NotText {
        offset: usize,
    },
    /// The first line, counted from 1, that is not a candidate.
    Line {
        number: usize,
        cause: CandidateFault,
    },
    /// Memory ran out while reading.
    Memory,
}

impl From<AllocError> for CandidatesError {
    ghost use Rattle.reqtable_candidates.specs.declared.candidates.CandidatesError.TheVariants.{Memory};

    ghost from_gives = { λ _ error. error ≡ Memory };

    fn from(_: AllocError) -> CandidatesError {
        CandidatesError::Memory
    }
}

impl<T: Drop> From<AllocFailed<T>> for CandidatesError {
    ghost use Rattle.reqtable_candidates.specs.declared.candidates.CandidatesError.TheVariants.{Memory};

    ghost from_gives = { λ _ error. error ≡ Memory };

    fn from(_: AllocFailed<T>) -> CandidatesError {
        CandidatesError::Memory
    }
}

impl fmt::Display for CandidatesError {
    ghost use Rattle.std.specs.Prelude.{Some};
    ghost use Rattle.reqtable_candidates.specs.Errors.{candidates_text};

    ghost output = { λ error. Some (candidates_text error) };

    fn fmt<W: fmt::Write>(&self, f: &mut fmt::Formatter<W>) -> fmt::Result {
        match self {
            CandidatesError::NotText { offset } => write!(f, "not UTF-8 at byte {offset}"),
            CandidatesError::Line { number, cause } => write!(f, "line {number}: {cause}"),
            CandidatesError::Memory => write!(f, "out of memory"),
        }
    }
}

impl Error for CandidatesError {}

/// The candidates of a list, in order.
#[derive(Debug, Drop)]
pub struct Candidates {
    items: Vec<Candidate>,
}

impl Model for Candidates {
    ghost use Rattle.std.specs.Prelude.{List};
    ghost use Rattle.reqtable_candidates.specs.declared.candidates.Candidate.{Candidate};
    ghost use Rattle.reqtable_candidates.specs.Candidates.{HavePrintableVersions};

    ghost Value = { List Candidate };

    ghost view = { λ c. c.items.items };

    ghost invariant = { λ c. HavePrintableVersions c.items.items };
}

impl Candidates {
    /// Reads a candidate list, which is UTF-8, line by line.
    ///
    /// Line ends, comments and blank lines are as in a requirements text. Each other line is a name, white
    /// space and a version, as `numpy 1.26.4`, with or without white space around them. The version is in any
    /// spelling that PEP 440 normalizes ("Normalization"), as `v1.0-ALPHA`.
    ///
    /// Time grows with the number of bytes, memory with the candidates.
    ///
    /// # Errors
    ///
    /// `CandidatesError::NotText` if the bytes are not UTF-8. `CandidatesError::Line` for the first line that
    /// is not a candidate, with the first fault of its shape, its name and its version.
    /// `CandidatesError::Memory` when memory runs out; rejecting a line for its shape or name never fails for
    /// lack of memory.
    pub fn parse(alloc: Global, bytes: &[u8]) -> Result<Candidates, CandidatesError>
        ensures answered { Answers (λ candidates. candidates) told_candidates result
            (candidates_of bytes.now) }
        ensures grown { result ≡ Err CandidatesError.Memory →
            IsUtf8 bytes.now × IsNameReached (text_lines bytes.now) }
    {
        let text = match as_text(bytes) {
            Ok(text) => text,
            Err(offset) => return Err(CandidatesError::NotText { offset }),
        };
        let items = read_candidates(alloc, text)?;
        candidates_have_printable_versions();
        Ok(Candidates { items })
    }

    /// The candidates in the order of the list, borrowed.
    pub fn items(&self) -> &[Candidate]
        ensures { result.now ≡ self.now }
    {
        &self.items
    }

    /// Does nothing: its contract is that each version is one that can be written.
    pub fn have_printable_versions(&self)
        ensures { HavePrintableVersions self.now }
    {
        let _ = &self.items;
    }

    /// A deep copy of the list.
    ///
    /// # Errors
    ///
    /// `AllocError` when memory runs out.
    pub fn try_clone(&self, alloc: Global) -> Result<Candidates, AllocError>
        ensures { IfOk result (λ copy. copy ≡ self.now) }
    {
        Ok(Candidates {
            items: copies(alloc, &self.items)?,
        })
    }
}

fn copies(alloc: Global, items: &[Candidate]) -> Result<Vec<Candidate>, AllocError>
    ensures { IfOk result (λ copies. copies.items ≡ items.now) }
{
    let mut copies = Vec::with_capacity(alloc, items.len())?;
    for item in items {
        copies.push(item.try_clone(alloc)?)?;
    }
    Ok(copies)
}

impl PartialEq for Candidates {
    ghost use Rattle.std.specs.Cmp.Lexicographic.{pointwise, lists_per};
    ghost use Rattle.reqtable_candidates.specs.contracts.candidates.CandidatePartialEq.TheImpl.Laws as equal;

    ghost eq = { pointwise ⟦<Candidate as PartialEq>⟧.eq };

    ghost laws = { lists_per equal.laws-law };

    fn eq(&self, other: &Candidates) -> bool {
        self.items == other.items
    }
}

impl Eq for Candidates {
    ghost use Rattle.std.specs.Cmp.Lexicographic.{lists_equiv};
    ghost use Rattle.reqtable_candidates.specs.contracts.candidates.CandidateEq.TheImpl.Laws.{laws-law};

    ghost laws = { lists_equiv laws-law };
}

/// The text before the first white space, and the text after that run of white space; `None` without white
/// space.
fn split_at_white(text: &str) -> Option<(&str, &str)>
    ensures { option_map (λ parts. (parts.0.now, parts.1.now)) result ≡ parts_in text.now }
{
    let (name, rest) = text.split_once(|c: char| c.is_whitespace())?;
    Some((name, rest.trim_start()))
}

/// Reads the candidate of a line that is not blank, without its end and comment: a name, white space and a
/// version, as `Candidates::parse` reads them. `number` is the line's, which an error repeats.
///
/// Linear in the line.
///
/// # Errors
///
/// `CandidatesError::Line` with the number and the first fault of the line's shape, its name and its version.
/// `CandidatesError::Memory` when memory runs out; rejecting a line for its shape or name never fails for
/// lack of memory.
#[tactic(auto, unfolding(crate::specs::CandidateLine::candidate_of, pep508_name::specs::Name::name_of))]
pub fn read_candidate(
    alloc: Global,
    number: usize,
    text: &str,
) -> Result<Candidate, CandidatesError>
    ensures answered { Answers (λ candidate. candidate) told_candidates result
        (candidate_at number text.now) }
    ensures named { OnOk result (IsTrue (has_name (trim text.now))) }
    ensures grown { result ≡ Err CandidatesError.Memory → IsTrue (has_name (trim text.now)) }
{
    let Some((name, version)) = split_at_white(text.trim()) else {
        return Err(fault(number, CandidateFault::Shape));
    };
    let Some(name) = read_name(alloc, name)? else {
        return Err(fault(number, CandidateFault::Name));
    };
    match read_version(alloc, version)? {
        Some(version) => Ok(Candidate { name, version }),
        None => Err(fault(number, CandidateFault::Version)),
    }
}

fn fault(number: usize, cause: CandidateFault) -> CandidatesError
    ensures { result ≡ CandidatesError.Line number cause }
{
    CandidatesError::Line { number, cause }
}

fn read_candidates(alloc: Global, text: &str) -> Result<Vec<Candidate>, CandidatesError>
    ensures answered { Answers (λ read. read.items) told_candidates result
        (each_line candidate_at (text_lines text.now)) }
    ensures grown { result ≡ Err CandidatesError.Memory → IsNameReached (text_lines text.now) }
{
    let mut read = Vec::new(alloc);
    for (index, line) in text.split('\n').enumerate() {
        let line = line_text(line);
        if !is_blank(line) {
            read.push(read_candidate(alloc, index + 1, line)?)?;
        }
    }
    Ok(read)
}
