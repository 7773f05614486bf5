//! A requirements text: one requirement per line.
//!
//! A line stands for a record without struct, tree or node: definitions of answers speak of records, and
//! the relation `StandsFor` says that a line's tree holds where the record's formula does, in the nodes as
//! they are afterwards. What holds of all lines (their numbers rise, their specifiers are read from texts)
//! is the invariant of `Requirements`, so whoever has one, without its text, knows it too.
//!
//! `copied_packages` is a function with a name of its own: `Table::build` consumes the requirements, so
//! that who has a table answers from it. With a copy at hand each environment could be judged anew, which
//! no clause on a table would show. So `reqtable` does not re-export it, and `gate/lent.py` sees who names
//! it.

ghost use Rattle.std.specs.Prelude.{◌≡◌, ◌≤◌, Some, None, List, IfOk, length, map};
ghost use Rattle.std.specs.Cmp.Lexicographic.{slice_cmp};
ghost use Rattle.std.specs.List.{AllZip, list_any};
ghost use Rattle.std.specs.List.Sorted.{IsStrictlySortedBy};
ghost use Rattle.std.specs.Ordering.{nat_cmp};
ghost use Rattle.std.specs.Str.{bytes_eq};
ghost use Rattle.pep508_tree.specs.Meaning.{Extends};
ghost use Rattle.pep508_formula.specs.Postfix.{formula_of};
ghost use Rattle.pep508_marker_parser.specs.MarkerOutcome.{IsTreeOf};
ghost use Rattle.reqtable_requirements.specs.Copies.{IsLineCopy, lines_among};
ghost use Rattle.pep508_url.specs.Vars.{Variables};
ghost use Rattle.reqtable_requirements.specs.LineReading.{LineRecord};
ghost use Rattle.reqtable_requirements.specs.ReadLines.{AreRead};
ghost use Rattle.reqtable_requirements.specs.Requirements.{ReadsRequirements, SaysLine, StandsFor};
ghost use Rattle.reqtable_requirements.specs.Within.{MakesWithin, ReadsWithin, StaysWithin};

use crate::laws::{line_numbers_rise, specifiers_are_read_from_texts};
use crate::{MarkedLine, MarkedLines};
use pep508_error::Pep508Error;
use pep508_name::PackageName;
use pep508_requirement::{MarkedRequirement, Requirement};
use pep508_tree::Interner;
use pep508_url::{Vars, VerbatimUrl};
use std::alloc::{AllocError, AllocFailed, Global};
use std::error::Error;
use std::fmt;
use std::marker::Model;

/// A requirement line of a text, with its marker as a tree.
#[derive(Debug, PartialEq, Eq, Drop)]
pub struct Line {
    /// The line's number in its text, from 1.
    pub number: usize,
    pub requirement: Requirement<VerbatimUrl>,
}

impl Line {
    /// A deep copy of the line.
    ///
    /// # Errors
    ///
    /// `AllocError` when memory runs out.
    pub fn try_clone(&self, alloc: Global) -> Result<Line, AllocError>
        ensures { IfOk result (λ copy. IsLineCopy copy self.now) }
    {
        Ok(Line {
            number: self.number,
            requirement: self.requirement.try_clone(alloc)?,
        })
    }
}

/// Why bytes are not a requirements text.
#[derive(Debug, Drop)]
pub enum RequirementsError {
    /// The offset of the first byte that is not UTF-8, from 0.
    NotText {
        offset: usize,
    },
    /// The first rejected line, counted from 1, is not a requirement.
    Line {
        number: usize,
        error: Pep508Error<VerbatimUrl>,
    },
    /// The first rejected line has a marker with a version number that can't be raised.
    NumberAtEnd {
        number: usize,
    },
    /// After the tree of this line the interner has more than `most` nodes. Only a call that takes a bound
    /// returns it.
    TooManyNodes {
        number: usize,
        most: usize,
    },
    /// Memory ran out while reading.
    Memory,
}

impl From<AllocError> for RequirementsError {
    ghost use Rattle.reqtable_requirements.specs.declared.requirements.RequirementsError.TheVariants.{Memory};

    ghost from_gives = { λ _ error. error ≡ Memory };

    fn from(_: AllocError) -> RequirementsError {
        RequirementsError::Memory
    }
}

impl fmt::Display for RequirementsError {
    ghost use Rattle.reqtable_requirements.specs.Errors.{requirements_text};

    ghost output = { requirements_text };

    fn fmt<W: fmt::Write>(&self, f: &mut fmt::Formatter<W>) -> fmt::Result {
        match self {
            RequirementsError::NotText { offset } => write!(f, "not UTF-8 at byte {offset}"),
            RequirementsError::Line { number, error } => {
                let start = error.start();
                let len = error.len();
                writeln!(f, "line {number}, byte {start}, length {len}")?;
                write!(f, "{error}")
            }
            RequirementsError::NumberAtEnd { number } => {
                write!(f, "line {number}: a version number can't be raised")
            }
            RequirementsError::TooManyNodes { number, most } => {
                write!(f, "line {number}: more than {most} nodes")
            }
            RequirementsError::Memory => write!(f, "out of memory"),
        }
    }
}

impl Error for RequirementsError {}

impl<T: Drop> From<AllocFailed<T>> for RequirementsError {
    ghost use Rattle.reqtable_requirements.specs.declared.requirements.RequirementsError.TheVariants.{Memory};

    ghost from_gives = { λ _ error. error ≡ Memory };

    fn from(_: AllocFailed<T>) -> RequirementsError {
        RequirementsError::Memory
    }
}

/// The requirements of a text, in order. Their numbers rise, and their specifiers are ones that can be
/// written.
#[derive(Debug, Drop)]
pub struct Requirements {
    lines: Vec<Line>,
}

impl Model for Requirements {
    ghost use Rattle.std.specs.Prelude.{List};
    ghost use Rattle.reqtable_requirements.specs.declared.requirements.Line.{Line};

    ghost Value = { List Line };

    ghost view = { λ r. r.lines.items };

    ghost use Rattle.reqtable_requirements.specs.ReadLines.{AreRead};

    ghost invariant = { λ r. AreRead r.lines.items };
}

impl Requirements {
    /// Reads a requirements text, which is UTF-8, line by line.
    ///
    /// A line ends in a line feed, and a carriage return before it belongs to the line's end. A `#` at the
    /// start or after white space begins a comment, also inside quotes. Blank lines are counted and skipped.
    /// Each other line is a requirement (PEP 508, "Grammar"), whose relative paths are resolved against the
    /// project's root. Reading stops at the first that isn't.
    ///
    /// Reads all lines as `MarkedLines::parse` does, and then makes their trees. Time and memory are those of
    /// both. Nodes that were added to the interner stay there, also after an error.
    ///
    /// # Errors
    ///
    /// `RequirementsError::NotText` if the bytes are not UTF-8, `RequirementsError::Line` or
    /// `RequirementsError::NumberAtEnd` for the first line that is rejected, and `RequirementsError::Memory`
    /// when memory runs out.
    pub fn parse(
        alloc: Global,
        bytes: &[u8],
        interner: &mut Interner,
        vars: &Vars,
    ) -> Result<Requirements, RequirementsError>
        ensures answered { ReadsRequirements vars.now interner.new.nodes bytes.now result }
        ensures keeps { Extends interner.old.nodes interner.new.nodes }
        ensures counts { interner.new.conjunctions ≡ interner.old.conjunctions }
    {
        // (says, before and after, that there are no more nodes than a number can count)
        let _ = interner.node_count();
        let read = Requirements::parse_within(alloc, bytes, interner, vars, usize::MAX);
        let _ = interner.node_count();
        read
    }

    /// Reads a requirements text as `parse` does, and stops once the interner has more than `most` nodes.
    ///
    /// An interner made by `Interner::with_most` with the same bound also stops in the middle of a line's
    /// tree; with another one that tree is made whole. All lines are read before the first tree is made, so
    /// every other fault of the text is reported before this one. Time and memory are those of `parse`.
    ///
    /// # Errors
    ///
    /// `RequirementsError::TooManyNodes` for the first line after whose tree, or after the part of it that
    /// was made, the interner has more than `most` nodes, and otherwise the errors of `parse`.
    pub fn parse_within(
        alloc: Global,
        bytes: &[u8],
        interner: &mut Interner,
        vars: &Vars,
        most: usize,
    ) -> Result<Requirements, RequirementsError>
        requires { length interner.old.nodes ≤ most }
        ensures answered { ReadsWithin vars.now most interner.new.nodes bytes.now result }
        ensures keeps { Extends interner.old.nodes interner.new.nodes }
        ensures counts { interner.new.conjunctions ≡ interner.old.conjunctions }
    {
        let marked = MarkedLines::parse(alloc, bytes, vars)?;
        let lines = with_trees(alloc, interner, marked.into_lines(), most)?;
        line_numbers_rise();
        specifiers_are_read_from_texts();
        Ok(Requirements { lines })
    }

    /// The requirements in the order of the text, borrowed.
    pub fn lines(&self) -> &[Line]
        ensures { result.now ≡ self.now }
    {
        &self.lines
    }

    /// Does nothing: its contract is what holds of all requirements that were read.
    pub fn are_read(&self)
        ensures { AreRead self.now }
    {
        let _ = &self.lines;
    }

    /// Requirements with these lines, as `into_lines` returned them, perhaps with other markers.
    ///
    /// With copies of lines these could be judged apart from a table, so this is called only by the crate
    /// that restricts requirements to a condition (`gate/lent.py`).
    pub fn from_lines(lines: Vec<Line>) -> Requirements
        requires { AreRead lines.items }
        ensures { result ≡ lines.items }
    {
        Requirements { lines }
    }

    /// The requirements in the order of the text, moved out.
    pub fn into_lines(self) -> Vec<Line>
        ensures lines { result.items ≡ self }
        ensures read { AreRead result.items }
    {
        self.lines
    }
}

/// A copy of the lines of some packages. The names are in rising order; n lines need O(n log m) comparisons
/// with m names.
///
/// A table consumes the requirements that it is built from, so that answers come from the table. A copy could
/// be judged apart from it, so this is called only by those crates that borrow requirements and need a table
/// of some of them (`gate/lent.py`).
///
/// # Errors
///
/// `AllocError` when memory runs out.
pub fn copied_packages(
    alloc: Global,
    requirements: &Requirements,
    names: &[&PackageName],
) -> Result<Requirements, AllocError>
    requires { IsStrictlySortedBy (slice_cmp nat_cmp) (map (λ name. name.now) names.now) }
    ensures { IfOk result (λ copy. AllZip IsLineCopy copy
        (lines_among (map (λ name. name.now) names.now) requirements.now)) }
{
    let lines = copies_among(alloc, &requirements.lines, names)?;
    Ok(Requirements { lines })
}

fn copies_among(
    alloc: Global,
    lines: &[Line],
    names: &[&PackageName],
) -> Result<Vec<Line>, AllocError>
    requires { IsStrictlySortedBy (slice_cmp nat_cmp) (map (λ name. name.now) names.now) }
    ensures { IfOk result (λ copies. AllZip IsLineCopy copies.items
        (lines_among (map (λ name. name.now) names.now) lines.now)) }
{
    let mut copies = Vec::new(alloc);
    for line in lines {
        if is_among(names, &line.requirement.name) {
            copies.push(line.try_clone(alloc)?)?;
        }
    }
    Ok(copies)
}

/// Whether a name is one of some names in rising order.
fn is_among(names: &[&PackageName], name: &PackageName) -> bool
    requires { IsStrictlySortedBy (slice_cmp nat_cmp) (map (λ name. name.now) names.now) }
    ensures { result ≡ list_any (bytes_eq name.now) (map (λ name. name.now) names.now) }
{
    match names.binary_search_by(|other| PackageName::cmp(other, name)) {
        Ok(_) => true,
        Err(_) => false,
    }
}

impl PartialEq for Requirements {
    ghost use Rattle.std.specs.Cmp.Lexicographic.{pointwise, lists_per};
    ghost use Rattle.reqtable_requirements.specs.contracts.requirements.LinePartialEq.TheImpl.Laws.{laws-law};

    ghost eq = { pointwise ⟦<Line as PartialEq>⟧.eq };

    ghost laws = { lists_per laws-law };

    fn eq(&self, other: &Requirements) -> bool {
        self.lines == other.lines
    }
}

impl Eq for Requirements {
    ghost use Rattle.std.specs.Cmp.Lexicographic.{lists_equiv};
    ghost use Rattle.reqtable_requirements.specs.contracts.requirements.LineEq.TheImpl.Laws.{laws-law};

    ghost laws = { lists_equiv laws-law };
}

/// The lines with marker trees. Drops a line's formula once its tree is made.
fn with_trees(
    alloc: Global,
    interner: &mut Interner,
    lines: Vec<MarkedLine>,
    most: usize,
) -> Result<Vec<Line>, RequirementsError>
    requires { length interner.old.nodes ≤ most }
    ensures made { IfOk result (λ made. (vars : Variables) (said : List LineRecord) →
        AllZip (SaysLine vars) lines.items said →
        AllZip (StandsFor vars interner.new.nodes) made.items said) }
    ensures bound { (vars : Variables) (said : List LineRecord) → AllZip (SaysLine vars) lines.items said →
        MakesWithin most interner.new.nodes said result }
    ensures keeps { Extends interner.old.nodes interner.new.nodes }
    ensures counts { interner.new.conjunctions ≡ interner.old.conjunctions }
{
    let mut made = Vec::new(alloc);
    for line in lines {
        let MarkedLine {
            number,
            requirement,
        } = line;
        let requirement = with_tree(alloc, interner, requirement, number, most)?;
        made.push(Line {
            number,
            requirement,
        })?;
    }
    Ok(made)
}

/// The requirement of the line of this number, with a marker tree.
fn with_tree(
    alloc: Global,
    interner: &mut Interner,
    requirement: MarkedRequirement<VerbatimUrl>,
    number: usize,
    most: usize,
) -> Result<Requirement<VerbatimUrl>, RequirementsError>
    ensures tree { IfOk result (λ made.
        IsTreeOf interner.new.nodes made.marker (formula_of requirement.formula)) }
    ensures same { IfOk result (λ made. made ≡ record {
      name = requirement.name;
      extras = requirement.extras;
      version_or_url = requirement.version_or_url;
      marker = made.marker;
      origin = None;
    }) }
    ensures bound { StaysWithin most interner.new.nodes number result }
    ensures keeps { Extends interner.old.nodes interner.new.nodes }
    ensures counts { interner.new.conjunctions ≡ interner.old.conjunctions }
{
    let made = requirement.with_tree(alloc, interner);
    if interner.node_count() > most {
        return Err(RequirementsError::TooManyNodes { number, most });
    }
    match made {
        Ok(made) => Ok(made),
        Err(_) => Err(RequirementsError::Memory),
    }
}
