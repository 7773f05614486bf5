//! What is known of a case while its candidates are asked one by one.
//!
//! A candidate that the case's range doesn't decide is asked of the lines, of which there may be many. Once
//! some were asked, ranges that hold whatever the lines accept are made, and candidates that they reject ask
//! no line.

ghost use Rattle.std.specs.Prelude.{◌≡◌, ◌&&◌, true, false, not, None, length, map, IfOk, IsTrue};
ghost use Rattle.std.specs.List.{list_all};
ghost use Rattle.pep440_version.specs.Record.{VersionRecord};
ghost use Rattle.pep440_range.specs.Agreement.{IsSaid};
ghost use Rattle.reqtable_range.specs.Together.{all_take};
ghost use Rattle.reqtable_answer.specs.Asks.{ask_takes};
ghost use Rattle.reqtable_table.specs.Choosing.{case_asks};
ghost use Rattle.reqtable_table.specs.KeptLines.{line_record};
ghost use Rattle.reqtable_table.specs.Sieving.{HoldsTaken, Knows};

use crate::kept::TableLine;
use pep440_specifier_list::VersionSpecifiers;
use pep440_version::Version;
use reqtable_range::{Sieve, sieve_of};
use std::alloc::{AllocError, Global};

/// After how many candidates that ask the lines the ranges are made.
const MANY: usize = 16;

/// What is known of a case.
#[derive(Drop)]
pub(crate) struct Asking {
    /// The place of the line that rejected the last candidate.
    pub(crate) first: usize,
    /// How many candidates were asked.
    asked: usize,
    /// Ranges that hold what the lines accept.
    sieve: Option<Sieve>,
}

impl Asking {
    /// Nothing is known.
    pub(crate) fn new() -> Asking
        ensures { result.sieve ≡ None }
    {
        Asking {
            first: 0,
            asked: 0,
            sieve: None,
        }
    }
}

/// Whether the version is known to be rejected by a marked line, which none is asked then.
pub(crate) fn is_sifted_out(
    alloc: Global,
    asking: &mut Asking,
    lines: &[TableLine],
    marks: &[bool],
    version: &Version,
) -> Result<bool, AllocError>
    requires marks { length marks.now ≡ length lines.now }
    requires knows { Knows (case_asks marks.now (map line_record lines.now)) asking.old }
    requires said { IsSaid version.now }
    ensures knows { Knows (case_asks marks.now (map line_record lines.now)) asking.new }
    ensures rejected { IfOk result (λ rejected. IsTrue rejected →
        list_all (ask_takes version.now) (case_asks marks.now (map line_record lines.now)) ≡ false) }
{
    asking.asked = asking.asked.saturating_add(1);
    if asking.asked == MANY {
        let sieve = sieve_of_lines(alloc, lines, marks)?;
        asking.sieve = Some(sieve);
    }
    match &asking.sieve {
        Some(sieve) => sieve.rejects(alloc, version),
        None => Ok(false),
    }
}

/// The ranges of the specifiers of the marked lines.
fn sieve_of_lines(alloc: Global, lines: &[TableLine], marks: &[bool]) -> Result<Sieve, AllocError>
    requires { length marks.now ≡ length lines.now }
    ensures { IfOk result (HoldsTaken (case_asks marks.now (map line_record lines.now))) }
{
    let lists = lists_of(alloc, lines, marks)?;
    sieve_of(alloc, &lists)
}

/// The list of specifiers of each marked line without a URL.
fn lists_of<'a>(
    alloc: Global,
    lines: &'a [TableLine],
    marks: &[bool],
) -> Result<Vec<&'a VersionSpecifiers>, AllocError>
    requires { length marks.now ≡ length lines.now }
    ensures { IfOk result (λ lists. (version : VersionRecord) →
        list_all (ask_takes version) (case_asks marks.now (map line_record lines.now)) ≡ true →
        all_take (map (λ list. list.now) lists.items) version ≡ true) }
{
    let mut lists = Vec::new(alloc);
    for (index, line) in lines.iter().enumerate() {
        if has_list(marks[index], line) {
            lists.push(line.specifiers.specifiers())?;
        }
    }
    Ok(lists)
}

/// Whether a line is marked and has no URL.
fn has_list(mark: bool, line: &TableLine) -> bool
    ensures { result ≡ (mark && not line.now.is_url) }
{
    mark && !line.is_url
}
