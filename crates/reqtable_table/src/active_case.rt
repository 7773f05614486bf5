//! The applicable lines of a package, and the case that they are.
//!
//! A case is found by the set of its lines: cases are sorted by these, so a binary search finds the one that
//! applies, and no case's tree is looked at.

ghost use Rattle.std.specs.Prelude.{◌≡◌, ◌<◌, ℕ, List, length, map, get_or, IfOk, OnOk};
ghost use Rattle.std.specs.List.{list_any, AllZip, AllByRecursion};
ghost use Rattle.std.specs.List.Sorted.{IsStrictlySortedBy};
ghost use Rattle.std.specs.Ordering.{nat_cmp};
ghost use Rattle.std.specs.Cmp.Lexicographic.{slice_cmp};
ghost use Rattle.std.specs.Str.{bytes_eq};
ghost use Rattle.pep508_tree.specs.Meaning.{IsTree};
ghost use Rattle.reqtable_answer.specs.Asks.{has_extra};
ghost use Rattle.pep508_cases.specs.Sets.{marked};
ghost use Rattle.reqtable_marker_cache.specs.Known.{AreKnown};
ghost use Rattle.reqtable_marker_cache.specs.Settings.{nodes_in, valuation_in};
ghost use Rattle.reqtable_table.specs.Answers.{kept_marks, LiesIn};
ghost use Rattle.reqtable_table.specs.Cases.{HasItsCases};
ghost use Rattle.reqtable_table.specs.Choosing.{case_asks, AreApplying, IsCaseFor};
ghost use Rattle.reqtable_table.specs.Kept.{KeptCase};
ghost use Rattle.reqtable_table.specs.KeptLines.{line_record, package_record};
ghost use Rattle.reqtable_table.specs.Standing.{HasItsLines};
ghost use Rattle.reqtable_table.specs.declared.table.Case.{Case};

use crate::kept::TableLine;
use crate::table::Package;
use pep508_cases::TreeSet;
use pep508_name::ExtraName;
use reqtable_answer::united_extras;
use reqtable_marker_cache::{Known, Setting};
use std::alloc::{AllocError, Global};

/// Overwrites `marks` with one flag per line: whether the line applies.
pub(crate) fn mark(
    marks: &mut Vec<bool>,
    lines: &[TableLine],
    setting: &Setting<'_>,
    known: &mut Known,
) -> Result<(), AllocError>
    requires trees { AllByRecursion (λ line. IsTree (nodes_in setting.now) line.marker)
        (map line_record lines.now) }
    requires known { AreKnown (nodes_in setting.now) (valuation_in setting.now) known.old }
    ensures marks { OnOk result (marks.new.items
        ≡ kept_marks (nodes_in setting.now) (valuation_in setting.now) (map line_record lines.now)) }
    ensures known { AreKnown (nodes_in setting.now) (valuation_in setting.now) known.new }
{
    marks.clear();
    for line in lines {
        marks.push(known.holds(setting, line.slot, line.marker))?;
    }
    Ok(())
}

/// For each package the index of its active case, or `None` where no line applies; `slots` is the number of
/// distinct markers.
pub(crate) fn places_of(
    alloc: Global,
    packages: &[Package],
    slots: usize,
    setting: &Setting<'_>,
) -> Result<Vec<Option<usize>>, AllocError>
    requires lines { AllByRecursion HasItsLines (map package_record packages.now) }
    requires cases { AllByRecursion (HasItsCases (nodes_in setting.now)) (map package_record packages.now) }
    ensures { IfOk result (λ places. AllZip (LiesIn (nodes_in setting.now) (valuation_in setting.now))
        (map package_record packages.now) places.items) }
{
    let mut marks = Vec::new(alloc);
    let mut set = TreeSet::new(alloc);
    let mut places = Vec::with_capacity(alloc, packages.len())?;
    let mut known = Known::new(alloc, slots)?;
    for kept in packages {
        let place = place_in(kept, setting, &mut known, &mut marks, &mut set)?;
        places.push(place)?;
    }
    Ok(places)
}

/// The index of a package's active case, or `None` if no line of it applies.
fn place_in(
    kept: &Package,
    setting: &Setting<'_>,
    known: &mut Known,
    marks: &mut Vec<bool>,
    set: &mut TreeSet,
) -> Result<Option<usize>, AllocError>
    requires lines { HasItsLines (package_record kept.now) }
    requires cases { HasItsCases (nodes_in setting.now) (package_record kept.now) }
    requires known { AreKnown (nodes_in setting.now) (valuation_in setting.now) known.old }
    ensures lies { IfOk result
        (LiesIn (nodes_in setting.now) (valuation_in setting.now) (package_record kept.now)) }
    ensures known { AreKnown (nodes_in setting.now) (valuation_in setting.now) known.new }
{
    mark(marks, &kept.lines, setting, known)?;
    if !marks.contains(&true) {
        return Ok(None);
    }
    match place_of(kept, marks, set) {
        Ok(place) => Ok(Some(place)),
        Err(error) => Err(error),
    }
}

/// The extras that the marked lines require, each once and in the order of their bytes.
pub(crate) fn extras_of(
    alloc: Global,
    lines: &[TableLine],
    marks: &[bool],
) -> Result<Vec<ExtraName>, AllocError>
    requires { length marks.now ≡ length lines.now }
    ensures rise { IfOk result (λ extras. IsStrictlySortedBy (slice_cmp nat_cmp) extras.items) }
    ensures are { IfOk result (λ extras. (extra : List ℕ) → list_any (bytes_eq extra) extras.items
        ≡ list_any (has_extra extra) (case_asks marks.now (map line_record lines.now))) }
{
    let lists = lists_of(alloc, lines, marks)?;
    united_extras(alloc, &lists)
}

/// The list of extras of each marked line.
fn lists_of<'a>(
    alloc: Global,
    lines: &'a [TableLine],
    marks: &[bool],
) -> Result<Vec<&'a [ExtraName]>, AllocError>
    requires { length marks.now ≡ length lines.now }
    ensures { IfOk result (λ lists. map (λ list. list.now) lists.items
        ≡ map (λ line. line.extras.items) (marked marks.now lines.now)) }
{
    let mut lists = Vec::new(alloc);
    for (index, line) in lines.iter().enumerate() {
        if marks[index] {
            lists.push(line.extras.as_slice())?;
        }
    }
    Ok(lists)
}

/// The index of the case of the marked lines, which apply under some valuation while the others don't. Found
/// by their set, which overwrites `set`, in as many steps as the logarithm of the cases.
pub(crate) fn place_of(
    kept: &Package,
    marks: &[bool],
    set: &mut TreeSet,
) -> Result<usize, AllocError>
    requires lines { HasItsLines (package_record kept.now) }
    requires applying { AreApplying marks.now (package_record kept.now) }
    ensures within { IfOk result (λ place. place < length kept.now.cases.items) }
    ensures numbers { IfOk result (λ place. (other : KeptCase) →
        (get_or (package_record kept.now).cases place other).numbers
        ≡ map (λ line. line.number) (marked marks.now (package_record kept.now).lines)) }
    ensures asked { IfOk result (λ place. (other : Case) →
        IsCaseFor marks.now (map line_record kept.now.lines.items)
        (get_or kept.now.cases.items place other)) }
{
    set.mark(marks)?;
    let wanted = &*set;
    let found = kept.cases.binary_search_by(|case| case.set.cmp(wanted));
    match found {
        Ok(place) => Ok(place),
        Err(_) => unreachable!(),
    }
}
