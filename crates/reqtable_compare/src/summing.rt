//! What the cases of a package's lines require.

ghost use Rattle.std.specs.Prelude.{◌≡◌, [], map, None, IfOk};
ghost use Rattle.std.specs.List.{AllZip};
ghost use Rattle.std.specs.List.Sorted.{IsStrictlySortedBy};
ghost use Rattle.std.specs.Ordering.{nat_cmp};
ghost use Rattle.reqtable_table.specs.Casing.{case_record};
ghost use Rattle.reqtable_table.specs.Cases.{cases_under};
ghost use Rattle.reqtable_table.specs.Kept.{kept_under};
ghost use Rattle.reqtable_compare.specs.Numbered.{extras_at};
ghost use Rattle.reqtable_compare.specs.Seen.{summary_record};
ghost use Rattle.reqtable_compare.specs.Totals.{IsSummed, AreSummed, some_numbers};

use crate::summary::Summary;
use pep508_name::{ExtraName, PackageName};
use pep508_tree::MarkerTree;
use reqtable_answer::united_extras;
use reqtable_requirements::Line;
use reqtable_table::{Case, Table};
use std::alloc::{AllocError, Global};

/// What each case of a package in a table requires, by the lines of its list. A package that isn't in the
/// list has one case, which is without lines and always holds.
///
/// A case of n lines needs O(n log m) steps to find them among m lines, O(n log n) comparisons of extras, and
/// the time and memory of its range (`Table::range`).
///
/// # Errors
///
/// `AllocError` when memory runs out.
pub fn summaries(
    alloc: Global,
    lines: &[Line],
    table: &Table,
    name: &PackageName,
) -> Result<Vec<Summary>, AllocError>
    requires rising { IsStrictlySortedBy nat_cmp (map (λ line. line.number) lines.now) }
    ensures { IfOk result (λ found.
        AreSummed lines.now (kept_under name.now table.now) (cases_under name.now table.now)
        (map summary_record found.items)) }
{
    match table.cases(name) {
        Some(cases) => each_summary(alloc, lines, table, name, cases),
        None => nothing(alloc),
    }
}

/// The single case, without lines, of a package that a list doesn't name.
fn nothing(alloc: Global) -> Result<Vec<Summary>, AllocError>
    ensures { IfOk result (λ found. AreSummed [] [] None (map summary_record found.items)) }
{
    let mut found = Vec::with_capacity(alloc, 1)?;
    found.push(Summary {
        has_lines: false,
        extras: Vec::new(alloc),
        range: None,
        prerelease: false,
        tree: MarkerTree::TRUE,
    })?;
    Ok(found)
}

fn each_summary(
    alloc: Global,
    lines: &[Line],
    table: &Table,
    name: &PackageName,
    cases: &[Case],
) -> Result<Vec<Summary>, AllocError>
    requires rising { IsStrictlySortedBy nat_cmp (map (λ line. line.number) lines.now) }
    ensures { IfOk result (λ found.
        AllZip (IsSummed lines.now (kept_under name.now table.now)) (map summary_record found.items)
        (map case_record cases.now)) }
{
    let mut found = Vec::with_capacity(alloc, cases.len())?;
    for case in cases {
        found.push(summary(alloc, lines, table, name, case)?)?;
    }
    Ok(found)
}

fn summary(
    alloc: Global,
    lines: &[Line],
    table: &Table,
    name: &PackageName,
    case: &Case,
) -> Result<Summary, AllocError>
    requires rising { IsStrictlySortedBy nat_cmp (map (λ line. line.number) lines.now) }
    ensures { IfOk result (λ found.
        IsSummed lines.now (kept_under name.now table.now) (summary_record found) (case_record case.now)) }
{
    let numbers = case.lines(alloc)?;
    let lists = lists_of(alloc, lines, &numbers)?;
    let extras = united_extras(alloc, &lists)?;
    let range = table.range(alloc, name, case)?;
    Ok(Summary {
        has_lines: has_some(&numbers),
        extras,
        range,
        prerelease: case.pre,
        tree: case.tree,
    })
}

/// The extras of the lines with these numbers, line by line.
fn lists_of<'a>(
    alloc: Global,
    lines: &'a [Line],
    numbers: &[usize],
) -> Result<Vec<&'a [ExtraName]>, AllocError>
    requires rising { IsStrictlySortedBy nat_cmp (map (λ line. line.number) lines.now) }
    ensures { IfOk result (λ lists.
        map (λ list. list.now) lists.items ≡ map (extras_at lines.now) numbers.now) }
{
    let mut lists = Vec::with_capacity(alloc, numbers.len())?;
    for number in numbers {
        lists.push(extras_of(lines, *number))?;
    }
    Ok(lists)
}

fn extras_of(lines: &[Line], number: usize) -> &[ExtraName]
    requires rising { IsStrictlySortedBy nat_cmp (map (λ line. line.number) lines.now) }
    ensures { result.now ≡ extras_at lines.now number }
{
    match lines.binary_search_by(|line| line.number.cmp(&number)) {
        Ok(place) => &lines[place].requirement.extras,
        Err(_) => &[],
    }
}

fn has_some(numbers: &[usize]) -> bool
    ensures { result ≡ some_numbers numbers.now }
{
    match numbers.split_first() {
        Some(_) => true,
        None => false,
    }
}
