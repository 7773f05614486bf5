//! The range of a case, which is made when the case is asked.

ghost use Rattle.std.specs.Prelude.{◌≡◌, ◌==◌, ◌++◌, ◌∷◌, [], List, map, filter, flat_map, IfOk, OnOk};
ghost use Rattle.std.specs.List.{list_any};
ghost use Rattle.std.specs.List.Sorted.{IsStrictlySortedBy};
ghost use Rattle.std.specs.Option.{option_map_or};
ghost use Rattle.std.specs.Ordering.{nat_cmp};
ghost use Rattle.reqtable_range.specs.Together.{lent};
ghost use Rattle.reqtable_cases.specs.Usable.{IsRangeOf};
ghost use Rattle.reqtable_table.specs.Casing.{case_record};
ghost use Rattle.reqtable_table.specs.Kept.{kept_under};
ghost use Rattle.reqtable_table.specs.KeptLines.{line_record, lent_lines};
ghost use Rattle.reqtable_table.specs.Numbered.{lines_at, asks_at};

use crate::kept::TableLine;
use crate::table::{Case, Table};
use pep440_specifier::VersionSpecifier;
use pep440_version::Version;
use pep508_name::PackageName;
use reqtable_cases::asked_range;
use std::alloc::{AllocError, Global};
use version_ranges::Ranges;

impl Table {
    /// The intersection of the ranges of the specifiers of a case's lines, the lines of a package that have
    /// the numbers `case.lines(alloc)`. `None` if one of these lines has a URL, `===`, or `<` or `>` with a
    /// post-release, or if a number of a range can't be raised.
    ///
    /// Made anew by each call. A case of k lines with m specifiers needs O(m log m) comparisons of versions,
    /// in a table of p packages O(log p) comparisons of names, and for n lines of the package O(k log n)
    /// steps.
    ///
    /// # Errors
    ///
    /// `AllocError` when memory runs out.
    pub fn range(
        &self,
        alloc: Global,
        name: &PackageName,
        case: &Case,
    ) -> Result<Option<Ranges<Version>>, AllocError>
        ensures { IfOk result
            (IsRangeOf (asks_at (case_record case.now).numbers (kept_under name.now self.now))) }
    {
        let numbers = case.lines(alloc)?;
        let found = self
            .packages
            .binary_search_by(|package| package.name.cmp(name));
        match found {
            Ok(place) => range_at(alloc, &self.packages[place].lines, &numbers),
            Err(_) => range_at(alloc, &[], &numbers),
        }
    }
}

/// The intersection of the ranges of the specifiers of the lines with these numbers, or `None` if one of them
/// has a URL or a specifier without a range that decides it.
pub(crate) fn range_at(
    alloc: Global,
    lines: &[TableLine],
    numbers: &[usize],
) -> Result<Option<Ranges<Version>>, AllocError>
    requires { IsStrictlySortedBy nat_cmp (map (λ line. line.number) (map line_record lines.now)) }
    ensures { IfOk result (IsRangeOf (asks_at numbers.now (map line_record lines.now))) }
{
    let own = lines_at(alloc, lines, numbers)?;
    if has_url(&own) {
        return Ok(None);
    }
    let members = members_of(alloc, &own)?;
    asked_range(alloc, &members)
}

/// References to the lines with these numbers.
fn lines_at<'a>(
    alloc: Global,
    lines: &'a [TableLine],
    numbers: &[usize],
) -> Result<Vec<&'a TableLine>, AllocError>
    requires { IsStrictlySortedBy nat_cmp (map (λ line. line.number) (map line_record lines.now)) }
    ensures { IfOk result (λ own. lent_lines own.items ≡ lines_at numbers.now (map line_record lines.now)) }
{
    let mut own = Vec::with_capacity(alloc, numbers.len())?;
    for number in numbers {
        match line_at(lines, *number) {
            Some(line) => own.push(line)?,
            None => (),
        }
    }
    Ok(own)
}

/// The line with a number, if there is one.
fn line_at(lines: &[TableLine], number: usize) -> Option<&TableLine>
    requires { IsStrictlySortedBy nat_cmp (map (λ line. line.number) (map line_record lines.now)) }
    ensures { option_map_or (λ line. line_record line.now ∷ []) result []
        ≡ filter (λ line. line.number == number) (map line_record lines.now) }
{
    match lines.binary_search_by(|line| line.number.cmp(&number)) {
        Ok(place) => Some(&lines[place]),
        Err(_) => None,
    }
}

fn has_url(lines: &[&TableLine]) -> bool
    ensures { result ≡ list_any (λ line. line.now.is_url) lines.now }
{
    lines.iter().any(|line| line.is_url)
}

/// References to the specifiers of all these lines.
fn members_of<'a>(
    alloc: Global,
    lines: &[&'a TableLine],
) -> Result<Vec<&'a VersionSpecifier>, AllocError>
    ensures { IfOk result (λ members.
        lent members.items ≡ flat_map (λ line. line.specifiers.members) (lent_lines lines.now)) }
{
    let mut members = Vec::new(alloc);
    for line in lines {
        lend(&mut members, line.specifiers.specifiers().as_slice())?;
    }
    Ok(members)
}

fn lend<'a>(
    members: &mut Vec<&'a VersionSpecifier>,
    more: &'a [VersionSpecifier],
) -> Result<(), AllocError>
    ensures { OnOk result (lent members.new.items ≡ lent members.old.items ++ more.now) }
{
    for member in more {
        members.push(member)?;
    }
    Ok(())
}
