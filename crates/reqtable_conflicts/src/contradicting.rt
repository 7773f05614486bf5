//! Lines of a package that contradict each other.

ghost use Rattle.std.specs.Prelude.{◌≡◌, ◌≤◌, ◌+◌, ◌*◌, ◌++◌, ◌∷◌, [], ◌↔◌, IsTrue, List, length, map, false};
ghost use Rattle.std.specs.Prelude.{IfOk, OnOk};
ghost use Rattle.std.specs.List.{AllZip};
ghost use Rattle.version_ranges.specs.Point.{Point};
ghost use Rattle.version_ranges.specs.Held.{holds_at};
ghost use Rattle.pep440_version.specs.Record.{VersionRecord};
ghost use Rattle.pep440_version.specs.Order.{version_cmp};
ghost use Rattle.pep508_url.specs.Vars.{Variables};
ghost use Rattle.pep508_tree.specs.Meaning.{Extends};
ghost use Rattle.reqtable_requirements.specs.Asks.{AreOfNodes};
ghost use Rattle.reqtable_requirements.specs.LineReading.{LineRecord};
ghost use Rattle.reqtable_requirements.specs.Requirements.{StandsFor};
ghost use Rattle.reqtable_table.specs.Casing.{case_record};
ghost use Rattle.reqtable_table.specs.Kept.{kept_under};
ghost use Rattle.reqtable_conflicts.specs.Contradictions.{conflict_record, FindsConflicts, FindsWithin};
ghost use Rattle.reqtable_conflicts.specs.Contradictions.{HasNoPoint};
ghost use Rattle.reqtable_conflicts.specs.Picking.{AddsPicked, FoundFor, told, named};

use crate::doubtful::doubtful_packages;
use pep440_version::Version;
use pep508_name::PackageName;
use pep508_tree::Interner;
use reqtable_packages::{packages_table, packages_table_within};
use reqtable_requirements::Requirements;
use reqtable_table::{Case, Table, TableError};
use std::alloc::{AllocError, Global};
use version_ranges::Ranges;

/// Lines of a package that contradict each other: under some valuation of markers they are all its lines that
/// apply, and no plain version (one without a local part that is no post-release) is accepted by all of them.
#[derive(Debug, PartialEq, Eq, Drop)]
pub struct Conflict {
    pub package: PackageName,
    /// The numbers of the lines in their text, from 1, in rising order.
    pub lines: Vec<usize>,
    /// Whether a specifier of these lines names a pre-release or developmental release (PEP 440, "Handling of
    /// pre-releases").
    pub pre: bool,
}

/// The lines of each package that contradict each other: for each of its cases that has lines and whose
/// specifiers' ranges (PEP 440, "Version specifiers") have an empty intersection, its lines.
///
/// No plain version, one without a local part that is no post-release, is accepted by all lines of a
/// conflict. Other versions may be: `torch==2.0+cu118` and `torch<=2.0` are listed, and both accept
/// 2.0+cu118. A case is left out if a line of it has a URL, `===`, or `<` or `>` with a post-release, if a
/// range would need a number past 64 bits, or if the intersection still holds a point, even one between two
/// versions.
///
/// The conflicts are in the order of the names of their packages, those of a package in the order of
/// `Table::cases`.
///
/// n lines need O(n log n) comparisons of names, and the intersection of the ranges of each package's lines.
/// A package all of whose lines have some point in common has no conflict, and its cases are not built, if
/// its n lines can't have more cases than the limit, 2^n <= limit. The lines of all other packages are
/// copied, and cost what `Table::build` does, and the intersection of the ranges of each case's lines, one
/// of which is kept at a time.
///
/// # Errors
///
/// `TableError::TooManyCases` for the first package by name that has more cases than `limit`.
/// `TableError::Memory` when memory runs out.
pub fn conflicts(
    alloc: Global,
    requirements: &Requirements,
    interner: &mut Interner,
    limit: u64,
) -> Result<Vec<Conflict>, TableError>
    requires trees { AreOfNodes interner.old.nodes requirements.now }
    ensures found { (vars : Variables) (said : List LineRecord) →
        AllZip (StandsFor vars interner.old.nodes) requirements.now said →
        FindsConflicts (λ found. map conflict_record found.items) limit said result }
    ensures keeps { Extends interner.old.nodes interner.new.nodes }
    ensures counts { interner.new.conjunctions
        ≤ interner.old.conjunctions + 2 * (limit * length requirements.now) }
{
    requirements.are_read();
    let names = doubtful_packages(alloc, requirements.lines(), limit)?;
    let table = packages_table(alloc, requirements, &names, interner, limit)?;
    let found = conflicts_in(alloc, &table, &names)?;
    Ok(found)
}

/// The lines of each package that contradict each other, as `conflicts` finds them, with no more than
/// `in_all` cases built. Only the packages whose cases `conflicts` builds are counted, and their tables are
/// those of `Table::build_within`.
///
/// # Errors
///
/// `TableError::TooManyCases` for the first package by name that has more cases than `limit`.
/// `TableError::TooManyCasesInAll` only where the packages up to some package have more than `in_all` cases
/// together, and none before it has more than `limit`. `TableError::Memory` when memory runs out.
pub fn conflicts_within(
    alloc: Global,
    requirements: &Requirements,
    interner: &mut Interner,
    limit: u64,
    in_all: u64,
) -> Result<Vec<Conflict>, TableError>
    requires trees { AreOfNodes interner.old.nodes requirements.now }
    ensures found { (vars : Variables) (said : List LineRecord) →
        AllZip (StandsFor vars interner.old.nodes) requirements.now said →
        FindsWithin (λ found. map conflict_record found.items) limit in_all said result }
    ensures keeps { Extends interner.old.nodes interner.new.nodes }
    ensures counts { interner.new.conjunctions
        ≤ interner.old.conjunctions + 2 * (limit * length requirements.now) }
{
    requirements.are_read();
    let names = doubtful_packages(alloc, requirements.lines(), limit)?;
    let table = packages_table_within(alloc, requirements, &names, interner, limit, in_all)?;
    let listed = conflicts_in(alloc, &table, &names)?;
    Ok(listed)
}

/// The conflicts of the packages with these names, one package after another.
fn conflicts_in(
    alloc: Global,
    table: &Table,
    names: &[&PackageName],
) -> Result<Vec<Conflict>, AllocError>
    ensures { IfOk result (λ found.
        FoundFor table.now (map (λ name. name.now) names.now) (map conflict_record found.items)) }
{
    let mut found = Vec::new(alloc);
    for name in names {
        match table.cases(name) {
            Some(cases) => add_conflicts(alloc, &mut found, table, name, cases)?,
            None => (),
        }
    }
    Ok(found)
}

/// Appends those of a package's cases in a table that are conflicts. The range of each is made in turn.
fn add_conflicts(
    alloc: Global,
    found: &mut Vec<Conflict>,
    table: &Table,
    name: &PackageName,
    cases: &[Case],
) -> Result<(), AllocError>
    ensures { OnOk result (AddsPicked (kept_under name.now table.now) name.now (map case_record cases.now)
        (map conflict_record found.old.items) (map conflict_record found.new.items)) }
{
    for case in cases {
        let conflicting = is_conflict(alloc, table, name, case)?;
        if conflicting {
            push_conflict(alloc, found, name, case)?;
        }
    }
    Ok(())
}

fn push_conflict(
    alloc: Global,
    found: &mut Vec<Conflict>,
    name: &PackageName,
    case: &Case,
) -> Result<(), AllocError>
    ensures { OnOk result (map conflict_record found.new.items
        ≡ map conflict_record found.old.items ++ named name.now (told (case_record case.now)) ∷ []) }
{
    let conflict = Conflict {
        package: name.try_clone(alloc)?,
        lines: case.lines(alloc)?,
        pre: case.pre,
    };
    found.push(conflict)?;
    Ok(())
}

/// Whether the case of a package has an empty range, as one without lines never has.
fn is_conflict(
    alloc: Global,
    table: &Table,
    name: &PackageName,
    case: &Case,
) -> Result<bool, AllocError>
    ensures { IfOk result (λ conflict.
        IsTrue conflict ↔ HasNoPoint (kept_under name.now table.now) (case_record case.now)) }
{
    match table.range(alloc, name, case)? {
        Some(range) => Ok(holds_nothing(&range)),
        None => Ok(false),
    }
}

/// Whether a range is empty: no point is in it, not even one between two versions.
pub(crate) fn holds_nothing(range: &Ranges<Version>) -> bool
    ensures { IsTrue result ↔ ((p : Point VersionRecord) → holds_at version_cmp range.now p ≡ false) }
{
    range.is_empty()
}
