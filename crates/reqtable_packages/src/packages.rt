//! The lines of packages, and tables of some of them.
//!
//! `same`, `conflicts` and `normal` borrow their lists, so that one list can be given to all of them and
//! judged too. The tables are made of copies, which cost a twentieth of what reading does.

ghost use Rattle.std.specs.Prelude.{◌≡◌, ◌≤◌, ◌+◌, ◌*◌, ◌++◌, ◌∷◌, ℕ, List, [], length, map};
ghost use Rattle.std.specs.Prelude.{IfOk, OnOk, IsTrue, ◌↔◌};
ghost use Rattle.std.specs.List.{AllZip, AllByRecursion};
ghost use Rattle.std.specs.List.Sorted.{IsStrictlySortedBy};
ghost use Rattle.std.specs.Ordering.{nat_cmp};
ghost use Rattle.std.specs.Cmp.Lexicographic.{slice_cmp};
ghost use Rattle.pep508_url.specs.Vars.{Variables};
ghost use Rattle.pep508_tree.specs.Meaning.{Extends};
ghost use Rattle.reqtable_requirements.specs.Asks.{AreOfNodes};
ghost use Rattle.reqtable_requirements.specs.LineReading.{LineRecord};
ghost use Rattle.reqtable_requirements.specs.Requirements.{StandsFor};
ghost use Rattle.reqtable_table.specs.Cases.{Builds, BuildsWithin, HasItsCases};
ghost use Rattle.reqtable_packages.specs.Packages.{HasRoom, lines_at, lines_under, said_among};

use pep508_name::PackageName;
use pep508_tree::Interner;
use reqtable_requirements::{Line, Requirements, copied_packages};
use reqtable_table::{Table, TableError};
use std::alloc::{AllocError, Global};
use std::collections::BTreeMap;

/// The lines of a list, by the names of their packages.
pub type Groups<'a> = BTreeMap<&'a str, Vec<&'a Line>>;

/// The lines grouped by package, those of a package in their order. n lines need O(n log n) comparisons of
/// names.
///
/// # Errors
///
/// `AllocError` when memory runs out.
pub fn by_package<'a>(alloc: Global, lines: &'a [Line]) -> Result<Groups<'a>, AllocError>
    ensures { IfOk result (λ groups. (q : List ℕ) → lines_at groups q ≡ lines_under q lines.now) }
{
    let mut groups: Groups<'a> = BTreeMap::new(alloc);
    for line in lines {
        add(alloc, &mut groups, line)?;
    }
    Ok(groups)
}

/// Adds a line at the end of its package's group.
fn add<'a>(alloc: Global, groups: &mut Groups<'a>, line: &'a Line) -> Result<(), AllocError>
    ensures { OnOk result ((q : List ℕ) →
        lines_at groups.new q ≡ lines_at groups.old q ++ lines_under q (line.now ∷ [])) }
{
    let lines = groups
        .entry(line.requirement.name.as_str())?
        .or_insert(Vec::new(alloc));
    lines.push(line)?;
    Ok(())
}

/// Whether `count` lines have no more subsets than the limit: 2^count <= limit.
#[tactic(auto, using(crate::proofs::Few::fewer, crate::proofs::Few::too_many))]
pub fn has_room(limit: u64, count: usize) -> bool
    ensures { IsTrue result ↔ HasRoom limit count }
{
    match limit.checked_ilog2() {
        Some(most) => count <= most as usize,
        None => false,
    }
}

/// The table of some packages of borrowed requirements, by `Table::build` from a copy of their lines. The
/// names are in rising order. The copy costs a twentieth of reading these lines, the table what
/// `Table::build` does.
///
/// # Errors
///
/// `TableError::TooManyCases` for the first package by name that has more cases than `limit`.
/// `TableError::Memory` when memory runs out.
pub fn packages_table(
    alloc: Global,
    requirements: &Requirements,
    names: &[&PackageName],
    interner: &mut Interner,
    limit: u64,
) -> Result<Table, TableError>
    requires rising { IsStrictlySortedBy (slice_cmp nat_cmp) (map (λ name. name.now) names.now) }
    requires trees { AreOfNodes interner.old.nodes requirements.now }
    ensures built { (vars : Variables) (said : List LineRecord) →
        AllZip (StandsFor vars interner.old.nodes) requirements.now said →
        Builds limit interner.new.nodes (said_among (map (λ name. name.now) names.now) said) result }
    ensures cases { IfOk result (AllByRecursion (HasItsCases interner.new.nodes)) }
    ensures keeps { Extends interner.old.nodes interner.new.nodes }
    ensures counts { interner.new.conjunctions
        ≤ interner.old.conjunctions + 2 * (limit * length requirements.now) }
{
    let copy = copied_packages(alloc, requirements, names)?;
    Table::build(alloc, copy, interner, limit)
}

/// The table of some packages of borrowed requirements, by `Table::build_within` from a copy of their lines:
/// only the cases of these packages are counted. The names are in rising order. The copy costs a twentieth of
/// reading these lines, the table what `Table::build_within` does.
///
/// # Errors
///
/// Those of `Table::build_within`: `TableError::TooManyCases` for the first package by name that has more
/// cases than `limit`, `TableError::TooManyCasesInAll` where these packages have more than `in_all` cases
/// together, whichever of the two comes at a package before. `TableError::Memory` when memory runs out.
pub fn packages_table_within(
    alloc: Global,
    requirements: &Requirements,
    names: &[&PackageName],
    interner: &mut Interner,
    limit: u64,
    in_all: u64,
) -> Result<Table, TableError>
    requires rising { IsStrictlySortedBy (slice_cmp nat_cmp) (map (λ name. name.now) names.now) }
    requires trees { AreOfNodes interner.old.nodes requirements.now }
    ensures built { (vars : Variables) (said : List LineRecord) →
        AllZip (StandsFor vars interner.old.nodes) requirements.now said →
        BuildsWithin limit in_all interner.new.nodes (said_among (map (λ name. name.now) names.now) said)
        result }
    ensures cases { IfOk result (AllByRecursion (HasItsCases interner.new.nodes)) }
    ensures keeps { Extends interner.old.nodes interner.new.nodes }
    ensures counts { interner.new.conjunctions
        ≤ interner.old.conjunctions + 2 * (limit * length requirements.now) }
{
    let copy = copied_packages(alloc, requirements, names)?;
    Table::build_within(alloc, copy, interner, limit, in_all)
}
