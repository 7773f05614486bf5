//! Comparison of two requirement lists, package by package.
//!
//! Lists are compared by points and not by the versions that there are, so the result does not depend on
//! candidates. They are compared by whether a case names a pre-release too: `>=1.0` and `>=1.0,!=0.9.dev0`
//! have the same points, but the second admits pre-releases as 2.0a1. Cases without any point differ by it
//! too, so that the law on answers says nothing of the admission test.

ghost use Rattle.std.specs.Prelude.{◌≡◌, None, List, map, IfOk};
ghost use Rattle.std.specs.List.{AllZip, AllByRecursion};
ghost use Rattle.std.specs.List.Sorted.{IsStrictlySortedBy};
ghost use Rattle.std.specs.Ordering.{nat_cmp};
ghost use Rattle.std.specs.Cmp.Lexicographic.{slice_cmp};
ghost use Rattle.std.specs.Option.{option_map};
ghost use Rattle.pep508_url.specs.Vars.{Variables};
ghost use Rattle.pep508_tree.specs.Meaning.{IsTree, Extends};
ghost use Rattle.pep508_tree.specs.Disjoint.{AreDisjoint};
ghost use Rattle.reqtable_requirements.specs.Asks.{AreOfNodes};
ghost use Rattle.reqtable_requirements.specs.LineReading.{LineRecord};
ghost use Rattle.reqtable_requirements.specs.Requirements.{StandsFor};
ghost use Rattle.reqtable_table.specs.Building.{BuildsBy};
ghost use Rattle.reqtable_table.specs.Cases.{HasItsCases};
ghost use Rattle.reqtable_compare.specs.Compared.{Compares, ComparesWithin, TablesSide};
ghost use Rattle.reqtable_compare.specs.Related.{RelatesBy, HasTree};
ghost use Rattle.reqtable_compare.specs.Differences.{FindsPlace, place_seen, listed, AnswersPlace};
ghost use Rattle.reqtable_compare.specs.Differences.{ComparesTables};
ghost use Rattle.reqtable_compare.specs.RefusedLines.{lines_refusal};
ghost use Rattle.reqtable_packages.specs.Packages.{said_among};
ghost use Rattle.reqtable_compare.specs.Settled.{AreOpen};

use crate::pairing::{Meeting, first_trees};
use crate::refusing::first_refusal;
use crate::settled::open_packages;
use crate::sides::{Relation, Same, SameError, Side};
use crate::summing::summaries;
use pep508_name::PackageName;
use pep508_tree::Interner;
use pep508_tree_laws::{a_tree_holds_somewhere, constants_are_named};
use reqtable_packages::{packages_table, packages_table_within};
use reqtable_requirements::{Line, Requirements};
use reqtable_table::{Table, TableError};
use std::alloc::{AllocError, Global};

/// A place at which two lists don't require what a relation has: a package, and the trees of two cases
/// that hold together.
#[derive(Drop)]
struct Place {
    name: PackageName,
    meeting: Meeting,
}

/// How many cases each package of a list may have, and, if that is bounded, all packages of a list together.
#[derive(Clone, Copy)]
pub struct Bounds {
    pub limit: u64,
    pub in_all: Option<u64>,
}

/// Whether two lists require the same of each package under every valuation of markers, and so in every
/// environment with any extras.
///
/// Per package this compares whether it is required at all, its extras, the intersection of the version
/// ranges of all its specifiers (PEP 440, "Version specifiers"), and whether one of these specifiers names a
/// pre-release or developmental release (PEP 440, "Handling of pre-releases"). Ranges are compared as sets of
/// points, so they can differ in points between versions alone, as `~=1.2` and `>=1.2,<2` do, which accept
/// the same versions. If the lists differ, the result has the first package that does, and the marker of the
/// first pair of its cases that do; that marker holds under some valuation, which need not match a real
/// interpreter.
///
/// Ranges decide plain versions alone: those without a local part that are no post-releases. So for lists
/// that require the same different builds can still be selected, as for `torch==2.0+cu118` with `torch<=2.0`,
/// and `torch==2.0+cu121` with `torch<=2.0`: both ranges are empty, but `<=2.0` accepts either build.
///
/// Both lists must have been read with this interner.
///
/// A package of which both lists have equal lines, in whatever order, is settled by these: equal extras,
/// specifiers with equal operators and numbers, and equal markers. Its cases are not built, if n lines of it
/// can't have more cases than the limit, 2^n <= limit, in either list. n lines need O(n log n) comparisons of
/// names, and a package with k and m of them at most 2 * k * m comparisons of lines.
///
/// From the lines of all other packages tables are built, from a copy, as by `Table::build`: so cases are
/// counted in either list. A package with k and m cases needs k comparisons of what two cases require if each
/// of its cases is in both lists and requires the same there. If many are not, it needs one for each pair of
/// cases that hold together, and the time of one diagram of the cases of both lists; if few are not, or if
/// more than 16 * (k + m) pairs hold together, at most k * m comparisons. The ranges of its cases in both
/// lists are made anew, and kept while it is compared.
///
/// # Errors
///
/// `SameError::Line` for the first line that can't be compared, even if it never applies: one with a URL,
/// with `===`, with `<` or `>` and a post-release, or whose range would need a number past 64 bits.
/// `SameError::TooManyCases` for the first package that has more cases than `limit` in one of the lists,
/// whatever differs before it. `SameError::Memory` when memory runs out.
pub fn same<'a>(
    alloc: Global,
    left: &'a Requirements,
    right: &'a Requirements,
    interner: &mut Interner,
    limit: u64,
) -> Result<Same, SameError>
    requires left { AreOfNodes interner.old.nodes left.now }
    requires right { AreOfNodes interner.old.nodes right.now }
    ensures compared { (vars : Variables) (said others : List LineRecord) →
        AllZip (StandsFor vars interner.old.nodes) left.now said →
        AllZip (StandsFor vars interner.old.nodes) right.now others →
        Compares limit interner.new.nodes said others result }
    ensures keeps { Extends interner.old.nodes interner.new.nodes }
{
    related(alloc, Relation::Alike, left, right, interner, limit, None)
}

/// Whether two lists require the same, as `same` finds it, with no more than `in_all` cases built of either
/// list. Only the packages whose cases `same` builds are counted, those of each list by themselves, and their
/// tables are those of `Table::build_within`.
///
/// # Errors
///
/// `SameError::Line` as for `same`. `SameError::TooManyCases` for the first package that has more cases than
/// `limit` in one of the lists. `SameError::TooManyCasesInAll` only where the packages of the list up to some
/// package have more than `in_all` cases together, and none before it has more than `limit`; the left list is
/// refused first. `SameError::Memory` when memory runs out.
pub fn same_within<'a>(
    alloc: Global,
    left: &'a Requirements,
    right: &'a Requirements,
    interner: &mut Interner,
    limit: u64,
    in_all: u64,
) -> Result<Same, SameError>
    requires left { AreOfNodes interner.old.nodes left.now }
    requires right { AreOfNodes interner.old.nodes right.now }
    ensures compared { (vars : Variables) (said others : List LineRecord) →
        AllZip (StandsFor vars interner.old.nodes) left.now said →
        AllZip (StandsFor vars interner.old.nodes) right.now others →
        ComparesWithin limit in_all interner.new.nodes said others result }
    ensures keeps { Extends interner.old.nodes interner.new.nodes }
{
    related(
        alloc,
        Relation::Alike,
        left,
        right,
        interner,
        limit,
        Some(in_all),
    )
}

/// Whether two lists require of each package what the relation has, under every valuation of markers. If
/// not, the result has the first package of which they don't, and the marker of the first pair of its
/// cases at which they don't.
///
/// As `same`, which is this call with `Relation::Alike`, and, where the cases in all are bounded, as
/// `same_within`: a package of which both lists have equal lines is settled by these here too. Of other
/// packages a case needs no comparison but that with the case of the other side that has the same tree, if
/// there is one and both require what the relation has. For `Relation::Covering` two cases are compared by
/// an intersection of their ranges and a list of the extras of both.
///
/// # Errors
///
/// Those of `same` and, with a bound, of `same_within`.
pub fn related<'a>(
    alloc: Global,
    relation: Relation,
    left: &'a Requirements,
    right: &'a Requirements,
    interner: &mut Interner,
    limit: u64,
    in_all: Option<u64>,
) -> Result<Same, SameError>
    requires left { AreOfNodes interner.old.nodes left.now }
    requires right { AreOfNodes interner.old.nodes right.now }
    ensures related { (vars : Variables) (said others : List LineRecord) →
        AllZip (StandsFor vars interner.old.nodes) left.now said →
        AllZip (StandsFor vars interner.old.nodes) right.now others →
        RelatesBy relation limit in_all interner.new.nodes said others result }
    ensures tree { IfOk result (HasTree interner.new.nodes) }
    ensures keeps { Extends interner.old.nodes interner.new.nodes }
{
    let bounds = Bounds { limit, in_all };
    if let Some(refused) = first_refusal(alloc, left.lines(), right.lines())? {
        return Err(SameError::Line {
            side: refused.side,
            number: refused.number,
            cause: refused.cause,
        });
    }
    let names = open_packages(alloc, left.lines(), right.lines(), bounds.limit)?;
    compared_on(alloc, relation, left, right, &names, interner, bounds)
}

/// Compares two lists by the packages that aren't settled by equal lines.
fn compared_on(
    alloc: Global,
    relation: Relation,
    left: &Requirements,
    right: &Requirements,
    names: &[&PackageName],
    interner: &mut Interner,
    bounds: Bounds,
) -> Result<Same, SameError>
    requires left { AreOfNodes interner.old.nodes left.now }
    requires right { AreOfNodes interner.old.nodes right.now }
    requires none { lines_refusal Side.Left left.now (lines_refusal Side.Right right.now None) ≡ None }
    requires others { AreOpen bounds.limit left.now right.now (map (λ name. name.now) names.now) }
    ensures compared { (vars : Variables) (said others : List LineRecord) →
        AllZip (StandsFor vars interner.old.nodes) left.now said →
        AllZip (StandsFor vars interner.old.nodes) right.now others →
        RelatesBy relation bounds.limit bounds.in_all interner.new.nodes said others result }
    ensures tree { IfOk result (HasTree interner.new.nodes) }
    ensures keeps { Extends interner.old.nodes interner.new.nodes }
{
    left.are_read();
    right.are_read();
    let left_table = side_table(alloc, Side::Left, left, names, interner, bounds)?;
    let right_table = side_table(alloc, Side::Right, right, names, interner, bounds)?;
    compared(
        alloc,
        relation,
        left,
        &left_table,
        right,
        &right_table,
        names,
        interner,
    )
}

/// The table of some packages of one of two lists, whose names are in the order of their bytes.
///
/// # Errors
///
/// `SameError::TooManyCases` and `SameError::TooManyCasesInAll` of this side beyond the bounds;
/// `SameError::Memory` when memory runs out.
pub fn side_table(
    alloc: Global,
    side: Side,
    requirements: &Requirements,
    names: &[&PackageName],
    interner: &mut Interner,
    bounds: Bounds,
) -> Result<Table, SameError>
    requires rising { IsStrictlySortedBy (slice_cmp nat_cmp) (map (λ name. name.now) names.now) }
    requires trees { AreOfNodes interner.old.nodes requirements.now }
    ensures made { (vars : Variables) (said : List LineRecord) →
        AllZip (StandsFor vars interner.old.nodes) requirements.now said →
        TablesSide side bounds.limit bounds.in_all interner.new.nodes
        (said_among (map (λ name. name.now) names.now) said) result }
    ensures cases { IfOk result (AllByRecursion (HasItsCases interner.new.nodes)) }
    ensures keeps { Extends interner.old.nodes interner.new.nodes }
{
    match table_of(alloc, requirements, names, interner, bounds) {
        Ok(table) => Ok(table),
        Err(TableError::TooManyCases { package }) => Err(SameError::TooManyCases { side, package }),
        Err(TableError::TooManyCasesInAll) => Err(SameError::TooManyCasesInAll { side }),
        Err(TableError::Memory) => Err(SameError::Memory),
    }
}

/// The table of some packages, with no more cases than there may be.
fn table_of(
    alloc: Global,
    requirements: &Requirements,
    names: &[&PackageName],
    interner: &mut Interner,
    bounds: Bounds,
) -> Result<Table, TableError>
    requires rising { IsStrictlySortedBy (slice_cmp nat_cmp) (map (λ name. name.now) names.now) }
    requires trees { AreOfNodes interner.old.nodes requirements.now }
    ensures built { (vars : Variables) (said : List LineRecord) →
        AllZip (StandsFor vars interner.old.nodes) requirements.now said →
        BuildsBy bounds.limit bounds.in_all interner.new.nodes
        (said_among (map (λ name. name.now) names.now) said) result }
    ensures cases { IfOk result (AllByRecursion (HasItsCases interner.new.nodes)) }
    ensures keeps { Extends interner.old.nodes interner.new.nodes }
{
    match bounds.in_all {
        None => packages_table(alloc, requirements, names, interner, bounds.limit),
        Some(in_all) => {
            packages_table_within(alloc, requirements, names, interner, bounds.limit, in_all)
        }
    }
}

/// Compares two lists by the tables of some packages.
fn compared<'a>(
    alloc: Global,
    relation: Relation,
    left: &'a Requirements,
    left_table: &Table,
    right: &'a Requirements,
    right_table: &Table,
    names: &[&PackageName],
    interner: &mut Interner,
) -> Result<Same, SameError>
    requires left { AllByRecursion (HasItsCases interner.old.nodes) left_table.now }
    requires right { AllByRecursion (HasItsCases interner.old.nodes) right_table.now }
    ensures compared { ComparesTables relation interner.old.nodes interner.new.nodes
        (listed left.now left_table.now) (listed right.now right_table.now)
        (map (λ name. name.now) names.now) result }
    ensures keeps { Extends interner.old.nodes interner.new.nodes }
{
    left.are_read();
    right.are_read();
    let place = first_place(
        alloc,
        relation,
        left.lines(),
        left_table,
        right.lines(),
        right_table,
        names,
        interner,
    )?;
    match place {
        Some(place) => difference(alloc, place, interner),
        None => Ok(Same::Yes),
    }
}

/// The result for a difference: its package, and the conjunction of its two trees.
fn difference(alloc: Global, place: Place, interner: &mut Interner) -> Result<Same, SameError>
    requires one { IsTree interner.old.nodes place.meeting.one }
    requires other { IsTree interner.old.nodes place.meeting.other }
    requires meet { AreDisjoint interner.old.nodes place.meeting.one place.meeting.other → ⊥ }
    ensures answered { AnswersPlace interner.old.nodes interner.new.nodes (place_seen place) result }
    ensures keeps { Extends interner.old.nodes interner.new.nodes }
{
    let tree = place.meeting.one.and(alloc, interner, place.meeting.other)?;
    interner.are_sound();
    a_tree_holds_somewhere(interner);
    constants_are_named(interner);
    Ok(Same::No {
        package: place.name,
        tree,
    })
}

/// The first of some packages of which two lists don't require what the relation has.
fn first_place(
    alloc: Global,
    relation: Relation,
    left: &[Line],
    left_table: &Table,
    right: &[Line],
    right_table: &Table,
    names: &[&PackageName],
    interner: &Interner,
) -> Result<Option<Place>, AllocError>
    requires left_rises { IsStrictlySortedBy nat_cmp (map (λ line. line.number) left.now) }
    requires right_rises { IsStrictlySortedBy nat_cmp (map (λ line. line.number) right.now) }
    requires left_cases { AllByRecursion (HasItsCases interner.now.nodes) left_table.now }
    requires right_cases { AllByRecursion (HasItsCases interner.now.nodes) right_table.now }
    ensures { IfOk result (λ place. FindsPlace relation interner.now.nodes (listed left.now left_table.now)
        (listed right.now right_table.now) (map (λ name. name.now) names.now) (option_map place_seen place)) }
{
    for name in names {
        let ours = summaries(alloc, left, left_table, name)?;
        let theirs = summaries(alloc, right, right_table, name)?;
        if let Some(meeting) = first_trees(alloc, relation, interner, &ours, &theirs)? {
            let package = name.try_clone(alloc)?;
            return Ok(Some(Place {
                name: package,
                meeting,
            }));
        }
    }
    Ok(None)
}
