//! Whether one requirement list covers another, package by package.
//!
//! Lists are compared by points and not by the versions that there are, as `reqtable_compare` does, so ranges
//! can differ in points between versions alone. Whether a specifier names a pre-release makes no difference:
//! `foo==2.0a1` covers `foo>=1`, whose range has its point.

ghost use Rattle.std.specs.Prelude.{None, Some, List};
ghost use Rattle.std.specs.List.{AllZip};
ghost use Rattle.pep508_url.specs.Vars.{Variables};
ghost use Rattle.pep508_tree.specs.Meaning.{Extends};
ghost use Rattle.reqtable_requirements.specs.Asks.{AreOfNodes};
ghost use Rattle.reqtable_requirements.specs.LineReading.{LineRecord};
ghost use Rattle.reqtable_requirements.specs.Requirements.{StandsFor};
ghost use Rattle.reqtable_covers.specs.Covering.{FindsCovered};

use crate::answer::Covers;
use crate::applying::numbers_where;
use pep508_tree::Interner;
use reqtable_compare::{Relation, Same, SameError, related};
use reqtable_requirements::Requirements;
use std::alloc::Global;

/// Whether a lock covers requirements: under every valuation of markers, and so in every environment with any
/// extras, it requires each package that they require there, with at least their extras, and only points of
/// versions that all their specifiers hold. A package that only the lock requires makes no difference.
///
/// If it doesn't, the result has the first package that isn't covered, the marker of the first pair of its
/// cases that aren't, and the numbers of the requirements' lines that apply there. That marker holds under
/// some valuation, which need not match a real interpreter.
///
/// Both lists must have been read with this interner.
///
/// Costs what `same` does, but that two cases are compared by an intersection of their ranges and a union of
/// their extras; and once, for a package that isn't covered, one comparison of names for each of the
/// requirements' lines and one check whether two trees are disjoint for each of its lines.
///
/// # Errors
///
/// Those of `reqtable_compare::same`, the lock as the left list: `SameError::Line` for the first line that
/// can't be compared, even if it never applies: one with a URL, with `===`, with `<` or `>` and a
/// post-release, or whose range would need a number past 64 bits. `SameError::TooManyCases` for the first
/// package that has more cases than `limit` in one of the lists. `SameError::Memory` when memory runs out.
pub fn covers<'a>(
    alloc: Global,
    lock: &'a Requirements,
    requirements: &'a Requirements,
    interner: &mut Interner,
    limit: u64,
) -> Result<Covers, SameError>
    requires lock { AreOfNodes interner.old.nodes lock.now }
    requires requirements { AreOfNodes interner.old.nodes requirements.now }
    ensures covered { (vars : Variables) (said others : List LineRecord) →
        AllZip (StandsFor vars interner.old.nodes) lock.now said →
        AllZip (StandsFor vars interner.old.nodes) requirements.now others →
        FindsCovered limit None interner.new.nodes said others result }
    ensures keeps { Extends interner.old.nodes interner.new.nodes }
{
    found(alloc, lock, requirements, interner, limit, None)
}

/// Whether a lock covers requirements, as `covers` finds it, with no more than `in_all` cases built of
/// either list. Only the packages whose cases are built are counted, those of each list by themselves.
///
/// # Errors
///
/// Those of `reqtable_compare::same_within`, the lock as the left list.
pub fn covers_within<'a>(
    alloc: Global,
    lock: &'a Requirements,
    requirements: &'a Requirements,
    interner: &mut Interner,
    limit: u64,
    in_all: u64,
) -> Result<Covers, SameError>
    requires lock { AreOfNodes interner.old.nodes lock.now }
    requires requirements { AreOfNodes interner.old.nodes requirements.now }
    ensures covered { (vars : Variables) (said others : List LineRecord) →
        AllZip (StandsFor vars interner.old.nodes) lock.now said →
        AllZip (StandsFor vars interner.old.nodes) requirements.now others →
        FindsCovered limit (Some in_all) interner.new.nodes said others result }
    ensures keeps { Extends interner.old.nodes interner.new.nodes }
{
    found(alloc, lock, requirements, interner, limit, Some(in_all))
}

/// Whether a lock covers requirements, with or without a bound on all cases.
fn found(
    alloc: Global,
    lock: &Requirements,
    requirements: &Requirements,
    interner: &mut Interner,
    limit: u64,
    in_all: Option<u64>,
) -> Result<Covers, SameError>
    requires lock { AreOfNodes interner.old.nodes lock.now }
    requires requirements { AreOfNodes interner.old.nodes requirements.now }
    ensures covered { (vars : Variables) (said others : List LineRecord) →
        AllZip (StandsFor vars interner.old.nodes) lock.now said →
        AllZip (StandsFor vars interner.old.nodes) requirements.now others →
        FindsCovered limit in_all interner.new.nodes said others result }
    ensures keeps { Extends interner.old.nodes interner.new.nodes }
{
    let relation = Relation::Covering;
    match related(alloc, relation, lock, requirements, interner, limit, in_all) {
        Ok(Same::Yes) => Ok(Covers::Yes),
        Ok(Same::No { package, tree }) => {
            let lines = numbers_where(alloc, requirements.lines(), &package, tree, interner)?;
            Ok(Covers::No {
                package,
                tree,
                lines,
            })
        }
        Err(error) => Err(error),
    }
}
