//! The packages whose lines may contradict each other.
//!
//! Lines that all have some point in common conflict nowhere, so no case of theirs is made, where their
//! number excludes too many cases (`has_room`). Most packages of a list have one line.

ghost use Rattle.std.specs.Prelude.{◌≡◌, ◌++◌, ℕ, false, true, List, map, flat_map, IfOk, OnOk, IsTrue};
ghost use Rattle.std.specs.List.{list_any};
ghost use Rattle.std.specs.List.Sorted.{IsStrictlySortedBy};
ghost use Rattle.std.specs.Ordering.{nat_cmp};
ghost use Rattle.std.specs.Cmp.Lexicographic.{slice_cmp};
ghost use Rattle.std.specs.Str.{bytes_eq};
ghost use Rattle.reqtable_range.specs.Together as together;
ghost use Rattle.reqtable_requirements.specs.LineSpecifiers.{specifiers_in};
ghost use Rattle.reqtable_conflicts.specs.Agreeing.{Agree, AreDoubtful, Meet};
ghost use Rattle.reqtable_packages.specs.Packages.{lines_at, lent};

use crate::contradicting::holds_nothing;
use pep440_specifier::VersionSpecifier;
use pep508_name::PackageName;
use pep508_requirement::VersionOrUrl;
use reqtable_cases::asked_range;
use reqtable_packages::{Groups, by_package, has_room, package_names};
use reqtable_requirements::Line;
use std::alloc::{AllocError, Global};

/// The names of the packages whose lines may contradict each other, each once and in the order of their
/// bytes. All lines of any other package have some point in common, and so do any of them; and they are so
/// few that the number of their subsets is within the limit.
///
/// n lines need O(n log n) comparisons of names. The range of a package's m specifiers needs O(m log m)
/// comparisons of versions, and isn't built if its n lines could have more cases than the limit.
pub(crate) fn doubtful_packages<'a>(
    alloc: Global,
    lines: &'a [Line],
    limit: u64,
) -> Result<Vec<&'a PackageName>, AllocError>
    ensures { IfOk result (λ names. AreDoubtful limit lines.now (map (λ name. name.now) names.items)) }
{
    let names = package_names(alloc, &[lines])?;
    let groups = by_package(alloc, lines)?;
    doubtful_among(alloc, &names, &groups, limit)
}

/// The names, of those given, of packages whose lines aren't known to agree.
fn doubtful_among<'a>(
    alloc: Global,
    names: &[&'a PackageName],
    groups: &Groups<'a>,
    limit: u64,
) -> Result<Vec<&'a PackageName>, AllocError>
    requires { IsStrictlySortedBy (slice_cmp nat_cmp) (map (λ name. name.now) names.now) }
    ensures rising { IfOk result (λ doubtful.
        IsStrictlySortedBy (slice_cmp nat_cmp) (map (λ name. name.now) doubtful.items)) }
    ensures others { IfOk result (λ doubtful. (q : List ℕ) →
        list_any (bytes_eq q) (map (λ name. name.now) names.now) ≡ true →
        list_any (bytes_eq q) (map (λ name. name.now) doubtful.items) ≡ false →
        Agree limit (lines_at groups.now q)) }
{
    let mut doubtful = Vec::new(alloc);
    for name in names {
        let agree = are_known_to_agree(alloc, groups, name, limit)?;
        if !agree {
            doubtful.push(*name)?;
        }
    }
    Ok(doubtful)
}

/// Whether the lines of a package are known to agree.
fn are_known_to_agree(
    alloc: Global,
    groups: &Groups<'_>,
    name: &PackageName,
    limit: u64,
) -> Result<bool, AllocError>
    ensures { IfOk result (λ agree. IsTrue agree → Agree limit (lines_at groups.now name.now)) }
{
    match groups.get(name.as_str()) {
        Some(lines) => agree(alloc, lines, limit),
        None => Ok(false),
    }
}

/// Whether the lines of a package agree, and are so few that the number of their subsets is within the limit.
fn agree(alloc: Global, lines: &[&Line], limit: u64) -> Result<bool, AllocError>
    ensures { IfOk result (λ agree. IsTrue agree → Agree limit (lent lines.now)) }
{
    if !has_room(limit, lines.len()) {
        return Ok(false);
    }
    meet(alloc, lines)
}

/// Whether some point is in the ranges of all specifiers of the lines. `false` too if one of their specifiers
/// has no range that decides it.
fn meet(alloc: Global, lines: &[&Line]) -> Result<bool, AllocError>
    ensures { IfOk result (λ meet. IsTrue meet → Meet (lent lines.now)) }
{
    let members = members_of(alloc, lines)?;
    match asked_range(alloc, &members)? {
        Some(range) => Ok(!holds_nothing(&range)),
        None => Ok(false),
    }
}

/// References to the specifiers of all these lines.
fn members_of<'a>(
    alloc: Global,
    lines: &[&'a Line],
) -> Result<Vec<&'a VersionSpecifier>, AllocError>
    ensures { IfOk result (λ members. together.lent members.items ≡ flat_map specifiers_in (lent lines.now)) }
{
    let mut members = Vec::new(alloc);
    for line in lines {
        lend(&mut members, specifiers_of(line))?;
    }
    Ok(members)
}

/// The specifiers of a line; none if it accepts any version or requires a URL.
fn specifiers_of<'a>(line: &'a Line) -> &'a [VersionSpecifier]
    ensures { result.now ≡ specifiers_in line.now }
{
    match &line.requirement.version_or_url {
        Some(VersionOrUrl::VersionSpecifier(list)) => list.as_slice(),
        Some(VersionOrUrl::Url(_)) => &[],
        None => &[],
    }
}

fn lend<'a>(
    members: &mut Vec<&'a VersionSpecifier>,
    more: &'a [VersionSpecifier],
) -> Result<(), AllocError>
    ensures { OnOk result (together.lent members.new.items ≡ together.lent members.old.items ++ more.now) }
{
    for member in more {
        members.push(member)?;
    }
    Ok(())
}
