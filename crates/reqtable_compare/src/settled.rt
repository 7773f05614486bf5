//! The packages that need no comparison of cases, since their lines are equal in both lists.
//!
//! A package of which both lists have equal lines requires the same under every valuation, so none of its
//! cases is made and none of its lines copied. It may still have too many cases, which refuses the lists,
//! so lines settle it only where their number `n` excludes that, by 2^n (`has_room`).

ghost use Rattle.std.specs.Prelude.{◌≡◌, ◌||◌, ℕ, false, true, List, map, IfOk, IsTrue};
ghost use Rattle.std.specs.List.{list_any};
ghost use Rattle.std.specs.List.Sorted.{IsStrictlySortedBy};
ghost use Rattle.std.specs.Ordering.{nat_cmp};
ghost use Rattle.std.specs.Cmp.Lexicographic.{slice_cmp};
ghost use Rattle.std.specs.Str.{bytes_eq};
ghost use Rattle.reqtable_table.specs.Given.{is_under};
ghost use Rattle.reqtable_packages.specs.Packages.{lines_at, lent};
ghost use Rattle.reqtable_compare.specs.Settled.{AreOpen, AreSettled};

use crate::equal_lines::are_said;
use pep508_name::PackageName;
use reqtable_packages::{Groups, by_package, has_room, package_names};
use reqtable_requirements::Line;
use std::alloc::{AllocError, Global};

/// The names of the packages that have to be compared by their cases, each once and in the order of their
/// bytes. The others are settled: both lists have equal lines of them, and so few that the number of all
/// their subsets is within the limit.
///
/// n lines need O(n log n) comparisons of names. Of a package with k and m lines at most 2 * k * m pairs of
/// lines are compared, and none if 2^k or 2^m is more than the limit.
pub(crate) fn open_packages<'a>(
    alloc: Global,
    left: &'a [Line],
    right: &'a [Line],
    limit: u64,
) -> Result<Vec<&'a PackageName>, AllocError>
    ensures { IfOk result (λ names. AreOpen limit left.now right.now (map (λ name. name.now) names.items)) }
{
    let names = names_of(alloc, left, right)?;
    let ours = by_package(alloc, left)?;
    let theirs = by_package(alloc, right)?;
    open_among(alloc, &names, &ours, &theirs, limit)
}

/// The names of the packages in either list, each once and in the order of their bytes.
fn names_of<'a>(
    alloc: Global,
    left: &'a [Line],
    right: &'a [Line],
) -> Result<Vec<&'a PackageName>, AllocError>
    ensures rise { IfOk result (λ names.
        IsStrictlySortedBy (slice_cmp nat_cmp) (map (λ name. name.now) names.items)) }
    ensures are { IfOk result (λ names. (name : List ℕ) →
        list_any (bytes_eq name) (map (λ n. n.now) names.items)
        ≡ (list_any (is_under name) left.now || (list_any (is_under name) right.now || false))) }
{
    package_names(alloc, &[left, right])
}

/// The names, of those given, of packages whose lines aren't equal in both lists, or are too many.
fn open_among<'a>(
    alloc: Global,
    names: &[&'a PackageName],
    ours: &Groups<'a>,
    theirs: &Groups<'a>,
    limit: u64,
) -> Result<Vec<&'a PackageName>, AllocError>
    requires { IsStrictlySortedBy (slice_cmp nat_cmp) (map (λ name. name.now) names.now) }
    ensures rising { IfOk result (λ unsettled.
        IsStrictlySortedBy (slice_cmp nat_cmp) (map (λ name. name.now) unsettled.items)) }
    ensures settled { IfOk result (λ unsettled. (q : List ℕ) →
        list_any (bytes_eq q) (map (λ name. name.now) names.now) ≡ true →
        list_any (bytes_eq q) (map (λ name. name.now) unsettled.items) ≡ false →
        AreSettled limit (lines_at ours.now q) (lines_at theirs.now q)) }
{
    let mut unsettled = Vec::new(alloc);
    for name in names {
        if !is_settled(ours, theirs, name, limit) {
            unsettled.push(*name)?;
        }
    }
    Ok(unsettled)
}

/// Whether both lists have lines of a package, which are equal and few enough.
fn is_settled(ours: &Groups<'_>, theirs: &Groups<'_>, name: &PackageName, limit: u64) -> bool
    ensures { IsTrue result → AreSettled limit (lines_at ours.now name.now) (lines_at theirs.now name.now) }
{
    match ours.get(name.as_str()) {
        Some(one) => match theirs.get(name.as_str()) {
            Some(other) => are_settled(one, other, limit),
            None => false,
        },
        None => false,
    }
}

/// Whether the lines of a package are equal in both lists, and so few that the number of all their subsets is
/// within the limit.
fn are_settled(ours: &[&Line], theirs: &[&Line], limit: u64) -> bool
    ensures { IsTrue result → AreSettled limit (lent ours.now) (lent theirs.now) }
{
    if !has_room(limit, ours.len()) || !has_room(limit, theirs.len()) {
        return false;
    }
    are_said(ours, theirs) && are_said(theirs, ours)
}
