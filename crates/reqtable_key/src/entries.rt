//! What the cases of packages require, and where, and both by the bytes of what that is.

ghost use Rattle.std.specs.Prelude.{◌≡◌, ◌||◌, ◌++◌, ◌∷◌, [], ℕ, List, map, IfOk, OnOk};
ghost use Rattle.std.specs.List.{list_any};
ghost use Rattle.std.specs.List.Sorted.{IsStrictlySortedBy};
ghost use Rattle.std.specs.Ordering.{nat_cmp};
ghost use Rattle.reqtable_answer.specs.Groups.{has_group};
ghost use Rattle.reqtable_compare.specs.Differences.{listed};
ghost use Rattle.reqtable_compare.specs.Seen.{summary_record};
ghost use Rattle.reqtable_key.specs.Entries.{AppendsOwn, AreOfPackages, HasNormal, entry_seen, is_under};
ghost use Rattle.reqtable_key.specs.Entries.{own_entries, trees_at, trees_under};

use crate::heads::head_bytes;
use pep508_name::PackageName;
use pep508_tree::MarkerTree;
use reqtable_compare::lent::{Summary, summaries};
use reqtable_requirements::Line;
use reqtable_table::Table;
use std::alloc::{AllocError, Global};
use std::collections::BTreeMap;

/// What a case requires, as bytes, and the tree that holds exactly where the case applies.
#[derive(Drop)]
pub(crate) struct Entry {
    pub(crate) head: Vec<u8>,
    pub(crate) tree: MarkerTree,
}

/// The trees of entries by their bytes.
pub(crate) type Groups<'a> = BTreeMap<&'a [u8], Vec<MarkerTree>>;

/// The entries of the cases of some packages of a table. The time is that of `summaries` for each package.
pub(crate) fn entries_of(
    alloc: Global,
    lines: &[Line],
    table: &Table,
    names: &[&PackageName],
) -> Result<Vec<Entry>, AllocError>
    requires rising { IsStrictlySortedBy nat_cmp (map (λ line. line.number) lines.now) }
    ensures { IfOk result (λ entries. AreOfPackages (listed lines.now table.now)
        (map (λ name. name.now) names.now) (map entry_seen entries.items)) }
{
    let mut entries = Vec::new(alloc);
    for name in names {
        push_package(alloc, &mut entries, lines, table, name)?;
    }
    Ok(entries)
}

/// Appends the entries of the cases of a package.
fn push_package(
    alloc: Global,
    entries: &mut Vec<Entry>,
    lines: &[Line],
    table: &Table,
    name: &PackageName,
) -> Result<(), AllocError>
    requires rising { IsStrictlySortedBy nat_cmp (map (λ line. line.number) lines.now) }
    ensures { OnOk result (AppendsOwn (listed lines.now table.now) name.now
        (map entry_seen entries.old.items) (map entry_seen entries.new.items)) }
{
    let cases = summaries(alloc, lines, table, name)?;
    for case in &cases {
        push_case(alloc, entries, name, case)?;
    }
    Ok(())
}

/// Appends the entry of a case, if it has lines.
fn push_case(
    alloc: Global,
    entries: &mut Vec<Entry>,
    name: &PackageName,
    case: &Summary,
) -> Result<(), AllocError>
    ensures entries { OnOk result (map entry_seen entries.new.items
        ≡ map entry_seen entries.old.items ++ own_entries name.now (summary_record case.now)) }
    ensures normal { OnOk result (HasNormal (summary_record case.now)) }
{
    if !case.has_lines {
        return Ok(());
    }
    let Some(range) = &case.range else {
        return Ok(());
    };
    let head = head_bytes(alloc, name, &case.extras, range, case.prerelease)?;
    let tree = case.tree;
    entries.push(Entry { head, tree })?;
    Ok(())
}

/// The trees of entries by their bytes. n entries need O(n log n) comparisons of bytes.
pub(crate) fn grouped<'a>(alloc: Global, entries: &'a [Entry]) -> Result<Groups<'a>, AllocError>
    ensures trees { IfOk result (λ groups. (q : List ℕ) →
        trees_at groups q ≡ trees_under q (map entry_seen entries.now)) }
    ensures heads { IfOk result (λ groups. (q : List ℕ) →
        has_group groups q ≡ list_any (is_under q) (map entry_seen entries.now)) }
{
    let mut groups: Groups<'a> = BTreeMap::new(alloc);
    for entry in entries {
        add(alloc, &mut groups, entry)?;
    }
    Ok(groups)
}

/// Adds a tree at the end of those under its bytes.
fn add<'a>(alloc: Global, groups: &mut Groups<'a>, entry: &'a Entry) -> Result<(), AllocError>
    ensures trees { OnOk result ((q : List ℕ) →
        trees_at groups.new q ≡ trees_at groups.old q ++ trees_under q (entry_seen entry.now ∷ [])) }
    ensures heads { OnOk result ((q : List ℕ) →
        has_group groups.new q ≡ (has_group groups.old q || is_under q (entry_seen entry.now))) }
{
    match groups.get_mut(entry.head.as_slice()) {
        Some(trees) => {
            trees.push(entry.tree)?;
        }
        None => {
            let mut trees = Vec::new(alloc);
            trees.push(entry.tree)?;
            groups.insert(entry.head.as_slice(), trees)?;
        }
    }
    Ok(())
}
