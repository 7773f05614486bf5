//! The packages that lists name.

ghost use Rattle.std.specs.Prelude.{◌≡◌, ◌++◌, ℕ, List, map, IfOk, OnOk};
ghost use Rattle.std.specs.List.{list_any, flat_map};
ghost use Rattle.std.specs.List.Sorted.{IsStrictlySortedBy};
ghost use Rattle.std.specs.Ordering.{nat_cmp};
ghost use Rattle.std.specs.Cmp.Lexicographic.{slice_cmp};
ghost use Rattle.std.specs.Str.{bytes_eq};
ghost use Rattle.reqtable_table.specs.Given.{names_of, is_under};

use pep508_name::PackageName;
use reqtable_requirements::Line;
use std::alloc::{AllocError, Global};

/// The names of the packages that the lines of any list require, each once and in the order of their bytes.
///
/// n lines need O(n log n) comparisons of names, and memory for n references.
///
/// # Errors
///
/// `AllocError` when memory runs out.
pub fn package_names<'a>(
    alloc: Global,
    lists: &[&'a [Line]],
) -> Result<Vec<&'a PackageName>, AllocError>
    ensures rise { IfOk result (λ names.
        IsStrictlySortedBy (slice_cmp nat_cmp) (map (λ name. name.now) names.items)) }
    ensures are { IfOk result (λ names. (name : List ℕ) →
        list_any (bytes_eq name) (map (λ n. n.now) names.items)
        ≡ list_any (λ list. list_any (is_under name) list.now) lists.now) }
{
    let mut names = lent_names(alloc, lists)?;
    names.sort_unstable();
    names.dedup();
    Ok(names)
}

/// References to the names of all lines, list by list.
fn lent_names<'a>(alloc: Global, lists: &[&'a [Line]]) -> Result<Vec<&'a PackageName>, AllocError>
    ensures { IfOk result (λ names.
        map (λ name. name.now) names.items ≡ flat_map (λ list. names_of list.now) lists.now) }
{
    let mut names = Vec::new(alloc);
    for list in lists {
        lend(&mut names, list)?;
    }
    Ok(names)
}

fn lend<'a>(names: &mut Vec<&'a PackageName>, lines: &'a [Line]) -> Result<(), AllocError>
    ensures { OnOk result
        (map (λ name. name.now) names.new.items
        ≡ map (λ name. name.now) names.old.items ++ names_of lines.now) }
{
    for line in lines {
        names.push(&line.requirement.name)?;
    }
    Ok(())
}
