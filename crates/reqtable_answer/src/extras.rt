//! The extras that are required of a package.

ghost use Rattle.std.specs.Prelude.{◌≡◌, ℕ, List, ◌++◌, map, IfOk, OnOk};
ghost use Rattle.std.specs.List.{list_any, flat_map};
ghost use Rattle.std.specs.List.Sorted.{IsStrictlySortedBy};
ghost use Rattle.std.specs.Ordering.{nat_cmp};
ghost use Rattle.std.specs.Cmp.Lexicographic.{slice_cmp};
ghost use Rattle.std.specs.Str.{bytes_eq};
ghost use Rattle.reqtable_answer.specs.Asks.{has_extra};
ghost use Rattle.reqtable_answer.specs.Says.{asks_seen};

use crate::ask::Ask;
use pep508_name::ExtraName;
use std::alloc::{AllocError, Global};

/// The extras that any of these requirements names, each once and in the order of their bytes.
///
/// With n extras, repetitions included, that are O(n log n) comparisons of names.
///
/// # Errors
///
/// `AllocError` when memory runs out.
pub fn extras_of(alloc: Global, asks: &[Ask<'_>]) -> Result<Vec<ExtraName>, AllocError>
    ensures rise { IfOk result (λ extras. IsStrictlySortedBy (slice_cmp nat_cmp) extras.items) }
    ensures are { IfOk result (λ extras. (extra : List ℕ) →
        list_any (bytes_eq extra) extras.items ≡ list_any (has_extra extra) (asks_seen asks.now)) }
{
    let lists = lists_of(alloc, asks)?;
    united_extras(alloc, &lists)
}

/// The list of extras of each requirement.
fn lists_of<'a>(alloc: Global, asks: &[Ask<'a>]) -> Result<Vec<&'a [ExtraName]>, AllocError>
    ensures { IfOk result (λ lists.
        map (λ list. list.now) lists.items ≡ map (λ ask. ask.extras) (asks_seen asks.now)) }
{
    let mut lists = Vec::with_capacity(alloc, asks.len())?;
    for ask in asks {
        lists.push(ask.extras)?;
    }
    Ok(lists)
}

/// The extras in any of these lists, each once and in the order of their bytes.
///
/// With n extras, repetitions included, that are O(n log n) comparisons of names, and memory for n references
/// in addition to the copies that are returned.
///
/// # Errors
///
/// `AllocError` when memory runs out.
pub fn united_extras(alloc: Global, lists: &[&[ExtraName]]) -> Result<Vec<ExtraName>, AllocError>
    ensures rise { IfOk result (λ extras. IsStrictlySortedBy (slice_cmp nat_cmp) extras.items) }
    ensures are { IfOk result (λ extras. (extra : List ℕ) →
        list_any (bytes_eq extra) extras.items
        ≡ list_any (λ list. list_any (bytes_eq extra) list.now) lists.now) }
{
    let mut lent = lent_extras(alloc, lists)?;
    lent.sort_unstable();
    lent.dedup();
    copies(alloc, &lent)
}

/// References to all extras, list by list.
fn lent_extras<'a>(
    alloc: Global,
    lists: &[&'a [ExtraName]],
) -> Result<Vec<&'a ExtraName>, AllocError>
    ensures { IfOk result (λ lent.
        map (λ extra. extra.now) lent.items ≡ flat_map (λ list. list.now) lists.now) }
{
    let mut lent = Vec::new(alloc);
    for list in lists {
        lend(&mut lent, list)?;
    }
    Ok(lent)
}

fn lend<'a>(lent: &mut Vec<&'a ExtraName>, extras: &'a [ExtraName]) -> Result<(), AllocError>
    ensures { OnOk result
        (map (λ extra. extra.now) lent.new.items ≡ map (λ extra. extra.now) lent.old.items ++ extras.now) }
{
    for extra in extras {
        lent.push(extra)?;
    }
    Ok(())
}

fn copies(alloc: Global, names: &[&ExtraName]) -> Result<Vec<ExtraName>, AllocError>
    ensures { IfOk result (λ copies. copies.items ≡ map (λ name. name.now) names.now) }
{
    let mut copies = Vec::with_capacity(alloc, names.len())?;
    for name in names {
        copies.push(name.try_clone(alloc)?)?;
    }
    Ok(copies)
}
