//! The specifiers of many lists, by which versions their ranges decide.
//!
//! The range of the simple specifiers is asked of each candidate without its local part, that of the local
//! ones, `==` and `!=` with a local part, of each candidate as it is. Single ones are asked one by one:
//! `===`, a `<` of a post-release, a `>` of anything but a final release, and a specifier that needs a number
//! past 64 bits. Of the single `<`, `>` and `===` at most six are left (`single.rt`). So 160,000 specifiers
//! with as many candidates take n log n comparisons. What stays specifiers times candidates: numbers past 64
//! bits, where they are many.

ghost use Rattle.std.specs.Prelude.{◌≡◌, [], ◌∷◌, ◌++◌, List, map, IfOk, OnOk};
ghost use Rattle.std.specs.Option.{is_some};
ghost use Rattle.pep440_specifier.specs.Matching.{SpecifierRecord};
ghost use Rattle.pep440_range.specs.Ranges.{range_of};
ghost use Rattle.reqtable_range.specs.Sorting.{IsOfKind, SortsInto};
ghost use Rattle.reqtable_range.specs.Together.{members_of};

use crate::simple::{is_local, is_simple};
use pep440_range::{RangeError, specifier_to_range};
use pep440_specifier::{Operator, VersionSpecifier};
use pep440_specifier_list::VersionSpecifiers;
use std::alloc::{AllocError, Global};

/// The versions for which a specifier's range decides whether it accepts them.
#[derive(Clone, Copy)]
pub(crate) enum Kind {
    /// All versions that can be written, tested without their local part.
    Simple,
    /// All versions that can be written, tested as they are: of a `==` or `!=` with a local part.
    Local,
    /// None, or some alone: of a `===`, a `<` of a post-release, a `>` of anything but a final release, or a
    /// specifier without a range.
    Single,
}

/// Specifiers by their kinds.
#[derive(Drop)]
pub(crate) struct Sorted<'a> {
    pub(crate) simple: Vec<&'a VersionSpecifier>,
    pub(crate) local: Vec<&'a VersionSpecifier>,
    pub(crate) single: Vec<&'a VersionSpecifier>,
}

/// The specifiers of all lists, by their kinds.
pub(crate) fn sorted_members<'a>(
    alloc: Global,
    lists: &[&'a VersionSpecifiers],
) -> Result<Sorted<'a>, AllocError>
    ensures { IfOk result (SortsInto (members_of (map (λ list. list.now) lists.now))) }
{
    let mut sorted = Sorted {
        simple: Vec::new(alloc),
        local: Vec::new(alloc),
        single: Vec::new(alloc),
    };
    for list in lists {
        add_all(alloc, &mut sorted, list.as_slice())?;
    }
    Ok(sorted)
}

fn add_all<'a>(
    alloc: Global,
    sorted: &mut Sorted<'a>,
    members: &'a [VersionSpecifier],
) -> Result<(), AllocError>
    ensures { OnOk result ((before : List SpecifierRecord) →
        SortsInto before sorted.old → SortsInto (before ++ members.now) sorted.new) }
{
    for member in members {
        add(alloc, sorted, member)?;
    }
    Ok(())
}

fn add<'a>(
    alloc: Global,
    sorted: &mut Sorted<'a>,
    member: &'a VersionSpecifier,
) -> Result<(), AllocError>
    ensures { OnOk result ((before : List SpecifierRecord) →
        SortsInto before sorted.old → SortsInto (before ++ member.now ∷ []) sorted.new) }
{
    match kind_of(alloc, member)? {
        Kind::Simple => {
            sorted.simple.push(member)?;
            Ok(())
        }
        Kind::Local => {
            sorted.local.push(member)?;
            Ok(())
        }
        Kind::Single => {
            sorted.single.push(member)?;
            Ok(())
        }
    }
}

fn kind_of(alloc: Global, member: &VersionSpecifier) -> Result<Kind, AllocError>
    ensures { IfOk result (λ kind. IsOfKind kind member.now) }
{
    if is_local(member) {
        return Ok(Kind::Local);
    }
    if !is_simple(member) {
        return Ok(Kind::Single);
    }
    let there = has_range(alloc, member)?;
    if there {
        Ok(Kind::Simple)
    } else {
        Ok(Kind::Single)
    }
}

/// Whether the specifier has a range. Builds the range to find out only if a number of it would be raised.
///
/// # Errors
///
/// `AllocError` when memory runs out.
pub fn has_range(alloc: Global, member: &VersionSpecifier) -> Result<bool, AllocError>
    ensures { IfOk result (λ there. there ≡ is_some (range_of member.now)) }
{
    match member.operator() {
        Operator::Equal
        | Operator::ExactEqual
        | Operator::NotEqual
        | Operator::LessThan
        | Operator::LessThanEqual
        | Operator::GreaterThanEqual => Ok(true),
        Operator::EqualStar
        | Operator::NotEqualStar
        | Operator::TildeEqual
        | Operator::GreaterThan => makes_range(alloc, member),
    }
}

fn makes_range(alloc: Global, member: &VersionSpecifier) -> Result<bool, AllocError>
    ensures { IfOk result (λ there. there ≡ is_some (range_of member.now)) }
{
    match specifier_to_range(alloc, member) {
        Ok(_) => Ok(true),
        Err(RangeError::NumberAtEnd) => Ok(false),
        Err(RangeError::Memory) => Err(AllocError),
    }
}
