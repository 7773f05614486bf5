//! The specifiers that no range decides, without those that others of them imply.
//!
//! At most four `<` and `>` are left (`ends.rt`), and at most two `===` (`exact.rt`), whatever the list is.
//! Specifiers without a range, whose numbers end at 2^64 - 1, stay as they are.

ghost use Rattle.std.specs.Prelude.{[], ◌∷◌, ◌++◌, List, IfOk, OnOk};
ghost use Rattle.pep440_specifier.specs.Matching.{SpecifierRecord};
ghost use Rattle.reqtable_range.specs.Sorting.{StandFor};
ghost use Rattle.reqtable_range.specs.Together.{lent};

use crate::ends::{add_end, is_end};
use crate::exact::{add_exact, is_exact};
use pep440_specifier::VersionSpecifier;
use std::alloc::{AllocError, Global};

/// Specifiers, the `<` and `>` of them and the `===` apart.
#[derive(Drop)]
pub(crate) struct Parted<'a> {
    others: Vec<&'a VersionSpecifier>,
    ends: Vec<&'a VersionSpecifier>,
    exact: Vec<&'a VersionSpecifier>,
}

/// The specifiers without each `<`, `>` and `===` that others of them imply.
///
/// Needs O(n) comparisons of versions and prints of them for n specifiers, and memory for references to those
/// that are left and for two prints.
///
/// # Errors
///
/// `AllocError` when memory runs out.
pub(crate) fn without_implied<'a>(
    alloc: Global,
    members: &[&'a VersionSpecifier],
) -> Result<Vec<&'a VersionSpecifier>, AllocError>
    ensures { IfOk result (λ left. StandFor (lent members.now) (lent left.items)) }
{
    let mut parted = Parted {
        others: Vec::new(alloc),
        ends: Vec::new(alloc),
        exact: Vec::new(alloc),
    };
    for member in members {
        add(alloc, &mut parted, *member)?;
    }
    let Parted {
        mut others,
        mut ends,
        mut exact,
    } = parted;
    others.append(&mut ends)?;
    others.append(&mut exact)?;
    Ok(others)
}

fn add<'a>(
    alloc: Global,
    parted: &mut Parted<'a>,
    member: &'a VersionSpecifier,
) -> Result<(), AllocError>
    ensures { OnOk result ((before : List SpecifierRecord) → StandFor before
        ((lent parted.old.others.items ++ lent parted.old.ends.items) ++ lent parted.old.exact.items) →
        StandFor (before ++ member.now ∷ [])
        ((lent parted.new.others.items ++ lent parted.new.ends.items) ++ lent parted.new.exact.items)) }
{
    if is_end(member) {
        return add_end(alloc, &mut parted.ends, member);
    }
    if is_exact(member) {
        return add_exact(alloc, &mut parted.exact, member);
    }
    parted.others.push(member)?;
    Ok(())
}
