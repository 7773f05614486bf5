//! The key of a list.

ghost use Rattle.std.specs.Prelude.{List};
ghost use Rattle.std.specs.List.{AllZip};
ghost use Rattle.pep508_tree.specs.Meaning.{Extends};
ghost use Rattle.pep508_url.specs.Vars.{Variables};
ghost use Rattle.reqtable_requirements.specs.Asks.{AreOfNodes};
ghost use Rattle.reqtable_requirements.specs.LineReading.{LineRecord};
ghost use Rattle.reqtable_requirements.specs.Requirements.{StandsFor};
ghost use Rattle.reqtable_key.specs.Entries.{key_seen};
ghost use Rattle.reqtable_key.specs.Keys.{Keys};

use crate::entries::{entries_of, grouped};
use crate::regions::written;
use pep508_tree::Interner;
use reqtable_compare::lent::{Bounds, first_refusal, side_table};
use reqtable_compare::{SameError, Side};
use reqtable_packages::package_names;
use reqtable_requirements::Requirements;
use std::alloc::Global;

/// The key of what a list requires: bytes that are the same for two lists exactly where `same` says yes of
/// them, whatever interners they were read with (`laws::one_key_of_lists`). So an answer that rests on a list
/// alone can be kept under its key. The bytes mean nothing else, and may be longer than the list.
///
/// For each thing that is required of a package somewhere, its extras, versions and pre-releases, the key has
/// that and the key of the marker of where (`MarkerTreeKey::key`).
///
/// Costs what the table of the list does (`Table::build`, from a copy of its lines), for each case what `same`
/// needs to find what it requires, O(n log n) comparisons for n cases of all packages, and the union of the
/// trees of cases that require one thing, by halves.
///
/// The list must have been read with this interner.
///
/// # Errors
///
/// Those of `same`, or with `in_all` of `same_within`, of this list on the left.
pub fn key<'a>(
    alloc: Global,
    requirements: &'a Requirements,
    interner: &mut Interner,
    limit: u64,
    in_all: Option<u64>,
) -> Result<Vec<u8>, SameError>
    requires { AreOfNodes interner.old.nodes requirements.now }
    ensures key { (vars : Variables) (said : List LineRecord) →
        AllZip (StandsFor vars interner.old.nodes) requirements.now said →
        Keys limit in_all said (key_seen result) }
    ensures keeps { Extends interner.old.nodes interner.new.nodes }
{
    if let Some(refused) = first_refusal(alloc, requirements.lines(), &[])? {
        return Err(SameError::Line {
            side: refused.side,
            number: refused.number,
            cause: refused.cause,
        });
    }
    requirements.are_read();
    let lines = requirements.lines();
    let names = package_names(alloc, &[lines])?;
    let bounds = Bounds { limit, in_all };
    let table = side_table(alloc, Side::Left, requirements, &names, interner, bounds)?;
    let entries = entries_of(alloc, lines, &table, &names)?;
    let groups = grouped(alloc, &entries)?;
    let key = written(alloc, interner, &groups)?;
    Ok(key)
}
