//! The lines of a package, as a table keeps them.

ghost use Rattle.std.specs.Prelude.{◌≡◌, map, IfOk};
ghost use Rattle.reqtable_table.specs.KeptLines.{kept_by, line_record};

use pep440_specifier_list::CountedSpecifiers;
use pep508_name::ExtraName;
use pep508_tree::MarkerTree;
use reqtable_groups::Given;
use reqtable_marker_cache::Slots;
use reqtable_search::undecided::has_bound;
use std::alloc::{AllocError, Global};

/// A line of a package.
#[derive(Drop)]
pub(crate) struct TableLine {
    pub(crate) number: usize,
    pub(crate) extras: Vec<ExtraName>,
    pub(crate) marker: MarkerTree,
    /// The marker's number in `Slots`.
    pub(crate) slot: usize,
    pub(crate) is_url: bool,
    /// Whether a specifier has `<` or `>`.
    pub(crate) is_bounded: bool,
    pub(crate) specifiers: CountedSpecifiers,
}

/// The lines as the table keeps them, with no specifier tested so far.
pub(crate) fn kept_lines(
    alloc: Global,
    lines: Vec<Given>,
    slots: &mut Slots,
) -> Result<Vec<TableLine>, AllocError>
    ensures { IfOk result (λ kept. map line_record kept.items ≡ map kept_by lines.items) }
{
    let mut kept = Vec::with_capacity(alloc, lines.len())?;
    for line in lines {
        kept.push(kept_line(slots.slot_of(line.marker)?, line))?;
    }
    Ok(kept)
}

fn kept_line(slot: usize, line: Given) -> TableLine
    ensures { line_record result ≡ kept_by line }
{
    let Given {
        number,
        extras,
        marker,
        is_url,
        specifiers,
    } = line;
    let is_bounded = has_bound(specifiers.as_slice());
    TableLine {
        number,
        extras,
        marker,
        slot,
        is_url,
        is_bounded,
        specifiers: CountedSpecifiers::new(specifiers),
    }
}
