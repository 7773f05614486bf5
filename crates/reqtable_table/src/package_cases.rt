//! The cases of a package's lines.

ghost use Rattle.std.specs.Prelude.{◌≡◌, map, IfOk};
ghost use Rattle.std.specs.List.{AllZip};
ghost use Rattle.pep508_cases.specs.Seen.{case_seen, cases_seen};
ghost use Rattle.reqtable_table.specs.Casing.{is_naming, case_record, IsCaseBy, IsCaseOfGiven};

use crate::table::Case;
use pep508_cases::{TreeCase, TreeSet};
use pep508_tree::MarkerTree;
use reqtable_groups::Given;
use std::alloc::{AllocError, Global};
use std::rc::Rc;

/// The marker of each line.
pub(crate) fn markers(alloc: Global, lines: &[Given]) -> Result<Vec<MarkerTree>, AllocError>
    ensures { IfOk result (λ markers. markers.items ≡ map (λ line. line.marker) lines.now) }
{
    let mut markers = Vec::with_capacity(alloc, lines.len())?;
    for line in lines {
        markers.push(line.marker)?;
    }
    Ok(markers)
}

/// The case of each set of the lines. Linear in the lines, and for each set in its runs and in those of the
/// lines that name a pre-release.
pub(crate) fn cases_of(
    alloc: Global,
    lines: &[Given],
    sets: &[TreeCase],
) -> Result<Vec<Case>, AllocError>
    ensures { IfOk result (λ cases.
        AllZip (IsCaseOfGiven lines.now) (map case_record cases.items) (cases_seen sets.now)) }
{
    let numbers = Rc::new(alloc, numbers(alloc, lines)?)?;
    let naming = naming_lines(alloc, lines)?;
    let mut cases = Vec::with_capacity(alloc, sets.len())?;
    for set in sets {
        cases.push(case_of(alloc, &numbers, &naming, set)?)?;
    }
    Ok(cases)
}

/// The case of a set of lines with these numbers, of which some name a pre-release.
fn case_of(
    alloc: Global,
    numbers: &Rc<Vec<usize>>,
    naming: &TreeSet,
    set: &TreeCase,
) -> Result<Case, AllocError>
    ensures { IfOk result (λ case.
        IsCaseBy numbers.now.value.items naming.now (case_record case) (case_seen set.now)) }
{
    Ok(Case {
        set: set.set.try_clone(alloc)?,
        numbers: numbers.clone()?,
        tree: set.tree,
        pre: set.set.meets(naming),
    })
}

fn numbers(alloc: Global, lines: &[Given]) -> Result<Vec<usize>, AllocError>
    ensures { IfOk result (λ numbers. numbers.items ≡ map (λ line. line.number) lines.now) }
{
    let mut numbers = Vec::with_capacity(alloc, lines.len())?;
    for line in lines {
        numbers.push(line.number)?;
    }
    Ok(numbers)
}

/// The lines of which a specifier names a pre-release or developmental release.
fn naming_lines(alloc: Global, lines: &[Given]) -> Result<TreeSet, AllocError>
    ensures { IfOk result (λ naming. naming ≡ map is_naming lines.now) }
{
    let mut marks = Vec::with_capacity(alloc, lines.len())?;
    for line in lines {
        marks.push(!line.is_url && line.specifiers.any_prerelease())?;
    }
    let mut naming = TreeSet::new(alloc);
    naming.mark(&marks)?;
    Ok(naming)
}
