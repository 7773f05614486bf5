//! The lines of a package that apply where a tree holds.
//!
//! Where lists were compared the tree of a place holds exactly where two sets of lines apply, so each line
//! applies everywhere or nowhere where it holds: which ones do is read off the tree, and no case is looked
//! up.

ghost use Rattle.std.specs.Prelude.{◌≡◌, IfOk};
ghost use Rattle.pep508_tree.specs.Meaning.{IsTree};
ghost use Rattle.reqtable_requirements.specs.Asks.{AreOfNodes};
ghost use Rattle.reqtable_table.specs.Given.{is_under};
ghost use Rattle.reqtable_covers.specs.Applying.{AppliesWhere, AreNumbersWhere};

use pep508_disjointness::MarkerTreeDisjointness;
use pep508_name::PackageName;
use pep508_tree::{Interner, MarkerTree};
use reqtable_requirements::Line;
use std::alloc::{AllocError, Global};

/// The numbers of a package's lines that apply where a tree holds, if each line of the package applies
/// everywhere or nowhere there. n lines need n comparisons of names, and one check whether two trees are
/// disjoint for each line of the package.
pub(crate) fn numbers_where(
    alloc: Global,
    lines: &[Line],
    name: &PackageName,
    tree: MarkerTree,
    interner: &Interner,
) -> Result<Vec<usize>, AllocError>
    requires made { IsTree interner.now.nodes tree }
    requires markers { AreOfNodes interner.now.nodes lines.now }
    ensures { IfOk result (λ numbers.
        AreNumbersWhere interner.now.nodes name.now tree lines.now numbers.items) }
{
    let mut numbers = Vec::new(alloc);
    for line in lines {
        let applies = applies_where(alloc, line, name, tree, interner)?;
        if applies {
            numbers.push(line.number)?;
        }
    }
    Ok(numbers)
}

/// Whether a line is of the package, and applies where the tree holds.
fn applies_where(
    alloc: Global,
    line: &Line,
    name: &PackageName,
    tree: MarkerTree,
    interner: &Interner,
) -> Result<bool, AllocError>
    requires made { IsTree interner.now.nodes tree }
    requires marker { IsTree interner.now.nodes line.now.requirement.marker }
    ensures { IfOk result (AppliesWhere interner.now.nodes name.now tree line.now) }
{
    if !is_under(name, line) {
        return Ok(false);
    }
    let apart = tree.is_disjoint(alloc, interner, line.requirement.marker)?;
    Ok(!apart)
}

/// Whether a line is of the package.
fn is_under(name: &PackageName, line: &Line) -> bool
    ensures { result ≡ is_under name.now line.now }
{
    name.as_str() == line.requirement.name.as_str()
}
