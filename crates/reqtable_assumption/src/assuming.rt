//! Requirements where a condition holds.

ghost use Rattle.std.specs.Prelude.{◌≡◌, IfOk, List};
ghost use Rattle.std.specs.List.{AllZip};
ghost use Rattle.pep508_formula.specs.Postfix.{formula_of};
ghost use Rattle.pep508_tree.specs.Meaning.{IsTree, Extends};
ghost use Rattle.pep508_url.specs.Vars.{Variables};
ghost use Rattle.reqtable_requirements.specs.Asks.{AreOfNodes};
ghost use Rattle.reqtable_requirements.specs.LineReading.{LineRecord};
ghost use Rattle.reqtable_requirements.specs.Requirements.{StandsFor};
ghost use Rattle.reqtable_assumption.specs.Restricted.{IsRestricted, marked_with};
ghost use Rattle.reqtable_assumption.specs.Where.{lines_where};

use pep508_formula::MarkerFormula;
use pep508_marker_parser::tree_of;
use pep508_tree::{Interner, MarkerTree};
use reqtable_requirements::{Line, Requirements};
use std::alloc::{AllocError, Global};

/// Returns the requirements as they are where a condition holds: each line's marker becomes the conjunction
/// of its own and this one, so that the line applies nowhere else. What `same`, `covers` and `conflicts`
/// answer about lists that were restricted to one condition is what holds of the lists themselves in those
/// environments and with those extras for which the condition holds; the laws of this crate say how.
///
/// Numbers, names, extras and versions of the lines stay, also those of lines that never apply then. The
/// requirements must have been read with this interner.
///
/// Costs what the condition's tree does (`pep508_marker_parser::tree_of`), and a conjunction for each line,
/// of which that of equal markers is made once (`MarkerTree::and`).
///
/// # Errors
///
/// `AllocError` when memory runs out, or the interner has more nodes than `Interner::with_most` allows. The
/// requirements are dropped then.
pub fn assume(
    alloc: Global,
    requirements: Requirements,
    interner: &mut Interner,
    condition: &MarkerFormula,
) -> Result<Requirements, AllocError>
    requires { AreOfNodes interner.old.nodes requirements }
    ensures restricted { IfOk result (λ restricted. (vars : Variables) (said : List LineRecord) →
        AllZip (StandsFor vars interner.old.nodes) requirements said →
        AllZip (StandsFor vars interner.new.nodes) restricted
        (lines_where (formula_of condition.now) said)) }
    ensures trees { IfOk result (AreOfNodes interner.new.nodes) }
    ensures keeps { Extends interner.old.nodes interner.new.nodes }
{
    let tree = tree_of(alloc, interner, condition)?;
    let lines = restricted_lines(alloc, interner, requirements.into_lines(), tree)?;
    Ok(Requirements::from_lines(lines))
}

/// The lines with markers that hold where their own and the condition do.
fn restricted_lines(
    alloc: Global,
    interner: &mut Interner,
    lines: Vec<Line>,
    condition: MarkerTree,
) -> Result<Vec<Line>, AllocError>
    requires lines { AreOfNodes interner.old.nodes lines.items }
    requires tree { IsTree interner.old.nodes condition }
    ensures each { IfOk result (λ made. AllZip
        (IsRestricted interner.old.nodes interner.new.nodes condition) made.items lines.items) }
    ensures keeps { Extends interner.old.nodes interner.new.nodes }
{
    let mut made = Vec::new(alloc);
    for line in lines {
        let restricted = restricted(alloc, interner, line, condition)?;
        made.push(restricted)?;
    }
    Ok(made)
}

/// A line with a marker that holds where its own and the condition do.
fn restricted(
    alloc: Global,
    interner: &mut Interner,
    line: Line,
    condition: MarkerTree,
) -> Result<Line, AllocError>
    requires line { IsTree interner.old.nodes line.requirement.marker }
    requires tree { IsTree interner.old.nodes condition }
    ensures made { IfOk result (λ made.
        IsRestricted interner.old.nodes interner.new.nodes condition made line) }
    ensures keeps { Extends interner.old.nodes interner.new.nodes }
{
    let marker = marker_of(&line).and(alloc, interner, condition)?;
    Ok(with_marker(line, marker))
}

/// The marker of a line.
fn marker_of(line: &Line) -> MarkerTree
    ensures { result ≡ line.now.requirement.marker }
{
    line.requirement.marker
}

/// A line with this marker in place of its own.
fn with_marker(line: Line, marker: MarkerTree) -> Line
    ensures { result ≡ marked_with marker line }
{
    let mut line = line;
    line.requirement.marker = marker;
    line
}
