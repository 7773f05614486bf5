//! The text of whether a list covers another: lines, or one object.

ghost use Rattle.std.specs.Prelude.{◌≡◌, IfOk, string_bytes};
ghost use Rattle.serde_json.specs.View.{view};
ghost use Rattle.pep508_diagram.specs.Question.{IsCanonical};
ghost use Rattle.pep508_diagram.specs.Shortened.{HasShortVersions};
ghost use Rattle.pep508_tree.specs.Meaning.{IsTree, diagram_of};
ghost use Rattle.reqs_json.specs.Lines.{line_of};
ghost use Rattle.reqs_lists.specs.Covered.{covers_in, covers_value, uncovered_in, uncovered_text};
ghost use Rattle.reqs_lists.specs.Covered.{uncovered_value, TellsUncovered};

use crate::comparing::{difference_text, marker_value};
use crate::conflict_lines::push_numbers;
use pep508_marker_display::has_more_clauses;
use pep508_name::PackageName;
use pep508_tree::{Interner, MarkerTree};
use reqs_io_faults::{Excess, RunFault};
use reqs_json::{Format, line_of, numbers_value};
use serde_json::{Value, json};
use std::alloc::{AllocError, Global};

/// The text, in a format, for a list that covers another.
pub(crate) fn covers_in(alloc: Global, format: Format) -> Result<String, AllocError>
    ensures { IfOk result (λ text. string_bytes text ≡ covers_in format) }
{
    match format {
        Format::Text => Ok(String::from_str(alloc, "yes\n")?),
        Format::Json => covers_line(alloc),
    }
}

/// The object, on a line, for a list that covers another.
fn covers_line(alloc: Global) -> Result<String, AllocError>
    ensures { IfOk result (λ text. string_bytes text ≡ line_of covers_value) }
{
    let object = covers_value(alloc)?;
    line_of(alloc, &object)
}

/// The object for a list that covers another.
fn covers_value(alloc: Global) -> Result<Value, AllocError>
    ensures { IfOk result (λ value. view value ≡ covers_value) }
{
    json!(in alloc; {"covers": true})
}

/// The text, in a format, of a place that isn't covered, whose marker has at most `most` clauses.
#[tactic(auto, using(crate::proofs::Trees::canonical, crate::proofs::Trees::short))]
pub(crate) fn uncovered_within(
    alloc: Global,
    format: Format,
    name: PackageName,
    tree: MarkerTree,
    numbers: &[usize],
    interner: &Interner,
    most: usize,
) -> Result<String, RunFault>
    requires { IsTree interner.now.nodes tree }
    ensures told { TellsUncovered format most name (diagram_of interner.now.nodes tree) numbers.now result }
    ensures canonical { IsCanonical (diagram_of interner.now.nodes tree) }
    ensures short { HasShortVersions (diagram_of interner.now.nodes tree) }
{
    interner.are_sound();
    if has_more_clauses(alloc, tree, interner, most)? {
        return Err(RunFault::TooMany(Excess::ClausesFor {
            package: name,
            most,
        }));
    }
    Ok(uncovered_in(alloc, format, &name, tree, numbers, interner)?)
}

/// The text, in a format, of a place that isn't covered: the package, where the tree holds, and the lines.
#[tactic(auto, using(crate::proofs::Trees::canonical, crate::proofs::Trees::short))]
fn uncovered_in(
    alloc: Global,
    format: Format,
    name: &PackageName,
    tree: MarkerTree,
    numbers: &[usize],
    interner: &Interner,
) -> Result<String, AllocError>
    requires { IsTree interner.now.nodes tree }
    ensures text { IfOk result (λ text. string_bytes text
        ≡ uncovered_in format name.now (diagram_of interner.now.nodes tree) numbers.now) }
    ensures canonical { IsCanonical (diagram_of interner.now.nodes tree) }
    ensures short { HasShortVersions (diagram_of interner.now.nodes tree) }
{
    interner.are_sound();
    match format {
        Format::Text => uncovered_text(alloc, name, tree, numbers, interner),
        Format::Json => uncovered_line(alloc, name, tree, numbers, interner),
    }
}

/// A place that isn't covered as lines: those of a difference, and the numbers of the lines that apply
/// there.
fn uncovered_text(
    alloc: Global,
    name: &PackageName,
    tree: MarkerTree,
    numbers: &[usize],
    interner: &Interner,
) -> Result<String, AllocError>
    requires { IsTree interner.now.nodes tree }
    ensures { IfOk result (λ text. string_bytes text
        ≡ uncovered_text name.now (diagram_of interner.now.nodes tree) numbers.now) }
{
    let mut text = difference_text(alloc, name, tree, interner)?;
    push_numbers(&mut text, numbers)?;
    text.push('\n')?;
    Ok(text)
}

/// A place that isn't covered as an object, on a line.
fn uncovered_line(
    alloc: Global,
    name: &PackageName,
    tree: MarkerTree,
    numbers: &[usize],
    interner: &Interner,
) -> Result<String, AllocError>
    requires { IsTree interner.now.nodes tree }
    ensures { IfOk result (λ text. string_bytes text
        ≡ line_of (uncovered_value name.now (diagram_of interner.now.nodes tree) numbers.now)) }
{
    let object = uncovered_value(alloc, name, tree, numbers, interner)?;
    line_of(alloc, &object)
}

/// A place that isn't covered as an object.
fn uncovered_value(
    alloc: Global,
    name: &PackageName,
    tree: MarkerTree,
    numbers: &[usize],
    interner: &Interner,
) -> Result<Value, AllocError>
    requires { IsTree interner.now.nodes tree }
    ensures { IfOk result (λ value.
        view value ≡ uncovered_value name.now (diagram_of interner.now.nodes tree) numbers.now) }
{
    let lines = numbers_value(alloc, numbers)?;
    let marker = marker_value(alloc, tree, interner)?;
    json!(in alloc; {
        "covers": false,
        "lines": lines,
        "marker": marker,
        "package": name.as_str(),
    })
}
