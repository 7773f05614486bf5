//! The text of conflicts: a line for each, or one object.

ghost use Rattle.std.specs.Prelude.{◌≡◌, ◌∷◌, ◌++◌, map, IfOk, OnOk, string_bytes};
ghost use Rattle.std.specs.List.{flat_map, join_with_byte};
ghost use Rattle.std.specs.Fmt.{decimal};
ghost use Rattle.reqtable_conflicts.specs.Contradictions.{conflict_record};
ghost use Rattle.serde_json.specs.View.{view};
ghost use Rattle.reqs_json.specs.Lines.{array_of, line_of};
ghost use Rattle.reqs_lists.specs.Contradictions.{conflict_text, conflicts_text, prerelease_text};
ghost use Rattle.reqs_lists.specs.Contradictions.{conflict_value, conflicts_value, conflicts_in};

use reqs_json::{Format, line_of, numbers_value};
use reqtable_conflicts::Conflict;
use serde_json::{Value, json};
use std::alloc::{AllocError, Global};
use std::fmt::Write;

/// The text of conflicts in a format.
///
/// # Errors
///
/// `AllocError` when memory runs out.
pub fn conflicts_in(
    alloc: Global,
    format: Format,
    conflicts: &[Conflict],
) -> Result<String, AllocError>
    ensures { IfOk result (λ text.
        string_bytes text ≡ conflicts_in format (map conflict_record conflicts.now)) }
{
    match format {
        Format::Text => conflicts_text(alloc, conflicts),
        Format::Json => conflicts_line(alloc, conflicts),
    }
}

/// A line for each conflict.
fn conflicts_text(alloc: Global, conflicts: &[Conflict]) -> Result<String, AllocError>
    ensures { IfOk result (λ text.
        string_bytes text ≡ conflicts_text (map conflict_record conflicts.now)) }
{
    let mut text = String::new(alloc);
    for conflict in conflicts {
        push_conflict(&mut text, conflict)?;
    }
    Ok(text)
}

/// Appends the line of a conflict to a text.
fn push_conflict(text: &mut String, conflict: &Conflict) -> Result<(), AllocError>
    ensures { OnOk result (string_bytes text.new
        ≡ string_bytes text.old ++ conflict_text (conflict_record conflict.now)) }
{
    text.push_str(conflict.package.as_str())?;
    text.push(' ')?;
    push_numbers(text, &conflict.lines)?;
    text.push_str(prerelease_text(conflict.pre))?;
    text.push('\n')
}

/// What follows the numbers of a conflict's lines: ` pre` if one of the lines names a pre-release, otherwise
/// nothing.
fn prerelease_text(names_prerelease: bool) -> &'static str
    ensures { result.now ≡ prerelease_text names_prerelease }
{
    if names_prerelease { " pre" } else { "" }
}

/// Appends numbers with commas between them.
pub(crate) fn push_numbers(text: &mut String, numbers: &[usize]) -> Result<(), AllocError>
    ensures { OnOk result (string_bytes text.new
        ≡ string_bytes text.old ++ join_with_byte 44 (map decimal numbers.now)) }
{
    match numbers.split_first() {
        None => Ok(()),
        Some((first, others)) => {
            write!(text, "{first}")?;
            push_others(text, others)
        }
    }
}

/// Appends each number after a comma.
fn push_others(text: &mut String, numbers: &[usize]) -> Result<(), AllocError>
    ensures { OnOk result (string_bytes text.new
        ≡ string_bytes text.old ++ flat_map (λ number. 44 ∷ decimal number) numbers.now) }
{
    for number in numbers {
        write!(text, ",{number}")?;
    }
    Ok(())
}

/// The object of conflicts, as a line.
fn conflicts_line(alloc: Global, conflicts: &[Conflict]) -> Result<String, AllocError>
    ensures { IfOk result (λ text.
        string_bytes text ≡ line_of (conflicts_value (map conflict_record conflicts.now))) }
{
    let object = conflicts_value(alloc, conflicts)?;
    line_of(alloc, &object)
}

/// The object of conflicts.
fn conflicts_value(alloc: Global, conflicts: &[Conflict]) -> Result<Value, AllocError>
    ensures { IfOk result (λ value. view value ≡ conflicts_value (map conflict_record conflicts.now)) }
{
    let conflicts = conflict_values(alloc, conflicts)?;
    json!(in alloc; {"conflicts": conflicts})
}

/// Conflicts as an array.
fn conflict_values(alloc: Global, conflicts: &[Conflict]) -> Result<Value, AllocError>
    ensures { IfOk result (λ value.
        view value ≡ array_of conflict_value (map conflict_record conflicts.now)) }
{
    let mut values = Vec::with_capacity(alloc, conflicts.len())?;
    for conflict in conflicts {
        values.push(conflict_value(alloc, conflict)?)?;
    }
    Ok(Value::Array(values))
}

/// A conflict as an object.
fn conflict_value(alloc: Global, conflict: &Conflict) -> Result<Value, AllocError>
    ensures { IfOk result (λ value. view value ≡ conflict_value (conflict_record conflict.now)) }
{
    let lines = numbers_value(alloc, &conflict.lines)?;
    json!(in alloc; {
        "lines": lines,
        "package": conflict.package.as_str(),
        "prerelease": conflict.pre,
    })
}
