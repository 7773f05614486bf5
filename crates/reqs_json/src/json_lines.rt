//! JSON values, and their lines.

ghost use Rattle.std.specs.Prelude.{◌≡◌, map, false, IfOk, string_bytes};
ghost use Rattle.std.specs.Str.Lines.{lines};
ghost use Rattle.serde_json.specs.Data.{string};
ghost use Rattle.serde_json.specs.View.{view};
ghost use Rattle.serde_json.specs.Written.{has_float};
ghost use Rattle.reqs_json.specs.Lines.{array_of, number_of, lines_value, line_of, value_text};

use pep508_name::ExtraName;
use serde_json::Value;
use std::alloc::{AllocError, Global};

/// The text of a value on one line, without blanks between its parts, and a line feed. Linear in the text.
///
/// # Errors
///
/// `AllocError` when memory runs out.
#[tactic(auto, unfolding(crate::specs::Lines::line_of))]
pub fn line_of(alloc: Global, value: &Value) -> Result<String, AllocError>
    requires { has_float (view value.now) ≡ false }
    ensures { IfOk result (λ text. string_bytes text ≡ line_of (view value.now)) }
{
    let mut text = value.to_string(alloc)?;
    text.push('\n')?;
    Ok(text)
}

/// The text of a value, without blanks between its parts. Linear in the text.
#[tactic(auto, unfolding(crate::specs::Lines::value_text))]
pub(crate) fn value_text(alloc: Global, value: &Value) -> Result<String, AllocError>
    requires { has_float (view value.now) ≡ false }
    ensures { IfOk result (λ text. string_bytes text ≡ value_text (view value.now)) }
{
    value.to_string(alloc)
}

/// Names as an array of strings.
pub(crate) fn names_value(alloc: Global, names: &[ExtraName]) -> Result<Value, AllocError>
    ensures { IfOk result (λ value. view value ≡ array_of string names.now) }
{
    let mut values = Vec::with_capacity(alloc, names.len())?;
    for name in names {
        values.push(Value::try_from_str(alloc, name.as_str())?)?;
    }
    Ok(Value::Array(values))
}

/// Numbers as an array.
///
/// # Errors
///
/// `AllocError` when memory runs out.
pub fn numbers_value(alloc: Global, numbers: &[usize]) -> Result<Value, AllocError>
    ensures { IfOk result (λ value. view value ≡ array_of number_of numbers.now) }
{
    let mut values = Vec::with_capacity(alloc, numbers.len())?;
    for number in numbers {
        values.push(Value::from(*number))?;
    }
    Ok(Value::Array(values))
}

/// The lines of a text, without their ends, as an array of strings.
///
/// # Errors
///
/// `AllocError` when memory runs out.
pub fn lines_value(alloc: Global, text: &str) -> Result<Value, AllocError>
    ensures { IfOk result (λ value. view value ≡ lines_value text.now) }
{
    let lines = lines_of(alloc, text)?;
    texts_value(alloc, &lines)
}

/// The lines of a text, without their ends.
fn lines_of(alloc: Global, text: &str) -> Result<Vec<&str>, AllocError>
    ensures { IfOk result (λ found. map (λ line. line.now) found.items ≡ lines text.now) }
{
    text.lines().collect(alloc)
}

/// Texts as an array of strings.
fn texts_value(alloc: Global, texts: &[&str]) -> Result<Value, AllocError>
    ensures { IfOk result (λ value. view value ≡ array_of string (map (λ t. t.now) texts.now)) }
{
    let mut values = Vec::with_capacity(alloc, texts.len())?;
    for text in texts {
        values.push(Value::try_from_str(alloc, text)?)?;
    }
    Ok(Value::Array(values))
}
