//! Texts of inputs and of the command line, as messages show them.
//!
//! A list may come from anywhere, so no text of it may write control sequences to a terminal or a log, nor
//! turn the direction of text to hide what is refused: messages show such characters by their numbers. A tab
//! is one of them, since its width depends on the column where it stands. Marks under a line are counted in
//! the columns that are shown. A line feed of a path or a word is shown by its number too, so that a message
//! has no other line ends than its own. A backslash stays as it is.

ghost use Rattle.std.specs.Prelude.{◌≡◌, ◌++◌, ◌∷◌, map, take, IfOk, string_bytes, encode_utf8_all};
ghost use Rattle.underline.specs.Underline.{underlined};
ghost use Rattle.reqs_io_faults.specs.Ends.{of_input};
ghost use Rattle.reqs_io_faults.specs.FaultText.{requirement_front};
ghost use Rattle.reqs_messages.specs.Shown.{is_hidden, shown_char, shown_in_lines, shown_text, shown_lines};
ghost use Rattle.reqs_messages.specs.Shown.{shown_columns, shown_marks, IsShownRequirement, IsShownFault};

use pep508_error::Pep508Error;
use pep508_url::VerbatimUrl;
use reqs_io_faults::RunFault;
use std::alloc::{AllocError, Global};
use underline::{Underlined, columns};

/// The message for a fault, as `RunFault::text` gives it, with each control character as `\u{..}`. `paths`
/// are those of the inputs, in the order of the command line. Linear in the text.
///
/// # Errors
///
/// `AllocError` when memory runs out.
pub fn shown_fault(alloc: Global, fault: &RunFault, paths: &[&str]) -> Result<String, AllocError>
    ensures { IfOk result (λ text.
        IsShownFault (of_input (map (λ p. p.now) paths.now)) fault.now (string_bytes text)) }
{
    match fault {
        RunFault::Requirement {
            input,
            number,
            error,
        } => requirement_text(alloc, input.path(paths), *number, error),
        _ => shown_text(alloc, fault.text(alloc, paths)?.as_str()),
    }
}

/// The message for an invalid line of a list; also that for an assumption that is no marker.
///
/// # Errors
///
/// `AllocError` when memory runs out.
pub fn requirement_text(
    alloc: Global,
    path: &str,
    number: usize,
    error: &Pep508Error<VerbatimUrl>,
) -> Result<String, AllocError>
    ensures { IfOk result (λ text. IsShownRequirement path.now number error.now (string_bytes text)) }
{
    let path = shown_text(alloc, path)?;
    let said = error.message().to_string(alloc)?;
    let message = shown_text(alloc, said.as_str())?;
    let line = shown_text(alloc, error.input())?;
    let picture = Underlined {
        text: line.as_str(),
        blanks: blanks_under(alloc, error)?,
        marks: marks_under(alloc, error)?,
    };
    message_lines(
        alloc,
        path.as_str(),
        number,
        error,
        message.as_str(),
        picture,
    )
}

/// The lines of the message: the place of the error, what is wrong, and the line with the part at fault
/// underlined.
fn message_lines(
    alloc: Global,
    path: &str,
    number: usize,
    error: &Pep508Error<VerbatimUrl>,
    message: &str,
    picture: Underlined<'_>,
) -> Result<String, AllocError>
    ensures { IfOk result (λ text. string_bytes text ≡ requirement_front path.now number error.now
        ++ message.now ++ (10 ∷ underlined picture.entry.text.now picture.entry.blanks picture.entry.marks)) }
{
    let mut text = place_text(alloc, path, number, error)?;
    write!(text, "{message}\n{picture}")?;
    Ok(text)
}

/// The line of the message for the place of the error.
fn place_text(
    alloc: Global,
    path: &str,
    number: usize,
    error: &Pep508Error<VerbatimUrl>,
) -> Result<String, AllocError>
    ensures { IfOk result (λ text. string_bytes text ≡ requirement_front path.now number error.now) }
{
    let start = error.start();
    let len = error.len();
    format!(in alloc; "{path}: line {number}, byte {start}, length {len}\n")
}

/// The number of columns before the part at fault.
fn blanks_under(alloc: Global, error: &Pep508Error<VerbatimUrl>) -> Result<usize, AllocError>
    ensures { IfOk result (λ blanks. blanks
        ≡ shown_columns (take error.now.excerpt.start (string_bytes error.now.excerpt.input))) }
{
    shown_columns(alloc, &error.input()[..error.start()])
}

/// The number of columns of the part at fault, one after the line's end.
fn marks_under(alloc: Global, error: &Pep508Error<VerbatimUrl>) -> Result<usize, AllocError>
    ensures { IfOk result (λ marks. marks ≡ shown_marks (string_bytes error.now.excerpt.input)
        error.now.excerpt.start error.now.excerpt.len) }
{
    let line = error.input();
    let start = error.start();
    if start == line.len() {
        return Ok(1);
    }
    shown_columns(alloc, &line[start..start + error.len()])
}

/// The number of columns of a text as it is shown.
fn shown_columns(alloc: Global, text: &str) -> Result<usize, AllocError>
    ensures { IfOk result (λ count. count ≡ shown_columns text.now) }
{
    let shown = shown_text(alloc, text)?;
    Ok(columns(shown.as_str()))
}

/// The text with each control character as `\u{..}`. Linear in the text.
///
/// # Errors
///
/// `AllocError` when memory runs out.
pub fn shown_text(alloc: Global, text: &str) -> Result<String, AllocError>
    ensures { IfOk result (λ shown. string_bytes shown ≡ shown_text text.now) }
{
    let mut shown = String::new(alloc);
    for c in text.chars() {
        push_shown(&mut shown, c)?;
    }
    Ok(shown)
}

/// A text of several lines with each control character but the line feeds as `\u{..}`. Linear in the text.
///
/// # Errors
///
/// `AllocError` when memory runs out.
pub fn shown_lines(alloc: Global, text: &str) -> Result<String, AllocError>
    ensures { IfOk result (λ shown. string_bytes shown ≡ shown_lines text.now) }
{
    let mut shown = String::new(alloc);
    for c in text.chars() {
        push_in_lines(&mut shown, c)?;
    }
    Ok(shown)
}

/// Appends what is shown of a character, a line feed as it is.
fn push_in_lines(shown: &mut String, c: char) -> Result<(), AllocError>
    ensures { IfOk result (λ _.
        string_bytes shown.new ≡ string_bytes shown.old ++ encode_utf8_all (shown_in_lines c)) }
{
    if c == '\n' {
        shown.push(c)
    } else {
        push_shown(shown, c)
    }
}

/// Appends what is shown of a character.
fn push_shown(shown: &mut String, c: char) -> Result<(), AllocError>
    ensures { IfOk result (λ _.
        string_bytes shown.new ≡ string_bytes shown.old ++ encode_utf8_all (shown_char c)) }
{
    if !is_hidden(c) {
        return shown.push(c);
    }
    for part in c.escape_unicode() {
        shown.push(part)?;
    }
    Ok(())
}

/// Whether a character is a control character, or changes the direction of text (Unicode Standard Annex #9).
fn is_hidden(c: char) -> bool
    ensures { result ≡ is_hidden c }
{
    matches!(
        c,
        '\u{0}'..='\u{1f}'
            | '\u{7f}'..='\u{9f}'
            | '\u{61c}'
            | '\u{200e}'..='\u{200f}'
            | '\u{202a}'..='\u{202e}'
            | '\u{2066}'..='\u{2069}'
    )
}
