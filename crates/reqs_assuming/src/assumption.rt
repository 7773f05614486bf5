//! What is assumed of environments, as a marker's text and as a condition.

ghost use Rattle.std.specs.Prelude.{◌≡◌, ◌⊎◌, ◌++◌, ℕ, List, map, option_map, string_bytes, IfOk, IfErr, IfSome, OnOk};
ghost use Rattle.std.specs.List.{flat_map};
ghost use Rattle.pep440_specifier_list.specs.ListReading.{told_list, list_reading};
ghost use Rattle.pep440_specifier_list.specs.declared.error.VersionSpecifiersParseError.TheVariants.{Specifier};
ghost use Rattle.read_outcome.specs.Outcome.{Tells};
ghost use Rattle.pep508_error.specs.Errors.{told_error};
ghost use Rattle.reqs_assuming.specs.Assumptions.{assumption_text, assumed_texts, all_text, and_text};
ghost use Rattle.reqs_assuming.specs.Assumptions.{in_parentheses, listed, python_text, real_texts, IsNoList};
ghost use Rattle.reqs_assuming.specs.Assumptions.{AreSpecifiers, RefusesSpecifiers, ReadsAssumption};
ghost use Rattle.reqs_assuming.specs.Assumptions.{IsAssumptionText, IsMarker, RefusesMarker};

use crate::condition::read_condition;
use pep440_specifier::VersionSpecifier;
use pep440_specifier_list::{RefusedPiece, VersionSpecifiers, VersionSpecifiersParseError};
use pep508_error::{Cursor, Pep508Error, RefusalKind};
use pep508_formula::MarkerFormula;
use pep508_marker::{MarkerExpression, MarkerValueVersion};
use pep508_url::VerbatimUrl;
use std::alloc::{AllocError, Global};
use std::fmt::Write;

/// A marker that holds in CPython, PyPy and GraalPy: `os_name`, `sys_platform` and `platform_system` say
/// together that it is Windows, Linux or macOS, or none of them says so.
pub const REAL: &str =
    "os_name == 'nt' and sys_platform == 'win32' and platform_system == 'Windows' \
    or os_name == 'posix' and sys_platform == 'linux' and platform_system == 'Linux' \
    or os_name == 'posix' and sys_platform == 'darwin' and platform_system == 'Darwin' \
    or os_name != 'nt' and sys_platform != 'win32' and sys_platform != 'linux' \
    and sys_platform != 'darwin' and platform_system != 'Windows' \
    and platform_system != 'Linux' and platform_system != 'Darwin'";

/// Returns the condition of all that is assumed: a marker's text, the text of specifiers that accept
/// `python_full_version` (PEP 440, as `>=3.9,<3.13`), and that the interpreter is a real one (`REAL`). `None`
/// if nothing is assumed. Linear in the texts, but for sorting the specifiers.
///
/// # Errors
///
/// That of `pep508_marker_parser::parse_formula` for a marker that is none; the message and the place of the
/// first piece that is no specifier; that of `parse_formula` for the text of all that is assumed, where a
/// specifier is one that no marker has, as `===3.9`; `Memory` in it when memory runs out.
pub fn assumed_condition(
    alloc: Global,
    marker: Option<&str>,
    python: Option<&str>,
    real: bool,
) -> Result<Option<MarkerFormula>, Pep508Error<VerbatimUrl>>
    ensures { ReadsAssumption (option_map (λ m. m.now) marker.entry) (option_map (λ p. p.now) python.entry)
        real result }
{
    let text = assumed_text(alloc, marker, python, real)?;
    if text.is_empty() {
        return Ok(None);
    }
    Ok(Some(read_condition(alloc, text.as_str())?))
}

/// The text of all that is assumed.
fn assumed_text(
    alloc: Global,
    marker: Option<&str>,
    python: Option<&str>,
    real: bool,
) -> Result<String, Pep508Error<VerbatimUrl>>
    ensures read { IfOk result (λ text. IsAssumptionText (option_map (λ m. m.now) marker.entry)
        (option_map (λ p. p.now) python.entry) real (string_bytes text)) }
    ensures refused { IfErr result (λ error. RefusesMarker (option_map (λ m. m.now) marker.entry) error
        ⊎ RefusesSpecifiers (option_map (λ p. p.now) python.entry) error) }
{
    read_marker(alloc, marker)?;
    let specifiers = read_python(alloc, python)?;
    let Ok(text) = assumption_text(alloc, marker, &specifiers, real) else {
        return Err(Pep508Error::memory(alloc));
    };
    Ok(text)
}

/// Finds out whether a marker that is given is one.
fn read_marker(alloc: Global, marker: Option<&str>) -> Result<(), Pep508Error<VerbatimUrl>>
    ensures read { OnOk result (IsMarker (option_map (λ m. m.now) marker.entry)) }
    ensures refused { IfErr result (RefusesMarker (option_map (λ m. m.now) marker.entry)) }
{
    if let Some(text) = marker {
        read_condition(alloc, text)?;
    }
    Ok(())
}

/// The specifiers of a text, none without one.
fn read_python(
    alloc: Global,
    python: Option<&str>,
) -> Result<VersionSpecifiers, Pep508Error<VerbatimUrl>>
    ensures read { IfOk result (AreSpecifiers (option_map (λ p. p.now) python.entry)) }
    ensures refused { IfErr result (RefusesSpecifiers (option_map (λ p. p.now) python.entry)) }
{
    let Some(text) = python else {
        return Ok(VersionSpecifiers::empty(alloc));
    };
    match VersionSpecifiers::from_str(alloc, text) {
        Ok(specifiers) => Ok(specifiers),
        Err(VersionSpecifiersParseError::Memory) => Err(Pep508Error::memory(alloc)),
        Err(VersionSpecifiersParseError::Specifier(piece)) => Err(no_specifier(alloc, &piece)),
    }
}

/// The error for a piece of a text that is no specifier.
fn no_specifier(alloc: Global, piece: &RefusedPiece) -> Pep508Error<VerbatimUrl>
    ensures { (text : List ℕ) → Tells (told_list (Specifier piece.now)) (list_reading text)
        → IfSome (told_error result) (IsNoList text) }
{
    let place = Cursor::new(piece.line()).after(piece.start());
    let kind = RefusalKind::string(piece.error().to_string(alloc));
    Pep508Error::of(alloc, place.refuse(piece.end() - piece.start(), kind))
}

/// Returns the text of a marker that holds where all that is assumed does: a marker's text as it stands, a
/// comparison of `python_full_version` with each specifier, and `REAL`, each in parentheses with `and` between
/// them; one that is alone as it stands; empty if nothing is assumed. Linear in what is given.
///
/// # Errors
///
/// `AllocError` when memory runs out.
pub fn assumption_text(
    alloc: Global,
    marker: Option<&str>,
    python: &VersionSpecifiers,
    real: bool,
) -> Result<String, AllocError>
    ensures { IfOk result (λ text. string_bytes text
        ≡ assumption_text (option_map (λ m. m.now) marker.entry) python.now real) }
{
    let texts = assumed_texts(alloc, marker, python, real)?;
    all_text(alloc, texts.as_slice())
}

/// The texts of all markers that are assumed.
fn assumed_texts(
    alloc: Global,
    marker: Option<&str>,
    python: &VersionSpecifiers,
    real: bool,
) -> Result<Vec<String>, AllocError>
    ensures { IfOk result (λ texts. map string_bytes texts.items
        ≡ assumed_texts (option_map (λ m. m.now) marker.entry) python.now real) }
{
    let mut texts = given_texts(alloc, marker)?;
    push_specifiers(alloc, &mut texts, python.as_slice())?;
    push_real(alloc, &mut texts, real)?;
    Ok(texts)
}

/// The text of a marker, if one is given.
fn given_texts(alloc: Global, marker: Option<&str>) -> Result<Vec<String>, AllocError>
    ensures { IfOk result (λ texts.
        map string_bytes texts.items ≡ listed (option_map (λ m. m.now) marker.entry)) }
{
    let mut texts = Vec::new(alloc);
    if let Some(text) = marker {
        texts.push(String::from_str(alloc, text)?)?;
    }
    Ok(texts)
}

/// Appends the comparison of each specifier.
fn push_specifiers(
    alloc: Global,
    texts: &mut Vec<String>,
    specifiers: &[VersionSpecifier],
) -> Result<(), AllocError>
    ensures { OnOk result (map string_bytes texts.new.items
        ≡ map string_bytes texts.old.items ++ map python_text specifiers.now) }
{
    for specifier in specifiers {
        texts.push(python_text(alloc, specifier)?)?;
    }
    Ok(())
}

/// Appends `REAL` if it is assumed.
fn push_real(alloc: Global, texts: &mut Vec<String>, real: bool) -> Result<(), AllocError>
    ensures { OnOk result
        (map string_bytes texts.new.items ≡ map string_bytes texts.old.items ++ real_texts real) }
{
    if real {
        texts.push(String::from_str(alloc, REAL)?)?;
    }
    Ok(())
}

/// The comparison of `python_full_version` with a specifier.
fn python_text(alloc: Global, specifier: &VersionSpecifier) -> Result<String, AllocError>
    ensures { IfOk result (λ text. string_bytes text ≡ python_text specifier.now) }
{
    let comparison = MarkerExpression::Version {
        key: MarkerValueVersion::PythonFullVersion,
        specifier: specifier.try_clone(alloc)?,
    };
    comparison.to_string(alloc)
}

/// The text that says all of some, of one that one.
fn all_text(alloc: Global, texts: &[String]) -> Result<String, AllocError>
    ensures { IfOk result (λ text. string_bytes text ≡ all_text (map string_bytes texts.now)) }
{
    match texts.split_first() {
        None => Ok(String::new(alloc)),
        Some((first, others)) => {
            if others.is_empty() {
                String::from_str(alloc, first.as_str())
            } else {
                joined_text(alloc, first, others)
            }
        }
    }
}

/// Texts in parentheses, with `and` between them.
fn joined_text(alloc: Global, first: &String, others: &[String]) -> Result<String, AllocError>
    ensures { IfOk result (λ text. string_bytes text ≡ in_parentheses (string_bytes first.now)
        ++ flat_map and_text (map string_bytes others.now)) }
{
    let mut text = String::new(alloc);
    write!(text, "({first})")?;
    for other in others {
        write!(text, " and ({other})")?;
    }
    Ok(text)
}
