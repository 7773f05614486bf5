//! Reading the text of a specifier.

ghost use Rattle.std.specs.Prelude.{◌≡◌, false, IfErr, Err};
ghost use Rattle.std.specs.Char.{is_whitespace};
ghost use Rattle.std.specs.Option.{option_map};
ghost use Rattle.std.specs.Str.{chars, skip_leading_whitespace, IsCharBoundary};
ghost use Rattle.read_outcome.specs.Outcome.{Answers, Tells};
ghost use Rattle.pep440_operator.specs.OperatorReading.{ends_operator};
ghost use Rattle.pep440_operator.specs.Operators.{is_star};
ghost use Rattle.pep440_specifier.specs.declared.parse_error.VersionSpecifierParseError.TheVariants as errors;
ghost use Rattle.pep440_specifier.specs.Matching.{SpecifierRecord};
ghost use Rattle.pep440_specifier.specs.Building.{built_of_pattern};
ghost use Rattle.pep440_specifier.specs.SpecifierReading.{cut_at, front_in, InvalidTrailing};
ghost use Rattle.pep440_specifier.specs.SpecifierReading.{built_before, behind_operator, specifier_reading};
ghost use Rattle.pep440_specifier.specs.SpecifierReading.{told_specifier, IsPlain, HasGrown};

use crate::{Operator, OperatorParseError, VersionSpecifier, VersionSpecifierParseError};
use pep440_version::{VersionPattern, VersionPatternParseError};
use std::alloc::Global;

/// Returns whether no operator has this character.
fn ends_operator(c: char) -> bool
    ensures { result ≡ ends_operator c }
{
    !matches!(c, '=' | '<' | '>' | '~' | '!')
}

/// Returns the text without the white space at its front.
fn skip_white(text: &str) -> &str
    ensures { chars result.now ≡ skip_leading_whitespace (chars text.now) }
{
    text.trim_start()
}

/// Splits a text at a place; `None` where the place is the start.
fn cut_at(text: &str, end: usize) -> Option<(&str, &str)>
    requires { IsCharBoundary text.now end }
    ensures { option_map (λ parts. (parts.0.now, chars parts.1.now)) result ≡ cut_at text.now end }
{
    if end == 0 {
        return None;
    }
    Some(text.split_at(end))
}

/// Splits off the operator's characters at the front; `None` where there are none.
fn split_operator(text: &str) -> Option<(&str, &str)>
    ensures { option_map (λ parts. (parts.0.now, chars parts.1.now)) result
        ≡ front_in ends_operator (chars text.now) }
{
    match text.find(|c: char| ends_operator(c)) {
        Some(end) => cut_at(text, end),
        None => cut_at(text, text.len()),
    }
}

/// Splits a text before its first white space; `None` where it begins with white space or is empty.
fn split_word(text: &str) -> Option<(&str, &str)>
    ensures { option_map (λ parts. (parts.0.now, chars parts.1.now)) result
        ≡ front_in is_whitespace (chars text.now) }
{
    match text.find(|c: char| c.is_whitespace()) {
        Some(end) => cut_at(text, end),
        None => cut_at(text, text.len()),
    }
}

/// Returns the error for text that follows the whole specifier.
fn trailing(alloc: Global, text: &str) -> VersionSpecifierParseError
    ensures told { Tells {Y = SpecifierRecord} (told_specifier result) (Err (InvalidTrailing text.now)) }
    ensures plain { IsPlain result }
{
    match String::from_str(alloc, text) {
        Ok(text) => VersionSpecifierParseError::InvalidTrailing(text),
        Err(_) => VersionSpecifierParseError::Memory,
    }
}

/// Builds the specifier of an operator and a pattern, after which only white space may be left.
fn build(
    alloc: Global,
    operator: Operator,
    pattern: VersionPattern,
    left: &str,
) -> Result<VersionSpecifier, VersionSpecifierParseError>
    requires { is_star operator ≡ false }
    ensures answered { Answers (λ specifier. specifier) told_specifier result
        (built_before (chars left.now) (built_of_pattern operator pattern)) }
    ensures plain { IfErr result IsPlain }
{
    let specifier = match VersionSpecifier::from_pattern(operator, pattern) {
        Ok(specifier) => specifier,
        Err(error) => return Err(VersionSpecifierParseError::InvalidSpecifier(error)),
    };
    let rest = skip_white(left);
    if !rest.is_empty() {
        return Err(trailing(alloc, rest));
    }
    Ok(specifier)
}

/// Reads what follows an operator: a pattern, with white space around it.
#[tactic(auto, unfolding(crate::specs::SpecifierReading::behind_operator))]
fn read_behind_operator(
    alloc: Global,
    operator: Operator,
    text: &str,
) -> Result<VersionSpecifier, VersionSpecifierParseError>
    requires { is_star operator ≡ false }
    ensures answered { Answers (λ specifier. specifier) told_specifier result
        (behind_operator operator (chars text.now)) }
    ensures plain { IfErr result IsPlain }
    ensures grown { result ≡ Err errors.Memory → HasGrown (behind_operator operator (chars text.now)) }
{
    let Some((piece, left)) = split_word(skip_white(text)) else {
        return Err(VersionSpecifierParseError::MissingVersion);
    };
    match VersionPattern::from_str(alloc, piece) {
        Ok(pattern) => build(alloc, operator, pattern, left),
        Err(VersionPatternParseError::Memory) => Err(VersionSpecifierParseError::Memory),
        Err(error) => Err(VersionSpecifierParseError::InvalidVersion(error)),
    }
}

/// Returns the specifier that a text is, or its first fault.
#[tactic(auto, unfolding(crate::specs::SpecifierReading::specifier_reading))]
pub(crate) fn read_specifier(
    alloc: Global,
    text: &str,
) -> Result<VersionSpecifier, VersionSpecifierParseError>
    ensures answered { Answers (λ specifier. specifier) told_specifier result (specifier_reading text.now) }
    ensures plain { IfErr result IsPlain }
    ensures grown { result ≡ Err errors.Memory → HasGrown (specifier_reading text.now) }
{
    let Some((piece, left)) = split_operator(skip_white(text)) else {
        return Err(VersionSpecifierParseError::MissingOperator);
    };
    match Operator::from_str(alloc, piece) {
        Ok(operator) => read_behind_operator(alloc, operator, left),
        Err(OperatorParseError::Memory) => Err(VersionSpecifierParseError::Memory),
        Err(error) => Err(VersionSpecifierParseError::InvalidOperator(error)),
    }
}
