//! Terms of clauses, and which of them are equal or opposite.
//!
//! Terms are the same by the equality of versions and the number of release numbers, by which a star
//! selects. No clause has a list of versions, so terms that are lists are the same as nothing.

ghost use Rattle.std.specs.Prelude.{◌≡◌};
ghost use Rattle.pep440_specifier.specs.SpecifierOrder.{operator_rank};
ghost use Rattle.pep508_marker.specs.Keys.{version_key_rank, text_key_rank};
ghost use Rattle.pep508_marker.specs.Values.{extra_of, extra_text};
ghost use Rattle.pep508_marker_text_laws.specs.SameTerms.{marker_operator_rank, extra_operator_rank};
ghost use Rattle.pep508_marker_text_laws.specs.SameTerms.{same_text, same_version, same_extra};
ghost use Rattle.pep508_clauses.specs.Operators.{are_opposite, are_opposite_texts, are_opposite_extras};
ghost use Rattle.pep508_clauses.specs.Terms.{same_expression, opposite_expression};
ghost use Rattle.pep508_clauses.specs.Terms.{expression_word, expression_literal, expression_negation};
ghost use Rattle.pep508_clauses.specs.Words.{spread, with_number, word_behind};
ghost use Rattle.pep508_clauses.specs.Words.{negated_word, negated_text_word};
ghost use Rattle.pep508_clauses.specs.WordLaws.{word_of_same, word_of_opposite};
ghost use Rattle.pep508_clauses.specs.WordLaws.{literal_of_same, literal_of_opposite};

use pep440_operator::Operator;
use pep440_version::Version;
use pep508_marker::{
    ExtraOperator, MarkerExpression, MarkerOperator, MarkerValueExtra, MarkerValueString,
    MarkerValueVersion,
};

/// A term of a clause.
pub(crate) trait Term: Drop {
    ghost use Rattle.std.specs.Prelude.{◌≡◌, ℕ, Bool, true};

    /// Whether two terms are the same.
    ghost same: { Self → Self → Bool };

    /// Whether one is the other's negation.
    ghost opposite: { Self → Self → Bool };

    /// A number that is equal for equal terms, and for terms that are negations of each other.
    ghost word: { Self → ℕ };

    ghost word_of_same: { (a b : Self) → same a b ≡ true → word a ≡ word b };

    ghost word_of_opposite: { (a b : Self) → opposite a b ≡ true → word a ≡ word b };

    /// A number that is equal for equal terms.
    ghost literal: { Self → ℕ };

    /// The number of the term's negations.
    ghost negation: { Self → ℕ };

    ghost literal_of_same: { (a b : Self) → same a b ≡ true → literal a ≡ literal b };

    ghost literal_of_opposite: { (a b : Self) → opposite a b ≡ true → negation a ≡ literal b };

    fn is_same(&self, other: &Self) -> bool
        ensures { result ≡ same self.now other.now };

    fn is_opposite(&self, other: &Self) -> bool
        ensures { result ≡ opposite self.now other.now };

    /// Returns a number that is equal for equal terms, and for terms that are negations of each other.
    /// Other terms may have it too.
    fn word(&self) -> u64
        ensures { result ≡ word self.now };

    /// Returns a number that is equal for equal terms. Other terms may have it too.
    fn literal(&self) -> u64
        ensures { result ≡ literal self.now };

    /// Returns the `literal` of the term's negations.
    fn negation(&self) -> u64
        ensures { result ≡ negation self.now };
}

/// Returns a word in whose highest bits every bit of the given one counts.
pub(crate) fn spread(word: u64) -> u64
    ensures { result ≡ spread word }
{
    word.wrapping_mul(11400714819323198485)
}

/// Returns the word that continues this one by a number.
fn with_number(word: u64, number: u64) -> u64
    ensures { result ≡ with_number word number }
{
    spread(word).wrapping_add(number)
}

/// Returns the word that continues this one by a text.
fn text_word(key: u64, text: &str) -> u64
    ensures { result ≡ word_behind key text.now }
{
    let mut word = key;
    for byte in text.as_bytes() {
        word = with_number(word, u64::from(*byte));
    }
    word
}

/// Returns the word that continues this one by numbers.
fn numbers_word(key: u64, numbers: &[u64]) -> u64
    ensures { result ≡ word_behind key numbers.now }
{
    let mut word = key;
    for number in numbers {
        word = with_number(word, *number);
    }
    word
}

fn extra_word(extra: &MarkerValueExtra) -> u64
    ensures { result ≡ word_behind 0 (extra_text (extra_of extra.now)) }
{
    match extra {
        MarkerValueExtra::Extra(name) => text_word(0, name.as_str()),
        MarkerValueExtra::Arbitrary(text) => text_word(0, text.as_str()),
    }
}

fn version_key_rank(key: MarkerValueVersion) -> u8
    ensures { result ≡ version_key_rank key }
{
    key as u8
}

fn text_key_rank(key: MarkerValueString) -> u8
    ensures { result ≡ text_key_rank key }
{
    key as u8
}

fn operator_rank(operator: Operator) -> u8
    ensures { result ≡ operator_rank operator }
{
    operator as u8
}

fn marker_operator_rank(operator: MarkerOperator) -> u8
    ensures { result ≡ marker_operator_rank operator }
{
    operator as u8
}

fn extra_operator_rank(operator: ExtraOperator) -> u8
    ensures { result ≡ extra_operator_rank operator }
{
    operator as u8
}

/// Returns whether two versions are equal and have equally many release numbers.
fn same_version(version: &Version, other: &Version) -> bool
    ensures { result ≡ same_version version.now other.now }
{
    version == other && version.release().cmp(other.release()).is_eq()
}

fn same_text(text: &str, other: &str) -> bool
    ensures { result ≡ same_text text.now other.now }
{
    text.cmp(other).is_eq()
}

/// Returns whether two extras are the same: two names, or two texts that are not names.
pub fn is_same_extra(extra: &MarkerValueExtra, other: &MarkerValueExtra) -> bool
    ensures { result ≡ same_extra (extra_of extra.now) (extra_of other.now) }
{
    match (extra, other) {
        (MarkerValueExtra::Extra(name), MarkerValueExtra::Extra(other)) => {
            same_text(name.as_str(), other.as_str())
        }
        (MarkerValueExtra::Arbitrary(text), MarkerValueExtra::Arbitrary(other)) => {
            same_text(text.as_str(), other.as_str())
        }
        _ => false,
    }
}

fn are_opposite(operator: Operator, other: Operator) -> bool
    ensures { result ≡ are_opposite operator other }
{
    match operator.negate() {
        Some(negated) => operator_rank(negated) == operator_rank(other),
        None => false,
    }
}

fn are_opposite_texts(operator: MarkerOperator, other: MarkerOperator) -> bool
    ensures { result ≡ are_opposite_texts operator other }
{
    match operator.negate() {
        Some(negated) => marker_operator_rank(negated) == marker_operator_rank(other),
        None => false,
    }
}

fn are_opposite_extras(operator: ExtraOperator, other: ExtraOperator) -> bool
    ensures { result ≡ are_opposite_extras operator other }
{
    extra_operator_rank(operator.negate()) == extra_operator_rank(other)
}

/// Returns the word continued by the negation of an operator; 0 where it has none.
fn negated_word(word: u64, operator: Operator) -> u64
    ensures { result ≡ negated_word word operator }
{
    match operator.negate() {
        Some(negated) => with_number(word, u64::from(operator_rank(negated))),
        None => 0,
    }
}

fn negated_text_word(word: u64, operator: MarkerOperator) -> u64
    ensures { result ≡ negated_text_word word operator }
{
    match operator.negate() {
        Some(negated) => with_number(word, u64::from(marker_operator_rank(negated))),
        None => 0,
    }
}

impl Term for MarkerExpression {
    ghost same = { same_expression };

    ghost opposite = { opposite_expression };

    ghost word = { expression_word };

    ghost word_of_same = { word_of_same };

    ghost word_of_opposite = { word_of_opposite };

    ghost literal = { expression_literal };

    ghost negation = { expression_negation };

    ghost literal_of_same = { literal_of_same };

    ghost literal_of_opposite = { literal_of_opposite };

    fn is_same(&self, other: &MarkerExpression) -> bool {
        match (self, other) {
            (
                MarkerExpression::Version { key, specifier },
                MarkerExpression::Version {
                    key: other_key,
                    specifier: other,
                },
            ) => {
                version_key_rank(*key) == version_key_rank(*other_key)
                    && (operator_rank(specifier.operator()) == operator_rank(other.operator())
                        && same_version(specifier.version(), other.version()))
            }
            (
                MarkerExpression::String {
                    key,
                    operator,
                    value,
                },
                MarkerExpression::String {
                    key: other_key,
                    operator: other,
                    value: other_value,
                },
            ) => {
                text_key_rank(*key) == text_key_rank(*other_key)
                    && (marker_operator_rank(*operator) == marker_operator_rank(*other)
                        && same_text(value.as_str(), other_value.as_str()))
            }
            (
                MarkerExpression::Extra { operator, name },
                MarkerExpression::Extra {
                    operator: other,
                    name: other_name,
                },
            ) => {
                extra_operator_rank(*operator) == extra_operator_rank(*other)
                    && is_same_extra(name, other_name)
            }
            _ => false,
        }
    }

    fn is_opposite(&self, other: &MarkerExpression) -> bool {
        match (self, other) {
            (
                MarkerExpression::Version { key, specifier },
                MarkerExpression::Version {
                    key: other_key,
                    specifier: other,
                },
            ) => {
                version_key_rank(*key) == version_key_rank(*other_key)
                    && (are_opposite(specifier.operator(), other.operator())
                        && same_version(specifier.version(), other.version()))
            }
            (
                MarkerExpression::String {
                    key,
                    operator,
                    value,
                },
                MarkerExpression::String {
                    key: other_key,
                    operator: other,
                    value: other_value,
                },
            ) => {
                text_key_rank(*key) == text_key_rank(*other_key)
                    && (are_opposite_texts(*operator, *other)
                        && same_text(value.as_str(), other_value.as_str()))
            }
            (
                MarkerExpression::Extra { operator, name },
                MarkerExpression::Extra {
                    operator: other,
                    name: other_name,
                },
            ) => are_opposite_extras(*operator, *other) && is_same_extra(name, other_name),
            _ => false,
        }
    }

    fn word(&self) -> u64 {
        match self {
            MarkerExpression::Version { key, specifier } => {
                let key = u64::from(version_key_rank(*key));
                numbers_word(key, specifier.version().release())
            }
            MarkerExpression::VersionIn { .. } => 0,
            MarkerExpression::String {
                key,
                operator: _,
                value,
            } => text_word(u64::from(text_key_rank(*key)), value.as_str()),
            MarkerExpression::Extra { operator: _, name } => extra_word(name),
        }
    }

    fn literal(&self) -> u64 {
        let word = self.word();
        match self {
            MarkerExpression::Version { key: _, specifier } => {
                with_number(word, u64::from(operator_rank(specifier.operator())))
            }
            MarkerExpression::VersionIn { .. } => 0,
            MarkerExpression::String { operator, .. } => {
                with_number(word, u64::from(marker_operator_rank(*operator)))
            }
            MarkerExpression::Extra { operator, name: _ } => {
                with_number(word, u64::from(extra_operator_rank(*operator)))
            }
        }
    }

    fn negation(&self) -> u64 {
        let word = self.word();
        match self {
            MarkerExpression::Version { key: _, specifier } => {
                negated_word(word, specifier.operator())
            }
            MarkerExpression::VersionIn { .. } => 0,
            MarkerExpression::String { operator, .. } => negated_text_word(word, *operator),
            MarkerExpression::Extra { operator, name: _ } => {
                with_number(word, u64::from(extra_operator_rank(operator.negate())))
            }
        }
    }
}
