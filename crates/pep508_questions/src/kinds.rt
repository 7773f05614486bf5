//! The kinds of the questions of one node.

ghost use Rattle.std.specs.Prelude.{◌≡◌, ◌^◌, false, not, nat_lt, [], ◌∷◌, map};
ghost use Rattle.std.specs.List.{list_any};
ghost use Rattle.pep508_diagram.specs.declared.variable.VersionVariable.{VersionVariable};
ghost use Rattle.pep508_diagram.specs.Question.{VersionBelow, TextBelow, IsSet};
ghost use Rattle.pep508_questions.specs.Asks.{stands_at, is_quoted, flag_has_quote};
ghost use Rattle.pep508_questions.specs.Asks.{flag_is_of_deprecated_key};
ghost use Rattle.pep508_questions.specs.Asks.{is_other_version};
ghost use Rattle.pep508_questions.specs.Looked.{asked_among};

use crate::questions::Asked;
use pep440_version::Version;
use pep508_diagram::{Branch, Flag, MarkerText};
use pep508_marker::MarkerValueString;
use pep508_tree::MarkerTree;
use version_ranges::Boundary;

/// Returns whether a character of the text is a single quote.
fn is_quoted(text: &str) -> bool
    ensures { result ≡ is_quoted text.now }
{
    for c in text.chars() {
        if c == '\'' {
            return true;
        }
    }
    false
}

/// Shows that the numbers are of 64 bits. Does nothing.
fn numbers_fit(numbers: &[u64])
    ensures { list_any (λ number. not (nat_lt number (2 ^ 64))) numbers.now ≡ false }
{}

/// Returns whether the version has more than epoch 0 and release numbers.
fn is_other_version(version: &Version) -> bool
    ensures { result ≡ is_other_version version.now }
{
    numbers_fit(version.release());
    version.epoch() != 0
        || version.pre().is_some()
        || version.post().is_some()
        || version.dev().is_some()
        || version.is_local()
        || version.min().is_some()
        || version.max().is_some()
}

fn stands_at_quote(boundary: &Boundary<MarkerText>) -> bool
    ensures { result ≡ stands_at is_quoted boundary.now }
{
    match boundary {
        Boundary::At(text) => is_quoted(text.as_str()),
        Boundary::JustAbove(text) => is_quoted(text.as_str()),
    }
}

fn stands_at_other(boundary: &Boundary<Version>) -> bool
    ensures { result ≡ stands_at is_other_version boundary.now }
{
    match boundary {
        Boundary::At(version) => is_other_version(version),
        Boundary::JustAbove(version) => is_other_version(version),
    }
}

fn have_quote(later: &[Branch<MarkerText, MarkerTree>]) -> bool
    ensures { result ≡ list_any (λ branch. stands_at is_quoted branch.boundary) later.now }
{
    for branch in later {
        if stands_at_quote(&branch.boundary) {
            return true;
        }
    }
    false
}

fn have_other(later: &[Branch<Version, MarkerTree>]) -> bool
    ensures { result ≡ list_any (λ branch. stands_at is_other_version branch.boundary) later.now }
{
    for branch in later {
        if stands_at_other(&branch.boundary) {
            return true;
        }
    }
    false
}

/// Returns the kinds of the questions between versions of a key.
pub(crate) fn asked_of_versions(later: &[Branch<Version, MarkerTree>]) -> Asked
    ensures { (key : VersionVariable) →
        result ≡ asked_among (map (λ branch. VersionBelow key branch.boundary) later.now) }
{
    Asked {
        single_quote: false,
        deprecated_key: false,
        other_bound: have_other(later),
    }
}

/// Returns the kinds of the questions between texts of a key; none where there is no endpoint.
pub(crate) fn asked_of_texts(
    key: MarkerValueString,
    later: &[Branch<MarkerText, MarkerTree>],
) -> Asked
    ensures { result ≡ asked_among (map (λ branch. TextBelow key branch.boundary) later.now) }
{
    Asked {
        single_quote: have_quote(later),
        deprecated_key: key.is_deprecated() && !later.is_empty(),
        other_bound: false,
    }
}

fn flag_has_quote(flag: &Flag) -> bool
    ensures { result ≡ flag_has_quote flag.now }
{
    match flag {
        Flag::In(_, text) => is_quoted(text.as_str()),
        Flag::Contains(_, text) => is_quoted(text.as_str()),
        Flag::Extra(_) => false,
        Flag::Arbitrary(text) => is_quoted(text.as_str()),
    }
}

fn flag_is_of_deprecated_key(flag: &Flag) -> bool
    ensures { result ≡ flag_is_of_deprecated_key flag.now }
{
    match flag {
        Flag::In(key, _) => key.is_deprecated(),
        Flag::Contains(key, _) => key.is_deprecated(),
        Flag::Extra(_) => false,
        Flag::Arbitrary(_) => false,
    }
}

/// Returns the kinds of a flag's question.
pub(crate) fn asked_of_flag(flag: &Flag) -> Asked
    ensures { result ≡ asked_among (IsSet flag.now ∷ []) }
{
    Asked {
        single_quote: flag_has_quote(flag),
        deprecated_key: flag_is_of_deprecated_key(flag),
        other_bound: false,
    }
}
