//! Markers.

ghost use Rattle.std.specs.Prelude.{◌≡◌, ◌≢◌, if◌then◌else◌, chars, IfOk, IfErr, OnOk, None};
ghost use Rattle.pep508_tree.specs.Meaning.{Extends};
ghost use Rattle.pep508_evaluation.specs.Valuations.{valuation_of};
ghost use Rattle.pep508_error.specs.Errors.{told_error};
ghost use Rattle.pep508_marker_parser.specs.MarkerReading.{marker_at};
ghost use Rattle.reqs_c_reply.specs.Endings.{EndsIn, NoAnswer, RepliesAs, ending_of};
ghost use Rattle.reqs_c_markers.specs.Markers.{AreFew, CheckedEnds, IsFormulaIn, IsMarkerTree, MarkerEnds};
ghost use Rattle.reqs_c_markers.specs.Markers.{RefusesMarker, RefusesTree, RefusesTreeOf, held_mark, mark_in};

use crate::bounds::{Bounds, tree_within};
use crate::normal_texts::normal_text;
use crate::refused_text::refused;
use pep508_environment::MarkerEnvironment;
use pep508_error::{Pep508Error, Pep508ErrorSource};
use pep508_formula::MarkerFormula;
use pep508_formula_truth::holds_in;
use pep508_marker::Silent;
use pep508_marker_parser::{parse_formula, tree_of};
use pep508_name::ExtraName;
use pep508_tree::{Interner, MarkerTree};
use pep508_url::VerbatimUrl;
use reqs_c_reply::{Ended, Reply, text_of};
use std::alloc::{AllocError, Global};
use std::str;

/// Replies with an empty text if a text is a marker (PEP 508, "Environment Markers"). Makes no tree: linear
/// in the text, except that n versions which a key is compared with at once need O(n log n) comparisons.
///
/// # Errors
///
/// Refuses a text that is not a marker, at the byte where it stops being one. Status 3 when memory runs out.
pub fn marker_check(alloc: Global, bytes: &[u8], out: &mut [u8]) -> Reply
    ensures { RepliesAs (CheckedEnds bytes.now) out.old out.new result }
{
    checked(alloc, bytes).reply(out)
}

/// The end of the call that only reads.
fn checked(alloc: Global, bytes: &[u8]) -> Ended
    ensures { CheckedEnds bytes.now (ending_of result) }
{
    match read_formula(alloc, 1, bytes) {
        Ok(_) => Ended::Answered(Vec::new(alloc)),
        Err(ended) => ended,
    }
}

/// Replies with the normal text of a marker (PEP 508, "Environment Markers"): markers that hold under the
/// same valuations have the same, and it can be read as such a marker. It is empty if the marker always
/// holds.
///
/// Needs time and memory for as many nodes and clauses as `bounds` allow, and both may grow exponentially
/// with the text.
///
/// # Errors
///
/// Refuses, in this order: a text that is not a marker, at the byte where it stops being one; a marker whose
/// tree needs more nodes than the bound; one without a normal text, with the first cause of `TextFault`, in
/// the order of its variants; and one with more clauses than the bound. Status 3 when memory runs out.
pub fn marker(alloc: Global, bytes: &[u8], bounds: Bounds, out: &mut [u8]) -> Reply
    ensures { RepliesAs (MarkerEnds bounds bytes.now) out.old out.new result }
{
    own_text(alloc, bytes, bounds).reply(out)
}

/// The end of the call that replies with the normal text.
fn own_text(alloc: Global, bytes: &[u8], bounds: Bounds) -> Ended
    ensures { MarkerEnds bounds bytes.now (ending_of result) }
{
    let mut interner = Interner::with_most(alloc, bounds.nodes);
    match read_marker(alloc, &mut interner, 1, bytes, bounds.nodes) {
        Ok(tree) => normal_text(alloc, &interner, tree, bounds.clauses),
        Err(ended) => ended,
    }
}

/// The tree of the marker in an argument. Linear in the text except for combining trees.
///
/// # Errors
///
/// How the call ends: refused at argument `input` if it is not a marker, and then if the interner has more
/// than `most` nodes; or out of memory.
pub fn read_marker(
    alloc: Global,
    interner: &mut Interner,
    input: u32,
    bytes: &[u8],
    most: usize,
) -> Result<MarkerTree, Ended>
    ensures tree { IfOk result (IsMarkerTree interner.new.nodes bytes.now) }
    ensures few { IfOk result (λ tree. AreFew most interner.new.nodes) }
    ensures none { IfErr result (λ ended.
        EndsIn NoAnswer (RefusesTree input most bytes.now) (ending_of ended)) }
    ensures past { IfErr result (λ ended.
        EndsIn NoAnswer (RefusesTreeOf input most interner.new.nodes bytes.now) (ending_of ended)) }
    ensures keeps { Extends interner.old.nodes interner.new.nodes }
{
    let formula = read_formula(alloc, input, bytes)?;
    let made = tree_of(alloc, interner, &formula);
    tree_within(alloc, interner, input, most, made)
}

/// The formula of the marker in an argument; its warnings are dropped.
///
/// # Errors
///
/// How the call ends: refused at argument `input` if it is not a marker, or out of memory.
pub fn read_formula(alloc: Global, input: u32, bytes: &[u8]) -> Result<MarkerFormula, Ended>
    ensures formula { IfOk result (IsFormulaIn bytes.now) }
    ensures none { IfErr result (λ ended.
        EndsIn NoAnswer (RefusesMarker input bytes.now) (ending_of ended)) }
{
    let text = text_of(alloc, input, bytes)?;
    match parse_formula(alloc, text, &mut Silent) {
        Ok(formula) => Ok(formula),
        Err(error) => Err(refused(alloc, input, &error)),
    }
}

/// The byte `1` if the marker on a line holds in an environment with extras, `0` if it doesn't, `?` if the
/// line is not a marker. Makes no tree: linear in the line, except that n versions which a key is compared
/// with at once need O(n log n) comparisons.
///
/// # Errors
///
/// `AllocError` when memory runs out.
pub fn mark_of_line(
    alloc: Global,
    line: &[u8],
    environment: &MarkerEnvironment,
    extras: &[ExtraName],
) -> Result<u8, AllocError>
    ensures { IfOk result (λ mark. mark ≡ mark_in (valuation_of environment.now extras.now) line.now) }
{
    match str::from_utf8(line) {
        Ok(text) => mark_of_text(alloc, text, environment, extras),
        Err(_) => Ok(b'?'),
    }
}

fn mark_of_text(
    alloc: Global,
    text: &str,
    environment: &MarkerEnvironment,
    extras: &[ExtraName],
) -> Result<u8, AllocError>
    ensures { IfOk result (λ mark.
        mark ≡ held_mark (valuation_of environment.now extras.now) (marker_at (chars text.now))) }
{
    match parse_formula(alloc, text, &mut Silent) {
        Ok(formula) => Ok(mark_of(holds_in(alloc, &formula, environment, extras)?)),
        Err(error) => mark_of_error(&error),
    }
}

/// The byte for a marker that holds, or doesn't.
fn mark_of(holds: bool) -> u8
    ensures { result ≡ (if holds then 49 else 48) }
{
    if holds { b'1' } else { b'0' }
}

/// The byte for a text that is not a marker.
fn mark_of_error(error: &Pep508Error<VerbatimUrl>) -> Result<u8, AllocError>
    ensures question { IfOk result (λ mark. mark ≡ 63) }
    ensures told { OnOk result (told_error error.now ≢ None) }
{
    match error.message() {
        Pep508ErrorSource::Memory => Err(AllocError),
        _ => Ok(b'?'),
    }
}
