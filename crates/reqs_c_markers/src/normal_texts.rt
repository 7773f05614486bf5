//! Normal texts of marker trees.

ghost use Rattle.std.specs.Prelude.{◌≡◌, ◌<◌, unwrap_or, Some, None, IfOk, string_bytes, []};
ghost use Rattle.pep508_diagram.specs.Diagram.{Diagram};
ghost use Rattle.pep508_diagram.specs.Question.{Question};
ghost use Rattle.pep508_tree.specs.Meaning.{IsTree, diagram_of};
ghost use Rattle.pep508_marker_text_laws.specs.MarkerText.{marker_text};
ghost use Rattle.pep508_marker_display.specs.Counted.{clause_count};
ghost use Rattle.pep508_questions.specs.Asks.{asked_by};
ghost use Rattle.reqs_c_reply.specs.Endings.{EndsIn, NoAnswer, ending_of};
ghost use Rattle.reqs_c_markers.specs.NormalTexts.{IsNormalDiagram, DiagramEnds, HasNoText, HasMoreClauses};
ghost use Rattle.reqs_c_markers.specs.NormalTexts.{never_holds, text_fault, text_fault_words};

use pep508_marker_display::{MarkerTreeText, has_more_clauses};
use pep508_questions::{Asked, MarkerTreeQuestions};
use pep508_tree::{Interner, MarkerTree};
use reqs_c_reply::{Ended, Place};
use std::alloc::{AllocError, Global};

/// Why a marker has no normal text. This is decided by what its truth depends on, not by how it was written.
#[derive(Clone, Copy, Debug, PartialEq, Eq)]
pub enum TextFault {
    /// The marker depends on a string with a single quote, which can't be written in single quotes.
    SingleQuote,
    /// The marker depends on a key with a deprecated name, as `os.name`, which prints under its new name.
    DeprecatedKey,
    /// The marker depends on a version that is more than release numbers of epoch 0, which can't be printed
    /// in a marker.
    VersionBound,
    /// The marker never holds, which has no text without a comparison of some arbitrary key.
    NeverHolds,
}

impl TextFault {
    /// The cause in two words.
    fn as_str(self) -> &'static str
        ensures { result.now ≡ text_fault_words self }
    {
        match self {
            TextFault::SingleQuote => "single quote",
            TextFault::DeprecatedKey => "deprecated key",
            TextFault::VersionBound => "version bound",
            TextFault::NeverHolds => "never holds",
        }
    }
}

/// The end of a call that replies with the normal text of a tree, which is empty if the tree always holds, or
/// refuses the first argument with the reason why there is none, or because it has more than `most` clauses.
///
/// Visits each node of the tree once, and then at most `most + 1` of the paths from its root. The text may be
/// exponentially longer than the tree, and is only made if there is no such reason.
#[tactic(auto, using(crate::proofs::Diagrams::normal))]
pub fn normal_text(alloc: Global, interner: &Interner, tree: MarkerTree, most: usize) -> Ended
    requires { IsTree interner.now.nodes tree }
    ensures ends { DiagramEnds most (diagram_of interner.now.nodes tree) (ending_of result) }
    ensures normal { IsNormalDiagram (diagram_of interner.now.nodes tree) }
{
    interner.are_sound();
    match fault_of(alloc, interner, tree) {
        Ok(None) => text_within(alloc, interner, tree, most),
        Ok(Some(fault)) => refused_for(alloc, fault),
        Err(_) => Ended::OutOfMemory,
    }
}

/// The end of a call whose marker has a normal text, unless it has more than `most` clauses.
fn text_within(alloc: Global, interner: &Interner, tree: MarkerTree, most: usize) -> Ended
    requires made { IsTree interner.now.nodes tree }
    requires no_fault { text_fault (diagram_of interner.now.nodes tree) ≡ None }
    ensures { DiagramEnds most (diagram_of interner.now.nodes tree) (ending_of result) }
{
    match has_more_clauses(alloc, tree, interner, most) {
        Ok(true) => more_clauses(alloc, most),
        Ok(false) => Ended::answered(tree_text(alloc, interner, tree)),
        Err(_) => Ended::OutOfMemory,
    }
}

/// The end of a call whose marker has more than `most` clauses.
fn more_clauses(alloc: Global, most: usize) -> Ended
    ensures { (diagram : Diagram Question) → text_fault diagram ≡ None → most < clause_count diagram →
        EndsIn NoAnswer (HasMoreClauses most diagram) (ending_of result) }
{
    Ended::refused(
        Place::span(1, 0, 0),
        format!(in alloc; "more than {most} clauses"),
    )
}

/// The reason why a tree has no normal text, or `None` if it has one.
fn fault_of(
    alloc: Global,
    interner: &Interner,
    tree: MarkerTree,
) -> Result<Option<TextFault>, AllocError>
    requires { IsTree interner.now.nodes tree }
    ensures { IfOk result (λ fault. fault ≡ text_fault (diagram_of interner.now.nodes tree)) }
{
    let asked = tree.asked(alloc, interner)?;
    Ok(first_fault(asked, never_holds(interner, tree)))
}

/// The first reason why a marker with these questions has no normal text.
fn first_fault(asked: Asked, never: bool) -> Option<TextFault>
    ensures { (diagram : Diagram Question) → asked ≡ asked_by diagram → never ≡ never_holds diagram →
        result ≡ text_fault diagram }
{
    if asked.single_quote {
        Some(TextFault::SingleQuote)
    } else if asked.deprecated_key {
        Some(TextFault::DeprecatedKey)
    } else if asked.other_bound {
        Some(TextFault::VersionBound)
    } else if never {
        Some(TextFault::NeverHolds)
    } else {
        None
    }
}

/// Whether a tree never holds.
fn never_holds(interner: &Interner, tree: MarkerTree) -> bool
    requires { IsTree interner.now.nodes tree }
    ensures { result ≡ never_holds (diagram_of interner.now.nodes tree) }
{
    interner.are_sound();
    tree.is_false()
}

/// The end of a call whose marker has no normal text.
fn refused_for(alloc: Global, fault: TextFault) -> Ended
    ensures { (diagram : Diagram Question) → text_fault diagram ≡ Some fault →
        EndsIn NoAnswer (HasNoText diagram) (ending_of result) }
{
    let words = fault.as_str();
    Ended::refused(
        Place::span(1, 0, 0),
        format!(in alloc; "no normal text: {words}"),
    )
}

/// The print of a tree, which is empty if it always holds.
fn tree_text(alloc: Global, interner: &Interner, tree: MarkerTree) -> Result<String, AllocError>
    requires { IsTree interner.now.nodes tree }
    ensures { IfOk result (λ text. string_bytes text
        ≡ unwrap_or (marker_text (diagram_of interner.now.nodes tree)) []) }
{
    match tree.try_to_string(alloc, interner)? {
        Some(text) => Ok(text),
        None => Ok(String::new(alloc)),
    }
}
