//! Laws of reading printed markers and requirements. The functions do nothing: each one's contract is its
//! law.
ghost use Rattle.std.specs.Prelude.{◌≡◌, ◌≢◌, ℕ, false, List, Option, Some, None};
ghost use Rattle.std.specs.Str.{chars, IsUtf8};
ghost use Rattle.pep508_marker.specs.Expression.{ExpressionRecord, expression_text};
ghost use Rattle.pep508_diagram.specs.Diagram.{Diagram, Leaf};
ghost use Rattle.pep508_diagram.specs.Question.{Question, Valuation, truth, IsCanonical};
ghost use Rattle.pep508_diagram.specs.Shortened.{HasShortVersions};
ghost use Rattle.pep508_marker_parser.specs.MarkerReading.{Marker};
ghost use Rattle.pep508_marker_parser.specs.MarkerText.{IsMarkerText};
ghost use Rattle.pep508_marker_text_laws.specs.MarkerText.{clauses_text, marker_text};
ghost use Rattle.pep508_marker_text_laws.specs.Saying.{Clause};
ghost use Rattle.pep508_reading_back.specs.Clauses.{AreReadable, ReadsClauses};
ghost use Rattle.pep508_reading_back.specs.Diagrams.{IsReadableDiagram, SaysDiagram, ReadsDiagram};
ghost use Rattle.pep440_specifier.specs.Matching.{SpecifierRecord};
ghost use Rattle.pep440_specifier_list.specs.Lists.{IsInOrder};
ghost use Rattle.pep508_requirement_text.specs.FrontReading.{Front};
ghost use Rattle.pep508_requirement_text.specs.FrontReading.Source.{Specifiers};
ghost use Rattle.pep508_requirement.specs.MarkerBehind.{no_marker};
ghost use Rattle.pep508_requirement.specs.RequirementText.{IsMarkedText};
ghost use Rattle.pep508_reading_back.specs.Readable.{IsReadable, marker_of};
ghost use Rattle.pep508_reading_back.specs.ReadableRequirements.{IsReadableFront, NamesNoUrl};
ghost use Rattle.pep508_reading_back.specs.ReadableRequirements.{ReadsRequirement};
ghost use Rattle.pep508_requirement_ref.specs.RequirementPrint.{requirement_text};
ghost use Rattle.pep508_url.specs.Vars.{Variables};
ghost use Rattle.pep508_tree.specs.Meaning.{NodeRecord, holds};
ghost use Rattle.pep508_requirement.specs.RequirementReading.{AsksFor, IsRead};
ghost use Rattle.pep508_requirement.specs.RequirementReading as reading;
ghost use Rattle.pep508_marker_parser.specs.Formula.{Formula, formula_holds};
ghost use Rattle.pep508_expression.specs.Expressions.{expression_holds};
ghost use Rattle.pep508_reading_back.specs.Told.{questions_of, AsksOf, IsTold};
ghost use Rattle.pep508_reading_back.specs.Lines.{IsPieceOf, IsLine, IsWholeLine};
ghost use Rattle.pep508_reading_back.specs.Views.{IsReadableView, ReadsBack};
ghost use Rattle.pep508_reading_back.specs.ReadViews.{AsksNoUrl, KeepsFront, ShowsRead};
ghost use Rattle.pep508_reading_back.specs.Unquoted.{IsPlainDiagram, IsUnquotedDiagram};
ghost use Rattle.pep508_tree_ref.specs.Lent.{tree_in};
ghost use Rattle.pep508_tree_ref.specs.TreeIn.{diagram_in};
ghost use Rattle.pep508_reading_back.specs.Asked.{AnswerAlike, IsAmong};
ghost use Rattle.pep508_diagram.specs.Questions.{AllQuestions};
ghost use Rattle.pep508_reading_back.specs.Writable.{IsWritableDiagram};

use pep508_requirement::laws::{
    a_read_requirement_is_written, a_written_requirement_is_not_refused,
    a_written_requirement_is_read,
};
use pep508_requirement_ref::RequirementRef;
use pep508_url::Pep508Url;
use std::fmt;

/// A printed comparison that a text can contain is read as that very comparison, with a warning only for an
/// extra whose text is not a name.
pub fn a_printed_comparison_is_read()
    ensures { (term : ExpressionRecord) → IsReadable term
        → IsMarkerText (chars (expression_text term)) (marker_of term) }
{}

/// Printed clauses, those of several comparisons in brackets, are read as a marker that holds where one of
/// the clauses does.
pub fn printed_clauses_are_read()
    ensures { (clauses : List Clause) → AreReadable clauses
        → ReadsClauses (chars (clauses_text clauses)) clauses }
{}

/// The text of a diagram is read as a marker that holds exactly where the diagram does, if the diagram's
/// versions are releases of epoch 0, its texts have no single quote and its keys are not old names. Nothing
/// is written for what holds always; what never holds is not covered, as `python_version < '0'` is written
/// for it.
pub fn a_printed_marker_means_its_diagram()
    ensures { (diagram : Diagram Question) (text : List ℕ) → IsCanonical diagram → IsReadableDiagram diagram
        → diagram ≢ Leaf false → marker_text diagram ≡ Some text → ReadsDiagram (chars text) diagram }
{}

/// A printed requirement without a URL, whose names are normal and whose specifiers a text can contain, is
/// read with its name, its extras and its specifiers: without a marker, and with whatever marker is read
/// from the text after the `;`.
pub fn a_printed_requirement_is_read()
    ensures plain { (front : Front) → IsReadableFront front
        → IsMarkedText (requirement_text front None) front no_marker }
    ensures marked { (front : Front) (text : List ℕ) (marker : Marker) → IsReadableFront front
        → IsMarkerText (chars text) marker → IsMarkedText (requirement_text front (Some text)) front marker }
{}

/// A requirement without a URL that is printed with the text of a readable diagram is read with a marker
/// that holds exactly where the diagram does; where that is always, no marker is written.
pub fn a_printed_requirement_means_its_diagram()
    ensures { (front : Front) (diagram : Diagram Question) → IsReadableFront front → IsCanonical diagram
        → IsReadableDiagram diagram → diagram ≢ Leaf false
        → ReadsRequirement (requirement_text front (marker_text diagram)) front diagram }
{}

/// Whatever requirement is read from the print of a readable requirement without a URL has the name, the
/// extras and the specifiers that were printed, and a tree that holds exactly where the printed diagram
/// does.
pub fn a_printed_requirement_reads_back<T: Pep508Url>()
    ensures { (vars : Variables) (directory : Option (List ℕ)) (nodes : List NodeRecord) (front : Front)
        (diagram : Diagram Question) (r : _) → IsReadableFront front → IsCanonical diagram
        → IsReadableDiagram diagram → diagram ≢ Leaf false
        → IsRead (λ url. T.reads vars url directory) nodes (requirement_text front (marker_text diagram)) r
        → (r.name ≡ front.name) × (r.extras.items ≡ front.extras)
        × AsksFor (λ url. T.reads vars url directory) front.source r.version_or_url
        × ((v : Valuation) → holds nodes r.marker v ≡ truth diagram v) }
{
    a_written_requirement_is_read();
}

/// The print of a readable requirement with its interner, as its `to_string` returns it, is read by
/// `Requirement::parse` with any interner, unless memory runs out: with its name, its extras and its
/// specifiers, and a tree that means what its marker does.
pub fn a_printed_view_reads_back<'a, T: Pep508Url>(shown: &RequirementRef<'a, T>)
    ensures { (vars : Variables) (directory : Option (List ℕ)) (nodes : List NodeRecord) (text : List ℕ)
        (answer : _) → IsReadableView shown.now
        → ⟦<RequirementRef<'a, T> as fmt::Display>⟧.output shown.now ≡ Some text
        → reading.ReadsRequirement (λ url. T.reads vars url directory) T.lacks_memory vars nodes text answer
        → ReadsBack nodes shown.now answer }
{
    shown.is_canonical();
    a_written_requirement_is_read();
    a_written_requirement_is_not_refused::<T>();
}

/// Whatever marker is printed reads as one again, though perhaps with another meaning: of each diagram
/// whose versions a text can contain and whose texts have no single quote, whatever its keys and its
/// bounds.
pub fn a_printed_marker_is_a_marker()
    ensures { (diagram : Diagram Question) (text : List ℕ) → IsCanonical diagram → IsWritableDiagram diagram
        → marker_text diagram ≡ Some text → (marker : Marker) × IsMarkerText (chars text) marker }
{}

/// The diagram of a marker whose truth depends only on some questions has just these questions, up to the
/// spelling of equal versions.
pub fn a_marker_asks_what_its_meaning_asks()
    ensures { (asked : List Question) (diagram : Diagram Question) → IsCanonical diagram
        → ((v w : Valuation) → AnswerAlike asked v w → truth diagram v ≡ truth diagram w)
        → AllQuestions (IsAmong asked) diagram }
{}

/// Under valuations that answer the questions of a formula's comparisons alike, it has the same truth.
pub fn a_formula_hangs_on_its_questions()
    ensures { (f : Formula ExpressionRecord) (v w : Valuation) → AnswerAlike (questions_of f) v w →
        formula_holds (λ t. expression_holds t v) f ≡ formula_holds (λ t. expression_holds t w) f }
{}

/// The diagram of a marker that was read from a text, as interners keep it, tests only what texts can
/// express: versions and texts that could be in it, and extras by their normal names.
pub fn a_read_marker_asks_what_texts_say()
    ensures { (text : List ℕ) (front : Front) (marker : Marker) (diagram : Diagram Question) → IsUtf8 text
        → IsMarkedText text front marker → IsCanonical diagram
        → HasShortVersions diagram → SaysDiagram diagram marker → AllQuestions IsTold diagram }
{}

/// The texts of the diagram of a marker that was read are pieces of the text that was read, but for the
/// normal names of extras.
pub fn a_read_marker_asks_pieces_of_its_text()
    ensures { (text : List ℕ) (front : Front) (marker : Marker) (diagram : Diagram Question)
        → IsUtf8 text → IsMarkedText text front marker → IsCanonical diagram → HasShortVersions diagram
        → SaysDiagram diagram marker → AllQuestions (AsksOf (IsPieceOf text)) diagram }
{}

/// The part of a text before its marker, without a URL, is read so that its print can be read again: its
/// names and its specifiers, in the order given or as lists keep them.
pub fn a_read_front_is_readable()
    ensures given { (text : List ℕ) (front : Front) (marker : Marker) → IsMarkedText text front marker
        → NamesNoUrl front.source → IsReadableFront front }
    ensures kept { (text : List ℕ) (front : Front) (marker : Marker) (given list : List SpecifierRecord)
        → IsMarkedText text front marker → front.source ≡ Specifiers given → IsInOrder given list
        → IsReadableFront (record front { source = Specifiers list }) }
{}

/// A printed requirement is one line and has no comment, where the texts of its marker are pieces of such a
/// line: so a line of its print can replace the line that was read.
pub fn a_printed_requirement_is_a_line()
    ensures { (line : List ℕ) (front : Front) (diagram : Diagram Question) → IsLine line
        → IsReadableFront front → AllQuestions (AsksOf (IsPieceOf line)) diagram
        → IsWholeLine (requirement_text front (marker_text diagram)) }
{}

/// The print, with its interner, of a requirement that was read from a line, without a URL, is one line
/// again, and has no comment.
pub fn a_read_line_prints_a_line<'a, T: Pep508Url>(shown: &RequirementRef<'a, T>)
    ensures { (vars : Variables) (directory : Option (List ℕ)) (line text : List ℕ) → IsLine line
        → ShowsRead (λ url. T.reads vars url directory) line shown.now
        → AsksNoUrl shown.now.version_or_url.now
        → ⟦<RequirementRef<'a, T> as fmt::Display>⟧.output shown.now ≡ Some text → IsWholeLine text }
{
    shown.is_canonical();
    a_read_requirement_is_written::<T>();
}

/// The print, with its interner, of a requirement that was read without a URL is read by
/// `Requirement::parse` with any interner, unless memory runs out, with its name, its extras and its
/// specifiers: where no text of its marker has a single quote, which a text in double quotes may have.
pub fn a_read_requirement_reads_back<'a, T: Pep508Url>(shown: &RequirementRef<'a, T>)
    ensures { (vars others : Variables) (directory other : Option (List ℕ)) (given text : List ℕ)
        (nodes : List NodeRecord) (answer : _) → IsUtf8 given
        → ShowsRead (λ url. T.reads vars url directory) given shown.now
        → AsksNoUrl shown.now.version_or_url.now
        → IsUnquotedDiagram (diagram_in (tree_in shown.now.marker))
        → ⟦<RequirementRef<'a, T> as fmt::Display>⟧.output shown.now ≡ Some text
        → reading.ReadsRequirement (λ url. T.reads others url other) T.lacks_memory others nodes text answer
        → KeepsFront shown.now answer }
{
    shown.is_canonical();
    a_read_requirement_is_written::<T>();
    a_written_requirement_is_read();
    a_written_requirement_is_not_refused::<T>();
}

/// The marker of a requirement that was read without a URL reads back too, as a tree that means the same:
/// where its texts have no single quote, its versions are releases of epoch 0, its keys are not old names,
/// and it sometimes holds.
pub fn a_read_marker_reads_back<'a, T: Pep508Url>(shown: &RequirementRef<'a, T>)
    ensures { (vars others : Variables) (directory other : Option (List ℕ)) (given text : List ℕ)
        (nodes : List NodeRecord) (answer : _) → IsUtf8 given
        → ShowsRead (λ url. T.reads vars url directory) given shown.now
        → AsksNoUrl shown.now.version_or_url.now → IsPlainDiagram (diagram_in (tree_in shown.now.marker))
        → ⟦<RequirementRef<'a, T> as fmt::Display>⟧.output shown.now ≡ Some text
        → reading.ReadsRequirement (λ url. T.reads others url other) T.lacks_memory others nodes text answer
        → ReadsBack nodes shown.now answer }
{
    shown.is_canonical();
    a_read_requirement_is_written::<T>();
    a_printed_view_reads_back(shown);
}
