//! Laws about the definitions that the contracts cite. The functions do nothing: each one's contract is its
//! law.

ghost use Rattle.std.specs.Prelude.{◌≡◌, ◌↔◌, ℕ, List, All, map, Ok, Err};
ghost use Rattle.std.specs.List.{AllZip};
ghost use Rattle.std.specs.List.Sorted.{IsPermutation, IsStrictlySortedBy};
ghost use Rattle.std.specs.Ordering.{nat_cmp};
ghost use Rattle.std.specs.Str.{IsUtf8};
ghost use Rattle.pep440_specifier.specs.Building.{IsBuilt};
ghost use Rattle.pep440_specifier_list.specs.ListReading.{IsReadFromText};
ghost use Rattle.pep508_diagram.specs.Question.{Valuation};
ghost use Rattle.pep508_url.specs.Vars.{Variables};
ghost use Rattle.pep508_tree.specs.Meaning.{NodeRecord, Extends};
ghost use Rattle.reqtable_candidates.specs.TextLines.{text_lines};
ghost use Rattle.reqtable_candidates.specs.declared.candidates.Candidate.{Candidate};
ghost use Rattle.reqtable_answer.specs.Answer.{Admits, RowRecord, IsRow, IsAnswer};
ghost use Rattle.reqtable_requirements.specs.Asks.{line_said, lines_of, asks_of, AreOfNodes};
ghost use Rattle.reqtable_requirements.specs.FirstRefused.{HasNumberAtEnd, IsNoRequirement, IsFirstRefused};
ghost use Rattle.reqtable_requirements.specs.LineReading.{LineRecord, NoRequirement, NumberAtEnd, line_of};
ghost use Rattle.reqtable_requirements.specs.LineSpecifiers.{specifiers_in};
ghost use Rattle.reqtable_requirements.specs.LineText.{IsRequirementLine, IsRequirementsText};
ghost use Rattle.reqtable_requirements.specs.Requirements.{requirements_of, ReadsRequirements, StandsFor};
ghost use Rattle.reqtable_requirements.specs.declared.requirements.Line.{Line};

use pep440_specifier::laws::{a_read_specifier_is_built, specifier_text_is_read};
use pep508_marker_parser::laws::{a_read_marker_is_written, a_written_marker_is_read};
use pep508_requirement_text::laws::{a_read_front_is_written, a_written_front_is_read};

/// A text is read as a requirement line exactly if the grammar says that it is that line's text.
pub fn requirement_line_is_read()
    ensures { (vars : Variables) (number : ℕ) (text : List ℕ) (line : LineRecord) →
        (line_of vars number text ≡ Ok line) ↔ (IsRequirementLine vars text line × (line.number ≡ number)) }
{
    a_read_front_is_written();
    a_written_front_is_read();
    a_read_marker_is_written();
    a_written_marker_is_read();
}

/// A text is that of at most one requirement line, apart from the line's number.
pub fn text_is_one_requirement_line()
    ensures { (vars : Variables) (text : List ℕ) (line other : LineRecord) →
        IsRequirementLine vars text line → IsRequirementLine vars text other →
        line.number ≡ other.number → line ≡ other }
{
    a_written_front_is_read();
    a_written_marker_is_read();
}

/// Bytes are read as a requirements text exactly if they are the text of these lines.
pub fn requirements_are_their_lines()
    ensures { (vars : Variables) (bytes : List ℕ) (lines : List LineRecord) →
        (requirements_of vars bytes ≡ Ok lines) ↔ IsRequirementsText vars bytes lines }
{
    a_read_front_is_written();
    a_written_front_is_read();
    a_read_marker_is_written();
    a_written_marker_is_read();
}

/// The error has the number of the first line that is not a requirement, and whether its marker has a number
/// that can't be raised or the line is invalid for another reason.
pub fn first_line_at_fault_is_named()
    ensures none { (vars : Variables) (bytes : List ℕ) (number : ℕ) →
        (requirements_of vars bytes ≡ Err (NoRequirement number)) ↔
        (IsUtf8 bytes × IsFirstRefused (IsNoRequirement vars) vars (text_lines bytes) number) }
    ensures at_end { (vars : Variables) (bytes : List ℕ) (number : ℕ) →
        (requirements_of vars bytes ≡ Err (NumberAtEnd number)) ↔
        (IsUtf8 bytes × IsFirstRefused (HasNumberAtEnd vars) vars (text_lines bytes) number) }
{
    a_read_front_is_written();
    a_written_front_is_read();
    a_read_marker_is_written();
    a_written_marker_is_read();
}

/// The numbers of the lines that are read from a text are in rising order.
pub fn line_numbers_rise()
    ensures { (vars : Variables) (nodes : List NodeRecord) (bytes : List ℕ) (lines : List Line) →
        ReadsRequirements vars nodes bytes (Ok lines) →
        IsStrictlySortedBy nat_cmp (map (λ line. line.number) lines) }
{
    requirements_are_their_lines();
}

/// Each specifier of a line that is read from a text is one that can be written: its version fits its
/// operator.
pub fn specifiers_are_read_from_texts()
    ensures read { (vars : Variables) (nodes : List NodeRecord) (bytes : List ℕ) (lines : List Line) →
        ReadsRequirements vars nodes bytes (Ok lines) →
        All (λ line. All IsReadFromText (specifiers_in line)) lines }
    ensures built { (vars : Variables) (nodes : List NodeRecord) (bytes : List ℕ) (lines : List Line) →
        ReadsRequirements vars nodes bytes (Ok lines) →
        All (λ line. All IsBuilt (specifiers_in line)) lines }
{
    requirements_are_their_lines();
    specifier_text_is_read();
    a_read_specifier_is_built();
}

/// The order of the lines doesn't change the answer.
pub fn order_of_lines_changes_nothing()
    ensures { (v : Valuation) (admits : Admits) (lines others : List LineRecord)
        (candidates : List Candidate) (rows : List RowRecord) →
        IsPermutation (map line_said lines) (map line_said others) →
        IsAnswer admits (asks_of v lines) candidates rows →
        IsAnswer admits (asks_of v others) candidates rows }
{}

/// Lines of other packages don't change a package's row.
pub fn lines_of_other_packages_change_no_row()
    ensures { (v : Valuation) (admits : Admits) (lines others : List LineRecord)
        (candidates : List Candidate) (row : RowRecord) →
        map line_said (lines_of row.name lines) ≡ map line_said (lines_of row.name others) →
        IsRow admits (asks_of v lines) candidates row → IsRow admits (asks_of v others) candidates row }
{}

/// Lines keep the trees of their markers, and so what they stand for, while nodes are added to an interner.
pub fn lines_last_while_nodes_are_added()
    ensures trees { (old new : List NodeRecord) (lines : List Line) → Extends old new →
        AreOfNodes old lines → AreOfNodes new lines }
    ensures said { (vars : Variables) (old new : List NodeRecord) (lines : List Line)
        (said : List LineRecord) → Extends old new →
        AllZip (StandsFor vars old) lines said → AllZip (StandsFor vars new) lines said }
{}

/// Lines that stand for records have trees of the interner's nodes, which is what those who are given
/// `Requirements` ask for.
pub fn lines_that_were_read_are_of_the_nodes()
    ensures { (vars : Variables) (nodes : List NodeRecord) (lines : List Line) (said : List LineRecord) →
        AllZip (StandsFor vars nodes) lines said → AreOfNodes nodes lines }
{}
