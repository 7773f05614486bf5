//! Judging requirements while candidates are read.

ghost use Rattle.std.specs.Prelude.{◌≡◌, ◌⊎◌, ◌<◌, List, All, map, length, Err, IfOk, OnOk, OnErr};
ghost use Rattle.std.specs.List.{AllByRecursion, AllZip};
ghost use Rattle.std.specs.Str.{IsUtf8};
ghost use Rattle.pep508_url.specs.Vars.{Variables};
ghost use Rattle.pep508_evaluation.specs.Valuations.{valuation_of};
ghost use Rattle.pep508_requirement_text.specs.FrontReading.{Front};
ghost use Rattle.reqtable_candidates.specs.TextLines.{text_lines, each_line};
ghost use Rattle.reqtable_candidates.specs.Candidates.{candidate_at, candidates_of, IsNameReached};
ghost use Rattle.reqtable_answer.specs.Admission.{Admits, AnswersBy};
ghost use Rattle.reqtable_answer.specs.Rows.{row_seen, IsTakenBelow};
ghost use Rattle.reqtable_answer.specs.Says.{SayAll, asks_seen};
ghost use Rattle.reqtable_requirements.specs.Asks.{asks_of};
ghost use Rattle.reqtable_requirements.specs.LineReading.{LineRecord};
ghost use Rattle.reqtable_requirements.specs.Requirements.{SaysLine};
ghost use Rattle.reqtable_streaming.specs.Packages.{AreNew, AreRising, AreSound, HasBest, IsNew, names_of};
ghost use Rattle.reqtable_streaming.specs.Selection.{IsSelection, JudgesRead};

use crate::hints::hints_of;
use crate::reading::read_candidates;
use crate::required::{Package, fronted_names, packages_of};
use crate::selecting::selection_of;
use crate::selection::Selection;
use pep440_version::Version;
use pep508_environment::MarkerEnvironment;
use pep508_name::ExtraName;
use reqtable_answer::{Admission, Ask, asks_by_package};
use reqtable_candidates::CandidatesError;
use reqtable_candidates::text_lines::as_text;
use reqtable_requirements::{MarkedLines, asks_in};
use std::alloc::{AllocError, Global};

/// Reads a candidate list, as `Candidates::parse` does, and judges the requirements in an environment with
/// extras while it is read: a row for each package that an applicable line requires. The rows are those that
/// `MarkedLines::judge` answers for this list, with the candidates that they select in a list of their own.
///
/// Each requirement's marker is evaluated once. A candidate that is no better than the best one of its
/// package is dropped when it is read, so memory is that of the requirements and of one candidate per
/// required package. For n bytes and P required packages that are O(n) steps, O(log P) comparisons of names
/// for each candidate whose package is not that of the candidate before, and the tests of candidates that
/// `answer_to` counts.
///
/// # Errors
///
/// `CandidatesError::NotText` and `CandidatesError::Line` as for `Candidates::parse`: a fault of any line is
/// reported, also where no requirement asks for its package. `CandidatesError::Memory` when memory runs out;
/// if there are no requirements, rejecting a line for its shape or name never fails for lack of memory.
pub fn judge_text<F: Fn(&Version, bool) -> bool>(
    alloc: Global,
    lines: &MarkedLines,
    environment: &MarkerEnvironment,
    extras: &[ExtraName],
    candidates: &[u8],
    admission: &Admission<F>,
) -> Result<Selection, CandidatesError>
    requires { F.IsAlwaysCallable admission.now }
    ensures answered { JudgesRead (λ read selection.
        (vars : Variables) (said : List LineRecord) (admits : Admits) →
        AllZip (SaysLine vars) lines.now said → AnswersBy (F.post admission.now) admits →
        IsSelection admits (asks_of (valuation_of environment.now extras.now) said) read
        selection.candidates.items (map row_seen selection.answer.rows.items))
        result (candidates_of candidates.now) }
    ensures places { IfOk result (λ selection. All
        (λ row. IsTakenBelow (length selection.candidates.items) row.outcome) selection.answer.rows.items) }
    ensures grown { result ≡ Err CandidatesError.Memory →
        (IsUtf8 candidates.now × IsNameReached (text_lines candidates.now)) ⊎ (0 < length lines.now) }
{
    let text = match as_text(candidates) {
        Ok(text) => text,
        Err(offset) => return Err(CandidatesError::NotText { offset }),
    };
    let asks = asks_in(alloc, lines, environment, extras)?;
    selected(alloc, asks, text, admission)
}

/// The answer to these requirements about the candidates of a text.
fn selected<F: Fn(&Version, bool) -> bool>(
    alloc: Global,
    asks: Vec<Ask<'_>>,
    text: &str,
    admission: &Admission<F>,
) -> Result<Selection, CandidatesError>
    requires { F.IsAlwaysCallable admission.now }
    ensures answered { JudgesRead (λ read selection. (said : List Front) (admits : Admits) →
        SayAll asks.entry.items said → AnswersBy (F.post admission.now) admits →
        IsSelection admits said read selection.candidates.items (map row_seen selection.answer.rows.items))
        result (each_line candidate_at (text_lines text.now)) }
    ensures places { IfOk result (λ selection. All
        (λ row. IsTakenBelow (length selection.candidates.items) row.outcome) selection.answer.rows.items) }
    ensures grown { result ≡ Err CandidatesError.Memory →
        IsNameReached (text_lines text.now) ⊎ (0 < length asks.entry.items) }
{
    let mut packages = required(alloc, asks)?;
    offer_all(alloc, text, &mut packages, admission)?;
    let selection = selection_of(alloc, packages)?;
    Ok(selection)
}

/// The packages that these requirements require. What else is made of the requirements is dropped.
fn required<'a>(alloc: Global, asks: Vec<Ask<'a>>) -> Result<Vec<Package<'a>>, AllocError>
    ensures packages { IfOk result (λ packages. AreNew (asks_seen asks.entry.items) packages.items) }
    ensures grown { OnErr result (0 < length asks.entry.items) }
{
    if asks.as_slice().is_empty() {
        return Ok(Vec::new(alloc));
    }
    let groups = asks_by_package(alloc, &asks)?;
    let packages = packages_of(alloc, &groups)?;
    Ok(packages)
}

/// Reads the candidates of a text, and offers each to its package. What finds packages is dropped.
fn offer_all<F: Fn(&Version, bool) -> bool>(
    alloc: Global,
    text: &str,
    packages: &mut Vec<Package<'_>>,
    admission: &Admission<F>,
) -> Result<(), CandidatesError>
    requires callable { F.IsAlwaysCallable admission.now }
    requires rising { AreRising packages.old.items }
    requires sound { AreSound packages.old.items }
    ensures names { OnOk result (names_of packages.new.items ≡ names_of packages.old.items) }
    ensures sound { OnOk result (AreSound packages.new.items) }
    ensures answered { JudgesRead (λ candidates done. (admits : Admits) (all : List Front) →
        AnswersBy (F.post admission.now) admits → AllByRecursion (IsNew all) packages.old.items →
        AllByRecursion (HasBest admits all candidates) packages.new.items)
        result (each_line candidate_at (text_lines text.now)) }
    ensures grown { result ≡ Err CandidatesError.Memory →
        IsNameReached (text_lines text.now) ⊎ (0 < length packages.old.items) }
{
    let names = fronted_names(alloc, packages)?;
    let hints = hints_of(alloc, &names)?;
    read_candidates(alloc, text, packages, &names, &hints, admission)
}
