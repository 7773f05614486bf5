//! Which of a package's candidates is selected, by its active case.

ghost use Rattle.std.specs.Prelude.{◌≡◌, ◌≤◌, ◌<◌, ◌+◌, ℕ, Bool, length, map, find, is_none, IfOk};
ghost use Rattle.std.specs.Prelude.{IfSome};
ghost use Rattle.std.specs.List.{list_any, list_all, AllZip, AllByRecursion};
ghost use Rattle.std.specs.Option.{option_map};
ghost use Rattle.pep440_range.specs.Agreement.{IsSaid};
ghost use Rattle.reqtable_candidates.specs.Ordered.{placed_seen};
ghost use Rattle.reqtable_answer.specs.Admission.{Admits, AnswersBy};
ghost use Rattle.reqtable_answer.specs.Asks.{specifiers_of, ask_takes, may_be_taken, names_prerelease};
ghost use Rattle.pep508_cases.specs.Sets.{marked};
ghost use Rattle.reqtable_cases.specs.Usable.{members_asked, IsRangeOf};
ghost use Rattle.reqtable_table.specs.Answers.{most_tests, SameLine};
ghost use Rattle.reqtable_table.specs.Choosing.{case_asks, tests_at, AskedMore, Tells, TestsBy};
ghost use Rattle.reqtable_table.specs.Counts.{tests_of};
ghost use Rattle.reqtable_table.specs.Kept.{kept_front};
ghost use Rattle.reqtable_table.specs.KeptLines.{line_record};
ghost use Rattle.reqtable_table.specs.Sieving.{Knows};
ghost use Rattle.reqtable_table.specs.Standing.{HasItsFlags, IsOfTexts};
ghost use Rattle.reqtable_table.specs.declared.kept.TableLine.{TableLine};

use crate::kept::TableLine;
use crate::sieving::{Asking, is_sifted_out};
use pep440_version::Version;
use reqtable_answer::Admission;
use reqtable_search::Run;
use reqtable_search::undecided::is_told;
use std::alloc::{AllocError, Global};
use version_ranges::Ranges;

/// The place in the candidate list of the first candidate that all marked lines accept and that is admitted,
/// found as `Table::answer_among` says. A candidate that the range doesn't decide, and that isn't known to be
/// rejected (`sieving`), is tested against each specifier of the marked lines, up to the first that rejects
/// it: from the line that rejected the last such candidate on, and then of those before it.
pub(crate) fn chosen<F: Fn(&Version, bool) -> bool>(
    alloc: Global,
    lines: &mut [TableLine],
    marks: &[bool],
    range: &Option<Ranges<Version>>,
    pre: bool,
    own: &Run<'_, '_>,
    admission: &Admission<F>,
) -> Result<Option<usize>, AllocError>
    requires callable { F.IsAlwaysCallable admission.now }
    requires marks { length marks.now ≡ length lines.old }
    requires range { IsRangeOf (case_asks marks.now (map line_record lines.old)) range.now }
    requires flag { pre ≡ names_prerelease (case_asks marks.now (map line_record lines.old)) }
    requires flags { AllByRecursion HasItsFlags (map line_record lines.old) }
    requires read { AllByRecursion IsOfTexts (map line_record lines.old) }
    requires said { AllByRecursion (λ c. IsSaid c.1.version) (map placed_seen own.now) }
    ensures chosen { IfOk result (λ found. (admits : Admits) → AnswersBy (F.post admission.now) admits →
        found ≡ option_map (λ c. c.0) (find
        (may_be_taken admits (case_asks marks.now (map line_record lines.old))) (map placed_seen own.now))) }
    ensures below { IfOk result (λ found. (count : ℕ) →
        AllByRecursion (λ c. c.0 < count) (map placed_seen own.now) → IfSome found (λ place. place < count)) }
    ensures kept { AllZip SameLine (map line_record lines.new) (map line_record lines.old) }
    ensures tests { tests_of (map line_record lines.new) ≤ tests_of (map line_record lines.old)
        + most_tests (case_asks marks.now (map line_record lines.old)) (map placed_seen own.now) }
{
    let bounded = any_marked(lines, marks, |line: &TableLine| line.is_bounded);
    let mut asking = Asking::new();
    let mut at = 0;
    while at < own.len() {
        let placed = own.at(at);
        let version = &placed.candidate.version;
        match takes(alloc, lines, marks, range, bounded, version, &mut asking) {
            Ok(taken) => {
                if taken && admission.admits(version, pre) {
                    return Ok(Some(placed.place));
                }
                at = own.next(at, range, bounded);
            }
            Err(error) => return Err(error),
        }
    }
    Ok(None)
}

/// Whether some marked line passes a test.
pub(crate) fn any_marked<F: Fn(&TableLine) -> bool>(
    lines: &[TableLine],
    marks: &[bool],
    test: F,
) -> bool
    requires callable { F.IsAlwaysCallable test }
    requires marks { length marks.now ≡ length lines.now }
    ensures { (says : TableLine → Bool) → TestsBy (F.post test) says →
        result ≡ list_any says (marked marks.now lines.now) }
{
    for (index, line) in lines.iter().enumerate() {
        if marks[index] && test(line) {
            return true;
        }
    }
    false
}

/// Whether all marked lines accept the version: decided by their range, where that decides it, else by what
/// is known of them, and else by `takes_all`.
fn takes(
    alloc: Global,
    lines: &mut [TableLine],
    marks: &[bool],
    range: &Option<Ranges<Version>>,
    bounded: bool,
    version: &Version,
    asking: &mut Asking,
) -> Result<bool, AllocError>
    requires marks { length marks.now ≡ length lines.old }
    requires tells { Tells bounded range.now (case_asks marks.now (map line_record lines.old)) }
    requires knows { Knows (case_asks marks.now (map line_record lines.old)) asking.old }
    requires said { IsSaid version.now }
    ensures answer { IfOk result (λ taken. taken ≡
        list_all (ask_takes version.now) (case_asks marks.now (map line_record lines.old))) }
    ensures more { AskedMore (tests_at (case_asks marks.now (map line_record lines.old)) version.now)
        (map line_record lines.new) (map line_record lines.old) }
    ensures knows { Knows (case_asks marks.now (map line_record lines.old)) asking.new }
{
    if let Some(set) = range {
        if is_told(bounded, version) {
            return Ok(set.contains(version));
        }
    }
    let rejected = is_sifted_out(alloc, asking, lines, marks, version)?;
    if rejected {
        return Ok(false);
    }
    takes_all(alloc, lines, marks, version, &mut asking.first)
}

/// Whether all marked lines accept the version: each is tested, from the one at `first` on, and then those
/// before it, up to the first that rejects the version. `first` is then the place of that line.
fn takes_all(
    alloc: Global,
    lines: &mut [TableLine],
    marks: &[bool],
    version: &Version,
    first: &mut usize,
) -> Result<bool, AllocError>
    requires { length marks.now ≡ length lines.old }
    ensures answer { IfOk result (λ taken. taken ≡
        list_all (ask_takes version.now) (case_asks marks.now (map line_record lines.old))) }
    ensures more { AskedMore (length (members_asked (case_asks marks.now (map line_record lines.old))))
        (map line_record lines.new) (map line_record lines.old) }
{
    let at = lines.len().min(*first);
    let (front, back) = lines.split_at_mut(at);
    let (front_marks, back_marks) = marks.split_at(at);
    match first_rejecting(alloc, back, back_marks, version) {
        Ok(Some(place)) => {
            *first = at + place;
            return Ok(false);
        }
        Ok(None) => {}
        Err(error) => return Err(error),
    }
    match first_rejecting(alloc, front, front_marks, version) {
        Ok(Some(place)) => {
            *first = place;
            Ok(false)
        }
        Ok(None) => Ok(true),
        Err(error) => Err(error),
    }
}

/// The place of the first marked line that rejects the version, if one does. None after it is tested.
fn first_rejecting(
    alloc: Global,
    lines: &mut [TableLine],
    marks: &[bool],
    version: &Version,
) -> Result<Option<usize>, AllocError>
    requires { length marks.now ≡ length lines.old }
    ensures answer { IfOk result (λ found. is_none found ≡
        list_all (ask_takes version.now) (case_asks marks.now (map line_record lines.old))) }
    ensures within { IfOk result (λ found. IfSome found (λ place. place < length lines.old)) }
    ensures more { AskedMore (length (members_asked (case_asks marks.now (map line_record lines.old))))
        (map line_record lines.new) (map line_record lines.old) }
{
    for (index, line) in lines.iter_mut().enumerate() {
        if marks[index] {
            match ask(alloc, line, version) {
                Ok(true) => {}
                Ok(false) => return Ok(Some(index)),
                Err(error) => return Err(error),
            }
        }
    }
    Ok(None)
}

/// Whether a line accepts the version. A URL accepts any.
fn ask(alloc: Global, line: &mut TableLine, version: &Version) -> Result<bool, AllocError>
    ensures answer { IfOk result (λ taken.
        taken ≡ ask_takes version.now (kept_front (line_record line.old))) }
    ensures same { SameLine (line_record line.new) (line_record line.old) }
    ensures tests { line.new.specifiers.tests ≤ line.old.specifiers.tests
        + length (specifiers_of (kept_front (line_record line.old)).source) }
{
    if line.is_url {
        return Ok(true);
    }
    line.specifiers.contains_counted(alloc, version)
}
