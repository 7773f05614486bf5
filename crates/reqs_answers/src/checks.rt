//! `check`: the answer for one environment.
//!
//! Candidates are judged while they are read, so no list of them is kept. Which rows are answered is stated
//! by the list all the same.
//!
//! `check` and `matrix` read requirements, extras and candidates by one definition (`texts_of`), whose
//! parameter is what the second text is.

ghost use Rattle.std.specs.Prelude.{◌≡◌, ◌≢◌, List, true, All, map, length, IfErr, IfOk};
ghost use Rattle.std.specs.List.{AllZip};
ghost use Rattle.pep508_url.specs.Vars.{Variables};
ghost use Rattle.pep508_evaluation.specs.Valuations.{valuation_of};
ghost use Rattle.reqtable_requirements.specs.Asks.{asks_of};
ghost use Rattle.reqtable_requirements.specs.LineReading.{LineRecord};
ghost use Rattle.reqtable_requirements.specs.Requirements.{SaysLine};
ghost use Rattle.reqtable_answer.specs.Rows.{row_seen, IsTakenBelow};
ghost use Rattle.reqtable_streaming.specs.Selection.{IsSelection};
ghost use Rattle.reqs_io_faults.specs.declared.fault.Input.TheVariants.{First, Second, Third};
ghost use Rattle.reqs_io_faults.specs.Faults.{IsPlain, IsOfTexts};
ghost use Rattle.reqs_io_faults.specs.Inputs.{environment_from, candidates_from};
ghost use Rattle.reqs_answers.specs.Check.{on_request, AnswersRead, AnswersText, RunsCheck, RunsCheckBy};
ghost use Rattle.reqs_answers.specs.Texts.{behind_lines, texts_of};

use crate::admitting::is_admitted;
use crate::missing::rows_status;
use pep508_environment::MarkerEnvironment;
use pep508_name::ExtraName;
use pep508_url::Vars;
use reqs_io_faults::{
    Input, RunFault, Status, read_environment, read_extras, read_input, read_marked_lines,
    write_answer,
};
use reqs_json::Format;
use reqtable_answer::Admission;
use reqtable_requirements::MarkedLines;
use reqtable_streaming::{Selection, judge_text};
use std::alloc::Global;
use std::io::{Read, Write};

/// The text of an answer, and the status with which the command ends after it.
#[derive(Drop)]
pub(crate) struct Checked {
    pub(crate) status: Status,
    pub(crate) text: String,
}

/// Reads a list of requirements, an environment and a list of candidates, and writes the row of each package
/// that an applicable line requires, with the extras that these lines name: the highest candidate that all of
/// them accept, the first among equals; `none` if there isn't one; or `direct` if one of the lines has a URL.
/// A pre-release or a developmental release is a candidate only if a specifier of the package's applicable
/// lines names one. Rows are in the order of the bytes of the packages' names, one per line, or in one object
/// (`docs/COMMANDS.md`).
///
/// All inputs are read whole, in this order; then the extras are parsed as names, and then each input. The
/// whole answer is made, by one call of `judge_text`, before the first write.
///
/// # Errors
///
/// A `RunFault` for an input that can't be read whole, for the first extra that is not a name, or for the
/// first input that is invalid; nothing is written then. `RunFault::Memory` when memory runs out, before the
/// first write. `RunFault::Write` if the output fails; a prefix of the answer may be written then.
pub fn check<L: Read, E: Read, C: Read, W: Write>(
    alloc: Global,
    requirements: &mut L,
    environment: &mut E,
    candidates: &mut C,
    extras: &[&str],
    vars: &Vars,
    format: Format,
    output: &mut W,
) -> Result<Status, RunFault>
    ensures runs { RunsCheck format vars.now (map (λ e. e.now) extras.now)
        (L.remaining requirements.old) (E.remaining environment.old) (C.remaining candidates.old)
        W.contents output.old output.new result }
    // A refused command has written nothing.
    ensures unwritten { IfErr result (λ fault. fault ≢ RunFault.Write → output.new ≡ output.old) }
{
    check_by(
        alloc,
        requirements,
        environment,
        candidates,
        extras,
        vars,
        format,
        false,
        output,
    )
}

/// Writes what `check` writes, and ends with `Status::Unsatisfied` if a row is `none`.
///
/// # Errors
///
/// Those of `check`.
pub fn check_strict<L: Read, E: Read, C: Read, W: Write>(
    alloc: Global,
    requirements: &mut L,
    environment: &mut E,
    candidates: &mut C,
    extras: &[&str],
    vars: &Vars,
    format: Format,
    output: &mut W,
) -> Result<Status, RunFault>
    ensures runs { RunsCheckBy true format vars.now (map (λ e. e.now) extras.now)
        (L.remaining requirements.old) (E.remaining environment.old) (C.remaining candidates.old)
        W.contents output.old output.new result }
    // A refused command has written nothing.
    ensures unwritten { IfErr result (λ fault. fault ≢ RunFault.Write → output.new ≡ output.old) }
{
    check_by(
        alloc,
        requirements,
        environment,
        candidates,
        extras,
        vars,
        format,
        true,
        output,
    )
}

/// Writes the answer, and returns its status.
fn check_by<L: Read, E: Read, C: Read, W: Write>(
    alloc: Global,
    requirements: &mut L,
    environment: &mut E,
    candidates: &mut C,
    extras: &[&str],
    vars: &Vars,
    format: Format,
    strict: bool,
    output: &mut W,
) -> Result<Status, RunFault>
    ensures runs { RunsCheckBy strict format vars.now (map (λ e. e.now) extras.now)
        (L.remaining requirements.old) (E.remaining environment.old) (C.remaining candidates.old)
        W.contents output.old output.new result }
    ensures unwritten { IfErr result (λ fault. fault ≢ RunFault.Write → output.new ≡ output.old) }
{
    let mut requirements = read_input(alloc, Input::First, requirements)?;
    let mut environment = read_input(alloc, Input::Second, environment)?;
    let mut candidates = read_input(alloc, Input::Third, candidates)?;
    let checked = check_text(
        alloc,
        &mut requirements,
        &mut environment,
        &mut candidates,
        extras,
        vars,
        format,
        strict,
    )?;
    write_answer(output, checked.text.as_str(), checked.status)
}

/// The answer. Drops the bytes of each input once they are parsed.
fn check_text(
    alloc: Global,
    requirements: &mut Vec<u8>,
    environment: &mut Vec<u8>,
    candidates: &mut Vec<u8>,
    extras: &[&str],
    vars: &Vars,
    format: Format,
    strict: bool,
) -> Result<Checked, RunFault>
    ensures { AnswersText (IsOfTexts vars.now First requirements.old.items) strict format result
        (texts_of (environment_from Second 1) vars.now (map (λ e. e.now) extras.now)
        requirements.old.items environment.old.items candidates.old.items) }
{
    let extras = read_extras(alloc, extras)?;
    let requirements = read_marked_lines(alloc, Input::First, requirements, vars)?;
    text_behind(
        alloc,
        &requirements,
        &extras,
        environment,
        candidates,
        format,
        strict,
    )
}

/// The answer for parsed requirements and extras.
fn text_behind(
    alloc: Global,
    requirements: &MarkedLines,
    extras: &[ExtraName],
    environment: &mut Vec<u8>,
    candidates: &mut Vec<u8>,
    format: Format,
    strict: bool,
) -> Result<Checked, RunFault>
    ensures { (vars : Variables) (said : List LineRecord) → AllZip (SaysLine vars) requirements.now said →
        AnswersText IsPlain strict format result (behind_lines (environment_from Second 1) extras.now said
        environment.old.items candidates.old.items) }
{
    let environment = read_environment(alloc, Input::Second, 1, environment)?;
    let selection = selected(alloc, requirements, &environment, extras, candidates)?;
    let status = rows_status(strict, &selection.answer);
    match reqs_json::answer_text(alloc, format, &selection.answer, &selection.candidates) {
        Ok(text) => Ok(Checked { status, text }),
        Err(_) => Err(RunFault::Memory),
    }
}

/// The answer to the requirements in the environment with the extras, with the candidates that it selects.
/// Drops the bytes of the candidates once they are read.
fn selected(
    alloc: Global,
    requirements: &MarkedLines,
    environment: &MarkerEnvironment,
    extras: &[ExtraName],
    candidates: &mut Vec<u8>,
) -> Result<Selection, RunFault>
    ensures answered { AnswersRead (λ read selection. (vars : Variables) (said : List LineRecord) →
        AllZip (SaysLine vars) requirements.now said →
        IsSelection on_request (asks_of (valuation_of environment.now extras.now) said) read
        selection.candidates.items (map row_seen selection.answer.rows.items))
        result (candidates_from Third candidates.old.items) }
    ensures places { IfOk result (λ selection. All
        (λ row. IsTakenBelow (length selection.candidates.items) row.outcome) selection.answer.rows.items) }
{
    let admission = Admission::new(|version, named| is_admitted(version, named));
    let read = judge_text(
        alloc,
        requirements,
        environment,
        extras,
        candidates,
        &admission,
    );
    *candidates = Vec::new(alloc);
    match read {
        Ok(selection) => Ok(selection),
        Err(error) => Err(RunFault::of_candidates(Input::Third, error)),
    }
}
