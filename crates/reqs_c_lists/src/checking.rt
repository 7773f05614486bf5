//! Answers on lists in environments.

ghost use Rattle.std.specs.Prelude.{◌∷◌, [], map};
ghost use Rattle.reqs_answers.specs.Check.{ChecksAs, CheckRefuses};
ghost use Rattle.reqs_c_reply.specs.Endings.{RepliesAs, ending_of};
ghost use Rattle.reqs_c_lists.specs.Commands.{CommandEnds, CheckEnds, MatrixEnds};
ghost use Rattle.reqs_c_lists.specs.Commands.{TablesWith, check_names};
ghost use Rattle.reqs_c_lists.specs.Refusals.{IsToldAt};

use crate::ending::ended;
use pep508_tree::Interner;
use pep508_url::Vars;
use reqs_c_markers::no_variables;
use reqs_c_reply::{Ended, Reply, filled_lines, text_of};
use reqs_io_faults::Bounds;
use reqs_json::Format;
use std::alloc::Global;

/// The names of the inputs of `check` in messages.
const CHECK_NAMES: [&str; 3] = ["requirements", "environment", "candidates"];

/// The names of the inputs of `matrix` in messages.
const MATRIX_NAMES: [&str; 3] = ["requirements", "environments", "candidates"];

/// The number of the argument with the extras.
const EXTRAS: u32 = 4;

/// Replies with what `reqs::check` writes in this format. `extras` has one extra per line; empty lines are
/// skipped. Needs memory for copies of the inputs, in addition to what the command needs.
///
/// # Errors
///
/// Refuses what `reqs::check` does, with its message as text and the place of what is wrong. Status 3 when
/// memory runs out.
pub fn check(
    alloc: Global,
    requirements: &[u8],
    environment: &[u8],
    candidates: &[u8],
    extras: &[u8],
    format: Format,
    out: &mut [u8],
) -> Reply
    ensures { RepliesAs (CheckEnds format requirements.now environment.now candidates.now extras.now)
        out.old out.new result }
{
    checked(alloc, requirements, environment, candidates, extras, format).reply(out)
}

/// How `check` ends.
fn checked(
    alloc: Global,
    requirements: &[u8],
    environment: &[u8],
    candidates: &[u8],
    extras: &[u8],
    format: Format,
) -> Ended
    ensures { CheckEnds format requirements.now environment.now candidates.now extras.now (ending_of result) }
{
    let extras = match text_of(alloc, EXTRAS, extras) {
        Ok(text) => text,
        Err(ended) => return ended,
    };
    let Ok(extras) = filled_lines(alloc, extras) else {
        return Ended::OutOfMemory;
    };
    let Ok(vars) = no_variables(alloc) else {
        return Ended::OutOfMemory;
    };
    checked_with(
        alloc,
        requirements,
        environment,
        candidates,
        &extras,
        &vars,
        format,
    )
}

/// How `check` ends with these extras and variables.
fn checked_with(
    alloc: Global,
    requirements: &[u8],
    environment: &[u8],
    candidates: &[u8],
    extras: &[&str],
    vars: &Vars,
    format: Format,
) -> Ended
    ensures { CommandEnds (ChecksAs format vars.now (map (λ e. e.now) extras.now))
        (CheckRefuses vars.now (map (λ e. e.now) extras.now)) (IsToldAt check_names 4)
        (requirements.now ∷ environment.now ∷ candidates.now ∷ []) (ending_of result) }
{
    let (mut requirements, mut environment, mut candidates) = (
        requirements,
        environment,
        candidates,
    );
    let mut text = Vec::new(alloc);
    let ran = reqs_answers::check(
        alloc,
        &mut requirements,
        &mut environment,
        &mut candidates,
        extras,
        vars,
        format,
        &mut text,
    );
    ended(alloc, ran, text, &CHECK_NAMES, EXTRAS)
}

/// Replies with what `reqs::matrix` writes in this format, with at most `limit` cases for a package and
/// within the bounds, of which those on nodes and cases matter. `extras` has one extra per line; empty lines
/// are skipped. Needs memory for copies of the inputs, in addition to what the command needs.
///
/// # Errors
///
/// Refuses what `reqs_answers::matrix_within` does, with its message as text and the place of what is wrong.
/// Status 3 when memory runs out.
pub fn matrix(
    alloc: Global,
    requirements: &[u8],
    environments: &[u8],
    candidates: &[u8],
    extras: &[u8],
    limit: u64,
    bounds: Bounds,
    format: Format,
    out: &mut [u8],
) -> Reply
    ensures { RepliesAs (MatrixEnds format limit bounds requirements.now environments.now candidates.now
        extras.now) out.old out.new result }
{
    tabled(
        alloc,
        requirements,
        environments,
        candidates,
        extras,
        limit,
        bounds,
        format,
    )
    .reply(out)
}

/// How `matrix` ends.
fn tabled(
    alloc: Global,
    requirements: &[u8],
    environments: &[u8],
    candidates: &[u8],
    extras: &[u8],
    limit: u64,
    bounds: Bounds,
    format: Format,
) -> Ended
    ensures { MatrixEnds format limit bounds requirements.now environments.now candidates.now extras.now
        (ending_of result) }
{
    let extras = match text_of(alloc, EXTRAS, extras) {
        Ok(text) => text,
        Err(ended) => return ended,
    };
    let Ok(extras) = filled_lines(alloc, extras) else {
        return Ended::OutOfMemory;
    };
    let Ok(vars) = no_variables(alloc) else {
        return Ended::OutOfMemory;
    };
    tabled_with(
        alloc,
        requirements,
        environments,
        candidates,
        &extras,
        limit,
        bounds,
        &vars,
        format,
    )
}

/// How `matrix` ends with these extras and variables.
fn tabled_with(
    alloc: Global,
    requirements: &[u8],
    environments: &[u8],
    candidates: &[u8],
    extras: &[&str],
    limit: u64,
    bounds: Bounds,
    vars: &Vars,
    format: Format,
) -> Ended
    ensures { TablesWith format limit bounds (requirements.now ∷ environments.now ∷ candidates.now ∷ [])
        vars.now (map (λ e. e.now) extras.now) (ending_of result) }
{
    let (mut requirements, mut environments, mut candidates) = (
        requirements,
        environments,
        candidates,
    );
    let mut interner = Interner::with_most(alloc, bounds.nodes);
    let mut text = Vec::new(alloc);
    let ran = reqs_answers::matrix_within(
        alloc,
        &mut requirements,
        &mut environments,
        &mut candidates,
        extras,
        vars,
        limit,
        format,
        bounds,
        &mut interner,
        &mut text,
    );
    interner.are_sound();
    ended(alloc, ran, text, &MATRIX_NAMES, EXTRAS)
}
