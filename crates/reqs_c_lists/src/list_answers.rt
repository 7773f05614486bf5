//! Answers on lists alone.

ghost use Rattle.std.specs.Prelude.{◌∷◌, []};
ghost use Rattle.reqs_c_reply.specs.Endings.{RepliesAs, ending_of};
ghost use Rattle.reqs_c_lists.specs.Commands.{SameEnds, CoversEnds, ConflictsEnd, NormalEnds};
ghost use Rattle.reqs_c_lists.specs.Commands.{SameEndsWith, CoversEndsWith};
ghost use Rattle.reqs_c_lists.specs.Commands.{ConflictsEndWith, NormalEndsWith};

use crate::ending::ended;
use pep508_tree::Interner;
use pep508_url::Vars;
use reqs_c_markers::no_variables;
use reqs_c_reply::{Ended, Reply};
use reqs_io_faults::Bounds;
use reqs_json::Format;
use std::alloc::Global;

/// The names of the inputs of `same` in messages.
pub const SAME_NAMES: [&str; 2] = ["left", "right"];

/// The names of the inputs of `covers` in messages.
pub const COVERS_NAMES: [&str; 2] = ["lock", "requirements"];

/// The name of the input of the other commands in messages.
pub const LIST_NAMES: [&str; 1] = ["requirements"];

/// The number of the argument with the extras where there is none.
pub const NO_EXTRAS: u32 = 0;

/// Replies with what `reqs::same` writes in this format, with at most `limit` cases for a package and within
/// the bounds. Ends with `Ended::Different` for lists that don't require the same. Needs memory for copies of
/// the lists, in addition to what the command needs.
///
/// # Errors
///
/// Refuses what `reqs_lists::same_within` does, with its message as text and the place of what is wrong.
/// Status 3 when memory runs out.
pub fn same(
    alloc: Global,
    left: &[u8],
    right: &[u8],
    limit: u64,
    bounds: Bounds,
    format: Format,
    out: &mut [u8],
) -> Reply
    ensures { RepliesAs (SameEnds format limit bounds left.now right.now) out.old out.new result }
{
    compared(alloc, left, right, limit, bounds, format).reply(out)
}

/// How `same` ends.
fn compared(
    alloc: Global,
    left: &[u8],
    right: &[u8],
    limit: u64,
    bounds: Bounds,
    format: Format,
) -> Ended
    ensures { SameEnds format limit bounds left.now right.now (ending_of result) }
{
    let Ok(vars) = no_variables(alloc) else {
        return Ended::OutOfMemory;
    };
    compared_with(alloc, left, right, limit, bounds, &vars, format)
}

/// How `same` ends with these variables.
fn compared_with(
    alloc: Global,
    left: &[u8],
    right: &[u8],
    limit: u64,
    bounds: Bounds,
    vars: &Vars,
    format: Format,
) -> Ended
    ensures { SameEndsWith format limit bounds vars.now (left.now ∷ right.now ∷ []) (ending_of result) }
{
    let (mut left, mut right) = (left, right);
    let mut interner = Interner::with_most(alloc, bounds.nodes);
    let mut text = Vec::new(alloc);
    let ran = reqs_lists::same_within(
        alloc,
        &mut left,
        &mut right,
        vars,
        limit,
        format,
        bounds,
        &mut interner,
        &mut text,
    );
    interner.are_sound();
    ended(alloc, ran, text, &SAME_NAMES, NO_EXTRAS)
}

/// Replies with what `reqs::covers` writes in this format, with at most `limit` cases for a package and
/// within the bounds. Ends with `Ended::Different` for a lock that doesn't cover the requirements. Needs
/// memory for copies of the lists, in addition to what the command needs.
///
/// # Errors
///
/// Refuses what `reqs_lists::covers_within` does, as a line with a URL or with `===`, with its message as
/// text and the place of what is wrong. Status 3 when memory runs out.
pub fn covers(
    alloc: Global,
    lock: &[u8],
    requirements: &[u8],
    limit: u64,
    bounds: Bounds,
    format: Format,
    out: &mut [u8],
) -> Reply
    ensures { RepliesAs (CoversEnds format limit bounds lock.now requirements.now) out.old out.new result }
{
    covered(alloc, lock, requirements, limit, bounds, format).reply(out)
}

/// How `covers` ends.
fn covered(
    alloc: Global,
    lock: &[u8],
    requirements: &[u8],
    limit: u64,
    bounds: Bounds,
    format: Format,
) -> Ended
    ensures { CoversEnds format limit bounds lock.now requirements.now (ending_of result) }
{
    let Ok(vars) = no_variables(alloc) else {
        return Ended::OutOfMemory;
    };
    covered_with(alloc, lock, requirements, limit, bounds, &vars, format)
}

/// How `covers` ends with these variables.
fn covered_with(
    alloc: Global,
    lock: &[u8],
    requirements: &[u8],
    limit: u64,
    bounds: Bounds,
    vars: &Vars,
    format: Format,
) -> Ended
    ensures { CoversEndsWith format limit bounds vars.now (lock.now ∷ requirements.now ∷ [])
        (ending_of result) }
{
    let (mut lock, mut requirements) = (lock, requirements);
    let mut interner = Interner::with_most(alloc, bounds.nodes);
    let mut text = Vec::new(alloc);
    let ran = reqs_lists::covers_within(
        alloc,
        &mut lock,
        &mut requirements,
        vars,
        limit,
        format,
        bounds,
        &mut interner,
        &mut text,
    );
    interner.are_sound();
    ended(alloc, ran, text, &COVERS_NAMES, NO_EXTRAS)
}

/// Replies with what `reqs::conflicts` writes in this format, with at most `limit` cases for a package and
/// within the bounds, of which those on nodes and cases matter. Needs memory for a copy of the list, in
/// addition to what the command needs.
///
/// # Errors
///
/// Refuses what `reqs_lists::conflicts_within` does, with its message as text and the place of what is wrong.
/// Status 3 when memory runs out.
pub fn conflicts(
    alloc: Global,
    requirements: &[u8],
    limit: u64,
    bounds: Bounds,
    format: Format,
    out: &mut [u8],
) -> Reply
    ensures { RepliesAs (ConflictsEnd format limit bounds requirements.now) out.old out.new result }
{
    contradicted(alloc, requirements, limit, bounds, format).reply(out)
}

/// How `conflicts` ends.
fn contradicted(
    alloc: Global,
    requirements: &[u8],
    limit: u64,
    bounds: Bounds,
    format: Format,
) -> Ended
    ensures { ConflictsEnd format limit bounds requirements.now (ending_of result) }
{
    let Ok(vars) = no_variables(alloc) else {
        return Ended::OutOfMemory;
    };
    contradicted_with(alloc, requirements, limit, bounds, &vars, format)
}

/// How `conflicts` ends with these variables.
fn contradicted_with(
    alloc: Global,
    requirements: &[u8],
    limit: u64,
    bounds: Bounds,
    vars: &Vars,
    format: Format,
) -> Ended
    ensures { ConflictsEndWith format limit bounds vars.now (requirements.now ∷ []) (ending_of result) }
{
    let mut requirements = requirements;
    let mut interner = Interner::with_most(alloc, bounds.nodes);
    let mut text = Vec::new(alloc);
    let ran = reqs_lists::conflicts_within(
        alloc,
        &mut requirements,
        vars,
        limit,
        format,
        bounds,
        &mut interner,
        &mut text,
    );
    interner.are_sound();
    ended(alloc, ran, text, &LIST_NAMES, NO_EXTRAS)
}

/// Replies with what `reqs::normal` writes in this format, within the bounds, of which those on nodes and
/// clauses matter. Needs memory for a copy of the list, in addition to what the command needs.
///
/// # Errors
///
/// Refuses what `reqs_lists::normal_within` does, with its message as text and the place of what is wrong.
/// Status 3 when memory runs out.
pub fn normal(
    alloc: Global,
    requirements: &[u8],
    bounds: Bounds,
    format: Format,
    out: &mut [u8],
) -> Reply
    ensures { RepliesAs (NormalEnds format bounds requirements.now) out.old out.new result }
{
    normalized(alloc, requirements, bounds, format).reply(out)
}

/// How `normal` ends.
fn normalized(alloc: Global, requirements: &[u8], bounds: Bounds, format: Format) -> Ended
    ensures { NormalEnds format bounds requirements.now (ending_of result) }
{
    let Ok(vars) = no_variables(alloc) else {
        return Ended::OutOfMemory;
    };
    normalized_with(alloc, requirements, bounds, &vars, format)
}

/// How `normal` ends with these variables.
fn normalized_with(
    alloc: Global,
    requirements: &[u8],
    bounds: Bounds,
    vars: &Vars,
    format: Format,
) -> Ended
    ensures { NormalEndsWith format bounds vars.now (requirements.now ∷ []) (ending_of result) }
{
    let mut requirements = requirements;
    let mut interner = Interner::with_most(alloc, bounds.nodes);
    let mut text = Vec::new(alloc);
    let ran = reqs_lists::normal_within(
        alloc,
        &mut requirements,
        vars,
        format,
        bounds,
        &mut interner,
        &mut text,
    );
    interner.are_sound();
    ended(alloc, ran, text, &LIST_NAMES, NO_EXTRAS)
}
