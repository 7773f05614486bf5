//! The opened inputs of a command, and running the command on them.

ghost use Rattle.std.specs.Prelude.{◌≡◌, true, false, map, option_map};
ghost use Rattle.pep508_formula.specs.Postfix.{formula_of};
ghost use Rattle.reqs_command.specs.Asked.{bounds_or_greatest};
ghost use Rattle.reqs_command.specs.Opened.{asked_of, readers_of, Opens, RunsAsked, RunsWithin};
ghost use Rattle.reqs_command.specs.Opened.{RunsBy, RunsStrictly, RunsWhere};

use crate::request::{Asked, Options};
use pep508_tree::Interner;
use pep508_url::Vars;
use reqs_answers::{check, check_strict, matrix, matrix_strict, matrix_within};
use reqs_assuming::{Terms, conflicts_where, covers_where, same_where};
use reqs_io_faults::{Bounds, Input, RunFault, Status};
use reqs_json::Format;
use reqs_lists::{
    conflicts, conflicts_strict, conflicts_within, covers, covers_within, normal, normal_within,
    same, same_within,
};
use std::alloc::Global;
use std::io::{Read, Write};

/// A command with its inputs.
#[derive(Drop)]
pub enum Opened<S: Drop> {
    Check {
        requirements: S,
        environment: S,
        candidates: S,
    },
    Matrix {
        requirements: S,
        environments: S,
        candidates: S,
        limit: u64,
    },
    Same {
        left: S,
        right: S,
        limit: u64,
    },
    Covers {
        lock: S,
        requirements: S,
        limit: u64,
    },
    Conflicts {
        requirements: S,
        limit: u64,
    },
    Normal {
        requirements: S,
    },
}

/// Opens all inputs of a command, in the order of the command line.
///
/// # Errors
///
/// The fault of the first input that can't be opened.
pub fn open_all<S, F>(asked: Asked, opener: F) -> Result<Opened<S>, RunFault>
where
    S: Drop,
    F: Fn(Input) -> Result<S, RunFault>,
    requires { F.IsAlwaysCallable opener }
    ensures { Opens asked (F.post opener) result }
{
    let first = opener(Input::First)?;
    match asked {
        Asked::Check => Ok(Opened::Check {
            requirements: first,
            environment: opener(Input::Second)?,
            candidates: opener(Input::Third)?,
        }),
        Asked::Matrix { limit } => Ok(Opened::Matrix {
            requirements: first,
            environments: opener(Input::Second)?,
            candidates: opener(Input::Third)?,
            limit,
        }),
        Asked::Same { limit } => Ok(Opened::Same {
            left: first,
            right: opener(Input::Second)?,
            limit,
        }),
        Asked::Covers { limit } => Ok(Opened::Covers {
            lock: first,
            requirements: opener(Input::Second)?,
            limit,
        }),
        Asked::Conflicts { limit } => Ok(Opened::Conflicts {
            requirements: first,
            limit,
        }),
        Asked::Normal => Ok(Opened::Normal {
            requirements: first,
        }),
    }
}

/// Runs a command on its inputs with these options.
///
/// # Errors
///
/// The fault of the command.
pub fn run_read<S: Read + Drop, W: Write>(
    alloc: Global,
    opened: &mut Opened<S>,
    extras: &[&str],
    vars: &Vars,
    options: &Options<'_>,
    output: &mut W,
) -> Result<Status, RunFault>
    ensures { RunsBy (option_map (λ c. formula_of c.now) options.now.condition) options.now.strict
        options.now.bounds (asked_of opened.old) options.now.format vars.now (map (λ e. e.now) extras.now)
        (map S.remaining (readers_of opened.old)) W.contents output.old output.new result }
{
    let format = options.format;
    if let Some(condition) = options.condition {
        let terms = Terms {
            vars,
            condition,
            format,
            bounds: bounds_or_greatest(options.bounds),
        };
        return run_where(alloc, opened, extras, &terms, options.strict, output);
    }
    if options.strict {
        let bounds = bounds_or_greatest(options.bounds);
        return run_strict(alloc, opened, extras, vars, format, bounds, output);
    }
    match options.bounds {
        None => run_unbounded(alloc, opened, extras, vars, format, output),
        Some(bounds) => run_within(alloc, opened, extras, vars, format, bounds, output),
    }
}

/// Runs a command on its inputs where a condition holds, within bounds. Commands that judge candidates, and
/// `normal`, know no condition.
fn run_where<S: Read + Drop, W: Write>(
    alloc: Global,
    opened: &mut Opened<S>,
    extras: &[&str],
    terms: &Terms<'_>,
    strict: bool,
    output: &mut W,
) -> Result<Status, RunFault>
    ensures { RunsWhere (formula_of terms.now.condition.now) strict terms.now.bounds (asked_of opened.old)
        terms.now.format terms.now.vars.now (map (λ e. e.now) extras.now)
        (map S.remaining (readers_of opened.old)) W.contents output.old output.new result }
{
    let mut nodes = Interner::with_most(alloc, terms.bounds.nodes);
    match opened {
        Opened::Same { left, right, limit } => {
            same_where(alloc, left, right, *limit, terms, &mut nodes, output)
        }
        Opened::Covers {
            lock,
            requirements,
            limit,
        } => covers_where(alloc, lock, requirements, *limit, terms, &mut nodes, output),
        Opened::Conflicts {
            requirements,
            limit,
        } => conflicts_where(
            alloc,
            requirements,
            *limit,
            strict,
            terms,
            &mut nodes,
            output,
        ),
        opened => run_conditionless(alloc, opened, extras, terms, strict, output),
    }
}

/// Runs a command that knows no condition on its inputs, within bounds.
fn run_conditionless<S: Read + Drop, W: Write>(
    alloc: Global,
    opened: &mut Opened<S>,
    extras: &[&str],
    terms: &Terms<'_>,
    strict: bool,
    output: &mut W,
) -> Result<Status, RunFault>
    ensures strict { strict ≡ true → RunsStrictly terms.now.bounds (asked_of opened.old) terms.now.format
        terms.now.vars.now (map (λ e. e.now) extras.now) (map S.remaining (readers_of opened.old))
        W.contents output.old output.new result }
    ensures lenient { strict ≡ false → RunsWithin terms.now.bounds (asked_of opened.old) terms.now.format
        terms.now.vars.now (map (λ e. e.now) extras.now) (map S.remaining (readers_of opened.old))
        W.contents output.old output.new result }
{
    let (vars, format, bounds) = (terms.vars, terms.format, terms.bounds);
    if strict {
        return run_strict(alloc, opened, extras, vars, format, bounds, output);
    }
    run_within(alloc, opened, extras, vars, format, bounds, output)
}

/// These bounds, or the greatest if there are none.
fn bounds_or_greatest(bounds: Option<Bounds>) -> Bounds
    ensures { result ≡ bounds_or_greatest bounds }
{
    bounds.unwrap_or(Bounds::none())
}

/// Runs a strict command on its inputs within bounds.
fn run_strict<S: Read + Drop, W: Write>(
    alloc: Global,
    opened: &mut Opened<S>,
    extras: &[&str],
    vars: &Vars,
    format: Format,
    bounds: Bounds,
    output: &mut W,
) -> Result<Status, RunFault>
    ensures { RunsStrictly bounds (asked_of opened.old) format vars.now (map (λ e. e.now) extras.now)
        (map S.remaining (readers_of opened.old)) W.contents output.old output.new result }
{
    let mut nodes = Interner::with_most(alloc, bounds.nodes);
    match opened {
        Opened::Check {
            requirements: first,
            environment: second,
            candidates: third,
        } => check_strict(alloc, first, second, third, extras, vars, format, output),
        Opened::Matrix {
            requirements: first,
            environments: second,
            candidates: third,
            limit,
        } => matrix_strict(
            alloc, first, second, third, extras, vars, *limit, format, bounds, &mut nodes, output,
        ),
        Opened::Conflicts {
            requirements: first,
            limit,
        } => conflicts_strict(
            alloc, first, vars, *limit, format, bounds, &mut nodes, output,
        ),
        Opened::Same { .. } | Opened::Covers { .. } | Opened::Normal { .. } => {
            run_within(alloc, opened, extras, vars, format, bounds, output)
        }
    }
}

/// Runs a command on its inputs within bounds.
fn run_within<S: Read + Drop, W: Write>(
    alloc: Global,
    opened: &mut Opened<S>,
    extras: &[&str],
    vars: &Vars,
    format: Format,
    bounds: Bounds,
    output: &mut W,
) -> Result<Status, RunFault>
    ensures { RunsWithin bounds (asked_of opened.old) format vars.now (map (λ e. e.now) extras.now)
        (map S.remaining (readers_of opened.old)) W.contents output.old output.new result }
{
    let mut nodes = Interner::with_most(alloc, bounds.nodes);
    match opened {
        Opened::Check {
            requirements: first,
            environment: second,
            candidates: third,
        } => check(alloc, first, second, third, extras, vars, format, output),
        Opened::Matrix {
            requirements: first,
            environments: second,
            candidates: third,
            limit,
        } => matrix_within(
            alloc, first, second, third, extras, vars, *limit, format, bounds, &mut nodes, output,
        ),
        Opened::Same { left, right, limit } => same_within(
            alloc, left, right, vars, *limit, format, bounds, &mut nodes, output,
        ),
        Opened::Covers {
            lock: first,
            requirements: second,
            limit,
        } => covers_within(
            alloc, first, second, vars, *limit, format, bounds, &mut nodes, output,
        ),
        Opened::Conflicts {
            requirements: first,
            limit,
        } => conflicts_within(
            alloc, first, vars, *limit, format, bounds, &mut nodes, output,
        ),
        Opened::Normal {
            requirements: first,
        } => normal_within(alloc, first, vars, format, bounds, &mut nodes, output),
    }
}

/// Runs a command on its inputs without bounds.
fn run_unbounded<S: Read + Drop, W: Write>(
    alloc: Global,
    opened: &mut Opened<S>,
    extras: &[&str],
    vars: &Vars,
    format: Format,
    output: &mut W,
) -> Result<Status, RunFault>
    ensures { RunsAsked (asked_of opened.old) format vars.now (map (λ e. e.now) extras.now)
        (map S.remaining (readers_of opened.old)) W.contents output.old output.new result }
{
    match opened {
        Opened::Check {
            requirements: first,
            environment: second,
            candidates: third,
        } => check(alloc, first, second, third, extras, vars, format, output),
        Opened::Matrix {
            requirements: first,
            environments: second,
            candidates: third,
            limit,
        } => matrix(
            alloc, first, second, third, extras, vars, *limit, format, output,
        ),
        Opened::Same { left, right, limit } => same(
            alloc, left, right, vars, *limit, format, output,
        ),
        Opened::Covers {
            lock,
            requirements,
            limit,
        } => covers(alloc, lock, requirements, vars, *limit, format, output),
        Opened::Conflicts {
            requirements,
            limit,
        } => conflicts(alloc, requirements, vars, *limit, format, output),
        Opened::Normal { requirements } => normal(alloc, requirements, vars, format, output),
    }
}
