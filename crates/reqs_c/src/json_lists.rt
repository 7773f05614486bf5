//! Lists of requirements: the commands of `reqs`, whose answers are JSON.
//!
//! An answer is the JSON object that the command prints with `--format json`, on one line
//! (`docs/COMMANDS.md`). A refusal is that of the call without `_json`: the reply has its place, so the
//! message stays text. Bounds are those of `lists.rt`.

ghost use Rattle.reqs_c_reply.specs.Endings.{RepliesAs};
ghost use Rattle.reqs_c_lists.specs.Commands.{CheckEnds, MatrixEnds, SameEnds, CoversEnds};
ghost use Rattle.reqs_c_lists.specs.Commands.{ConflictsEnd, NormalEnds};

use reqs_c_lists::Bounds;
use reqs_c_reply::Reply;
use reqs_json::Format;
use std::alloc::Global;

/// The JSON that `reqs check` prints for one environment with `--format json`. `extras` has one extra per
/// line.
#[unsafe(no_mangle)]
pub extern "C" fn reqs_check_json(
    alloc: Global,
    requirements: &[u8],
    environment: &[u8],
    candidates: &[u8],
    extras: &[u8],
    out: &mut [u8],
) -> Reply
    ensures { RepliesAs
        (CheckEnds Format.Json requirements.now environment.now candidates.now extras.now)
        out.old out.new result }
{
    reqs_c_lists::check(
        alloc,
        requirements,
        environment,
        candidates,
        extras,
        Format::Json,
        out,
    )
}

/// The JSON that `reqs matrix` prints for many environments with `--format json`. `extras` has one extra per
/// line, and no package may have more cases than `limit`.
#[unsafe(no_mangle)]
pub extern "C" fn reqs_matrix_json(
    alloc: Global,
    requirements: &[u8],
    environments: &[u8],
    candidates: &[u8],
    extras: &[u8],
    limit: u64,
    nodes: usize,
    cases: u64,
    out: &mut [u8],
) -> Reply
    ensures { RepliesAs
        (MatrixEnds Format.Json limit (record { nodes = nodes; clauses = usize.MAX; cases = cases })
        requirements.now environments.now candidates.now extras.now)
        out.old out.new result }
{
    let bounds = Bounds {
        nodes,
        clauses: usize::MAX,
        cases,
    };
    reqs_c_lists::matrix(
        alloc,
        requirements,
        environments,
        candidates,
        extras,
        limit,
        bounds,
        Format::Json,
        out,
    )
}

/// The JSON that `reqs same` prints on two lists with `--format json`. No package may have more cases than
/// `limit`.
#[unsafe(no_mangle)]
pub extern "C" fn reqs_same_json(
    alloc: Global,
    left: &[u8],
    right: &[u8],
    limit: u64,
    nodes: usize,
    clauses: usize,
    cases: u64,
    out: &mut [u8],
) -> Reply
    ensures { RepliesAs
        (SameEnds Format.Json limit (record { nodes = nodes; clauses = clauses; cases = cases })
        left.now right.now)
        out.old out.new result }
{
    let bounds = Bounds {
        nodes,
        clauses,
        cases,
    };
    reqs_c_lists::same(alloc, left, right, limit, bounds, Format::Json, out)
}

/// The JSON that `reqs covers` prints on a lock and requirements with `--format json`. No package may have
/// more cases than `limit`.
#[unsafe(no_mangle)]
pub extern "C" fn reqs_covers_json(
    alloc: Global,
    lock: &[u8],
    requirements: &[u8],
    limit: u64,
    nodes: usize,
    clauses: usize,
    cases: u64,
    out: &mut [u8],
) -> Reply
    ensures { RepliesAs
        (CoversEnds Format.Json limit (record { nodes = nodes; clauses = clauses; cases = cases })
        lock.now requirements.now)
        out.old out.new result }
{
    let bounds = Bounds {
        nodes,
        clauses,
        cases,
    };
    reqs_c_lists::covers(alloc, lock, requirements, limit, bounds, Format::Json, out)
}

/// The JSON that `reqs conflicts` prints on a list with `--format json`. No package may have more cases than
/// `limit`.
#[unsafe(no_mangle)]
pub extern "C" fn reqs_conflicts_json(
    alloc: Global,
    requirements: &[u8],
    limit: u64,
    nodes: usize,
    cases: u64,
    out: &mut [u8],
) -> Reply
    ensures { RepliesAs
        (ConflictsEnd Format.Json limit (record { nodes = nodes; clauses = usize.MAX; cases = cases })
        requirements.now)
        out.old out.new result }
{
    let bounds = Bounds {
        nodes,
        clauses: usize::MAX,
        cases,
    };
    reqs_c_lists::conflicts(alloc, requirements, limit, bounds, Format::Json, out)
}

/// The JSON that `reqs normal` prints with `--format json`: the lines of the list's normal form.
#[unsafe(no_mangle)]
pub extern "C" fn reqs_normal_json(
    alloc: Global,
    requirements: &[u8],
    nodes: usize,
    clauses: usize,
    out: &mut [u8],
) -> Reply
    ensures { RepliesAs
        (NormalEnds Format.Json (record { nodes = nodes; clauses = clauses; cases = u64.MAX })
        requirements.now) out.old out.new result }
{
    let bounds = Bounds {
        nodes,
        clauses,
        cases: u64::MAX,
    };
    reqs_c_lists::normal(alloc, requirements, bounds, Format::Json, out)
}
