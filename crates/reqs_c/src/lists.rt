//! Lists of requirements: the commands of `reqs`, whose answers are text.
//!
//! `nodes` is the number of nodes that the trees of a call's markers may have together, `clauses` the number
//! of clauses that a printed marker may have, and `cases` the number of cases that all packages of a list may
//! have together; `usize::MAX` and `u64::MAX` are no bound.

ghost use Rattle.reqs_c_reply.specs.Endings.{RepliesAs};
ghost use Rattle.reqs_c_lists.specs.Commands.{CheckEnds, MatrixEnds, SameEnds, CoversEnds};
ghost use Rattle.reqs_c_lists.specs.Commands.{ConflictsEnd, NormalEnds};

use reqs_c_lists::Bounds;
use reqs_c_reply::Reply;
use reqs_json::Format;
use std::alloc::Global;

/// The answer of `reqs check` for one environment. `extras` has one extra per line.
#[unsafe(no_mangle)]
pub extern "C" fn reqs_check(
    alloc: Global,
    requirements: &[u8],
    environment: &[u8],
    candidates: &[u8],
    extras: &[u8],
    out: &mut [u8],
) -> Reply
    ensures { RepliesAs
        (CheckEnds Format.Text requirements.now environment.now candidates.now extras.now)
        out.old out.new result }
{
    reqs_c_lists::check(
        alloc,
        requirements,
        environment,
        candidates,
        extras,
        Format::Text,
        out,
    )
}

/// The answer of `reqs matrix` for many environments. `extras` has one extra per line, and no package may
/// have more cases than `limit`.
#[unsafe(no_mangle)]
pub extern "C" fn reqs_matrix(
    alloc: Global,
    requirements: &[u8],
    environments: &[u8],
    candidates: &[u8],
    extras: &[u8],
    limit: u64,
    nodes: usize,
    cases: u64,
    out: &mut [u8],
) -> Reply
    ensures { RepliesAs
        (MatrixEnds Format.Text limit (record { nodes = nodes; clauses = usize.MAX; cases = cases })
        requirements.now environments.now candidates.now extras.now)
        out.old out.new result }
{
    let bounds = Bounds {
        nodes,
        clauses: usize::MAX,
        cases,
    };
    reqs_c_lists::matrix(
        alloc,
        requirements,
        environments,
        candidates,
        extras,
        limit,
        bounds,
        Format::Text,
        out,
    )
}

/// The answer of `reqs same` on two lists. No package may have more cases than `limit`.
#[unsafe(no_mangle)]
pub extern "C" fn reqs_same(
    alloc: Global,
    left: &[u8],
    right: &[u8],
    limit: u64,
    nodes: usize,
    clauses: usize,
    cases: u64,
    out: &mut [u8],
) -> Reply
    ensures { RepliesAs
        (SameEnds Format.Text limit (record { nodes = nodes; clauses = clauses; cases = cases })
        left.now right.now)
        out.old out.new result }
{
    let bounds = Bounds {
        nodes,
        clauses,
        cases,
    };
    reqs_c_lists::same(alloc, left, right, limit, bounds, Format::Text, out)
}

/// The answer of `reqs covers` on a lock and requirements. No package may have more cases than `limit`.
#[unsafe(no_mangle)]
pub extern "C" fn reqs_covers(
    alloc: Global,
    lock: &[u8],
    requirements: &[u8],
    limit: u64,
    nodes: usize,
    clauses: usize,
    cases: u64,
    out: &mut [u8],
) -> Reply
    ensures { RepliesAs
        (CoversEnds Format.Text limit (record { nodes = nodes; clauses = clauses; cases = cases })
        lock.now requirements.now)
        out.old out.new result }
{
    let bounds = Bounds {
        nodes,
        clauses,
        cases,
    };
    reqs_c_lists::covers(alloc, lock, requirements, limit, bounds, Format::Text, out)
}

/// The answer of `reqs conflicts` on a list. No package may have more cases than `limit`.
#[unsafe(no_mangle)]
pub extern "C" fn reqs_conflicts(
    alloc: Global,
    requirements: &[u8],
    limit: u64,
    nodes: usize,
    cases: u64,
    out: &mut [u8],
) -> Reply
    ensures { RepliesAs
        (ConflictsEnd Format.Text limit (record { nodes = nodes; clauses = usize.MAX; cases = cases })
        requirements.now)
        out.old out.new result }
{
    let bounds = Bounds {
        nodes,
        clauses: usize::MAX,
        cases,
    };
    reqs_c_lists::conflicts(alloc, requirements, limit, bounds, Format::Text, out)
}

/// The answer of `reqs normal`: the list in its normal form.
#[unsafe(no_mangle)]
pub extern "C" fn reqs_normal(
    alloc: Global,
    requirements: &[u8],
    nodes: usize,
    clauses: usize,
    out: &mut [u8],
) -> Reply
    ensures { RepliesAs
        (NormalEnds Format.Text (record { nodes = nodes; clauses = clauses; cases = u64.MAX })
        requirements.now) out.old out.new result }
{
    let bounds = Bounds {
        nodes,
        clauses,
        cases: u64::MAX,
    };
    reqs_c_lists::normal(alloc, requirements, bounds, Format::Text, out)
}
