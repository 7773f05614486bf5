//! The commands of `reqs` on lists with `--assume`, whose answers are text.
//!
//! `assumption` is the marker that is assumed. The bounds are those of `lists.rt`.

ghost use Rattle.std.specs.Prelude.{◌==◌, not};
ghost use Rattle.reqs_c_reply.specs.Endings.{RepliesAs};
ghost use Rattle.reqs_c_assuming.specs.Assumptions.{AssumptionEnds};
ghost use Rattle.reqs_c_assuming.specs.Assuming.{SameEndsWhere, CoversEndsWhere, ConflictsEndWhere};

use reqs_c_lists::Bounds;
use reqs_c_reply::Reply;
use reqs_json::Format;
use std::alloc::Global;

/// The text of the marker that `reqs` assumes with `--assume`, `--python` and, where `real` is not 0,
/// `--assume-real`; empty where an empty marker, no specifiers and 0 assume nothing.
#[unsafe(no_mangle)]
pub extern "C" fn reqs_assumption(
    alloc: Global,
    marker: &[u8],
    python: &[u8],
    real: u64,
    out: &mut [u8],
) -> Reply
    ensures { RepliesAs (AssumptionEnds marker.now python.now (not (real == 0))) out.old out.new result }
{
    reqs_c_assuming::assumption(alloc, marker, python, real != 0, out)
}

/// The answer of `reqs same` on two lists where a marker holds. No package may have more cases than `limit`.
#[unsafe(no_mangle)]
pub extern "C" fn reqs_same_where(
    alloc: Global,
    left: &[u8],
    right: &[u8],
    assumption: &[u8],
    limit: u64,
    nodes: usize,
    clauses: usize,
    cases: u64,
    out: &mut [u8],
) -> Reply
    ensures { RepliesAs
        (SameEndsWhere Format.Text limit (record { nodes = nodes; clauses = clauses; cases = cases })
        left.now right.now assumption.now)
        out.old out.new result }
{
    let bounds = Bounds {
        nodes,
        clauses,
        cases,
    };
    let format = Format::Text;
    reqs_c_assuming::same_where(alloc, left, right, assumption, limit, bounds, format, out)
}

/// The answer of `reqs covers` on a lock and requirements where a marker holds. No package may have more
/// cases than `limit`.
#[unsafe(no_mangle)]
pub extern "C" fn reqs_covers_where(
    alloc: Global,
    lock: &[u8],
    requirements: &[u8],
    assumption: &[u8],
    limit: u64,
    nodes: usize,
    clauses: usize,
    cases: u64,
    out: &mut [u8],
) -> Reply
    ensures { RepliesAs
        (CoversEndsWhere Format.Text limit (record { nodes = nodes; clauses = clauses; cases = cases })
        lock.now requirements.now assumption.now)
        out.old out.new result }
{
    let bounds = Bounds {
        nodes,
        clauses,
        cases,
    };
    let format = Format::Text;
    reqs_c_assuming::covers_where(
        alloc,
        lock,
        requirements,
        assumption,
        limit,
        bounds,
        format,
        out,
    )
}

/// The answer of `reqs conflicts` on a list where a marker holds. No package may have more cases than
/// `limit`.
#[unsafe(no_mangle)]
pub extern "C" fn reqs_conflicts_where(
    alloc: Global,
    requirements: &[u8],
    assumption: &[u8],
    limit: u64,
    nodes: usize,
    cases: u64,
    out: &mut [u8],
) -> Reply
    ensures { RepliesAs
        (ConflictsEndWhere Format.Text limit
        (record { nodes = nodes; clauses = usize.MAX; cases = cases })
        requirements.now assumption.now)
        out.old out.new result }
{
    let bounds = Bounds {
        nodes,
        clauses: usize::MAX,
        cases,
    };
    let format = Format::Text;
    reqs_c_assuming::conflicts_where(alloc, requirements, assumption, limit, bounds, format, out)
}
