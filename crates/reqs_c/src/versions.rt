//! Versions and specifiers (PEP 440).

ghost use Rattle.reqs_c_reply.specs.Endings.{RepliesAs};
ghost use Rattle.reqs_c_versions.specs.Specifiers.{SpecifiersEnd, TakesEnd};
ghost use Rattle.reqs_c_versions.specs.Ranges.{RangesDisjointEnds, SubsetEnds, EmptyEnds};
ghost use Rattle.reqs_c_versions.specs.Versions.{VersionEnds, OrderEnds, IsKey};

use reqs_c_reply::Reply;
use std::alloc::Global;

/// The normal text of a version.
#[unsafe(no_mangle)]
pub extern "C" fn reqs_version(alloc: Global, text: &[u8], out: &mut [u8]) -> Reply
    ensures { RepliesAs (VersionEnds text.now) out.old out.new result }
{
    reqs_c_versions::version(alloc, text, out)
}

/// How two versions compare: `<`, `=` or `>`.
#[unsafe(no_mangle)]
pub extern "C" fn reqs_version_order(
    alloc: Global,
    left: &[u8],
    right: &[u8],
    out: &mut [u8],
) -> Reply
    ensures { RepliesAs (OrderEnds left.now right.now) out.old out.new result }
{
    reqs_c_versions::version_order(alloc, left, right, out)
}

/// The length of a version's key, whose prefix that fits is written to `out`; -2 if the version is invalid,
/// -3 when memory runs out.
#[unsafe(no_mangle)]
pub extern "C" fn reqs_version_key(alloc: Global, text: &[u8], out: &mut [u8]) -> i64
    ensures { IsKey text.now out.old out.new result }
{
    reqs_c_versions::version_key(alloc, text, out)
}

/// The specifiers of a list, one per line.
#[unsafe(no_mangle)]
pub extern "C" fn reqs_specifiers(alloc: Global, text: &[u8], out: &mut [u8]) -> Reply
    ensures { RepliesAs (SpecifiersEnd text.now) out.old out.new result }
{
    reqs_c_versions::specifiers(alloc, text, out)
}

/// Which versions, one per line, a list of specifiers accepts: a byte `1`, `0` or `?` for each line.
#[unsafe(no_mangle)]
pub extern "C" fn reqs_specifiers_take(
    alloc: Global,
    list: &[u8],
    versions: &[u8],
    out: &mut [u8],
) -> Reply
    ensures { RepliesAs (TakesEnd list.now versions.now) out.old out.new result }
{
    reqs_c_versions::specifiers_take(alloc, list, versions, out)
}

/// Whether the ranges of two lists of specifiers are disjoint: `1` or `0`.
#[unsafe(no_mangle)]
pub extern "C" fn reqs_specifiers_disjoint(
    alloc: Global,
    left: &[u8],
    right: &[u8],
    out: &mut [u8],
) -> Reply
    ensures { RepliesAs (RangesDisjointEnds left.now right.now) out.old out.new result }
{
    reqs_c_versions::specifiers_disjoint(alloc, left, right, out)
}

/// Whether the left list's range is a subset of the right one's: `1` or `0`.
#[unsafe(no_mangle)]
pub extern "C" fn reqs_specifiers_subset(
    alloc: Global,
    left: &[u8],
    right: &[u8],
    out: &mut [u8],
) -> Reply
    ensures { RepliesAs (SubsetEnds left.now right.now) out.old out.new result }
{
    reqs_c_versions::specifiers_subset(alloc, left, right, out)
}

/// Whether the range of a list of specifiers is empty: `1` or `0`.
#[unsafe(no_mangle)]
pub extern "C" fn reqs_specifiers_empty(alloc: Global, text: &[u8], out: &mut [u8]) -> Reply
    ensures { RepliesAs (EmptyEnds text.now) out.old out.new result }
{
    reqs_c_versions::specifiers_empty(alloc, text, out)
}
