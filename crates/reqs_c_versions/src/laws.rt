//! Laws about the definitions that the contracts cite. The functions do nothing: each one's contract is its
//! law.

ghost use Rattle.std.specs.Prelude.{◌≡◌, ◌≢◌, ℕ, List};
ghost use Rattle.reqs_c_reply.specs.Endings.{Ending, OutOfMemory};
ghost use Rattle.reqs_c_versions.specs.Versions.{VersionEnds, OrderEnds};
ghost use Rattle.reqs_c_versions.specs.Ranges.{RangesDisjointEnds, SubsetEnds, EmptyEnds};

/// A call on a version's text has one ending, except that memory may run out at any time: a text has one
/// answer, or is refused at one place with one message.
pub fn a_version_has_one_ending()
    ensures { (bytes : List ℕ) (one other : Ending) → VersionEnds bytes one → VersionEnds bytes other
        → one ≢ OutOfMemory → other ≢ OutOfMemory → one ≡ other }
{}

/// A call that returns the order of two versions has one ending, unless memory runs out.
pub fn an_order_has_one_ending()
    ensures { (left right : List ℕ) (one other : Ending) → OrderEnds left right one
        → OrderEnds left right other → one ≢ OutOfMemory → other ≢ OutOfMemory → one ≡ other }
{}

/// A call that returns whether the ranges of two lists are disjoint has one ending, unless memory runs out.
pub fn disjointness_has_one_ending()
    ensures { (left right : List ℕ) (one other : Ending) → RangesDisjointEnds left right one
        → RangesDisjointEnds left right other → one ≢ OutOfMemory → other ≢ OutOfMemory → one ≡ other }
{}

/// A call that returns whether one list's range is a subset of another's has one ending, unless memory runs
/// out.
pub fn subsets_have_one_ending()
    ensures { (left right : List ℕ) (one other : Ending) → SubsetEnds left right one
        → SubsetEnds left right other → one ≢ OutOfMemory → other ≢ OutOfMemory → one ≡ other }
{}

/// A call that returns whether a list's range is empty has one ending, unless memory runs out.
pub fn emptiness_has_one_ending()
    ensures { (bytes : List ℕ) (one other : Ending) → EmptyEnds bytes one → EmptyEnds bytes other
        → one ≢ OutOfMemory → other ≢ OutOfMemory → one ≡ other }
{}
