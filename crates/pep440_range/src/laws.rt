//! Laws of specifiers' ranges. The functions do nothing: each one's contract is its law.
//!
//! A negation is not always the complement: PEP 440 takes pre-releases away from `<` and post-releases from
//! `>`. With a version that is neither a pre- nor a developmental release, `<` and `>=` both leave out its
//! developmental releases, and `<=` and `>` always leave out what is just above their version. The laws say
//! so point by point. Among releases, where bounds are plain, each negation is the complement.
//!
//! The law on a list of intervals speaks of an ordered list, as `from_release_only_bounds` returns it. Its
//! premises are what that call does not require: intervals begin and end in order, each gap is one version
//! or a minor release, and there is an interval at all (the list of none accepts everything).

ghost use Rattle.std.specs.Prelude.{◌≡◌, ◌≢◌, ℕ, [], ◌∷◌, List, map, Some, None, Ok, All, false};
ghost use Rattle.std.specs.Option.{option_map};
ghost use Rattle.version_ranges.specs.Point.{Point, At, JustAbove};
ghost use Rattle.std.specs.declared.ops.Bound.{Bound};
ghost use Rattle.version_ranges.specs.Bounds.{is_within, intervals};
ghost use Rattle.version_ranges.specs.Held.{holds_at, IsNormal};
ghost use Rattle.pep440_version.specs.Record.{VersionRecord, without_local};
ghost use Rattle.pep440_version.specs.Changes.{is_prerelease};
ghost use Rattle.pep440_version.specs.Order.{version_cmp};
ghost use Rattle.pep440_operator.specs.declared.operator.Operator.{Operator};
ghost use Rattle.pep440_operator.specs.declared.operator.Operator.TheVariants.{ExactEqual, LessThan};
ghost use Rattle.pep440_operator.specs.declared.operator.Operator.TheVariants.{LessThanEqual, GreaterThan};
ghost use Rattle.pep440_operator.specs.declared.operator.Operator.TheVariants.{GreaterThanEqual};
ghost use Rattle.pep440_specifier.specs.Bounds.{IsReleaseVersion, IsReleaseBound, interval_specifiers};
ghost use Rattle.pep440_operator.specs.Operators.{negated};
ghost use Rattle.pep440_specifier.specs.Building.{IsBuilt};
ghost use Rattle.pep440_specifier.specs.Matching.{SpecifierRecord, matches};
ghost use Rattle.pep440_specifier_list.specs.Lists.{IsInOrder, matches_all};
ghost use Rattle.pep440_specifier_list.specs.ListBounds.{Interval, AreReleaseIntervals, list_specifiers};
ghost use Rattle.pep440_range.specs.Agreement.{Agrees, IsSaid, IsAgreeing, IsWithoutPosts, IsSimple};
ghost use Rattle.pep440_range.specs.Complements.{IsComplemented};
ghost use Rattle.pep440_range.specs.Intervals.{ShareJust, HasNumbers, HaveNumbers, AreBehind, GapsAreSaid};
ghost use Rattle.pep440_range.specs.Intervals.{is_in_one};
ghost use Rattle.pep440_range.specs.Ranges.{PointTest, GivesAll, all_but, range_of, range_by, range_holds};
ghost use Rattle.pep440_range.specs.Ranges.{release_range_of, release_range_by};

use pep440_version::Version;
use version_ranges::laws::intervals_hold_the_set;

/// A specifier's range holds a version without a local part exactly where the specifier accepts it. Not
/// covered: `===`, `<` of a post-release with candidates of its own release, and `>` of a version that is
/// not a final release with a candidate of its release where either is a post-release.
pub fn ranges_agree_with_matching()
    ensures { (specifier : SpecifierRecord) (candidate : VersionRecord) (range : PointTest) →
        IsBuilt specifier → IsSaid specifier.version → IsSaid candidate → candidate.local ≡ [] →
        Agrees specifier.operator specifier.version candidate →
        range_of specifier ≡ Some range →
        range (At candidate) ≡ matches specifier.operator specifier.version candidate }
{}

/// A list's range, where there is one, holds a version without a local part exactly where the list accepts
/// it, if each member meets the conditions of `ranges_agree_with_matching`.
pub fn list_ranges_agree_with_matching()
    ensures { (members : List SpecifierRecord) (candidate : VersionRecord)
        (set : List (Point VersionRecord)) →
        All (IsAgreeing candidate) members → IsSaid candidate → candidate.local ≡ [] →
        GivesAll (Ok set) (map range_of members) →
        holds_at version_cmp set (At candidate) ≡ matches_all members candidate }
{}

/// A list's range, where there is one, holds a candidate with neither a local part nor a post-release
/// exactly where the list accepts it, if no member is `===`, or `<` or `>` of a post-release. Nothing is
/// required of a member and the candidate together.
pub fn ranges_agree_beside_posts()
    ensures { (members : List SpecifierRecord) (candidate : VersionRecord)
        (set : List (Point VersionRecord)) →
        All IsWithoutPosts members → IsSaid candidate → candidate.local ≡ [] → candidate.post ≡ None →
        GivesAll (Ok set) (map range_of members) →
        holds_at version_cmp set (At candidate) ≡ matches_all members candidate }
{}

/// A list's range holds a candidate without its local part exactly where the list accepts the candidate, if
/// no member is `===`, has a local part, is `<` of a post-release, or is `>` of anything but a final
/// release.
pub fn ranges_agree_everywhere()
    ensures { (members : List SpecifierRecord) (candidate : VersionRecord)
        (set : List (Point VersionRecord)) →
        All IsSimple members → IsSaid candidate →
        GivesAll (Ok set) (map range_of members) →
        holds_at version_cmp set (At (without_local candidate)) ≡ matches_all members candidate }
{}

/// Among versions of release numbers alone, a specifier's range among releases holds a candidate exactly
/// where the specifier accepts it; but for `===`, which compares prints, so that `===1.0` rejects `1`.
pub fn release_ranges_agree_with_matching()
    ensures { (specifier : SpecifierRecord) (candidate : VersionRecord) (range : PointTest) →
        IsReleaseVersion specifier.version → IsReleaseVersion candidate → specifier.operator ≢ ExactEqual →
        release_range_of specifier ≡ Some range →
        range (At candidate) ≡ matches specifier.operator specifier.version candidate }
{}

/// The range of an operator's negation is the complement of the operator's own range, where
/// `IsComplemented` holds: for `==`, `===` and `!=`, and for `<` and `>=` with a pre-release or a
/// developmental release.
pub fn negation_is_the_complement()
    ensures { (operator other : Operator) (version : VersionRecord) →
        negated operator ≡ Some other → IsComplemented operator version →
        range_by other version ≡ option_map all_but (range_by operator version) }
{}

/// Some points are in neither the range of an operator nor that of its negation: for `<` and `>=` the first
/// developmental release of a version that is neither a pre-release nor a developmental release; for `<=`
/// and `>` what lies just above the version.
pub fn some_are_in_neither_range()
    ensures before { (version : VersionRecord) →
        IsSaid version → version.local ≡ [] → is_prerelease version ≡ false →
        let first = At (record version { dev = Some 0 }) in
        (range_holds (range_by LessThan version) first ≡ false)
        × (range_holds (range_by GreaterThanEqual version) first ≡ false) }
    ensures behind { (version : VersionRecord) → IsSaid version →
        (range_holds (range_by LessThanEqual version) (JustAbove version) ≡ false)
        × (range_holds (range_by GreaterThan version) (JustAbove version) ≡ false) }
{}

/// Among releases the range of an operator's negation is the complement of the operator's own range, for
/// each operator that has a negation.
pub fn release_negation_is_the_complement()
    ensures { (operator other : Operator) (release : List ℕ) →
        negated operator ≡ Some other →
        release_range_by other release ≡ option_map all_but (release_range_by operator release) }
{}

/// The ranges among releases of an interval's specifiers hold together just what lies between its bounds.
/// The numbers of the upper bound are of 64 bits, as those of each version are.
pub fn interval_specifiers_hold_the_interval()
    ensures { (lower upper : Bound VersionRecord) →
        IsReleaseBound lower → IsReleaseBound upper → HasNumbers upper →
        ShareJust (map release_range_of (interval_specifiers lower upper))
        (is_within version_cmp (lower, upper)) }
{}

/// The ranges among releases of the list of intervals hold together just what lies in one of the intervals;
/// where each interval ends before the next begins, and each gap between two is one version or a minor
/// release, which a specifier excludes. There is at least one interval: the empty list accepts all
/// versions.
pub fn list_of_intervals_holds_their_union()
    ensures { (first : Interval) (later : List Interval) (members : List SpecifierRecord) →
        AreReleaseIntervals (first ∷ later) → HaveNumbers (first ∷ later) →
        AreBehind first later → GapsAreSaid first.1 later →
        IsInOrder (list_specifiers (first ∷ later)) members →
        ShareJust (map release_range_of members) (is_in_one (first ∷ later)) }
{}

/// The ranges among releases of the list of a set's intervals hold together just what the set holds, where
/// each gap between two of the intervals is one version or a minor release; the set is not empty.
pub fn list_of_a_set_holds_the_set()
    ensures { (set : List (Point VersionRecord)) (first : Interval) (later : List Interval)
        (members : List SpecifierRecord) →
        IsNormal version_cmp set → intervals set ≡ first ∷ later →
        AreReleaseIntervals (first ∷ later) → HaveNumbers (first ∷ later) → GapsAreSaid first.1 later →
        IsInOrder (list_specifiers (first ∷ later)) members →
        ShareJust (map release_range_of members) (holds_at version_cmp set) }
{
    intervals_hold_the_set::<Version>();
}
