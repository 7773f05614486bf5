//! Laws about the range of many lists. The functions do nothing: each one's contract is its law.

ghost use Rattle.std.specs.Prelude.{◌≡◌, ◌&&◌, List};
ghost use Rattle.version_ranges.specs.Point.{At};
ghost use Rattle.version_ranges.specs.Held.{holds_at};
ghost use Rattle.pep440_version.specs.Record.{VersionRecord, without_local};
ghost use Rattle.pep440_version.specs.Order.{version_cmp};
ghost use Rattle.pep440_specifier.specs.Matching.{SpecifierRecord};
ghost use Rattle.pep440_specifier_list.specs.Lists.{matches_all};
ghost use Rattle.pep440_range.specs.Agreement.{IsSaid};
ghost use Rattle.reqtable_range.specs.declared.one.OneRange.{OneRange};
ghost use Rattle.reqtable_range.specs.One.{FindsOne};
ghost use Rattle.reqtable_range.specs.Together.{members_of, all_take, lent, IsPlain};

use pep440_range::laws::ranges_agree_everywhere;

/// All lists accept a plain version exactly if both ranges contain it and each single specifier accepts it.
pub fn range_tells_what_all_take()
    ensures { (lists : List (List SpecifierRecord)) (one : OneRange) (candidate : VersionRecord) →
        FindsOne (members_of lists) one → IsPlain candidate →
        all_take lists candidate
        ≡ (holds_at version_cmp one.simple (At candidate)
        && (holds_at version_cmp one.local (At candidate)
        && matches_all (lent one.single.items) candidate)) }
{
    simple_range_tells_what_all_take();
}

/// All lists accept a version that can be written exactly if the range of the simple specifiers contains it
/// without its local part, the range of the local ones contains it as it is, and each single specifier
/// accepts it.
pub fn simple_range_tells_what_all_take()
    ensures { (lists : List (List SpecifierRecord)) (one : OneRange) (candidate : VersionRecord) →
        FindsOne (members_of lists) one → IsSaid candidate →
        all_take lists candidate
        ≡ (holds_at version_cmp one.simple (At (without_local candidate))
        && (holds_at version_cmp one.local (At candidate)
        && matches_all (lent one.single.items) candidate)) }
{
    ranges_agree_everywhere();
}
