//! Laws about conflicts. The functions do nothing: each one's contract is its law.

ghost use Rattle.reqtable_conflicts.specs.NothingTaken.{EachFound, ApplySomewhere, TakesNoPlain, HasNothing};

use pep440_specifier::laws::a_read_specifier_is_built;

/// The lines of each conflict that `conflicts` lists are, under some valuation of markers, exactly the lines
/// of the package that apply; and wherever they are, no version is accepted by all of them that has neither a
/// local part nor a post-release. So from candidates with such versions nothing is selected for the package
/// in any such environment, with any extras and by any admission test.
pub fn a_listed_conflict_takes_no_plain_version()
    ensures somewhere { EachFound ApplySomewhere }
    ensures takes { EachFound TakesNoPlain }
    ensures answered { EachFound HasNothing }
{
    a_read_specifier_is_built();
}
