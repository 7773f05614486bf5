//! The `<` and `>` whose range does not decide every version: the few that imply all others.
//!
//! `<` of a version accepts what is below it, but for pre-releases of the same release where it is no
//! pre-release itself; `>` what is above it, but for post-releases of the same release where it is no
//! post-release itself. So of two `<` that of the lower version implies the other, but where the lower one is
//! a pre-release of the upper one's release and the upper one is not; and of two `>` that of the upper
//! version, but where the upper one is a post-release of the lower one's release and the lower one is not.
//!
//! Where no one implies another, at most two `<` are left: of three, each but the lowest would be no
//! pre-release, and each but the highest would be one, so what the middle one is would be both. At most two
//! `>` are left by the same argument.

ghost use Rattle.std.specs.Prelude.{◌≡◌, ◌↔◌, ◌⊎◌, ◌&&◌, ◌||◌, not, [], ◌∷◌, ◌++◌, true, List};
ghost use Rattle.std.specs.Prelude.{IsTrue, IfOk, OnOk};
ghost use Rattle.std.specs.Option.{is_some};
ghost use Rattle.std.specs.Ordering.{is_le, is_ge};
ghost use Rattle.pep440_version.specs.Record.{VersionRecord};
ghost use Rattle.pep440_version.specs.Changes.{is_prerelease};
ghost use Rattle.pep440_version.specs.Order.{version_cmp};
ghost use Rattle.pep440_specifier.specs.Matching.{SpecifierRecord, takes, same_release};
ghost use Rattle.pep440_specifier_list.specs.Lists.{matches_all};
ghost use Rattle.reqtable_range.specs.Sorting.{Implies, StandFor};
ghost use Rattle.reqtable_range.specs.Together.{lent};

use pep440_specifier::{Operator, VersionSpecifier};
use pep440_version::Version;
use std::alloc::{AllocError, Global};

/// Whether the specifier is a `<` or `>`.
pub(crate) fn is_end(member: &VersionSpecifier) -> bool
    ensures { IsTrue result
        ↔ ((member.now.operator ≡ Operator.LessThan) ⊎ (member.now.operator ≡ Operator.GreaterThan)) }
{
    matches!(
        member.operator(),
        Operator::LessThan | Operator::GreaterThan
    )
}

/// Adds the specifier where none of `ends` implies it, and drops those that it implies.
pub(crate) fn add_end<'a>(
    alloc: Global,
    ends: &mut Vec<&'a VersionSpecifier>,
    member: &'a VersionSpecifier,
) -> Result<(), AllocError>
    ensures { OnOk result (StandFor (lent ends.old.items ++ member.now ∷ []) (lent ends.new.items)) }
{
    if is_implied(ends, member) {
        return Ok(());
    }
    let mut left = not_implied(alloc, ends, member)?;
    left.push(member)?;
    *ends = left;
    Ok(())
}

/// Whether one of `ends` implies the specifier.
fn is_implied(ends: &[&VersionSpecifier], member: &VersionSpecifier) -> bool
    ensures { IsTrue result → (version : VersionRecord) →
        matches_all (lent ends.now) version ≡ true → takes version member.now ≡ true }
{
    for end in ends {
        if implies(end, member) {
            return true;
        }
    }
    false
}

/// Those of `ends` that the specifier does not imply.
fn not_implied<'a>(
    alloc: Global,
    ends: &[&'a VersionSpecifier],
    member: &VersionSpecifier,
) -> Result<Vec<&'a VersionSpecifier>, AllocError>
    ensures { IfOk result (λ left.
        StandFor (lent ends.now ++ member.now ∷ []) (lent left.items ++ member.now ∷ [])) }
{
    let mut left = Vec::new(alloc);
    for end in ends {
        if !implies(member, end) {
            left.push(*end)?;
        }
    }
    Ok(left)
}

/// Whether each version that the one specifier accepts is known to be accepted by the other: both are `<`, or
/// both are `>`.
fn implies(one: &VersionSpecifier, other: &VersionSpecifier) -> bool
    ensures { IsTrue result → Implies one.now other.now }
{
    let version = one.version();
    let wanted = other.version();
    match (one.operator(), other.operator()) {
        (Operator::LessThan, Operator::LessThan) => less_implies(version, wanted),
        (Operator::GreaterThan, Operator::GreaterThan) => greater_implies(version, wanted),
        _ => false,
    }
}

/// Whether what `<` of the one version accepts is accepted by `<` of the other: the one is not above the
/// other, and is no pre-release of the other's release or the other is a pre-release too.
fn less_implies(one: &Version, other: &Version) -> bool
    ensures { result ≡ (is_le (version_cmp one.now other.now)
        && (is_prerelease other.now
        || (not (same_release one.now other.now) || not (is_prerelease one.now)))) }
{
    let keeps = other.any_prerelease() || !same_release(one, other) || !one.any_prerelease();
    one.cmp(other).is_le() && keeps
}

/// Whether what `>` of the one version accepts is accepted by `>` of the other: the one is not below the
/// other, and is no post-release of the other's release or the other is a post-release too.
fn greater_implies(one: &Version, other: &Version) -> bool
    ensures { result ≡ (is_ge (version_cmp one.now other.now)
        && (is_some other.now.post
        || (not (same_release one.now other.now) || not (is_some one.now.post)))) }
{
    let keeps = other.is_post() || !same_release(one, other) || !one.is_post();
    one.cmp(other).is_ge() && keeps
}

/// Whether epoch and release are equal, up to zeros at the end.
fn same_release(one: &Version, other: &Version) -> bool
    ensures { result ≡ same_release one.now other.now }
{
    one.epoch() == other.epoch() && one.cmp_release(other).is_eq()
}
