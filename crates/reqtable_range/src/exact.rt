//! The `===` of a list: at most two.
//!
//! A `===` accepts the versions of one text alone. So one of a text that is there already rejects nothing
//! more; and where two of different texts are there, no version is accepted by both, and a third rejects
//! nothing more.

ghost use Rattle.std.specs.Prelude.{◌≡◌, ◌↔◌, [], ◌∷◌, ◌++◌, true, false, IsTrue, IfOk, OnOk};
ghost use Rattle.pep440_version.specs.Record.{VersionRecord};
ghost use Rattle.pep440_specifier.specs.Matching.{takes};
ghost use Rattle.pep440_specifier_list.specs.Lists.{matches_all};
ghost use Rattle.reqtable_range.specs.Sorting.{Implies, StandFor};
ghost use Rattle.reqtable_range.specs.Together.{lent};

use pep440_specifier::{Operator, VersionSpecifier};
use std::alloc::{AllocError, Global};

/// Adds the `===`, unless it accepts what the others accept together. Needs memory to print two versions.
pub(crate) fn add_exact<'a>(
    alloc: Global,
    exact: &mut Vec<&'a VersionSpecifier>,
    member: &'a VersionSpecifier,
) -> Result<(), AllocError>
    ensures { OnOk result (StandFor (lent exact.old.items ++ member.now ∷ []) (lent exact.new.items)) }
{
    let implied = is_implied(alloc, exact, member)?;
    if implied {
        return Ok(());
    }
    exact.push(member)?;
    Ok(())
}

/// Whether the specifier is known to accept what the others accept together: it accepts what the only one
/// does, or the first two accept nothing together.
fn is_implied(
    alloc: Global,
    exact: &[&VersionSpecifier],
    member: &VersionSpecifier,
) -> Result<bool, AllocError>
    ensures { IfOk result (λ implied. IsTrue implied → (version : VersionRecord) →
        matches_all (lent exact.now) version ≡ true → takes version member.now ≡ true) }
{
    match exact {
        [] => Ok(false),
        [one] => is_of_same_text(alloc, one, member),
        [one, other, ..] => is_of_other_text(alloc, one, other),
    }
}

/// Whether both are `===` and of one text, so that each accepts the versions that the other accepts.
fn is_of_same_text(
    alloc: Global,
    one: &VersionSpecifier,
    other: &VersionSpecifier,
) -> Result<bool, AllocError>
    ensures { IfOk result (λ same. IsTrue same → Implies one.now other.now) }
{
    if !is_exact(one) || !is_exact(other) {
        return Ok(false);
    }
    other.contains(alloc, one.version())
}

/// Whether both are `===` and of different texts, so that no version is accepted by both.
fn is_of_other_text(
    alloc: Global,
    one: &VersionSpecifier,
    other: &VersionSpecifier,
) -> Result<bool, AllocError>
    ensures { IfOk result (λ apart. IsTrue apart → (version : VersionRecord) →
        takes version one.now ≡ true → takes version other.now ≡ false) }
{
    if !is_exact(one) || !is_exact(other) {
        return Ok(false);
    }
    let same = other.contains(alloc, one.version())?;
    Ok(!same)
}

/// Whether the specifier is a `===`.
pub(crate) fn is_exact(member: &VersionSpecifier) -> bool
    ensures { IsTrue result ↔ (member.now.operator ≡ Operator.ExactEqual) }
{
    matches!(member.operator(), Operator::ExactEqual)
}
