//! What the requirements on a package accept together.

ghost use Rattle.std.specs.Prelude.{◌≡◌, ◌&&◌, IfOk};
ghost use Rattle.std.specs.List.{list_any, list_all};
ghost use Rattle.reqtable_answer.specs.Admission.{Admits, AnswersBy};
ghost use Rattle.reqtable_answer.specs.Asks.{has_url, has_prerelease, ask_takes};
ghost use Rattle.reqtable_answer.specs.Ranged.{TellsTaken};
ghost use Rattle.reqtable_answer.specs.Says.{ask_seen};

use crate::admission::Admission;
use crate::ask::{Ask, AskSource};
use pep440_version::Version;
use reqtable_range::OneRange;
use std::alloc::{AllocError, Global};

/// Whether some requirement has a URL. Linear in the requirements.
pub fn is_direct(asks: &[Ask<'_>]) -> bool
    ensures { result ≡ list_any (λ ask. has_url (ask_seen ask)) asks.now }
{
    asks.iter().any(|ask| has_url(ask))
}

fn has_url(ask: &Ask<'_>) -> bool
    ensures { result ≡ has_url (ask_seen ask.now) }
{
    match ask.source {
        AskSource::Url => true,
        AskSource::Specifiers(_) | AskSource::Any => false,
    }
}

/// Whether some specifier names a pre-release or developmental release. Linear in the specifiers.
pub fn names_prerelease(asks: &[Ask<'_>]) -> bool
    ensures { result ≡ list_any (λ ask. has_prerelease (ask_seen ask)) asks.now }
{
    asks.iter().any(|ask| has_prerelease(ask))
}

fn has_prerelease(ask: &Ask<'_>) -> bool
    ensures { result ≡ has_prerelease (ask_seen ask.now) }
{
    match ask.source {
        AskSource::Specifiers(list) => list.any_prerelease(),
        AskSource::Url | AskSource::Any => false,
    }
}

/// Whether all requirements accept the version, and it is admitted.
///
/// # Errors
///
/// `AllocError` when memory runs out.
pub fn may_be_taken<F: Fn(&Version, bool) -> bool>(
    alloc: Global,
    asks: &[Ask<'_>],
    range: &Option<OneRange<'_>>,
    names_prerelease: bool,
    admission: &Admission<F>,
    version: &Version,
) -> Result<bool, AllocError>
    requires callable { F.IsAlwaysCallable admission.now }
    requires told { TellsTaken asks.now range.now }
    ensures { IfOk result (λ taken. (admits : Admits) → AnswersBy (F.post admission.now) admits →
        taken ≡ (list_all (λ ask. ask_takes version.now (ask_seen ask)) asks.now
        && admits version.now names_prerelease)) }
{
    let taken = all_take(alloc, asks, range, version)?;
    Ok(taken && admission.admits(version, names_prerelease))
}

/// Whether all requirements accept the version: decided by their range, where that decides it, and otherwise
/// tested against each, up to the first that doesn't. Allocates no memory of its own.
///
/// # Errors
///
/// `AllocError` when memory runs out.
pub fn all_take(
    alloc: Global,
    asks: &[Ask<'_>],
    range: &Option<OneRange<'_>>,
    version: &Version,
) -> Result<bool, AllocError>
    requires { TellsTaken asks.now range.now }
    ensures { IfOk result (λ taken.
        taken ≡ list_all (λ ask. ask_takes version.now (ask_seen ask)) asks.now) }
{
    if let Some(range) = range {
        if let Some(taken) = range.tells(alloc, version)? {
            return Ok(taken);
        }
    }
    takes_all(alloc, asks, version)
}

/// Whether all requirements accept the version: each is tested, up to the first that doesn't.
fn takes_all(alloc: Global, asks: &[Ask<'_>], version: &Version) -> Result<bool, AllocError>
    ensures { IfOk result (λ taken.
        taken ≡ list_all (λ ask. ask_takes version.now (ask_seen ask)) asks.now) }
{
    for ask in asks {
        let taken = takes(alloc, ask, version)?;
        if !taken {
            return Ok(false);
        }
    }
    Ok(true)
}

fn takes(alloc: Global, ask: &Ask<'_>, version: &Version) -> Result<bool, AllocError>
    ensures { IfOk result (λ taken. taken ≡ ask_takes version.now (ask_seen ask.now)) }
{
    match ask.source {
        AskSource::Specifiers(list) => list.contains(alloc, version),
        AskSource::Url | AskSource::Any => Ok(true),
    }
}
