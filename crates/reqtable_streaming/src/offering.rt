//! A candidate is offered to its package, which keeps it if it is the best one so far.
//!
//! The cheap questions come first: whether the candidate is admitted and higher than the best one. Only then
//! is it tested against the requirements: against each by itself at first, and by their range once their
//! specifiers and the tested candidates are many.

ghost use Rattle.std.specs.Prelude.{◌≡◌, IfOk, IfSome, IsTrue, OnOk, Some};
ghost use Rattle.std.specs.List.{AllZip, list_all};
ghost use Rattle.pep440_version.specs.Record.{VersionRecord};
ghost use Rattle.pep440_version.specs.Packing.{packed};
ghost use Rattle.reqtable_answer.specs.Admission.{Admits, AnswersBy};
ghost use Rattle.reqtable_answer.specs.Asks.{ask_takes};
ghost use Rattle.reqtable_answer.specs.Groups.{exceeds};
ghost use Rattle.reqtable_answer.specs.Ranged.{TellsTaken};
ghost use Rattle.reqtable_answer.specs.Says.{ask_seen};
ghost use Rattle.reqtable_streaming.specs.Packages.{AreRising, AreNamesOf, AreSound, IsSound, names_of};
ghost use Rattle.reqtable_streaming.specs.Packages.{by_version, candidate_with, IsAsBefore};
ghost use Rattle.reqtable_streaming.specs.Packages.{IsOffered, IsNext, IsPassedOver, unboxed};

use crate::fronts::Fronted;
use crate::required::{Package, place_of};
use pep440_version::Version;
use reqtable_answer::{Admission, Ask, all_take, range_of};
use reqtable_candidates::Candidate;
use reqtable_range::OneRange;
use std::alloc::{AllocError, Global};

/// Offers the candidate of a name and a version to its package, if that is required. `names` are those of the
/// packages. `before` is the place of the package of the candidate before; returns that of this candidate.
pub(crate) fn offer_to<F: Fn(&Version, bool) -> bool>(
    alloc: Global,
    packages: &mut Vec<Package<'_>>,
    names: &[Fronted<'_>],
    before: usize,
    name: &Fronted<'_>,
    version: Version,
    word: Option<u64>,
    admission: &Admission<F>,
) -> Result<usize, AllocError>
    requires callable { F.IsAlwaysCallable admission.now }
    requires packed { IfSome word (λ n. packed version ≡ Some n) }
    requires rising { AreRising packages.old.items }
    requires named { AreNamesOf packages.old.items names.now }
    requires sound { AreSound packages.old.items }
    ensures names { OnOk result (names_of packages.new.items ≡ names_of packages.old.items) }
    ensures sound { OnOk result (AreSound packages.new.items) }
    ensures offered { OnOk result ((admits : Admits) → AnswersBy (F.post admission.now) admits →
        AllZip (IsNext admits (candidate_with name.now.name.now version)) packages.old.items
        packages.new.items) }
{
    let Some(place) = place_of(packages, names, before, name) else {
        return Ok(before);
    };
    offer(alloc, &mut packages[place], version, word, admission)?;
    Ok(place)
}

/// Returns the place of the package of this name, or `before` if none has it, and whether it is known that
/// offering a candidate of it whose version has this word would change nothing.
pub(crate) fn passes_over(
    packages: &[Package<'_>],
    names: &[Fronted<'_>],
    before: usize,
    name: &Fronted<'_>,
    word: u64,
) -> (usize, bool)
    requires rising { AreRising packages.now }
    requires named { AreNamesOf packages.now names.now }
    requires sound { AreSound packages.now }
    ensures { IsTrue result.1 → (admits : Admits) (version : VersionRecord) → packed version ≡ Some word →
        AllZip (IsNext admits (candidate_with name.now.name.now version)) packages.now packages.now }
{
    match place_of(packages, names, before, name) {
        None => (before, true),
        Some(place) => (place, is_past(&packages[place], word)),
    }
}

/// Whether no version with this word becomes that of the package's best candidate, because there is a URL or
/// the best one so far is known to be as high.
fn is_past(wanted: &Package<'_>, word: u64) -> bool
    requires { IsSound wanted.now }
    ensures { IsTrue result → IsPassedOver word wanted.now }
{
    if wanted.direct {
        return true;
    }
    match wanted.word {
        Some(best) => word <= best,
        None => false,
    }
}

/// Makes the version that of the package's best candidate, if it is admitted, higher than the best one before
/// it, and accepted. Only then the candidate gets a name in memory of its own.
fn offer<F: Fn(&Version, bool) -> bool>(
    alloc: Global,
    wanted: &mut Package<'_>,
    version: Version,
    word: Option<u64>,
    admission: &Admission<F>,
) -> Result<(), AllocError>
    requires callable { F.IsAlwaysCallable admission.now }
    requires packed { IfSome word (λ n. packed version ≡ Some n) }
    requires sound { IsSound wanted.old }
    ensures name { OnOk result (wanted.new.name ≡ wanted.old.name) }
    ensures sound { OnOk result (IsSound wanted.new) }
    ensures offered { OnOk result ((admits : Admits) → AnswersBy (F.post admission.now) admits →
        IsOffered admits (candidate_with wanted.old.name.now version) wanted.old wanted.new) }
{
    if wanted.direct || !is_greater(wanted, &version) {
        return Ok(());
    }
    if !admission.admits(&version, wanted.prerelease) {
        return Ok(());
    }
    prepare(alloc, wanted)?;
    if accept(alloc, &wanted.asks, &wanted.range, &version)? {
        let name = wanted.name.try_clone(alloc)?;
        wanted.best = Some(Candidate { name, version });
        wanted.word = word;
    }
    Ok(())
}

/// Whether all requirements accept the version, by their range where that is made and decides it.
fn accept(
    alloc: Global,
    asks: &[Ask<'_>],
    range: &Option<Box<OneRange<'_>>>,
    version: &Version,
) -> Result<bool, AllocError>
    requires { TellsTaken asks.now (unboxed range.now) }
    ensures { IfOk result (λ taken.
        taken ≡ list_all (λ ask. ask_takes version.now (ask_seen ask)) asks.now) }
{
    if let Some(range) = range {
        if let Some(taken) = range.tells(alloc, version)? {
            return Ok(taken);
        }
    }
    all_take(alloc, asks, &None, version)
}

/// Whether the version is higher than that of the package's best candidate so far.
fn is_greater(wanted: &Package<'_>, version: &Version) -> bool
    ensures { result ≡ exceeds by_version (candidate_with wanted.now.name.now version.now) wanted.now.best }
{
    match &wanted.best {
        None => true,
        Some(best) => *version > best.version,
    }
}

/// Counts a test of a candidate, and makes the range of the requirements where that many tests want one. The
/// count is looked at where it doubles, so that all looks together are linear in the tests.
fn prepare(alloc: Global, wanted: &mut Package<'_>) -> Result<(), AllocError>
    requires { IsSound wanted.old }
    ensures sound { OnOk result (IsSound wanted.new) }
    ensures same { OnOk result (IsAsBefore wanted.old wanted.new) }
{
    wanted.tested = wanted.tested.saturating_add(1);
    if wanted.range.is_none() && wanted.tested.is_power_of_two() {
        wanted.range = boxed_range(alloc, &wanted.asks, wanted.tested)?;
    }
    Ok(())
}

/// The range of the requirements, if that many tests want one.
fn boxed_range<'a>(
    alloc: Global,
    asks: &[Ask<'a>],
    tested: usize,
) -> Result<Option<Box<OneRange<'a>>>, AllocError>
    ensures { IfOk result (λ range. TellsTaken asks.now (unboxed range)) }
{
    match range_of(alloc, asks, tested)? {
        None => Ok(None),
        Some(range) => {
            let boxed = Box::new(alloc, range)?;
            Ok(Some(boxed))
        }
    }
}
