//! The required packages, each with what is required of it and its best candidate so far.
//!
//! Packages are sorted by their names. A list of candidates mostly comes package by package, so the package
//! of the candidate before is tried first.

ghost use Rattle.std.specs.Prelude.{◌≡◌, ◌<◌, true, None, List, ℕ, length, IfOk, OnErr};
ghost use Rattle.std.specs.List.{list_all};
ghost use Rattle.pep508_requirement_text.specs.FrontReading.{Front};
ghost use Rattle.reqtable_answer.specs.Asks.{is_of};
ghost use Rattle.reqtable_answer.specs.Says.{asks_seen};
ghost use Rattle.reqtable_streaming.specs.Packages.{AreGroups, AreNew, AreRising, AreNamesOf};
ghost use Rattle.reqtable_streaming.specs.Packages.{IsSound, Finds};

use crate::fronts::{Fronted, compare, of_name};
use pep508_name::PackageName;
use reqtable_answer::{Ask, Groups, is_direct, names_prerelease};
use reqtable_candidates::Candidate;
use reqtable_range::OneRange;
use std::alloc::{AllocError, Global};

/// A required package.
#[derive(Drop)]
pub(crate) struct Package<'a> {
    pub(crate) name: &'a PackageName,
    /// The requirements on the package.
    pub(crate) asks: Vec<Ask<'a>>,
    /// Whether one of them has a URL, so that no candidate is looked for.
    pub(crate) direct: bool,
    /// Whether one of their specifiers names a pre-release or developmental release.
    pub(crate) prerelease: bool,
    /// How many candidates were tested against the requirements.
    pub(crate) tested: usize,
    /// The range of the requirements, once many candidates were tested. Few packages have one.
    pub(crate) range: Option<Box<OneRange<'a>>>,
    /// The first among the highest candidates so far that are admitted and accepted.
    pub(crate) best: Option<Candidate>,
    /// The word of its version, where that was read.
    pub(crate) word: Option<u64>,
}

/// The packages of groups of requirements, sorted by their names.
pub(crate) fn packages_of<'a>(
    alloc: Global,
    groups: &Groups<'a>,
) -> Result<Vec<Package<'a>>, AllocError>
    requires { (all : List Front) × AreGroups all groups.now }
    ensures { IfOk result (λ packages. (all : List Front) → AreGroups all groups.now →
        AreNew all packages.items) }
{
    let mut packages = Vec::with_capacity(alloc, groups.len())?;
    for entry in groups.iter() {
        let wanted = package_of(alloc, &entry.1.asks)?;
        packages.push(wanted)?;
    }
    Ok(packages)
}

/// The package of these requirements, of which no candidate was read.
fn package_of<'a>(alloc: Global, asks: &[Ask<'a>]) -> Result<Package<'a>, AllocError>
    requires { 0 < length asks.now }
    ensures name { IfOk result (λ wanted. (q : List ℕ) →
        list_all (is_of q) (asks_seen asks.now) ≡ true → wanted.name.now ≡ q) }
    ensures asks { IfOk result (λ wanted. wanted.asks.items ≡ asks.now) }
    ensures best { IfOk result (λ wanted. wanted.best ≡ None) }
    ensures sound { IfOk result IsSound }
{
    Ok(Package {
        name: asks[0].name,
        asks: copied(alloc, asks)?,
        direct: is_direct(asks),
        prerelease: names_prerelease(asks),
        tested: 0,
        range: None,
        best: None,
        word: None,
    })
}

fn copied<'a>(alloc: Global, asks: &[Ask<'a>]) -> Result<Vec<Ask<'a>>, AllocError>
    ensures { IfOk result (λ copies. copies.items ≡ asks.now) }
{
    let mut copies = Vec::with_capacity(alloc, asks.len())?;
    for ask in asks {
        copies.push(*ask)?;
    }
    Ok(copies)
}

/// The names of the packages, in their order.
pub(crate) fn fronted_names<'a>(
    alloc: Global,
    packages: &[Package<'a>],
) -> Result<Vec<Fronted<'a>>, AllocError>
    ensures names { IfOk result (λ names. AreNamesOf packages.now names.items) }
    ensures grown { OnErr result (0 < length packages.now) }
{
    let mut names = Vec::with_capacity(alloc, packages.len())?;
    for wanted in packages {
        names.push(of_name(wanted.name))?;
    }
    Ok(names)
}

/// The place of the package of this name, by the names of the packages. `before` is the place that is tried
/// first. With n packages that are O(log n) comparisons of names, of which most read their fronts alone.
pub(crate) fn place_of(
    packages: &[Package<'_>],
    names: &[Fronted<'_>],
    before: usize,
    name: &Fronted<'_>,
) -> Option<usize>
    requires rising { AreRising packages.now }
    requires named { AreNamesOf packages.now names.now }
    ensures { Finds packages.now name.now.name.now result }
{
    if before < packages.len() && compare(&names[before], name).is_eq() {
        return Some(before);
    }
    match names.binary_search_by(|other| compare(other, name)) {
        Ok(place) => Some(place),
        Err(_) => None,
    }
}
