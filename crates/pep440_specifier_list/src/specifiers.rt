//! Lists of specifiers.

ghost use Rattle.std.specs.Prelude.{◌≡◌, ◌≢◌, ◌^◌, ◌<◌, ◌==◌, [], ◌∷◌, length, All, IsOk, IfOk};
ghost use Rattle.std.specs.Iterator.Runs.{EveryRun, ItemsMapTo, ItemsAre, ItemsAreReversed};
ghost use Rattle.std.specs.Slice.Iter.{iter_rest, iter_steps};
ghost use Rattle.std.specs.Vec.Iter.{into_iter_items, into_iter_len, into_iter_steps};
ghost use Rattle.pep440_operator.specs.declared.operator.Operator.TheVariants.{ExactEqual};
ghost use Rattle.pep440_specifier_list.specs.Lists.{IsByVersion, IsInOrder, matches_all, any_prerelease};

use crate::asking::ask;
use pep440_specifier::VersionSpecifier;
use pep440_version::Version;
use std::alloc::{AllocError, Global};
use std::marker::Model;
use std::{slice, vec};

/// A list of specifiers, which accepts the versions that each of them accepts (PEP 440, "Version
/// specifiers").
///
/// The members are sorted by their versions, those of equal versions in the order in which they were given.
#[derive(Drop)]
pub struct VersionSpecifiers {
    members: Vec<VersionSpecifier>,
}

impl Model for VersionSpecifiers {
    ghost use Rattle.std.specs.Prelude.{List};
    ghost use Rattle.pep440_specifier.specs.Matching.{SpecifierRecord};
    ghost use Rattle.pep440_specifier_list.specs.Lists.{IsByVersion};

    ghost Value = { List SpecifierRecord };

    ghost view = { λ list. list.members.items };

    ghost invariant = { λ list. IsByVersion list.members.items };
}

impl VersionSpecifiers {
    /// Returns the list of no members, which accepts every version. It takes no memory.
    pub fn empty(alloc: Global) -> VersionSpecifiers
        ensures { result ≡ [] }
    {
        VersionSpecifiers {
            members: Vec::new(alloc),
        }
    }

    /// Returns the list of these members, which it sorts by version. Takes memory for more than 20 of them
    /// alone.
    ///
    /// # Errors
    ///
    /// `AllocError` when memory runs out.
    pub fn from_specifiers(
        _alloc: Global,
        specifiers: Vec<VersionSpecifier>,
    ) -> Result<VersionSpecifiers, AllocError>
        ensures { IfOk result (λ list. IsInOrder specifiers.items list) }
    {
        let mut members = specifiers;
        members.sort_by(|a, b| a.version().cmp(b.version()))?;
        Ok(VersionSpecifiers { members })
    }

    /// Returns the list of this one member. Takes memory for its place.
    ///
    /// # Errors
    ///
    /// `AllocError` when memory runs out.
    pub fn from_specifier(
        alloc: Global,
        specifier: VersionSpecifier,
    ) -> Result<VersionSpecifiers, AllocError>
        ensures { IfOk result (λ list. list ≡ specifier ∷ []) }
    {
        let mut members = Vec::with_capacity(alloc, 1)?;
        members.push(specifier)?;
        Ok(VersionSpecifiers { members })
    }

    /// Returns whether the list has no members.
    pub fn is_empty(&self) -> bool
        ensures { result ≡ (length self.now == 0) }
    {
        self.members.is_empty()
    }

    /// Returns the members, sorted by version.
    pub fn as_slice(&self) -> &[VersionSpecifier]
        ensures members { result.now ≡ self.now }
        ensures order { IsByVersion self.now }
    {
        self.members.as_slice()
    }

    /// Returns an iterator over the members, sorted by version.
    pub fn iter(&self) -> slice::Iter<'_, VersionSpecifier>
        ensures rest { iter_rest result ≡ self.now }
        ensures runs { EveryRun (iter_steps {A = VersionSpecifier})
            (λ p. ItemsMapTo p (λ y. y.now) (iter_rest p.from)) }
    {
        self.members.iter()
    }

    /// Returns an iterator that owns the members, sorted by version; it consumes the list.
    pub fn into_iter(self) -> vec::IntoIter<VersionSpecifier>
        ensures rest { into_iter_items result ≡ self }
        ensures len { into_iter_len result ≡ length self }
        ensures runs { EveryRun (into_iter_steps {X = VersionSpecifier} {Z = Global})
            (λ p. ItemsAre p (into_iter_items p.from)) }
    {
        self.members.into_iter()
    }

    /// Returns whether each member accepts the version (PEP 440, "Version specifiers").
    ///
    /// Tests the members in order, up to the first that rejects. Takes memory for members of `===` alone,
    /// which compare prints, and fails only where memory for these ran out.
    ///
    /// # Errors
    ///
    /// `AllocError` when memory runs out.
    pub fn contains(&self, alloc: Global, version: &Version) -> Result<bool, AllocError>
        ensures matching { IfOk result (λ taken. taken ≡ matches_all self.now version.now) }
        ensures memory { All (λ s. s.operator ≢ ExactEqual) self.now → IsOk result }
    {
        ask(alloc, &self.members, version).answer
    }

    /// Returns whether some member's version is a pre-release or a developmental release, whatever its
    /// operator (PEP 440, "Handling of pre-releases"). Looks at each member at most once.
    pub fn any_prerelease(&self) -> bool
        ensures { result ≡ any_prerelease self.now }
    {
        self.members.iter().any(|member| member.any_prerelease())
    }

    /// Returns a copy, in memory of its own.
    ///
    /// # Errors
    ///
    /// `AllocError` when memory runs out.
    pub fn try_clone(&self, alloc: Global) -> Result<VersionSpecifiers, AllocError>
        ensures { IfOk result (λ copy. copy ≡ self.now) }
    {
        Ok(VersionSpecifiers {
            members: copy_members(alloc, &self.members)?,
        })
    }
}

fn copy_members(
    alloc: Global,
    members: &[VersionSpecifier],
) -> Result<Vec<VersionSpecifier>, AllocError>
    ensures { IfOk result (λ copies. copies.items ≡ members.now) }
{
    let mut copies = Vec::with_capacity(alloc, members.len())?;
    for member in members {
        copies.push(member.try_clone(alloc)?)?;
    }
    Ok(copies)
}
