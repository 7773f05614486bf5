//! Requirements.

ghost use Rattle.std.specs.Prelude.{◌≡◌, Some, IfOk, option_map};
ghost use Rattle.pep508_name.specs.Origin.{origin_of};
ghost use Rattle.pep508_requirement.specs.Requirements.{without_url, IsCopy};

use crate::VersionOrUrl;
use crate::extra_list::copy_names;
use pep508_name::{ExtraName, PackageName, RequirementOrigin};
use pep508_tree::MarkerTree;
use pep508_url::{Pep508Url, VerbatimUrl};
use std::alloc::{AllocError, Global};

/// A required package: its name and extras, the accepted versions or the URL, and the environments to which
/// it applies (PEP 508).
#[derive(Debug, PartialEq, Eq, Hash, Drop)]
pub struct Requirement<T: Pep508Url = VerbatimUrl> {
    pub name: PackageName,
    /// In the order given.
    pub extras: Vec<ExtraName>,
    /// `None` where any version is accepted.
    pub version_or_url: Option<VersionOrUrl<T>>,
    /// In the interner that the requirement was read with.
    pub marker: MarkerTree,
    /// The file or project that contains the requirement, where that is known.
    pub origin: Option<RequirementOrigin>,
}

impl<T: Pep508Url> Requirement<T> {
    /// Removes the URL, so that any version is accepted; specifiers stay. Takes no memory.
    pub fn clear_url(&mut self)
        ensures { self.new ≡ record self.old { version_or_url = without_url self.old.version_or_url } }
    {
        if let Some(VersionOrUrl::Url(_)) = &self.version_or_url {
            self.version_or_url = None;
        }
    }

    /// Returns the requirement with this origin in place of its own. Takes no memory.
    pub fn with_origin(self, origin: RequirementOrigin) -> Self
        ensures { result ≡ record self { origin = Some origin } }
    {
        Requirement {
            origin: Some(origin),
            ..self
        }
    }
}

impl Requirement<VerbatimUrl> {
    /// Returns a copy, in memory of its own.
    ///
    /// # Errors
    ///
    /// `AllocError` when memory runs out.
    pub fn try_clone(&self, alloc: Global) -> Result<Self, AllocError>
        ensures { IfOk result (λ copy. IsCopy copy self.now) }
    {
        let version_or_url = match &self.version_or_url {
            None => None,
            Some(wanted) => Some(wanted.try_clone(alloc)?),
        };
        Ok(Requirement {
            name: self.name.try_clone(alloc)?,
            extras: copy_names(alloc, &self.extras)?,
            version_or_url,
            marker: self.marker,
            origin: copy_origin(alloc, &self.origin)?,
        })
    }
}

pub(crate) fn copy_origin(
    alloc: Global,
    origin: &Option<RequirementOrigin>,
) -> Result<Option<RequirementOrigin>, AllocError>
    ensures { IfOk result (λ copy. option_map origin_of copy ≡ option_map origin_of origin.now) }
{
    match origin {
        None => Ok(None),
        Some(origin) => Ok(Some(origin.try_clone(alloc)?)),
    }
}
