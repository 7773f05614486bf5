//! Requirements without a name.

ghost use Rattle.std.specs.Prelude.{◌≡◌, Some, IfOk};
ghost use Rattle.pep508_requirement.specs.Requirements.{IsUnnamedCopy};

use crate::extra_list::copy_names;
use crate::requirement::copy_origin;
use pep508_name::{ExtraName, RequirementOrigin};
use pep508_tree::MarkerTree;
use pep508_url::{UnnamedRequirementUrl, VerbatimUrl};
use std::alloc::{AllocError, Global};

/// A required package that is given by a URL or a path alone, as `pip` accepts besides PEP 508's
/// requirements.
#[derive(Debug, PartialEq, Eq, Hash, Drop)]
pub struct UnnamedRequirement<Url: UnnamedRequirementUrl = VerbatimUrl> {
    pub url: Url,
    /// In the order given.
    pub extras: Vec<ExtraName>,
    /// In the interner that the requirement was read with.
    pub marker: MarkerTree,
    /// The file or project that contains the requirement, where that is known.
    pub origin: Option<RequirementOrigin>,
}

impl<Url: UnnamedRequirementUrl> UnnamedRequirement<Url> {
    /// Returns the requirement with this origin in place of its own. Takes no memory.
    pub fn with_origin(self, origin: RequirementOrigin) -> Self
        ensures { result ≡ record self { origin = Some origin } }
    {
        UnnamedRequirement {
            origin: Some(origin),
            ..self
        }
    }
}

impl UnnamedRequirement<VerbatimUrl> {
    /// Returns a copy, in memory of its own.
    ///
    /// # Errors
    ///
    /// `AllocError` when memory runs out.
    pub fn try_clone(&self, alloc: Global) -> Result<Self, AllocError>
        ensures { IfOk result (λ copy. IsUnnamedCopy copy self.now) }
    {
        Ok(UnnamedRequirement {
            url: self.url.try_clone(alloc)?,
            extras: copy_names(alloc, &self.extras)?,
            marker: self.marker,
            origin: copy_origin(alloc, &self.origin)?,
        })
    }
}
