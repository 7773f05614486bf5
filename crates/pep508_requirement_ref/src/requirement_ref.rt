//! Requirements with the interner of their markers.
//!
//! `RequirementRef` and `UnnamedRequirementRef` are borrowed and not `Copy`: each holds a `MarkerTreeRef`,
//! and the toolchain copies no struct with a ghost field out of a field or a reference in another crate.
//! They keep references to the requirement's fields, so that equality and order are derived, field by
//! field.

ghost use Rattle.std.specs.Prelude.{IfOk, IfSome, ◌≡◌, Some};
ghost use Rattle.serde_json.specs.View.{view};
ghost use Rattle.serde_json.specs.Find.{as_str};
ghost use Rattle.pep508_diagram.specs.Question.{IsCanonical};
ghost use Rattle.pep508_diagram.specs.Shortened.{HasShortVersions};
ghost use Rattle.pep508_tree.specs.Meaning.{IsTree};
ghost use Rattle.pep508_tree_ref.specs.Lent.{tree_in};
ghost use Rattle.pep508_tree_ref.specs.TreeIn.{diagram_in};
ghost use Rattle.pep508_requirement_ref.specs.Views.{IsViewOf, printed};

use crate::requirement_parts::{ExtrasPart, MarkerPart, SourcePart};
use pep508_name::{ExtraName, PackageName, RequirementOrigin};
use pep508_requirement::{Requirement, VersionOrUrl};
use pep508_tree::Interner;
use pep508_tree_ref::MarkerTreeRef;
use pep508_url::{Pep508Url, VerbatimUrl};
use serde_json::Value;
use std::alloc::{AllocError, Global};
use std::fmt;

/// A requirement with the interner that it was read with, so that it can be printed, and compared with
/// those of other interners (PEP 508).
///
/// Two of them compare by their fields in order, the marker by its meaning and not by its place in an
/// interner, as `MarkerTreeRef` does. It prints as `requests[security]>=2.8.1,<3 ; os_name == 'nt'`, a URL
/// after ` @ `, and a marker only where it doesn't always hold. The marker's text is made while it is
/// printed, and where memory for it runs out, printing fails with `fmt::Error`.
#[derive(PartialEq, Eq, PartialOrd, Ord, Drop)]
pub struct RequirementRef<'a, T: Pep508Url = VerbatimUrl> {
    name: &'a PackageName,
    extras: &'a [ExtraName],
    version_or_url: &'a Option<VersionOrUrl<T>>,
    marker: MarkerTreeRef<'a>,
    origin: &'a Option<RequirementOrigin>,
}

impl<'a, T: Pep508Url> RequirementRef<'a, T> {
    /// Returns a requirement with its interner, and the allocator by which its marker is printed or
    /// compared. Takes no memory.
    pub fn new(
        alloc: Global,
        interner: &'a Interner,
        requirement: &'a Requirement<T>,
    ) -> RequirementRef<'a, T>
        requires { IsTree interner.now.nodes requirement.now.marker }
        ensures { IsViewOf interner.now.nodes requirement.now result }
    {
        RequirementRef {
            name: &requirement.name,
            extras: requirement.extras.as_slice(),
            version_or_url: &requirement.version_or_url,
            marker: MarkerTreeRef::new(alloc, interner, requirement.marker),
            origin: &requirement.origin,
        }
    }

    /// Shows that the marker has no needless question, and each version is in its shortest spelling. Does
    /// nothing.
    pub fn is_canonical(&self)
        ensures canonical { IsCanonical (diagram_in (tree_in self.now.marker)) }
        ensures short { HasShortVersions (diagram_in (tree_in self.now.marker)) }
    {
        self.marker.is_canonical()
    }

    /// Returns the print as a JSON text, which `Requirement::from_value` reads. Takes memory for the texts.
    ///
    /// # Errors
    ///
    /// `AllocError` when memory runs out.
    pub fn to_value(&self, alloc: Global) -> Result<Value, AllocError>
        ensures { IfOk result (λ value. IfSome (printed T.output self.now) (λ text.
            as_str (view value) ≡ Some text)) }
    {
        Ok(Value::String(self.to_string(alloc)?))
    }
}

impl<T: Pep508Url> fmt::Display for RequirementRef<'_, T> {
    ghost output = { printed T.output };

    #[tactic(auto, using(crate::proofs::Printing::whole_print))]
    fn fmt<W: fmt::Write>(&self, f: &mut fmt::Formatter<W>) -> fmt::Result {
        let name = self.name;
        let extras = ExtrasPart { names: self.extras };
        let source = SourcePart {
            asked: self.version_or_url,
        };
        let marker = MarkerPart {
            marker: &self.marker,
        };
        write!(f, "{name}{extras}{source}{marker}")
    }
}
