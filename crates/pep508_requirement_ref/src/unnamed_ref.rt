//! Requirements without a name, with the interner of their markers.

ghost use Rattle.std.specs.Prelude.{IfOk, IfSome, ◌≡◌, Some};
ghost use Rattle.serde_json.specs.View.{view};
ghost use Rattle.serde_json.specs.Find.{as_str};
ghost use Rattle.pep508_tree.specs.Meaning.{IsTree};
ghost use Rattle.pep508_requirement_ref.specs.Views.{IsUnnamedViewOf, printed_unnamed};

use crate::requirement_parts::{ExtrasPart, MarkerPart};
use pep508_name::ExtraName;
use pep508_requirement::UnnamedRequirement;
use pep508_tree::Interner;
use pep508_tree_ref::MarkerTreeRef;
use pep508_url::{UnnamedRequirementUrl, VerbatimUrl};
use serde_json::Value;
use std::alloc::{AllocError, Global};
use std::fmt;

/// A requirement without a name with the interner that it was read with, so that it can be printed.
///
/// It prints as `https://example.org/pip.whl[extra] ; os_name == 'nt'`, the URL and not the text that it
/// was given as, and a marker only where it doesn't always hold. The marker's text is made while it is
/// printed, and where memory for it runs out, printing fails with `fmt::Error`.
#[derive(Drop)]
pub struct UnnamedRequirementRef<'a, Url: UnnamedRequirementUrl = VerbatimUrl> {
    url: &'a Url,
    extras: &'a [ExtraName],
    marker: MarkerTreeRef<'a>,
}

impl<'a, Url: UnnamedRequirementUrl> UnnamedRequirementRef<'a, Url> {
    /// Returns a requirement with its interner, and the allocator by which the marker's text is printed.
    /// Takes no memory.
    pub fn new(
        alloc: Global,
        interner: &'a Interner,
        requirement: &'a UnnamedRequirement<Url>,
    ) -> UnnamedRequirementRef<'a, Url>
        requires { IsTree interner.now.nodes requirement.now.marker }
        ensures { IsUnnamedViewOf interner.now.nodes requirement.now result }
    {
        UnnamedRequirementRef {
            url: &requirement.url,
            extras: requirement.extras.as_slice(),
            marker: MarkerTreeRef::new(alloc, interner, requirement.marker),
        }
    }

    /// Returns the print as a JSON text. Takes memory for the texts.
    ///
    /// # Errors
    ///
    /// `AllocError` when memory runs out.
    pub fn to_value(&self, alloc: Global) -> Result<Value, AllocError>
        ensures { IfOk result (λ value. IfSome (printed_unnamed Url.output self.now) (λ text.
            as_str (view value) ≡ Some text)) }
    {
        Ok(Value::String(self.to_string(alloc)?))
    }
}

impl<Url: UnnamedRequirementUrl> fmt::Display for UnnamedRequirementRef<'_, Url> {
    ghost output = { printed_unnamed Url.output };

    #[tactic(auto, using(crate::proofs::Printing::unnamed_print))]
    fn fmt<W: fmt::Write>(&self, f: &mut fmt::Formatter<W>) -> fmt::Result {
        let url = self.url;
        let extras = ExtrasPart { names: self.extras };
        let marker = MarkerPart {
            marker: &self.marker,
        };
        write!(f, "{url}{extras}{marker}")
    }
}
