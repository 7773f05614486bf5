//! Laws of reporters. The functions do nothing: each one's contract is its law.

ghost use Rattle.std.specs.Prelude.{◌≡◌, List, Ok};
ghost use Rattle.std.specs.List.{FoldsTo};
ghost use Rattle.std.specs.String.{string_bytes};
ghost use Rattle.pep508_marker.specs.Warnings.{Warning};
ghost use Rattle.pep508_marker.specs.declared.reporters.ClosureReporter.{ClosureReporter};

use crate::{ClosureReporter, MarkerWarningKind, Reporter};
use std::alloc::AllocError;

/// Where a closure's reporter has received warnings one after another, the closure has been called with the
/// kind and the text of each, in order, and has succeeded for each.
pub fn closure_is_called_with_each<F: FnMut(MarkerWarningKind, String) -> Result<(), AllocError>>()
    ensures { (old new : _) (warnings : List Warning)
        → FoldsTo ⟦<ClosureReporter<F> as Reporter>⟧.takes old warnings new
        → FoldsTo (λ closure warning next. (text : _) × (string_bytes text ≡ warning.text)
        × F.step closure warning.kind text (Ok tt) next) old.closure warnings new.closure }
{}
