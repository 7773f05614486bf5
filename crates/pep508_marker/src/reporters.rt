//! A reporter of warnings that calls a closure.

ghost use Rattle.std.specs.Prelude.{◌≡◌, Ok};
ghost use Rattle.std.specs.String.{string_bytes};

use crate::{MarkerWarningKind, Reporter};
use std::alloc::AllocError;

/// A reporter that passes each warning to a closure. Where the closure returns that memory ran out, so does
/// `report`.
#[derive(Drop)]
pub struct ClosureReporter<F> {
    closure: F,
}

impl<F: FnMut(MarkerWarningKind, String) -> Result<(), AllocError>> ClosureReporter<F> {
    /// Returns a reporter that calls this closure with each warning.
    pub fn new(closure: F) -> Self
        requires { F.IsAlwaysCallable closure }
        ensures { result.closure ≡ closure }
    {
        ClosureReporter { closure }
    }
}

impl<F: FnMut(MarkerWarningKind, String) -> Result<(), AllocError>> Reporter
    for ClosureReporter<F> {
    ghost can_report = { λ r. F.IsAlwaysCallable r.closure };

    ghost takes = { λ r warning q. (text : _) × (string_bytes text ≡ warning.text)
        × F.step r.closure warning.kind text (Ok tt) q.closure };

    fn report(&mut self, kind: MarkerWarningKind, text: String) -> Result<(), AllocError> {
        (self.closure)(kind, text)
    }
}
