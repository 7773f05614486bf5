//! Warnings as an answer shows them.

use pep508_marker::{MarkerWarningKind, Reporter};
use std::alloc::{AllocError, Global};
use std::fmt::Write;

/// A reporter that writes warnings down, one after another.
#[derive(Drop)]
pub struct Warnings {
    pub text: String,
}

impl Warnings {
    /// Returns a reporter of no warnings yet.
    pub fn new(alloc: Global) -> Warnings {
        Warnings {
            text: String::new(alloc),
        }
    }
}

impl Reporter for Warnings {
    ghost takes = { λ old _ new. Unit {0} };

    fn report(&mut self, kind: MarkerWarningKind, text: String) -> Result<(), AllocError> {
        push_warning(&mut self.text, kind, text.as_str())
    }
}

/// Appends a warning to a text.
pub fn push_warning(
    text: &mut String,
    kind: MarkerWarningKind,
    warning: &str,
) -> Result<(), AllocError> {
    write!(text, " | {kind:?}: {warning}")
}
