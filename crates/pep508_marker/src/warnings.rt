//! Warnings of markers, and reporters that receive them.
//!
//! What a reporter does with one warning is one step, `takes`, and several are a `FoldsTo` of it, so the
//! trait needs no law. A reporter that wants nothing counts a dropped warning as taken: a caller may ask
//! first or report at once, under one clause.

ghost use Rattle.std.specs.Prelude.{◌≡◌, OnOk, false};
ghost use Rattle.std.specs.Bool.{OnFalse};
ghost use Rattle.std.specs.String.{string_bytes};
ghost use Rattle.pep508_marker.specs.Warnings.{Warning};

use std::alloc::AllocError;

/// What a warning of a marker is about (PEP 508, "Environment Markers").
#[derive(Clone, Copy, Debug, PartialEq, Eq, PartialOrd, Ord, Hash)]
pub enum MarkerWarningKind {
    /// A key has an old name of PEP 345, as `os.name`.
    DeprecatedMarkerName,
    /// `extra` is compared with something other than the name of an extra, or by another operator than `==`
    /// and `!=`.
    ExtraInvalidComparison,
    /// Two texts are compared by their bytes, as `'3.9' > '3.10'`, or by `~=`.
    LexicographicComparison,
    /// A key is compared with a key, as `os_name != sys_platform`.
    MarkerMarkerComparison,
    /// The text for a version, a list of versions or an operator on versions is invalid.
    Pep440Error,
    /// A quoted text is compared with a quoted text.
    StringStringComparison,
}

/// A receiver of warnings.
pub trait Reporter {
    ghost use Rattle.pep508_marker.specs.Warnings.{Warning};

    /// A warning may be reported.
    ghost can_report: { Self → Type 0 } = { λ _. Unit {0} };

    /// How a received warning leads from one state to another. Several warnings are received one after
    /// another, by `FoldsTo`.
    ghost takes: { Self → Warning → Self → Type 0 };

    /// Receives a warning. An error means that memory ran out.
    fn report(&mut self, kind: MarkerWarningKind, text: String) -> Result<(), AllocError>
        requires { can_report self.old }
        ensures again { can_report self.new }
        ensures taken { OnOk result
            (takes self.old (record { kind = kind; text = string_bytes text }) self.new) };

    /// Returns whether warnings are to be reported. Where they are not, one that is left out counts as
    /// received, so that no text need be made.
    fn wants(&self) -> bool
        ensures { OnFalse result ((warning : Warning) → takes self.now warning self.now) }
    {
        true
    }
}

/// A reporter that wants no warnings, and drops those that it receives.
#[derive(Clone, Copy, Debug, Drop)]
pub struct Silent;

impl Reporter for Silent {
    ghost takes = { λ old _ new. new ≡ old };

    fn report(&mut self, _kind: MarkerWarningKind, _text: String) -> Result<(), AllocError> {
        Ok(())
    }

    fn wants(&self) -> bool
        ensures { result ≡ false }
    {
        false
    }
}
