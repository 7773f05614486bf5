//! A reporter of warnings that writes to a log.
//!
//! A log is asked whether it accepts the level, under the target that the record would have, so that one
//! that does not costs no texts.

ghost use Rattle.std.specs.Prelude.{◌≡◌, IfSome};
ghost use Rattle.std.specs.Bool.{OnFalse};
ghost use Rattle.log.specs.declared.level.Level.TheVariants.{Warn};
ghost use Rattle.pep508_marker.specs.Warnings.{Warning};
ghost use Rattle.pep508_tracing_reporter.specs.Target.{named_target};

use log::{Level, Log, log_enabled, warn};
use pep508_marker::{MarkerWarningKind, Reporter};
use std::alloc::AllocError;

/// A reporter that passes each warning to a log, at level warn. No clause says what the log does with it.
/// It wants warnings only where the log accepts that level, so that no text is made in vain.
#[derive(Clone, Copy)]
pub struct TracingReporter<'a, L> {
    log: &'a L,
}

impl<'a, L: Log> TracingReporter<'a, L> {
    /// Returns a reporter that writes to this log.
    pub fn new(log: &'a L) -> Self
        ensures { result.log.now ≡ log.now }
    {
        TracingReporter { log }
    }
}

impl<L: Log> Reporter for TracingReporter<'_, L> {
    ghost takes = { λ old _ new. new ≡ old };

    fn report(&mut self, _kind: MarkerWarningKind, text: String) -> Result<(), AllocError> {
        let log = self.log;
        warn!(log; "{text}");
        Ok(())
    }

    fn wants(&self) -> bool
        ensures left_out { OnFalse result ((warning : Warning) → self.now ≡ self.now) }
        ensures asked { IfSome (L.target_of self.now.log.now) (λ target.
            IfSome (L.enables self.now.log.now Warn (named_target target)) (λ enabled. result ≡ enabled)) }
    {
        let log = self.log;
        log_enabled!(log; Level::Warn)
    }
}
