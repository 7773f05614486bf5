//! The answer on the warnings of a requirement's marker.

use pep508_error::{Pep508Error, Pep508ErrorSource};
use pep508_marker::{MarkerWarningKind, Reporter};
use pep508_requirement::Requirement;
use pep508_tree::Interner;
use pep508_url::{Vars, VerbatimUrl};
use std::alloc::{AllocError, Global};

/// A reporter that keeps the kinds and the texts of warnings.
#[derive(Drop)]
struct Kept {
    text: String,
}

impl Reporter for Kept {
    ghost takes = { λ _ _ _. Unit {0} };

    fn report(&mut self, kind: MarkerWarningKind, text: String) -> Result<(), AllocError> {
        if !self.text.is_empty() {
            self.text.push_str(" / ")?;
        }
        self.text.push_str(name_of(kind))?;
        self.text.push_str(": ")?;
        self.text.push_str(text.as_str())
    }
}

fn name_of(kind: MarkerWarningKind) -> &'static str {
    match kind {
        MarkerWarningKind::DeprecatedMarkerName => "DeprecatedMarkerName",
        MarkerWarningKind::ExtraInvalidComparison => "ExtraInvalidComparison",
        MarkerWarningKind::LexicographicComparison => "LexicographicComparison",
        MarkerWarningKind::MarkerMarkerComparison => "MarkerMarkerComparison",
        MarkerWarningKind::Pep440Error => "Pep440Error",
        MarkerWarningKind::StringStringComparison => "StringStringComparison",
    }
}

type Read = Result<Requirement<VerbatimUrl>, Pep508Error<VerbatimUrl>>;

/// Returns the warnings of a requirement's marker, and how many conjunctions reading it counts.
pub fn warnings(alloc: Global, vars: &Vars, text: &str) -> Result<String, AllocError> {
    let mut interner = Interner::new(alloc);
    let mut kept = Kept {
        text: String::new(alloc),
    };
    let read = Requirement::parse_reporter(alloc, &mut interner, vars, text, None, &mut kept);
    told(alloc, &read, interner.conjunctions(), kept.text.as_str())
}

fn told(alloc: Global, read: &Read, count: u64, warnings: &str) -> Result<String, AllocError> {
    if lacks_memory(read) {
        Err(AllocError)
    } else if warnings.is_empty() {
        format!(in alloc; "{count} conjunctions, no warning")
    } else {
        format!(in alloc; "{count} conjunctions, {warnings}")
    }
}

fn lacks_memory(read: &Read) -> bool {
    match read {
        Ok(_) => false,
        Err(error) => matches!(error.message(), Pep508ErrorSource::Memory),
    }
}
