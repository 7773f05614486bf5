//! Versions, or all versions whose release begins like one.

ghost use Rattle.std.specs.Prelude.{◌≡◌, ◌≢◌, true, false, IfOk, IfErr, Err};
ghost use Rattle.pep440_text.specs.Record.{PatternRecord, epoch_record};
ghost use Rattle.read_outcome.specs.Outcome.{Answers};
ghost use Rattle.pep440_version.specs.declared.parse_error.VersionParseError.TheVariants as errors;
ghost use Rattle.pep440_version.specs.declared.parse_error.VersionPatternParseError.TheVariants as patterns;
ghost use Rattle.pep440_version.specs.VersionReading.{NoLeadingNumber, pattern_reading, told_pattern};
ghost use Rattle.pep440_version.specs.PatternOrder.{pattern_eq, fed_pattern};
ghost use Rattle.pep440_version.specs.OrderLaws.{pattern_eq_equiv, pattern_eq_partial, alike_patterns};

use crate::{Version, VersionPatternParseError};
use std::alloc::{AllocError, Global};
use std::hash::{Hash, Hasher};
use std::marker::Model;

/// A version, or with `.*` after it every version whose release begins alike (PEP 440, "Version matching").
///
/// Comparing and hashing go by the version, as those of `Version` do, and by the star.
#[derive(Debug, Drop)]
pub struct VersionPattern {
    version: Version,
    wildcard: bool,
}

impl Model for VersionPattern {
    ghost use Rattle.std.specs.Prelude.{◌≡◌, true};
    ghost use Rattle.pep440_text.specs.Record.{PatternRecord, epoch_record};

    ghost Value = { PatternRecord };

    ghost view = { λ p. record { version = p.version; wildcard = p.wildcard } };

    ghost invariant = { λ p. p.wildcard ≡ true
        → p.version ≡ epoch_record p.version.epoch p.version.release };
}

impl VersionPattern {
    /// Returns the pattern of this version alone.
    pub fn verbatim(version: Version) -> VersionPattern
        ensures { result ≡ record { version = version; wildcard = false } }
    {
        VersionPattern {
            version,
            wildcard: false,
        }
    }

    /// Returns the pattern of all versions whose release begins with that of this version, which has an
    /// epoch and a release alone.
    pub fn wildcard(version: Version) -> VersionPattern
        requires { version ≡ epoch_record version.epoch version.release }
        ensures { result ≡ record { version = version; wildcard = true } }
    {
        VersionPattern {
            version,
            wildcard: true,
        }
    }

    /// Reads a version, as `1.2rc1`, or an epoch and a release followed by `.*`, as `1.2.*`; ASCII white
    /// space is allowed around it.
    ///
    /// Costs are those of `Version::from_str`.
    ///
    /// # Errors
    /// `Version` with the first fault from the left; `Memory` where memory ran out.
    pub fn from_str(alloc: Global, text: &str) -> Result<VersionPattern, VersionPatternParseError>
        ensures answered { Answers (λ pattern. pattern) told_pattern result (pattern_reading text.now) }
        ensures grown { result ≡ Err patterns.Memory → pattern_reading text.now ≢ Err NoLeadingNumber }
        ensures plain { IfErr result (λ error. error ≢ patterns.Version errors.Memory) }
    {
        match pep440_text::read_pattern(alloc, text.as_bytes()) {
            Ok((parts, wildcard)) => Ok(VersionPattern {
                version: Version::of_parts(parts),
                wildcard,
            }),
            Err(error) => Err(VersionPatternParseError::of_reading(alloc, text, error)),
        }
    }

    /// Returns a copy, in memory of its own.
    ///
    /// # Errors
    ///
    /// `AllocError` when memory runs out.
    pub fn try_clone(&self, alloc: Global) -> Result<VersionPattern, AllocError>
        ensures { IfOk result (λ copy. copy ≡ self.now) }
    {
        Ok(VersionPattern {
            version: self.version.try_clone(alloc)?,
            wildcard: self.wildcard,
        })
    }

    /// Returns the version, without the star.
    pub fn version(&self) -> &Version
        ensures { result.now ≡ self.now.version }
    {
        &self.version
    }

    /// Returns the version, without the star; consumes the pattern.
    pub fn into_version(self) -> Version
        ensures { result ≡ self.version }
    {
        self.version
    }

    /// Returns whether `.*` follows the version.
    pub fn is_wildcard(&self) -> bool
        ensures { result ≡ self.now.wildcard }
    {
        self.wildcard
    }
}

impl PartialEq for VersionPattern {
    ghost eq = { pattern_eq };

    ghost laws = { pattern_eq_partial };

    fn eq(&self, other: &VersionPattern) -> bool {
        self.version == other.version && self.wildcard == other.wildcard
    }
}

impl Eq for VersionPattern {
    ghost laws = { pattern_eq_equiv };
}

impl Hash for VersionPattern {
    ghost hash_input = { fed_pattern };

    ghost respects_eq = { alike_patterns };

    fn hash<H: Hasher>(&self, state: &mut H) {
        self.version.hash(state);
        self.wildcard.hash(state);
    }
}
