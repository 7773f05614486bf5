//! Versions.
//!
//! Every version has a release number. This is an invariant of `Version`, so the last number can always be
//! raised, or is refused as `NumberAtEnd`. The other invariant is that a version is packed exactly where it
//! has a word (`packing`), so its form follows from its parts, however it was made.

ghost use Rattle.std.specs.Prelude.{◌≡◌, ◌≢◌, ◌<◌, length, map, not, is_some, IfOk, Err};
ghost use Rattle.pep440_text.specs.Record.{VersionRecord, release_record, said, segment_of};
ghost use Rattle.read_outcome.specs.Outcome.{Answers};
ghost use Rattle.pep440_version.specs.declared.parse_error.VersionParseError.TheVariants as errors;
ghost use Rattle.pep440_version.specs.VersionReading.{NoLeadingNumber, version_reading, told_version};
ghost use Rattle.pep440_text.specs.Releases.{numbers_of};
ghost use Rattle.pep440_version.specs.Changes.{is_prerelease, has_local};
ghost use Rattle.pep440_version.specs.Packing.{packed};

use crate::packing::Form;
use crate::plain::plain_release;
use crate::{LocalSegment, Prerelease, VersionParseError};
use pep440_text::VersionParts;
use pep440_text::release::Release;
use std::alloc::{AllocError, Global};
use std::marker::Model;

/// A version (PEP 440, "Version scheme").
///
/// Its parts are returned by `epoch`, `release`, `pre`, `post`, `dev` and `local`. Comparing and hashing go
/// by the order of PEP 440, so that `1.0` equals `1`; they take no memory and go once through both
/// versions.
#[derive(Drop)]
pub struct Version {
    pub(crate) release: Release,
    pub(crate) local: Vec<LocalSegment>,
    pub(crate) form: Form,
}

impl Model for Version {
    ghost use Rattle.std.specs.Prelude.{◌≡◌, ◌<◌, length, map};
    ghost use Rattle.pep440_text.specs.Record.{VersionRecord, segment_of};
    ghost use Rattle.pep440_text.specs.Releases.{numbers_of};
    ghost use Rattle.pep440_version.specs.Packing.{word_in, packed, formed};

    ghost Value = { VersionRecord };

    ghost view = { λ v. formed v.form (numbers_of v.release) (map segment_of v.local.items) };

    ghost invariant = { λ v. (0 < length (numbers_of v.release))
        × (word_in v.form ≡ packed (formed v.form (numbers_of v.release) (map segment_of v.local.items))) };
}

impl Version {
    /// Returns the version with these release numbers and no other part. Takes memory for more than three
    /// numbers.
    ///
    /// # Errors
    ///
    /// `AllocError` when memory runs out.
    pub fn new(alloc: Global, release: &[u64]) -> Result<Version, AllocError>
        requires { 0 < length release.now }
        ensures { IfOk result (λ version. version ≡ release_record release.now) }
    {
        Ok(Version::of_release(alloc, Release::from_slice(alloc, release)?))
    }

    /// Reads a version, as `1!2.0rc1.post2.dev3+ubuntu.1`: letters in either case, every spelling that PEP
    /// 440 normalizes ("Normalization"), and ASCII white space around it.
    ///
    /// Linear in the text. At most three release numbers without any other part take no memory; otherwise it
    /// takes memory for the numbers of the release, the segments of the local part, and the texts in the
    /// error. Where no number begins the release, nothing is allocated.
    ///
    /// # Errors
    /// The first fault from the left, where the text is not a version; `Memory` where memory ran out.
    pub fn from_str(alloc: Global, text: &str) -> Result<Version, VersionParseError>
        ensures answered { Answers (λ version. version) told_version result (version_reading text.now) }
        ensures grown { result ≡ Err errors.Memory → version_reading text.now ≢ Err NoLeadingNumber }
    {
        let bytes = text.as_bytes();
        if let Some(release) = plain_release(bytes) {
            return Ok(Version::of_release(alloc, release));
        }
        match pep440_text::read_version(alloc, bytes) {
            Ok(parts) => Ok(Version::of_parts(parts)),
            Err(error) => Err(VersionParseError::of_reading(alloc, text, error)),
        }
    }

    /// Returns the version of the parts of a text.
    pub(crate) fn of_parts(parts: VersionParts) -> Version
        requires { 0 < length parts.release.items }
        ensures { result ≡ said parts }
    {
        let VersionParts {
            epoch,
            release,
            pre,
            post,
            dev,
            local,
        } = parts;
        let release = Release::from_vec(release);
        let form = Form::of_text(epoch, release.numbers(), pre, post, dev, &local);
        Version {
            release,
            local,
            form,
        }
    }

    pub(crate) fn of_release(alloc: Global, release: Release) -> Version
        requires { 0 < length (numbers_of release) }
        ensures { result ≡ release_record (numbers_of release) }
    {
        let local = Vec::new(alloc);
        let form = Form::of_text(0, release.numbers(), None, None, None, &local);
        Version {
            release,
            local,
            form,
        }
    }

    /// Returns the word, where the version has one: versions that have words compare as these do.
    pub(crate) fn word(&self) -> Option<u64>
        ensures { result ≡ packed self.now }
    {
        self.form.word()
    }

    /// Returns a copy, in memory of its own.
    ///
    /// # Errors
    ///
    /// `AllocError` when memory runs out.
    pub fn try_clone(&self, alloc: Global) -> Result<Version, AllocError>
        ensures { IfOk result (λ copy. copy ≡ self.now) }
    {
        Ok(Version {
            release: Release::from_slice(alloc, self.release.numbers())?,
            local: copy_segments(alloc, &self.local)?,
            form: self.form.copied(),
        })
    }

    /// Returns the epoch, the number before `!`; 0 where the text has none (PEP 440, "Version epochs").
    pub fn epoch(&self) -> u64
        ensures { result ≡ self.now.epoch }
    {
        self.form.epoch()
    }

    /// Returns the release numbers, with the zeros at their end that were given (PEP 440, "Final
    /// releases").
    pub fn release(&self) -> &[u64]
        ensures numbers { result.now ≡ self.now.release }
        ensures some { 0 < length self.now.release }
    {
        self.release.numbers()
    }

    /// Returns the pre-release, where the version is one (PEP 440, "Pre-releases").
    pub fn pre(&self) -> Option<Prerelease>
        ensures { result ≡ self.now.pre }
    {
        self.form.pre()
    }

    /// Returns the number of the post-release, where the version is one (PEP 440, "Post-releases").
    pub fn post(&self) -> Option<u64>
        ensures { result ≡ self.now.post }
    {
        self.form.post()
    }

    /// Returns the number of the developmental release, where the version is one (PEP 440, "Developmental
    /// releases").
    pub fn dev(&self) -> Option<u64>
        ensures { result ≡ self.now.dev }
    {
        self.form.dev()
    }

    /// Returns the segments of the local part; none where there is no local part (PEP 440, "Local version
    /// identifiers").
    pub fn local(&self) -> &[LocalSegment]
        ensures { map segment_of result.now ≡ self.now.local }
    {
        &self.local
    }

    /// Returns the mark by which the version sorts below every suffix of its release, as the lower end of a
    /// range; versions read from texts have none.
    pub fn min(&self) -> Option<u64>
        ensures { result ≡ self.now.least }
    {
        self.form.min()
    }

    /// Returns the mark by which the version sorts above every post-release of its release, as the upper
    /// end of a range; versions read from texts have none.
    pub fn max(&self) -> Option<u64>
        ensures { result ≡ self.now.most }
    {
        self.form.max()
    }

    /// Returns whether the version is a pre-release or a developmental release.
    pub fn any_prerelease(&self) -> bool
        ensures { result ≡ is_prerelease self.now }
    {
        self.is_pre() || self.is_dev()
    }

    /// Returns whether the version is neither a pre-release nor a developmental release.
    pub fn is_stable(&self) -> bool
        ensures { result ≡ not (is_prerelease self.now) }
    {
        !self.any_prerelease()
    }

    /// Returns whether the version is a pre-release (PEP 440, "Pre-releases").
    pub fn is_pre(&self) -> bool
        ensures { result ≡ is_some self.now.pre }
    {
        self.form.pre().is_some()
    }

    /// Returns whether the version is a developmental release (PEP 440, "Developmental releases").
    pub fn is_dev(&self) -> bool
        ensures { result ≡ is_some self.now.dev }
    {
        self.form.dev().is_some()
    }

    /// Returns whether the version is a post-release (PEP 440, "Post-releases").
    pub fn is_post(&self) -> bool
        ensures { result ≡ is_some self.now.post }
    {
        self.form.post().is_some()
    }

    /// Returns whether the version has a local part (PEP 440, "Local version identifiers").
    pub fn is_local(&self) -> bool
        ensures { result ≡ has_local self.now }
    {
        !self.local.is_empty()
    }
}

fn copy_segments(alloc: Global, segments: &[LocalSegment]) -> Result<Vec<LocalSegment>, AllocError>
    ensures { IfOk result (λ copy. map segment_of copy.items ≡ map segment_of segments.now) }
{
    let mut copies = Vec::with_capacity(alloc, segments.len())?;
    for segment in segments {
        copies.push(segment.try_clone(alloc)?)?;
    }
    Ok(copies)
}
