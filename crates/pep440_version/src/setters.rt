//! Versions that differ from another one in one part.

ghost use Rattle.std.specs.Prelude.{◌≡◌, ◌↔◌, ◌<◌, length, map, Some, None, IfOk, IsTrue};
ghost use Rattle.std.specs.Option.{option_map};
ghost use Rattle.pep440_text.specs.Record.{release_record, segment_of, without_local};
ghost use Rattle.pep440_version.specs.Changes.{early_version, without_end_zeros};
ghost use Rattle.pep440_text.specs.Releases.{last_raised};
ghost use Rattle.pep440_version.specs.Packing.{version_by};

use crate::ordering::without_end_zeros;
use crate::packing::Form;
use crate::{LocalSegment, Prerelease, PrereleaseKind, Version};
use pep440_text::release::Release;
use pep440_text::suffixes::Suffixes;
use std::alloc::{AllocError, Global};

impl Version {
    /// Returns an early version, `0a0.dev0`. Some versions are below it, as `0.dev0`.
    ///
    /// # Errors
    ///
    /// `AllocError` when memory runs out.
    pub fn min_version(alloc: Global) -> Result<Version, AllocError>
        ensures { IfOk result (λ version. version ≡ early_version) }
    {
        let pre = Prerelease {
            kind: PrereleaseKind::Alpha,
            number: 0,
        };
        Ok(
            Version::new(alloc, &[0])?
                .with_pre(Some(pre))
                .with_dev(Some(0)),
        )
    }

    /// Returns the version with another epoch.
    pub fn with_epoch(mut self, epoch: u64) -> Version
        ensures { result ≡ record self { epoch = epoch } }
    {
        self.form = Form::new(
            epoch,
            self.release.numbers(),
            self.form.suffixes(),
            &self.local,
        );
        self
    }

    /// Returns the version with other release numbers, at least one. Takes memory for more than three.
    ///
    /// # Errors
    ///
    /// `AllocError` when memory runs out.
    pub fn with_release(mut self, alloc: Global, release: &[u64]) -> Result<Version, AllocError>
        requires { 0 < length release.now }
        ensures { IfOk result (λ version. version ≡ record self { release = release.now }) }
    {
        self.release = Release::from_slice(alloc, release)?;
        self.form = self.form.with(self.release.numbers(), &self.local);
        Ok(self)
    }

    /// Overwrites the suffixes and marks.
    fn set_suffixes(&mut self, suffixes: Suffixes)
        ensures { self.new ≡ version_by self.old.epoch self.old.release suffixes self.old.local }
    {
        self.form = Form::new(
            self.form.epoch(),
            self.release.numbers(),
            suffixes,
            &self.local,
        );
    }

    /// Returns the version with another pre-release, or none.
    pub fn with_pre(mut self, pre: Option<Prerelease>) -> Version
        ensures { result ≡ record self { pre = pre } }
    {
        let mut suffixes = self.form.suffixes();
        suffixes.set_pre(pre);
        self.set_suffixes(suffixes);
        self
    }

    /// Returns the version with another post-release, or none.
    pub fn with_post(mut self, post: Option<u64>) -> Version
        ensures { result ≡ record self { post = post } }
    {
        let mut suffixes = self.form.suffixes();
        suffixes.set_post(post);
        self.set_suffixes(suffixes);
        self
    }

    /// Returns the version with another developmental release, or none.
    pub fn with_dev(mut self, dev: Option<u64>) -> Version
        ensures { result ≡ record self { dev = dev } }
    {
        let mut suffixes = self.form.suffixes();
        suffixes.set_dev(dev);
        self.set_suffixes(suffixes);
        self
    }

    /// Returns the version with other segments in its local part; no segments mean no local part.
    pub fn with_local(mut self, local: Vec<LocalSegment>) -> Version
        ensures { result ≡ record self { local = map segment_of local.items } }
    {
        self.local = local;
        self.form = self.form.with(self.release.numbers(), &self.local);
        self
    }

    /// Returns the version without its local part.
    pub fn without_local(mut self) -> Version
        ensures { result ≡ without_local self }
    {
        self.local.clear();
        self.form = self.form.with(self.release.numbers(), &self.local);
        self
    }

    /// Returns the version with another `min` mark, or none; it has neither a pre-release nor a
    /// developmental release.
    pub fn with_min(mut self, min: Option<u64>) -> Version
        requires pre { self.pre ≡ None }
        requires dev { self.dev ≡ None }
        ensures { result ≡ record self { least = min } }
    {
        let mut suffixes = self.form.suffixes();
        suffixes.set_least(min);
        self.set_suffixes(suffixes);
        self
    }

    /// Returns the version with another `max` mark, or none; it has neither a post-release nor a
    /// developmental release.
    pub fn with_max(mut self, max: Option<u64>) -> Version
        requires post { self.post ≡ None }
        requires dev { self.dev ≡ None }
        ensures { result ≡ record self { most = max } }
    {
        let mut suffixes = self.form.suffixes();
        suffixes.set_most(max);
        self.set_suffixes(suffixes);
        self
    }

    /// Returns whether the version is release numbers alone: epoch 0, no suffix, no local part, and no mark
    /// as the end of a range (PEP 440, "Final releases"). Takes no memory; its cost is constant.
    #[tactic(auto, using(crate::proofs::Releases::only_release_is))]
    pub fn is_only_release(&self) -> bool
        ensures { IsTrue result ↔ (self.now ≡ release_record self.now.release) }
    {
        let suffixed = self.is_pre() || self.is_post() || self.is_dev() || self.is_local();
        let at_end = self.min().is_some() || self.max().is_some();
        self.epoch() == 0 && !suffixed && !at_end
    }

    /// Returns the version without the zeros at its release's end, down to one number, as `1.2` for
    /// `1.2.0.0` and `0` for `0.0`: the shortest of those that are equal to it but for the local part.
    /// Takes no memory; goes once over the zeros.
    #[tactic(auto, using(crate::proofs::Releases::kept_numbers))]
    pub fn without_end_zeros(mut self) -> Version
        ensures { result ≡ without_end_zeros self }
    {
        let count = without_end_zeros(self.release()).len();
        self.release = self.release.truncated(count.max(1));
        self.form = self.form.with(self.release.numbers(), &self.local);
        self
    }

    /// Returns the version with the last of its release numbers raised by one, as `1.3` for `1.2`; `None`
    /// where that number is `u64::MAX`. Takes no memory; its cost is constant.
    pub fn with_last_raised(mut self) -> Option<Version>
        ensures { result
            ≡ option_map (λ numbers. record self { release = numbers }) (last_raised self.release) }
    {
        self.release = self.release.with_last_raised()?;
        self.form = self.form.with(self.release.numbers(), &self.local);
        Some(self)
    }

    /// Returns the version of the release numbers alone, without epoch and suffixes. Takes memory for more
    /// than three.
    ///
    /// # Errors
    ///
    /// `AllocError` when memory runs out.
    pub fn only_release(&self, alloc: Global) -> Result<Version, AllocError>
        ensures { IfOk result (λ version. version ≡ release_record self.now.release) }
    {
        Ok(Version::of_release(alloc, Release::from_slice(alloc, self.release())?))
    }
}
