//! The suffixes of versions.
//!
//! The numbers of `pre`, `post`, `dev`, `min` and `max` are stored next to one another, with the flags of
//! which are present after them all; an `Option` of each would take 16 bytes more for its tag. No suffix is
//! on the heap, since a setter such as `with_post` cannot fail. Contracts see a `VersionRecord`.

ghost use Rattle.std.specs.Prelude.{◌≡◌};
ghost use Rattle.pep440_text.specs.Kept.{kept, no_suffixes};

use crate::{Prerelease, PrereleaseKind};
use std::marker::Model;

/// A version's pre-release, post-release and developmental release, and its marks as the end of a range.
///
/// The numbers are kept together and their presence as flags: five `Option`s would take 40 bytes more, and
/// a list of candidates is mostly versions.
#[derive(Drop)]
pub struct Suffixes {
    pre_number: u64,
    post_number: u64,
    dev_number: u64,
    least_number: u64,
    most_number: u64,
    pre_kind: Option<PrereleaseKind>,
    has_post: bool,
    has_dev: bool,
    has_least: bool,
    has_most: bool,
}

impl Model for Suffixes {
    ghost use Rattle.pep440_text.specs.Kept.{SuffixRecord, kept, kept_pre};

    ghost Value = { SuffixRecord };

    ghost view = { λ s. record {
      pre = kept_pre s.pre_kind s.pre_number;
      post = kept s.has_post s.post_number;
      dev = kept s.has_dev s.dev_number;
      least = kept s.has_least s.least_number;
      most = kept s.has_most s.most_number;
    } };
}

impl Suffixes {
    /// Returns the record of no suffixes and no marks.
    pub fn absent() -> Suffixes
        ensures { result ≡ no_suffixes }
    {
        Suffixes {
            pre_number: 0,
            post_number: 0,
            dev_number: 0,
            least_number: 0,
            most_number: 0,
            pre_kind: None,
            has_post: false,
            has_dev: false,
            has_least: false,
            has_most: false,
        }
    }

    /// Returns a record of these suffixes, without marks.
    pub fn new(pre: Option<Prerelease>, post: Option<u64>, dev: Option<u64>) -> Suffixes
        ensures { result ≡ record no_suffixes { pre = pre; post = post; dev = dev } }
    {
        let mut suffixes = Suffixes::absent();
        suffixes.set_pre(pre);
        suffixes.set_post(post);
        suffixes.set_dev(dev);
        suffixes
    }

    /// Returns a copy.
    pub fn copied(&self) -> Suffixes
        ensures { result ≡ self.now }
    {
        Suffixes {
            pre_number: self.pre_number,
            post_number: self.post_number,
            dev_number: self.dev_number,
            least_number: self.least_number,
            most_number: self.most_number,
            pre_kind: self.pre_kind,
            has_post: self.has_post,
            has_dev: self.has_dev,
            has_least: self.has_least,
            has_most: self.has_most,
        }
    }

    /// Returns the pre-release, where there is one.
    pub fn pre(&self) -> Option<Prerelease>
        ensures { result ≡ self.now.pre }
    {
        match self.pre_kind {
            None => None,
            Some(kind) => Some(Prerelease {
                kind,
                number: self.pre_number,
            }),
        }
    }

    /// Returns the number of the post-release, where there is one.
    pub fn post(&self) -> Option<u64>
        ensures { result ≡ self.now.post }
    {
        number_where(self.has_post, self.post_number)
    }

    /// Returns the number of the developmental release, where there is one.
    pub fn dev(&self) -> Option<u64>
        ensures { result ≡ self.now.dev }
    {
        number_where(self.has_dev, self.dev_number)
    }

    /// Returns the mark as the lower end of a range, where there is one.
    pub fn least(&self) -> Option<u64>
        ensures { result ≡ self.now.least }
    {
        number_where(self.has_least, self.least_number)
    }

    /// Returns the mark as the upper end of a range, where there is one.
    pub fn most(&self) -> Option<u64>
        ensures { result ≡ self.now.most }
    {
        number_where(self.has_most, self.most_number)
    }

    /// Overwrites the pre-release.
    pub fn set_pre(&mut self, pre: Option<Prerelease>)
        ensures { self.new ≡ record self.old { pre = pre } }
    {
        match pre {
            None => self.pre_kind = None,
            Some(pre) => {
                self.pre_kind = Some(pre.kind);
                self.pre_number = pre.number;
            }
        }
    }

    /// Overwrites the number of the post-release.
    pub fn set_post(&mut self, post: Option<u64>)
        ensures { self.new ≡ record self.old { post = post } }
    {
        self.has_post = post.is_some();
        self.post_number = post.unwrap_or(0);
    }

    /// Overwrites the number of the developmental release.
    pub fn set_dev(&mut self, dev: Option<u64>)
        ensures { self.new ≡ record self.old { dev = dev } }
    {
        self.has_dev = dev.is_some();
        self.dev_number = dev.unwrap_or(0);
    }

    /// Overwrites the mark as the lower end of a range.
    pub fn set_least(&mut self, least: Option<u64>)
        ensures { self.new ≡ record self.old { least = least } }
    {
        self.has_least = least.is_some();
        self.least_number = least.unwrap_or(0);
    }

    /// Overwrites the mark as the upper end of a range.
    pub fn set_most(&mut self, most: Option<u64>)
        ensures { self.new ≡ record self.old { most = most } }
    {
        self.has_most = most.is_some();
        self.most_number = most.unwrap_or(0);
    }
}

/// Returns the number, where it is there.
fn number_where(there: bool, number: u64) -> Option<u64>
    ensures { result ≡ kept there number }
{
    if there { Some(number) } else { None }
}
