//! The two forms of a version: packed, by a word whose order is that of the versions, and full.
//!
//! A word has, from its highest bit, 16 bits of the first release number, 8 bits of each of the next three,
//! 3 bits of the kind of the suffix and 21 bits of its number. Versions that have words compare as these do,
//! which is one comparison of integers; most versions have one.
//!
//! A packed version has its suffix in the word alone. Both forms keep the release numbers, since
//! `Version::release` borrows them and `1.0` and `1.0.0` print differently, and the local part, though a
//! packed version has none. So `with_post` and its kin change the form and take no memory, and a version
//! is 120 bytes, 8 more than in the full form alone; a word beside all parts would take 16.

ghost use Rattle.std.specs.Prelude.{◌≡◌, ◌+◌, ◌==◌, ◌&&◌, not, map, if◌then◌else◌, [], ◌∷◌, Some, None};
ghost use Rattle.pep440_text.specs.Kept.{no_suffixes};
ghost use Rattle.pep440_text.specs.Record.{segment_of};
ghost use Rattle.pep440_version.specs.Changes.{has_segments};
ghost use Rattle.pep440_version.specs.Packing.{suffix_among, kind_of, number_of, release_fits, release_bits};
ghost use Rattle.pep440_version.specs.Packing.{suffix_fits, suffix_bits, suffix_in, alone, packed};
ghost use Rattle.pep440_version.specs.Packing.{version_by, formed, word_in, epoch_in, suffixes_in};

use crate::ordering::rank;
use crate::{LocalSegment, Prerelease, PrereleaseKind};
use pep440_text::suffixes::Suffixes;

/// What the first, second, third and fourth release number and the kind of a suffix are multiplied by.
const FIRST: u64 = 1 << 48;

const SECOND: u64 = 1 << 40;

const THIRD: u64 = 1 << 32;

const FOURTH: u64 = 1 << 24;

const KIND: u64 = 1 << 21;

/// The only suffix of a version, or that it has none.
#[derive(Clone, Copy)]
pub(crate) enum Suffix {
    Min(u64),
    Dev(u64),
    Pre(PrereleaseKind, u64),
    Bare,
    Post(u64),
    Max(u64),
}

/// The parts of a version other than its release and its local part.
#[derive(Drop)]
pub(crate) enum Form {
    /// The word of a version that has one, with its suffix.
    Packed(u64),
    Full { epoch: u64, suffixes: Suffixes },
}

impl Suffix {
    /// Returns the suffix, where there is at most one; `None` where there are more.
    fn among(
        pre: Option<Prerelease>,
        post: Option<u64>,
        dev: Option<u64>,
        min: Option<u64>,
        max: Option<u64>,
    ) -> Option<Suffix>
        ensures { result ≡ suffix_among pre post dev min max }
    {
        match (pre, post, dev, min, max) {
            (None, None, None, None, None) => Some(Suffix::Bare),
            (Some(pre), None, None, None, None) => Some(Suffix::Pre(pre.kind, pre.number)),
            (None, Some(number), None, None, None) => Some(Suffix::Post(number)),
            (None, None, Some(number), None, None) => Some(Suffix::Dev(number)),
            (None, None, None, Some(number), None) => Some(Suffix::Min(number)),
            (None, None, None, None, Some(number)) => Some(Suffix::Max(number)),
            _ => None,
        }
    }

    /// Returns the only suffix of these; `None` where there are more.
    fn of(suffixes: &Suffixes) -> Option<Suffix>
        ensures { let s = suffixes.now in result ≡ suffix_among s.pre s.post s.dev s.least s.most }
    {
        Suffix::among(
            suffixes.pre(),
            suffixes.post(),
            suffixes.dev(),
            suffixes.least(),
            suffixes.most(),
        )
    }

    /// Returns the suffixes of a version that has this one alone.
    fn alone(self) -> Suffixes
        ensures { result ≡ alone self }
    {
        let mut suffixes = Suffixes::absent();
        match self {
            Suffix::Min(number) => suffixes.set_least(Some(number)),
            Suffix::Dev(number) => suffixes.set_dev(Some(number)),
            Suffix::Pre(kind, number) => suffixes.set_pre(Some(Prerelease { kind, number })),
            Suffix::Bare => (),
            Suffix::Post(number) => suffixes.set_post(Some(number)),
            Suffix::Max(number) => suffixes.set_most(Some(number)),
        }
        suffixes
    }

    /// Returns the place of the suffix among those of one release.
    fn kind(self) -> u64
        ensures { result ≡ kind_of self }
    {
        match self {
            Suffix::Min(_) => 0,
            Suffix::Dev(_) => 1,
            Suffix::Pre(kind, _) => 2 + rank(kind),
            Suffix::Bare => 5,
            Suffix::Post(_) => 6,
            Suffix::Max(_) => 7,
        }
    }

    /// Returns the number of the suffix; 0 where there is none.
    fn number(self) -> u64
        ensures { result ≡ number_of self }
    {
        match self {
            Suffix::Min(number) => number,
            Suffix::Dev(number) => number,
            Suffix::Pre(_, number) => number,
            Suffix::Bare => 0,
            Suffix::Post(number) => number,
            Suffix::Max(number) => number,
        }
    }

    /// Returns the suffix whose bits end the word.
    fn of_word(word: u64) -> Suffix
        ensures { result ≡ suffix_in word }
    {
        let number = word % KIND;
        match word / KIND % 8 {
            0 => Suffix::Min(number),
            1 => Suffix::Dev(number),
            2 => Suffix::Pre(PrereleaseKind::Alpha, number),
            3 => Suffix::Pre(PrereleaseKind::Beta, number),
            4 => Suffix::Pre(PrereleaseKind::Rc, number),
            5 => Suffix::Bare,
            6 => Suffix::Post(number),
            _ => Suffix::Max(number),
        }
    }
}

/// Returns the bits of four release numbers; `None` where one does not fit.
fn numbers_bits(first: u64, second: u64, third: u64, fourth: u64) -> Option<u64>
    ensures { let numbers = first ∷ second ∷ third ∷ fourth ∷ [] in
        result ≡ if release_fits numbers then Some (release_bits numbers) else None }
{
    if first < 65536 && second < 256 && third < 256 && fourth < 256 {
        Some(first * FIRST + second * SECOND + third * THIRD + fourth * FOURTH)
    } else {
        None
    }
}

/// Returns the bits of a release; `None` where its numbers do not fit.
fn release_bits(numbers: &[u64]) -> Option<u64>
    ensures { result ≡ if release_fits numbers.now then Some (release_bits numbers.now) else None }
{
    match numbers {
        [] => Some(0),
        [first] => numbers_bits(*first, 0, 0, 0),
        [first, second] => numbers_bits(*first, *second, 0, 0),
        [first, second, third] => numbers_bits(*first, *second, *third, 0),
        [first, second, third, fourth] => numbers_bits(*first, *second, *third, *fourth),
        _ => None,
    }
}

/// Returns the bits of the suffix; `None` where its number does not fit.
fn suffix_bits(suffix: Suffix) -> Option<u64>
    ensures { result ≡ if suffix_fits (Some suffix) then Some (suffix_bits (Some suffix)) else None }
{
    let number = suffix.number();
    if number < KIND {
        Some(suffix.kind() * KIND + number)
    } else {
        None
    }
}

/// Returns the word of the version of these parts; `None` where it has none.
fn word(epoch: u64, release: &[u64], suffix: Option<Suffix>, local: &[LocalSegment]) -> Option<u64>
    ensures { result
        ≡ if (epoch == 0) && not (has_segments (map segment_of local.now)) && release_fits release.now
        && suffix_fits suffix
        then Some (release_bits release.now + suffix_bits suffix) else None }
{
    if epoch != 0 || !local.is_empty() {
        return None;
    }
    let release = release_bits(release)?;
    let suffix = suffix_bits(suffix?)?;
    Some(release + suffix)
}

impl Form {
    /// Returns the word, in the packed form.
    pub(crate) fn word(&self) -> Option<u64>
        ensures { result ≡ word_in self.now }
    {
        match self {
            Form::Packed(word) => Some(*word),
            Form::Full { .. } => None,
        }
    }

    pub(crate) fn epoch(&self) -> u64
        ensures { result ≡ epoch_in self.now }
    {
        match self {
            Form::Packed(_) => 0,
            Form::Full { epoch, .. } => *epoch,
        }
    }

    #[tactic(auto, unfolding(crate::specs::Packing::unpacked))]
    pub(crate) fn pre(&self) -> Option<Prerelease>
        ensures { result ≡ (suffixes_in self.now).pre }
    {
        match self {
            Form::Full { suffixes, .. } => suffixes.pre(),
            Form::Packed(word) => match Suffix::of_word(*word) {
                Suffix::Pre(kind, number) => Some(Prerelease { kind, number }),
                _ => None,
            },
        }
    }

    #[tactic(auto, unfolding(crate::specs::Packing::unpacked))]
    pub(crate) fn post(&self) -> Option<u64>
        ensures { result ≡ (suffixes_in self.now).post }
    {
        match self {
            Form::Full { suffixes, .. } => suffixes.post(),
            Form::Packed(word) => match Suffix::of_word(*word) {
                Suffix::Post(number) => Some(number),
                _ => None,
            },
        }
    }

    #[tactic(auto, unfolding(crate::specs::Packing::unpacked))]
    pub(crate) fn dev(&self) -> Option<u64>
        ensures { result ≡ (suffixes_in self.now).dev }
    {
        match self {
            Form::Full { suffixes, .. } => suffixes.dev(),
            Form::Packed(word) => match Suffix::of_word(*word) {
                Suffix::Dev(number) => Some(number),
                _ => None,
            },
        }
    }

    #[tactic(auto, unfolding(crate::specs::Packing::unpacked))]
    pub(crate) fn min(&self) -> Option<u64>
        ensures { result ≡ (suffixes_in self.now).least }
    {
        match self {
            Form::Full { suffixes, .. } => suffixes.least(),
            Form::Packed(word) => match Suffix::of_word(*word) {
                Suffix::Min(number) => Some(number),
                _ => None,
            },
        }
    }

    #[tactic(auto, unfolding(crate::specs::Packing::unpacked))]
    pub(crate) fn max(&self) -> Option<u64>
        ensures { result ≡ (suffixes_in self.now).most }
    {
        match self {
            Form::Full { suffixes, .. } => suffixes.most(),
            Form::Packed(word) => match Suffix::of_word(*word) {
                Suffix::Max(number) => Some(number),
                _ => None,
            },
        }
    }

    /// Returns the suffixes and marks of either form.
    #[tactic(auto, unfolding(crate::specs::Packing::unpacked))]
    pub(crate) fn suffixes(&self) -> Suffixes
        ensures { result ≡ suffixes_in self.now }
    {
        match self {
            Form::Packed(word) => Suffix::of_word(*word).alone(),
            Form::Full { suffixes, .. } => suffixes.copied(),
        }
    }

    /// Returns the form of a version with another release or local part.
    pub(crate) fn with(&self, release: &[u64], local: &[LocalSegment]) -> Form
        ensures word { word_in result
            ≡ packed (formed self.now release.now (map segment_of local.now)) }
        ensures epoch { epoch_in result ≡ epoch_in self.now }
        ensures suffixes { suffixes_in result ≡ suffixes_in self.now }
    {
        Form::new(self.epoch(), release, self.suffixes(), local)
    }

    /// Returns a copy.
    pub(crate) fn copied(&self) -> Form
        ensures { result ≡ self.now }
    {
        match self {
            Form::Packed(word) => Form::Packed(*word),
            Form::Full { epoch, suffixes } => Form::Full {
                epoch: *epoch,
                suffixes: suffixes.copied(),
            },
        }
    }

    /// Returns the form of a version of these parts: packed, where it has a word.
    #[tactic(auto, using(crate::proofs::Unpacked::packed_suffixes), unfolding(crate::specs::Packing::packed))]
    pub(crate) fn new(
        epoch: u64,
        release: &[u64],
        suffixes: Suffixes,
        local: &[LocalSegment],
    ) -> Form
        ensures word { word_in result
            ≡ packed (version_by epoch release.now suffixes (map segment_of local.now)) }
        ensures epoch { epoch_in result ≡ epoch }
        ensures suffixes { suffixes_in result ≡ suffixes }
    {
        match word(epoch, release, Suffix::of(&suffixes), local) {
            None => Form::Full { epoch, suffixes },
            Some(word) => Form::Packed(word),
        }
    }

    /// Returns the form of a version of these parts of a text: packed, where it has a word.
    #[tactic(auto, using(crate::proofs::Unpacked::text_suffixes), unfolding(crate::specs::Packing::packed))]
    pub(crate) fn of_text(
        epoch: u64,
        release: &[u64],
        pre: Option<Prerelease>,
        post: Option<u64>,
        dev: Option<u64>,
        local: &[LocalSegment],
    ) -> Form
        ensures word { word_in result
            ≡ packed (version_by epoch release.now (record no_suffixes { pre = pre; post = post; dev = dev })
            (map segment_of local.now)) }
        ensures epoch { epoch_in result ≡ epoch }
        ensures suffixes { suffixes_in result ≡ record no_suffixes { pre = pre; post = post; dev = dev } }
    {
        match word(
            epoch,
            release,
            Suffix::among(pre, post, dev, None, None),
            local,
        ) {
            None => Form::Full {
                epoch,
                suffixes: Suffixes::new(pre, post, dev),
            },
            Some(word) => Form::Packed(word),
        }
    }
}
