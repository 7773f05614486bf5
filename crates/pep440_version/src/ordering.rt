//! The order of versions, and their hash.
//!
//! `Ord::cmp` is `cmp_public` and, only where that is `Equal`, the comparison of the local parts.

ghost use Rattle.std.specs.Prelude.{◌≡◌, [], ◌∷◌, map, fold, refl};
ghost use Rattle.std.specs.Ordering.{nat_cmp, as_partial_cmp};
ghost use Rattle.std.specs.Cmp.Lexicographic.{slice_cmp};
ghost use Rattle.pep440_text.specs.Record.{segment_of, without_local};
ghost use Rattle.pep440_version.specs.Order.{key_of, key_cmp, version_cmp, version_eq, segment_key};
ghost use Rattle.pep440_version.specs.Order.{local_key, fed_numbers, fed_key, class_of, stripped};
ghost use Rattle.pep440_version.specs.Order.{absent_first, absent_last, pre_key, post_key, kind_rank};
ghost use Rattle.pep440_version.specs.OrderLaws.{version_cmp_total, version_eq_equiv, version_eq_partial};
ghost use Rattle.pep440_version.specs.OrderLaws.{version_partial_order, alike_versions};

use crate::{LocalSegment, Prerelease, PrereleaseKind, Version};
use std::cmp::Ordering;
use std::hash::{Hash, Hasher};

/// Returns the numbers without the zeros at their end.
#[tactic(auto, using(crate::proofs::Stripped::stripped_rules))]
pub(crate) fn without_end_zeros(numbers: &[u64]) -> &[u64]
    ensures { result.now ≡ stripped numbers.now }
{
    let mut front = numbers;
    loop {
        match front.split_last() {
            None => return front,
            Some((last, shorter)) => {
                if *last != 0 {
                    return front;
                }
                front = shorter;
            }
        }
    }
}

/// Compares releases; zeros at their end do not count.
fn compare_releases(a: &[u64], b: &[u64]) -> Ordering
    ensures { result ≡ slice_cmp nat_cmp (stripped a.now) (stripped b.now) }
{
    without_end_zeros(a).cmp(without_end_zeros(b))
}

fn compare_numbers(a: u64, b: u64) -> Ordering
    ensures { result ≡ slice_cmp nat_cmp (a ∷ []) (b ∷ []) }
{
    a.cmp(&b)
}

fn compare_absent_first(a: Option<u64>, b: Option<u64>) -> Ordering
    ensures { result ≡ slice_cmp nat_cmp (absent_first a) (absent_first b) }
{
    match (a, b) {
        (None, None) => Ordering::Equal,
        (None, Some(_)) => Ordering::Less,
        (Some(_), None) => Ordering::Greater,
        (Some(x), Some(y)) => x.cmp(&y),
    }
}

fn compare_absent_last(a: Option<u64>, b: Option<u64>) -> Ordering
    ensures { result ≡ slice_cmp nat_cmp (absent_last a) (absent_last b) }
{
    match (a, b) {
        (None, None) => Ordering::Equal,
        (None, Some(_)) => Ordering::Greater,
        (Some(_), None) => Ordering::Less,
        (Some(x), Some(y)) => x.cmp(&y),
    }
}

pub(crate) fn rank(kind: PrereleaseKind) -> u64
    ensures { result ≡ kind_rank kind }
{
    match kind {
        PrereleaseKind::Alpha => 0,
        PrereleaseKind::Beta => 1,
        PrereleaseKind::Rc => 2,
    }
}

fn compare_pre(a: Option<Prerelease>, b: Option<Prerelease>) -> Ordering
    ensures { result ≡ slice_cmp nat_cmp (pre_key a) (pre_key b) }
{
    match (a, b) {
        (None, None) => Ordering::Equal,
        (None, Some(_)) => Ordering::Less,
        (Some(_), None) => Ordering::Greater,
        (Some(x), Some(y)) => rank(x.kind)
            .cmp(&rank(y.kind))
            .then(x.number.cmp(&y.number)),
    }
}

fn compare_post(
    a: Option<u64>,
    a_most: Option<u64>,
    b: Option<u64>,
    b_most: Option<u64>,
) -> Ordering
    ensures { result ≡ slice_cmp nat_cmp (post_key a a_most) (post_key b b_most) }
{
    match (a_most, b_most) {
        (Some(x), Some(y)) => x.cmp(&y),
        (Some(_), None) => Ordering::Greater,
        (None, Some(_)) => Ordering::Less,
        (None, None) => compare_absent_first(a, b),
    }
}

fn compare_segments(a: &LocalSegment, b: &LocalSegment) -> Ordering
    ensures { result
        ≡ slice_cmp nat_cmp (segment_key (segment_of a.now)) (segment_key (segment_of b.now)) }
{
    match (a, b) {
        (LocalSegment::String(x), LocalSegment::String(y)) => x.as_bytes().cmp(y.as_bytes()),
        (LocalSegment::String(_), LocalSegment::Number(_)) => Ordering::Less,
        (LocalSegment::Number(_), LocalSegment::String(_)) => Ordering::Greater,
        (LocalSegment::Number(x), LocalSegment::Number(y)) => x.cmp(y),
    }
}

fn compare_local(a: &[LocalSegment], b: &[LocalSegment]) -> Ordering
    ensures { result ≡ key_cmp (local_key (map segment_of a.now)) (local_key (map segment_of b.now)) }
{
    let mut left = a;
    let mut right = b;
    loop {
        match (left.split_first(), right.split_first()) {
            (None, None) => return Ordering::Equal,
            (None, Some(_)) => return Ordering::Less,
            (Some(_), None) => return Ordering::Greater,
            (Some((x, xs)), Some((y, ys))) => {
                let order = compare_segments(x, y);
                if order.is_ne() {
                    return order;
                }
                left = xs;
                right = ys;
            }
        }
    }
}

impl Version {
    /// Returns the rank of a version among those of its release, from the lowest: below every suffix, a
    /// developmental release, the kinds of pre-release, the release, a post-release.
    fn class(&self) -> u64
        ensures { result ≡ class_of self.now }
    {
        if self.min().is_some() {
            return 0;
        }
        if let Some(pre) = self.pre() {
            return 2 + rank(pre.kind);
        }
        match (self.post(), self.dev(), self.max()) {
            (None, Some(_), None) => 1,
            (None, None, None) => 5,
            _ => 6,
        }
    }

    /// Compares the releases alone; zeros at their end do not count (PEP 440, "Final releases").
    pub fn cmp_release(&self, other: &Version) -> Ordering
        ensures { result ≡ slice_cmp nat_cmp (stripped self.now.release) (stripped other.now.release) }
    {
        compare_releases(self.release(), other.release())
    }

    /// Compares all but the local parts (PEP 440, "Local version identifiers"). Suffixes are compared only
    /// where epochs and releases are equal.
    #[tactic(auto, using(crate::proofs::PackedOrder::public_packed_compare))]
    pub fn cmp_public(&self, other: &Version) -> Ordering
        ensures { result ≡ version_cmp (without_local self.now) (without_local other.now) }
    {
        match (self.word(), other.word()) {
            (Some(left), Some(right)) => left.cmp(&right),
            _ => self.cmp_public_parts(other),
        }
    }

    /// Compares all but the local parts, part by part.
    #[tactic(auto, unfolding(crate::specs::Order::key_of))]
    fn cmp_public_parts(&self, other: &Version) -> Ordering
        ensures { result ≡ version_cmp (without_local self.now) (without_local other.now) }
    {
        let epoch = compare_numbers(self.epoch(), other.epoch());
        if epoch.is_ne() {
            return epoch;
        }
        let release = compare_releases(self.release(), other.release());
        if release.is_ne() {
            return release;
        }
        let class = compare_numbers(self.class(), other.class());
        let pre = compare_pre(self.pre(), other.pre());
        let post = compare_post(self.post(), self.max(), other.post(), other.max());
        let least = compare_absent_first(self.min(), other.min());
        let dev = compare_absent_last(self.dev(), other.dev());
        class.then(pre.then(post.then(least.then(dev))))
    }

    /// Compares part by part.
    #[tactic(auto, using(crate::proofs::Fronts::local_last))]
    fn cmp_parts(&self, other: &Version) -> Ordering
        ensures { result ≡ version_cmp self.now other.now }
    {
        self.cmp_public_parts(other)
            .then_with(|| compare_local(self.local(), other.local()))
    }
}

impl PartialEq for Version {
    ghost eq = { version_eq };

    ghost laws = { version_eq_partial };

    fn eq(&self, other: &Version) -> bool {
        self.cmp(other).is_eq()
    }
}

impl Eq for Version {
    ghost laws = { version_eq_equiv };
}

impl Ord for Version {
    ghost cmp = { version_cmp };

    ghost total = { version_cmp_total };

    ghost matches_partial_cmp = { λ x y. refl };

    ghost matches_eq = { λ x y. refl };

    #[tactic(auto, using(crate::proofs::PackedOrder::packed_compare))]
    fn cmp(&self, other: &Version) -> Ordering {
        match (self.word(), other.word()) {
            (Some(word), Some(other_word)) => word.cmp(&other_word),
            _ => self.cmp_parts(other),
        }
    }
}

impl PartialOrd for Version {
    ghost partial_cmp = { as_partial_cmp version_cmp };

    ghost laws = { version_partial_order };

    fn partial_cmp(&self, other: &Version) -> Option<Ordering> {
        Some(self.cmp(other))
    }
}

/// Feeds the numbers to a hash, and then a byte that ends them.
fn feed_numbers<H: Hasher>(numbers: &[u64], state: &mut H)
    ensures { state.new ≡ fold H.write state.old (fed_numbers numbers.now) }
{
    for number in numbers {
        number.hash(state);
    }
    state.write_u8(255);
}

fn feed_number<H: Hasher>(number: u64, state: &mut H)
    ensures { state.new ≡ fold H.write state.old (fed_numbers (number ∷ [])) }
{
    number.hash(state);
    state.write_u8(255);
}

fn feed_absent_first<H: Hasher>(number: Option<u64>, state: &mut H)
    ensures { state.new ≡ fold H.write state.old (fed_numbers (absent_first number)) }
{
    if let Some(number) = number {
        number.hash(state);
    }
    state.write_u8(255);
}

fn feed_absent_last<H: Hasher>(number: Option<u64>, state: &mut H)
    ensures { state.new ≡ fold H.write state.old (fed_numbers (absent_last number)) }
{
    match number {
        None => feed_number(1, state),
        Some(number) => {
            state.write_u64(0);
            feed_number(number, state);
        }
    }
}

fn feed_pre<H: Hasher>(pre: Option<Prerelease>, state: &mut H)
    ensures { state.new ≡ fold H.write state.old (fed_numbers (pre_key pre)) }
{
    match pre {
        None => state.write_u8(255),
        Some(pre) => {
            state.write_u64(rank(pre.kind));
            feed_number(pre.number, state);
        }
    }
}

fn feed_post<H: Hasher>(post: Option<u64>, most: Option<u64>, state: &mut H)
    ensures { state.new ≡ fold H.write state.old (fed_numbers (post_key post most)) }
{
    match (post, most) {
        (_, Some(number)) => {
            state.write_u64(1);
            feed_number(number, state);
        }
        (Some(number), None) => {
            state.write_u64(0);
            feed_number(number, state);
        }
        (None, None) => state.write_u8(255),
    }
}

fn feed_bytes<H: Hasher>(bytes: &[u8], state: &mut H)
    ensures { state.new ≡ fold H.write state.old (fed_numbers bytes.now) }
{
    for byte in bytes {
        state.write_u64(*byte as u64);
    }
    state.write_u8(255);
}

fn feed_segment<H: Hasher>(segment: &LocalSegment, state: &mut H)
    ensures { state.new ≡ fold H.write state.old (fed_numbers (segment_key (segment_of segment.now))) }
{
    match segment {
        LocalSegment::String(text) => {
            state.write_u64(0);
            feed_bytes(text.as_bytes(), state);
        }
        LocalSegment::Number(number) => {
            state.write_u64(1);
            feed_number(*number, state);
        }
    }
}

fn feed_local<H: Hasher>(segments: &[LocalSegment], state: &mut H)
    ensures { state.new ≡ fold H.write state.old (fed_key (local_key (map segment_of segments.now))) }
{
    for segment in segments {
        feed_segment(segment, state);
    }
}

impl Hash for Version {
    ghost hash_input = { λ version. fed_key (key_of version) };

    ghost respects_eq = { alike_versions };

    #[tactic(auto, unfolding(crate::specs::Order::key_of))]
    fn hash<H: Hasher>(&self, state: &mut H) {
        feed_number(self.epoch(), state);
        feed_numbers(without_end_zeros(self.release()), state);
        feed_number(self.class(), state);
        feed_pre(self.pre(), state);
        feed_post(self.post(), self.max(), state);
        feed_absent_first(self.min(), state);
        feed_absent_last(self.dev(), state);
        feed_local(self.local(), state);
    }
}
