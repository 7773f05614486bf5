#![tactic(auto)]
//! Hashes of the parts of marker trees' nodes: equal parts have the same number, and few others have it
//! too.
//!
//! A node is first looked up by a number, made of its variable, its first two children and its first
//! boundary (of a version, the first three numbers of its release). It stands in the map's key next to the
//! node, so most comparisons read two numbers and no node. Where many nodes share a number the order of
//! nodes decides, so no input can make them collide.

ghost use Rattle.std.specs.Prelude.{◌≡◌, get_or};
ghost use Rattle.pep508_node_hash.specs.Tags.{mixed, text_tag, version_tag};

use pep440_version::Version;

/// Returns the number continued by one more.
#[tactic(auto, unfolding(crate::specs::Tags::mixed))]
pub fn mixed(tag: u64, number: u64) -> u64
    ensures { result ≡ mixed tag number }
{
    tag.wrapping_mul(1_048_583).wrapping_add(number)
}

/// Returns the number of a text, by one pass over its bytes.
#[tactic(auto, unfolding(crate::specs::Tags::with_byte))]
pub fn text_tag(text: &str) -> u64
    ensures { result ≡ text_tag text.now }
{
    let mut tag: u64 = 0;
    for byte in text.as_bytes() {
        tag = tag.wrapping_mul(257).wrapping_add(u64::from(*byte));
    }
    tag
}

/// Returns the number at a place, and 0 where there is none.
fn number_at(release: &[u64], place: usize) -> u64
    ensures { result ≡ get_or release.now place 0 }
{
    match release.get(place) {
        Some(number) => *number,
        None => 0,
    }
}

/// Returns the number of a version, by the first three numbers of its release.
pub fn version_tag(version: &Version) -> u64
    ensures { result ≡ version_tag version.now }
{
    let release = version.release();
    mixed(
        mixed(number_at(release, 0), number_at(release, 1)),
        number_at(release, 2),
    )
}
