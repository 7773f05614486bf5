//! Which form versions have, and how those of different forms compare.

use pep440_version::Version;
use pep440_version::lent::packed_word;
use std::cmp::Ordering;
use std::hash::{DefaultHasher, Hash, Hasher};
use std::test::Fail;

/// Versions from the lowest to the highest, each with whether it is packed.
const RISING: [(&str, bool); 12] = [
    ("1.0a1", true),
    ("1.0a1.post0", false),
    ("1.0a2", true),
    ("1.0a2097151", true),
    ("1.0a2097152", false),
    ("1.0.post2097151", true),
    ("1.0.post2097152", false),
    ("1.255", true),
    ("1.256", false),
    ("65535.0", true),
    ("65536.0", false),
    ("1!0", false),
];

fn hash_of(version: &Version) -> u64 {
    let mut hasher = DefaultHasher::new();
    version.hash(&mut hasher);
    hasher.finish()
}

#[test]
fn packs_what_fits(rt: HostRuntime) -> Result<(), Fail> {
    for (text, is_packed) in RISING {
        let version = Version::from_str(rt.alloc(), text)?;
        assert_eq!(rt; packed_word(&version).is_some(), is_packed, "{text}");
    }
    Ok(())
}

#[test]
fn orders_both_forms(rt: HostRuntime) -> Result<(), Fail> {
    for (place, (text, _)) in RISING.iter().enumerate() {
        for (other_place, (other_text, _)) in RISING.iter().enumerate() {
            let version = Version::from_str(rt.alloc(), text)?;
            let other = Version::from_str(rt.alloc(), other_text)?;
            assert_eq!(rt;
                version.cmp(&other),
                place.cmp(&other_place),
                "{text} {other_text}"
            );
        }
    }
    Ok(())
}

#[test]
fn setters_choose_the_form(rt: HostRuntime) -> Result<(), Fail> {
    let alloc = rt.alloc();
    let both = Version::from_str(alloc, "1.0a1")?.with_post(Some(0));
    assert!(rt; packed_word(&both).is_none());
    assert_eq!(rt; both.to_string(alloc)?.as_str(), "1.0a1.post0");
    assert!(rt; packed_word(&both.with_pre(None)).is_some());
    let highest = Version::new(alloc, &[1, 0])?.with_max(Some(0));
    assert!(rt; packed_word(&highest).is_some());
    for text in ["1.0.post2097151", "1.0.post2097152"] {
        let post = Version::from_str(alloc, text)?;
        assert_eq!(rt; highest.cmp(&post), Ordering::Greater, "{text}");
    }
    Ok(())
}

#[test]
fn equal_versions_of_either_form_hash_alike(rt: HostRuntime) -> Result<(), Fail> {
    let alloc = rt.alloc();
    let short = Version::from_str(alloc, "1.0")?;
    for (text, is_packed) in [("1.0.0.0", true), ("1.0.0.0.0", false)] {
        let long = Version::from_str(alloc, text)?;
        assert_eq!(rt; packed_word(&long).is_some(), is_packed, "{text}");
        assert!(rt; short == long);
        assert_eq!(rt; hash_of(&short), hash_of(&long), "{text}");
        assert_eq!(rt; short.to_string(alloc)?.as_str(), "1.0");
        assert_eq!(rt; long.to_string(alloc)?.as_str(), text);
    }
    Ok(())
}
