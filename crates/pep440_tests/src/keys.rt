//! Keys of versions: they rise as the versions do, and are short.

use pep440_key::version_key;
use pep440_version::Version;
use std::alloc::Global;
use std::test::Fail;

// PEP 440, "Summary of permitted suffixes and relative ordering", with epochs, large numbers and a number
// of each length.
const RISING: [&str; 27] = [
    "0",
    "1.dev0",
    "1.0.dev456",
    "1.0a1",
    "1.0a2.dev456",
    "1.0a12.dev456",
    "1.0a12",
    "1.0b1.dev456",
    "1.0b2",
    "1.0b2.post345.dev456",
    "1.0b2.post345",
    "1.0rc1.dev456",
    "1.0rc1",
    "1.0",
    "1.0+abc.5",
    "1.0+abc.7",
    "1.0+5",
    "1.0.post456.dev34",
    "1.0.post456",
    "1.0.15",
    "1.1.dev1",
    "1.251",
    "1.252",
    "1.65536",
    "1.4294967296",
    "1.18446744073709551615",
    "1!0",
];

fn is_below(alloc: Global, low: &str, high: &str) -> Result<bool, Fail> {
    let low = version_key(alloc, &Version::from_str(alloc, low)?)?;
    let high = version_key(alloc, &Version::from_str(alloc, high)?)?;
    Ok(low.as_slice() < high.as_slice())
}

#[test]
fn keys_rise(rt: HostRuntime) -> Result<(), Fail> {
    let mut low = "0.dev0";
    for high in RISING {
        assert!(rt; is_below(rt.alloc(), low, high)?, "{low} before {high}");
        low = high;
    }
    Ok(())
}

#[test]
fn keys_are_short(rt: HostRuntime) -> Result<(), Fail> {
    let version = Version::from_str(rt.alloc(), "1.2.3.0")?;
    let key = version_key(rt.alloc(), &version)?;
    assert_eq!(rt;
        key.as_slice(),
        [1, 0, 2, 3, 4, 0, 6, 0, 0, 0, 0, 2, 0, 0].as_slice()
    );
    Ok(())
}
