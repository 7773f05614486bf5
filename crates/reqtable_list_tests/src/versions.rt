//! Versions that setters make.

use pep440_version::Version;
use std::test::Fail;

#[test]
fn a_setter_puts_a_version_between_others(rt: HostRuntime) -> Result<(), Fail> {
    let low = Version::from_str(rt.alloc(), "1.0a1")?;
    let made = Version::from_str(rt.alloc(), "1.0a1")?.with_post(Some(0));
    let high = Version::from_str(rt.alloc(), "1.0a2")?;
    assert!(rt; low < made);
    assert!(rt; made < high);
    Ok(())
}
