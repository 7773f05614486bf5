//! Whether a lock covers requirements: a caller that is proved from the public contracts and laws, on lists
//! whose answers were found by hand.

use pep508_tree::Interner;
use pep508_url::Vars;
use reqtable_covers::{Covers, covers, covers_within};
use reqtable_requirements::Requirements;
use reqtable_requirements::laws::{
    lines_last_while_nodes_are_added, lines_that_were_read_are_of_the_nodes,
};
use std::alloc::{AllocError, Global};
use std::fmt::Write;
use std::test::Fail;

/// `yes`; or the first package that isn't covered, `always` or `sometimes`, and the numbers of the lines
/// there; or what is wrong with a list.
fn covered(
    alloc: Global,
    lock: &str,
    lines: &str,
    most: Option<u64>,
) -> Result<String, AllocError> {
    let vars = Vars::new(alloc, &[], "/w")?;
    let mut interner = Interner::new(alloc);
    lines_that_were_read_are_of_the_nodes();
    lines_last_while_nodes_are_added();
    let Ok(lock) = Requirements::parse(alloc, lock.as_bytes(), &mut interner, &vars) else {
        return Err(AllocError);
    };
    let Ok(lines) = Requirements::parse(alloc, lines.as_bytes(), &mut interner, &vars) else {
        return Err(AllocError);
    };
    let found = match most {
        None => covers(alloc, &lock, &lines, &mut interner, 64),
        Some(most) => covers_within(alloc, &lock, &lines, &mut interner, 64, most),
    };
    match found {
        Ok(found) => told(alloc, &found),
        Err(error) => {
            let mut text = String::new(alloc);
            write!(text, "{error}")?;
            Ok(text)
        }
    }
}

fn told(alloc: Global, found: &Covers) -> Result<String, AllocError> {
    let mut text = String::new(alloc);
    match found {
        Covers::Yes => text.push_str("yes")?,
        Covers::No {
            package,
            tree,
            lines,
        } => {
            let place = if tree.is_true() {
                "always"
            } else {
                "sometimes"
            };
            write!(text, "{package} {place}")?;
            for line in lines {
                write!(text, " {line}")?;
            }
        }
    }
    Ok(text)
}

#[test]
fn a_lock_covers_what_it_is_within(rt: HostRuntime) -> Result<(), Fail> {
    for (lock, lines) in [
        ("foo==1.2", "foo>=1"),
        ("foo==1.2", "foo>=1 ; os_name == 'nt'"),
        ("foo[a,b]==1", "foo[b]"),
        ("foo==1.2\nbar==1", "foo"),
        ("foo==2.0a1", "foo>=1"),
        (
            "foo>=2 ; os_name == 'nt'\nfoo>=3 ; os_name != 'nt'",
            "foo>=1",
        ),
        ("foo<1 ; os_name == 'a' and os_name == 'b'", "# nothing"),
    ] {
        assert_eq!(rt;
            covered(rt.alloc(), lock, lines, None)?.as_str(),
            "yes",
            "{lock} {lines}"
        );
    }
    Ok(())
}

#[test]
fn the_first_package_that_is_not_covered_is_told(rt: HostRuntime) -> Result<(), Fail> {
    for (lock, lines, wanted) in [
        ("foo==1.2 ; os_name == 'nt'", "foo>=1", "foo sometimes 1"),
        ("foo>=1", "foo>=1,!=2", "foo always 1"),
        ("foo[a]==1", "foo[b]", "foo always 1"),
        ("foo==1", "zoo\nbar>=1\nbar<2\nfoo", "bar always 2 3"),
        (
            "foo==1",
            "foo>=1\nfoo<0 ; os_name == 'nt'",
            "foo sometimes 1 2",
        ),
        ("# nothing", "foo", "foo always 1"),
    ] {
        assert_eq!(rt;
            covered(rt.alloc(), lock, lines, None)?.as_str(),
            wanted,
            "{lock} {lines}"
        );
    }
    Ok(())
}

#[test]
fn lists_that_are_not_compared_are_refused(rt: HostRuntime) -> Result<(), Fail> {
    let text = covered(rt.alloc(), "foo==1", "foo===1", None)?;
    assert_eq!(rt; text.as_str(), "right list: line 1: ===");
    let lines = "foo ; os_name == 'a'\nfoo>1 ; os_name == 'b'";
    assert_eq!(rt; covered(rt.alloc(), lines, lines, Some(2))?.as_str(), "yes");
    let text = covered(rt.alloc(), lines, "foo>2", Some(2))?;
    assert_eq!(rt; text.as_str(), "left list: too many cases in all");
    Ok(())
}
