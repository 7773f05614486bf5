//! The callers that the first pages of `pep440_rs`, `pep508_rs` and `reqtable` show. The loop over
//! environments is in `again`, callers of the commands are in the crate `reqs_tests`.

use crate::tables::environment;
use pep440_specifier_list::VersionSpecifiers;
use pep440_version::Version;
use pep508_requirement::{MarkedRequirement, Requirement};
use pep508_tree::Interner;
use pep508_url::{Vars, VerbatimUrl};
use reqtable_answer::Admission;
use reqtable_requirements::MarkedLines;
use reqtable_streaming::judge_text;
use std::alloc::{AllocError, Global};
use std::test::Fail;

/// Whether a list of specifiers accepts a version.
fn accepts(alloc: Global, list: &str, version: &str) -> Result<bool, AllocError> {
    let version = Version::from_str(alloc, version).or(Err(AllocError))?;
    let wanted = VersionSpecifiers::from_str(alloc, list).or(Err(AllocError))?;
    wanted.contains(alloc, &version)
}

/// Whether a requirement applies to CPython 3.11.4 on Linux, by the tree of its marker.
fn applies_by_tree(alloc: Global, text: &str) -> Result<bool, AllocError> {
    let environment = environment(alloc)?;
    let vars = Vars::new(alloc, &[], "/")?;
    let mut interner = Interner::new(alloc);
    match Requirement::<VerbatimUrl>::from_str(alloc, &mut interner, &vars, text) {
        Ok(wanted) => Ok(wanted.evaluate_markers(&interner, &environment, &[])),
        Err(_) => Err(AllocError),
    }
}

/// Whether a requirement applies to CPython 3.11.4 on Linux, by the formula of its marker.
fn applies(alloc: Global, text: &str) -> Result<bool, AllocError> {
    let environment = environment(alloc)?;
    let vars = Vars::new(alloc, &[], "/")?;
    match MarkedRequirement::<VerbatimUrl>::parse(alloc, &vars, text, None) {
        Ok(wanted) => wanted.evaluate_markers(alloc, &environment, &[]),
        Err(_) => Err(AllocError),
    }
}

/// The rows of lists in CPython 3.11.4 on Linux, with the candidates judged while they are read.
fn judged(alloc: Global, lines: &str, candidates: &str) -> Result<String, AllocError> {
    let vars = Vars::new(alloc, &[], "/")?;
    let environment = environment(alloc)?;
    let admission = Admission::new(|_: &Version, _: bool| true);
    let Ok(lines) = MarkedLines::parse(alloc, lines.as_bytes(), &vars) else {
        return Err(AllocError);
    };
    let text = candidates.as_bytes();
    let Ok(selection) = judge_text(alloc, &lines, &environment, &[], text, &admission) else {
        return Err(AllocError);
    };
    selection.answer.text_among(alloc, &selection.candidates)
}

#[test]
fn a_list_of_specifiers_accepts_a_version(rt: HostRuntime) -> Result<(), Fail> {
    assert!(rt; accepts(rt.alloc(), ">=1.16, <2", "1.19")?);
    assert!(rt; !accepts(rt.alloc(), ">=1.16, <2", "2.0")?);
    Ok(())
}

#[test]
fn a_requirement_applies_to_an_environment(rt: HostRuntime) -> Result<(), Fail> {
    for (text, wanted) in [
        ("requests[socks]>=2.8.1 ; python_version < '3.13'", true),
        ("requests[socks]>=2.8.1 ; python_version < '3.11'", false),
    ] {
        assert_eq!(rt; applies_by_tree(rt.alloc(), text)?, wanted);
        assert_eq!(rt; applies(rt.alloc(), text)?, wanted);
    }
    Ok(())
}

#[test]
fn candidates_are_judged_while_they_are_read(rt: HostRuntime) -> Result<(), Fail> {
    let lines = "foo>=1\nfoo<2\nbar ; os_name == 'nt'";
    let text = judged(rt.alloc(), lines, "foo 1.0\nbar 1\nfoo 1.5\nfoo 2.0")?;
    assert_eq!(rt; text.as_str(), "foo 1.5\n");
    Ok(())
}
