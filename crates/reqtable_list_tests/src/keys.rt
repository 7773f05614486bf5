//! Keys of lists: a caller that is proved from the public contracts and laws, on lists of which it was found by
//! hand whether they require the same.

ghost use Rattle.std.specs.Prelude.{◌↔◌, IsTrue, IfOk, List};
ghost use Rattle.std.specs.List.{AllZip};
ghost use Rattle.pep508_url.specs.Vars.{Variables};
ghost use Rattle.reqtable_requirements.specs.Asks.{AreOfNodes};
ghost use Rattle.reqtable_requirements.specs.LineReading.{LineRecord};
ghost use Rattle.reqtable_requirements.specs.Requirements.{StandsFor};
ghost use Rattle.reqtable_cases.specs.Requires.{RequireTheSame};

use pep508_tree::Interner;
use pep508_url::Vars;
use reqtable_compare::SameError;
use reqtable_key::key;
use reqtable_key::laws::one_key_of_lists;
use reqtable_requirements::Requirements;
use reqtable_requirements::laws::lines_that_were_read_are_of_the_nodes;
use std::alloc::{AllocError, Global};
use std::fmt::Write;
use std::test::Fail;

/// Whether two lists, each with an interner of its own, have one key.
fn have_one_key(
    alloc: Global,
    left: &Requirements,
    ours: &mut Interner,
    right: &Requirements,
    theirs: &mut Interner,
) -> Result<bool, SameError>
    requires left { AreOfNodes ours.old.nodes left.now }
    requires right { AreOfNodes theirs.old.nodes right.now }
    ensures { IfOk result (λ same. (vars : Variables) (said others : List LineRecord) →
        AllZip (StandsFor vars ours.old.nodes) left.now said →
        AllZip (StandsFor vars theirs.old.nodes) right.now others →
        IsTrue same ↔ RequireTheSame said others) }
{
    one_key_of_lists();
    let one = key(alloc, left, ours, 64, None)?;
    let other = key(alloc, right, theirs, 64, None)?;
    Ok(one == other)
}

/// `one` where two texts have one key, `two` where they don't, or what is wrong with the first that has none.
fn compared(alloc: Global, left: &str, right: &str) -> Result<String, AllocError> {
    let vars = Vars::new(alloc, &[], "/w")?;
    let mut ours = Interner::new(alloc);
    let mut theirs = Interner::new(alloc);
    lines_that_were_read_are_of_the_nodes();
    let Ok(left) = Requirements::parse(alloc, left.as_bytes(), &mut ours, &vars) else {
        return Err(AllocError);
    };
    let Ok(right) = Requirements::parse(alloc, right.as_bytes(), &mut theirs, &vars) else {
        return Err(AllocError);
    };
    let mut text = String::new(alloc);
    match have_one_key(alloc, &left, &mut ours, &right, &mut theirs) {
        Ok(true) => text.push_str("one")?,
        Ok(false) => text.push_str("two")?,
        Err(error) => write!(text, "{error}")?,
    }
    Ok(text)
}

#[test]
fn lists_that_require_the_same_have_one_key(rt: HostRuntime) -> Result<(), Fail> {
    let alloc = rt.alloc();
    assert_eq!(rt; compared(alloc, "", "")?.as_str(), "one");
    let both = "Foo<2.0\nfoo[b]>=1\nfoo[a] ; os_name == 'nt' and os_name != 'nt'\n";
    assert_eq!(rt; compared(alloc, "foo[b]>=1,<2\n", both)?.as_str(), "one");
    let parts = "foo>=1 ; os_name != 'nt'\nbar\nfoo>=1.0 ; os_name == 'nt'\n";
    assert_eq!(rt; compared(alloc, "bar\nfoo>=1\n", parts)?.as_str(), "one");
    let never = "foo<1 ; extra == 'a' and extra != 'a'\n";
    assert_eq!(rt; compared(alloc, never, "")?.as_str(), "one");
    Ok(())
}

#[test]
fn lists_that_require_other_things_have_two(rt: HostRuntime) -> Result<(), Fail> {
    let alloc = rt.alloc();
    assert_eq!(rt; compared(alloc, "foo\n", "bar\n")?.as_str(), "two");
    assert_eq!(rt; compared(alloc, "foo[a]\n", "foo[b]\n")?.as_str(), "two");
    assert_eq!(rt; compared(alloc, "foo>=1\n", "foo>1\n")?.as_str(), "two");
    assert_eq!(rt;
        compared(alloc, "foo>=1.0\n", "foo>=1.0,!=0.9.dev0\n")?.as_str(),
        "two"
    );
    assert_eq!(rt;
        compared(alloc, "foo\n", "foo ; os_name == 'nt'\n")?.as_str(),
        "two"
    );
    Ok(())
}

#[test]
fn a_list_that_same_refuses_has_no_key(rt: HostRuntime) -> Result<(), Fail> {
    let refused = compared(rt.alloc(), "foo\nbar===1\n", "")?;
    assert_eq!(rt; refused.as_str(), "left list: line 2: ===");
    Ok(())
}
