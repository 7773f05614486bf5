//! Tables, and candidates in their order.

ghost use Rattle.std.specs.List.{AllByRecursion};
ghost use Rattle.reqtable_table.specs.Cases.{HasItsCases};

use pep440_version::Version;
use pep508_environment::{MarkerEnvironment, MarkerEnvironmentBuilder};
use pep508_name::PackageName;
use pep508_tree::Interner;
use pep508_url::Vars;
use reqtable_answer::Admission;
use reqtable_candidates::{Candidates, Ordered, Placed};
use reqtable_requirements::Requirements;
use reqtable_requirements::laws::lines_that_were_read_are_of_the_nodes;
use reqtable_table::lent::package_count;
use reqtable_table::{Case, Table, TableError};
use reqtable_table_laws::what_is_told_lasts;
use std::alloc::{AllocError, Global};
use std::fmt::Write;
use std::test::Fail;

/// The environment of CPython 3.11.4 on Linux.
pub fn environment(alloc: Global) -> Result<MarkerEnvironment, AllocError> {
    let builder = MarkerEnvironmentBuilder {
        implementation_name: "cpython",
        implementation_version: "3.11.4",
        os_name: "posix",
        platform_machine: "x86_64",
        platform_python_implementation: "CPython",
        platform_release: "5.4",
        platform_system: "Linux",
        platform_version: "#1",
        python_full_version: "3.11.4",
        python_version: "3.11",
        sys_platform: "linux",
    };
    MarkerEnvironment::try_from(alloc, builder).or(Err(AllocError))
}

/// The text of a table's answer, and how many specifiers were tested for it.
fn answered(alloc: Global, lines: &str, candidates: &str) -> Result<String, AllocError> {
    let vars = Vars::new(alloc, &[], "/w")?;
    let mut interner = Interner::new(alloc);
    lines_that_were_read_are_of_the_nodes();
    let Ok(read) = Requirements::parse(alloc, lines.as_bytes(), &mut interner, &vars) else {
        return String::from_str(alloc, "refused");
    };
    match Table::build(alloc, read, &mut interner, 8) {
        Ok(table) => asked(alloc, table, &interner, candidates),
        Err(_) => String::from_str(alloc, "refused"),
    }
}

fn asked(
    alloc: Global,
    table: Table,
    interner: &Interner,
    candidates: &str,
) -> Result<String, AllocError>
    requires { AllByRecursion (HasItsCases interner.now.nodes) table }
{
    let mut table = table;
    let candidates = Candidates::parse(alloc, candidates.as_bytes()).or(Err(AllocError))?;
    let environment = environment(alloc)?;
    answered_by(alloc, &mut table, interner, &environment, &candidates)
}

fn answered_by(
    alloc: Global,
    table: &mut Table,
    interner: &Interner,
    environment: &MarkerEnvironment,
    candidates: &Candidates,
) -> Result<String, AllocError>
    requires { AllByRecursion (HasItsCases interner.now.nodes) table.old }
{
    let admission = Admission::new(|_: &Version, _: bool| true);
    let answer = table.answer(alloc, interner, environment, &[], candidates, &admission)?;
    let text = answer.text(alloc, candidates)?;
    let tests = table.tests();
    format!(in alloc; "{text}{tests}")
}

#[test]
fn only_candidates_that_are_not_plain_are_asked(rt: HostRuntime) -> Result<(), Fail> {
    for (lines, candidates, want) in [
        ("foo>=1\nfoo<2", "foo 1.0\nfoo 1.5\nfoo 2.0", "foo 1.5\n0"),
        ("foo==1.0", "foo 1.0\nfoo 1.0+x", "foo 1.0+x\n1"),
        ("foo===1.0", "foo 1.0.0\nfoo 1.0", "foo 1.0\n2"),
        ("foo @ ./c\nfoo>=1", "foo 1.0", "foo direct\n0"),
        ("foo>1.0a1", "foo 1.0a2.post1", "foo none\n1"),
        ("foo ; os_name == 'nt'", "foo 1.0", "0"),
    ] {
        assert_eq!(rt; answered(rt.alloc(), lines, candidates)?.as_str(), want);
    }
    Ok(())
}

/// How many specifiers were tested after one answer, and after a second among the same candidates.
fn tests_of_two(
    alloc: Global,
    table: &mut Table,
    interner: &Interner,
    candidates: &str,
) -> Result<String, AllocError>
    requires { AllByRecursion (HasItsCases interner.now.nodes) table.old }
{
    let candidates = Candidates::parse(alloc, candidates.as_bytes()).or(Err(AllocError))?;
    let environment = environment(alloc)?;
    let admission = Admission::new(|_: &Version, _: bool| true);
    what_is_told_lasts(&admission);
    let ordered = candidates.in_order(alloc)?;
    let mut runs = table.runs(alloc, &ordered)?;
    let _ = table.answer_among(alloc, interner, &environment, &[], &mut runs, &admission)?;
    let once = table.tests();
    let _ = table.answer_among(alloc, interner, &environment, &[], &mut runs, &admission)?;
    let twice = table.tests();
    format!(in alloc; "{once} {twice}")
}

fn tested(alloc: Global, lines: &str, candidates: &str) -> Result<String, AllocError> {
    let vars = Vars::new(alloc, &[], "/w")?;
    let mut interner = Interner::new(alloc);
    lines_that_were_read_are_of_the_nodes();
    let Ok(read) = Requirements::parse(alloc, lines.as_bytes(), &mut interner, &vars) else {
        return String::from_str(alloc, "refused");
    };
    match Table::build(alloc, read, &mut interner, 8) {
        Ok(mut table) => tests_of_two(alloc, &mut table, &interner, candidates),
        Err(_) => String::from_str(alloc, "refused"),
    }
}

#[test]
fn what_is_taken_in_a_case_is_kept(rt: HostRuntime) -> Result<(), Fail> {
    for (lines, candidates, want) in [
        ("foo===1.0", "foo 1.0.0\nfoo 1.0", "2 2"),
        ("foo==1.0", "foo 1.0\nfoo 1.0+x", "1 1"),
    ] {
        assert_eq!(rt; tested(rt.alloc(), lines, candidates)?.as_str(), want);
    }
    Ok(())
}

/// The cases of a package by the numbers of their lines, each with whether one of its specifiers names a
/// pre-release; or why there is no table.
fn cases_shown(alloc: Global, lines: &str, name: &str, limit: u64) -> Result<String, AllocError> {
    let vars = Vars::new(alloc, &[], "/w")?;
    let mut interner = Interner::new(alloc);
    lines_that_were_read_are_of_the_nodes();
    let Ok(read) = Requirements::parse(alloc, lines.as_bytes(), &mut interner, &vars) else {
        return String::from_str(alloc, "refused");
    };
    match Table::build(alloc, read, &mut interner, limit) {
        Ok(table) => cases_of(alloc, &table, name),
        Err(TableError::TooManyCases { package }) => format!(in alloc; "too many: {package}"),
        Err(TableError::TooManyCasesInAll | TableError::Memory) => Err(AllocError),
    }
}

fn cases_of(alloc: Global, table: &Table, name: &str) -> Result<String, AllocError> {
    let name = PackageName::from_str(alloc, name).or(Err(AllocError))?;
    let mut text = String::new(alloc);
    push_cases(alloc, &mut text, table.cases(&name).unwrap_or(&[]))?;
    Ok(text)
}

fn push_cases(alloc: Global, text: &mut String, cases: &[Case]) -> Result<(), AllocError> {
    for case in cases {
        let pre = if case.pre { " pre " } else { "" };
        write!(text, "{:?}{pre}", case.lines(alloc)?)?;
    }
    Ok(())
}

#[test]
fn cases_stand_by_their_lines(rt: HostRuntime) -> Result<(), Fail> {
    let lines = "foo>1a1 ; os_name == 'nt'\nbar\nfoo ; os_name == 'posix'";
    for (name, limit, want) in [
        ("foo", 3, "[1] pre [3][]"),
        ("other", 3, ""),
        ("foo", 2, "too many: foo"),
    ] {
        assert_eq!(rt; cases_shown(rt.alloc(), lines, name, limit)?.as_str(), want);
    }
    Ok(())
}

/// The number of packages of a table with no more than `in_all` cases together, or why there is none.
fn built_within(alloc: Global, lines: &str, limit: u64, in_all: u64) -> Result<String, AllocError> {
    let vars = Vars::new(alloc, &[], "/w")?;
    let mut interner = Interner::new(alloc);
    lines_that_were_read_are_of_the_nodes();
    let Ok(read) = Requirements::parse(alloc, lines.as_bytes(), &mut interner, &vars) else {
        return String::from_str(alloc, "refused");
    };
    match Table::build_within(alloc, read, &mut interner, limit, in_all) {
        Ok(table) => {
            let packages = package_count(&table);
            format!(in alloc; "{packages} packages")
        }
        Err(TableError::TooManyCases { package }) => format!(in alloc; "too many: {package}"),
        Err(TableError::TooManyCasesInAll) => String::from_str(alloc, "too many in all"),
        Err(TableError::Memory) => Err(AllocError),
    }
}

// There are two cases of bar, and three of foo.
#[test]
fn cases_are_bounded_together(rt: HostRuntime) -> Result<(), Fail> {
    let lines = "bar ; os_name == 'nt'\nfoo ; os_name == 'nt'\nfoo ; os_name == 'posix'";
    for (limit, in_all, want) in [
        (3, 5, "2 packages"),
        (3, u64::MAX, "2 packages"),
        (3, 4, "too many in all"),
        (2, 5, "too many: foo"),
        (2, 4, "too many: foo"),
        (2, 3, "too many in all"),
        (1, 5, "too many: bar"),
        (1, 0, "too many in all"),
        (0, 0, "too many: bar"),
    ] {
        assert_eq!(rt;
            built_within(rt.alloc(), lines, limit, in_all)?.as_str(),
            want
        );
    }
    assert_eq!(rt; built_within(rt.alloc(), "", 0, 0)?.as_str(), "0 packages");
    Ok(())
}

/// The cases of a package by the numbers of their lines, each with whether its range has version 1.5: `+` or
/// `-`, `0` for an empty range, or `?` for a case without a range.
fn ranges_of(alloc: Global, table: &Table, name: &str) -> Result<String, AllocError> {
    let name = PackageName::from_str(alloc, name).or(Err(AllocError))?;
    let version = Version::from_str(alloc, "1.5").or(Err(AllocError))?;
    let mut text = String::new(alloc);
    for case in table.cases(&name).unwrap_or(&[]) {
        let sign = match table.range(alloc, &name, case)? {
            Some(range) if range.is_empty() => "0",
            Some(range) => sign_of(range.contains(&version)),
            None => "?",
        };
        write!(text, "{:?}{sign}", case.lines(alloc)?)?;
    }
    Ok(text)
}

fn sign_of(has: bool) -> &'static str {
    if has { "+" } else { "-" }
}

fn ranges_shown(alloc: Global, lines: &str, name: &str) -> Result<String, AllocError> {
    let vars = Vars::new(alloc, &[], "/w")?;
    let mut interner = Interner::new(alloc);
    lines_that_were_read_are_of_the_nodes();
    let Ok(read) = Requirements::parse(alloc, lines.as_bytes(), &mut interner, &vars) else {
        return String::from_str(alloc, "refused");
    };
    match Table::build(alloc, read, &mut interner, 8) {
        Ok(table) => ranges_of(alloc, &table, name),
        Err(_) => String::from_str(alloc, "refused"),
    }
}

#[test]
fn a_case_has_the_range_of_its_lines(rt: HostRuntime) -> Result<(), Fail> {
    for (lines, want) in [
        (
            "foo>1 ; os_name == 'a'\nbar<1\nfoo!=1.5 ; os_name == 'b'",
            "[1]+[3]-[]+",
        ),
        ("foo===1.5\nfoo<1 ; os_name == 'a'", "[1, 2]?[1]?"),
        ("foo @ ./c ; os_name == 'a'\nfoo<2", "[1, 2]?[2]+"),
        ("foo>=2\nfoo<1", "[1, 2]0"),
        ("bar<1", ""),
    ] {
        assert_eq!(rt; ranges_shown(rt.alloc(), lines, "foo")?.as_str(), want);
    }
    Ok(())
}

/// Appends the indices of candidates.
fn push_places(text: &mut String, placed: &[Placed<'_>]) -> Result<(), AllocError> {
    for one in placed {
        let place = one.place;
        write!(text, " {place}")?;
    }
    Ok(())
}

/// Appends the number of candidates, their order, and the candidates of a package.
fn push_order(
    text: &mut String,
    ordered: &Ordered<'_>,
    name: &PackageName,
) -> Result<(), AllocError> {
    let count = ordered.candidates().items().len();
    write!(text, "{count}:")?;
    push_places(text, ordered.placed())?;
    text.push(':')?;
    push_places(text, ordered.run_of(name))
}

fn order_shown(alloc: Global, candidates: &str, name: &str) -> Result<String, AllocError> {
    let candidates = Candidates::parse(alloc, candidates.as_bytes()).or(Err(AllocError))?;
    let name = PackageName::from_str(alloc, name).or(Err(AllocError))?;
    let mut text = String::new(alloc);
    push_order(&mut text, &candidates.in_order(alloc)?, &name)?;
    Ok(text)
}

#[test]
fn candidates_stand_by_name_and_version(rt: HostRuntime) -> Result<(), Fail> {
    let candidates = "foo 1.0\nbar 3\nfoo 2.0\nfoo 1\nfoo 1.0+x";
    assert_eq!(rt;
        order_shown(rt.alloc(), candidates, "foo")?.as_str(),
        "5: 1 2 4 0 3: 2 4 0 3"
    );
    Ok(())
}
