//! A table taken apart, each field by its name: it has what it needs of its requirements, and each line once.

use crate::kept::TableLine;
use crate::table::{Case, Package, Table};
use pep508_tree::Interner;
use pep508_url::Vars;
use reqtable_requirements::Requirements;
use std::alloc::{AllocError, Global};
use std::fmt::Write;
use std::test::Fail;

/// Appends a line's number, how many extras it has, whether it always applies, the number of its marker,
/// whether it has a URL, whether a `<` or `>`, and how many specifiers.
fn push_line(text: &mut String, line: TableLine) -> Result<(), AllocError> {
    let TableLine {
        number,
        extras,
        marker,
        slot,
        is_url,
        is_bounded,
        specifiers,
    } = line;
    let always = marker.is_true();
    let (extras, members) = (extras.len(), specifiers.specifiers().as_slice().len());
    write!(
        text,
        "; {number} {extras} {always} {slot} {is_url} {is_bounded} {members}"
    )?;
    Ok(())
}

/// Appends the numbers of a case's lines, whether the case always is, and whether a specifier names a
/// pre-release.
fn push_case(alloc: Global, text: &mut String, case: Case) -> Result<(), AllocError> {
    let lines = case.lines(alloc)?;
    let Case {
        set: _,
        numbers: _,
        tree,
        pre,
    } = case;
    let always = tree.is_true();
    write!(text, "; {lines:?} {always} {pre}")?;
    Ok(())
}

fn push_package(alloc: Global, text: &mut String, package: Package) -> Result<(), AllocError> {
    let Package { name, cases, lines } = package;
    write!(text, "{name}")?;
    for case in cases {
        push_case(alloc, text, case)?;
    }
    for line in lines {
        push_line(text, line)?;
    }
    text.push('\n')
}

/// The packages of a table with their cases and lines, and the number of distinct markers.
fn shown(alloc: Global, table: Table) -> Result<String, AllocError> {
    let Table { packages, slots } = table;
    let mut text = String::new(alloc);
    for package in packages {
        push_package(alloc, &mut text, package)?;
    }
    write!(&mut text, "{slots}")?;
    Ok(text)
}

fn built(alloc: Global, lines: &str) -> Result<String, AllocError> {
    let vars = Vars::new(alloc, &[], "/w")?;
    let mut interner = Interner::new(alloc);
    let Ok(read) = Requirements::parse(alloc, lines.as_bytes(), &mut interner, &vars) else {
        return String::from_str(alloc, "refused");
    };
    match Table::build(alloc, read, &mut interner, 8) {
        Ok(table) => shown(alloc, table),
        Err(_) => String::from_str(alloc, "refused"),
    }
}

#[test]
fn a_table_keeps_each_line_once(rt: HostRuntime) -> Result<(), Fail> {
    let lines = "foo[a,b]>1a1,!=2 ; os_name == 'nt'\nbar @ ./c\nfoo==2 ; os_name != 'nt'";
    let want = "bar; [2] true false; 2 0 true 0 true false 0\n\
        foo; [1] false true; [3] false false; 1 2 false 1 false true 2; 3 0 false 1 false false 1\n2";
    assert_eq!(rt; built(rt.alloc(), lines)?.as_str(), want);
    Ok(())
}
