//! What tables and interners count: conjunctions, of which a table makes none, since cases come from one
//! diagram; and nodes.

use pep508_marker::Silent;
use pep508_marker_parser::{parse_formula, tree_of};
use pep508_name::PackageName;
use pep508_tree::Interner;
use pep508_url::{Vars, VerbatimUrl};
use reqtable_requirements::Requirements;
use reqtable_requirements::laws::lines_that_were_read_are_of_the_nodes;
use reqtable_table::{Table, TableError};
use std::alloc::{AllocError, Global};
use std::fmt::Write;
use std::test::Fail;

/// `lines` lines of one package, with the markers `key == 'a01'`, `key == 'a02'` and so on.
fn lines_of(alloc: Global, lines: u32, key: &str) -> Result<String, AllocError> {
    let mut text = String::new(alloc);
    for number in 0..lines {
        writeln!(text, "foo ; {key} == 'a{number:02}'")?;
    }
    Ok(text)
}

/// The number of cases in a table of these lines, or why there is none; and the conjunctions counted for it.
fn counted(alloc: Global, lines: &str, limit: u64) -> Result<String, AllocError> {
    let vars = Vars::new(alloc, &[], "/w")?;
    let mut interner = Interner::new(alloc);
    lines_that_were_read_are_of_the_nodes();
    let Ok(read) = Requirements::parse(alloc, lines.as_bytes(), &mut interner, &vars) else {
        return String::from_str(alloc, "refused");
    };
    match Table::build(alloc, read, &mut interner, limit) {
        Ok(table) => cases_told(alloc, &table, interner.conjunctions()),
        Err(TableError::TooManyCases { package }) => {
            let count = interner.conjunctions();
            format!(in alloc; "too many: {package}, {count}")
        }
        Err(TableError::TooManyCasesInAll | TableError::Memory) => Err(AllocError),
    }
}

fn cases_told(alloc: Global, table: &Table, count: u64) -> Result<String, AllocError> {
    let name = PackageName::from_str(alloc, "foo").or(Err(AllocError))?;
    let cases = table.cases(&name).unwrap_or(&[]).len();
    format!(in alloc; "{cases} cases, {count}")
}

fn counted_of(alloc: Global, lines: u32, key: &str, limit: u64) -> Result<String, AllocError> {
    let text = lines_of(alloc, lines, key)?;
    counted(alloc, &text, limit)
}

// By `2 * lines * limit` there may be 840, 98,304, 106,496 and 327,680.
#[test]
fn a_table_counts_no_conjunction(rt: HostRuntime) -> Result<(), Fail> {
    for (lines, key, limit, wanted) in [
        (20, "os_name", 21, "21 cases, 0"),
        (20, "os_name", 20, "too many: foo, 0"),
        (12, "extra", 4096, "4096 cases, 0"),
        (13, "extra", 4096, "too many: foo, 0"),
        (40, "extra", 4096, "too many: foo, 0"),
    ] {
        assert_eq!(rt; counted_of(rt.alloc(), lines, key, limit)?.as_str(), wanted);
    }
    Ok(())
}

/// Whether the tree of a marker with two comparisons is made in an interner of at most so many nodes, and how
/// many nodes there are then.
fn made_within(alloc: Global, most: usize) -> Result<(bool, usize), AllocError> {
    let text = "os_name == 'a' and sys_platform == 'b'";
    let read = parse_formula::<VerbatimUrl, Silent>(alloc, text, &mut Silent);
    let formula = read.or(Err(AllocError))?;
    let mut interner = Interner::with_most(alloc, most);
    let is_made = tree_of(alloc, &mut interner, &formula).is_ok();
    Ok((is_made, interner.node_count()))
}

// A node for each comparison, and one for both. By the third a caller knows that two didn't suffice.
#[test]
fn an_interner_stops_one_node_past_its_most(rt: HostRuntime) -> Result<(), Fail> {
    for (most, wanted) in [
        (0, (false, 1)),
        (1, (false, 2)),
        (2, (true, 3)),
        (3, (true, 3)),
        (4, (true, 3)),
    ] {
        assert_eq!(rt; made_within(rt.alloc(), most)?, wanted);
    }
    Ok(())
}
