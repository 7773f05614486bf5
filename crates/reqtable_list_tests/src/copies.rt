//! Copies of lists, of their parts and of an answer equal the originals.

use crate::lists::{answer_of, lists_of};
use reqtable_answer::{Answer, Row};
use reqtable_candidates::{Candidate, Candidates};
use reqtable_packages::package_names;
use reqtable_requirements::{Line, Requirements, copied_packages};
use std::alloc::{AllocError, Global};
use std::test::Fail;

fn is_line_copied(alloc: Global, line: &Line) -> Result<bool, AllocError> {
    Ok(line.try_clone(alloc)? == *line)
}

fn is_candidate_copied(alloc: Global, candidate: &Candidate) -> Result<bool, AllocError> {
    Ok(candidate.try_clone(alloc)? == *candidate)
}

fn is_row_copied(alloc: Global, row: &Row) -> Result<bool, AllocError> {
    Ok(row.try_clone(alloc)? == *row)
}

/// Whether lists and their parts equal their copies.
fn are_lists_copied(
    alloc: Global,
    read: &Requirements,
    candidates: &Candidates,
) -> Result<bool, AllocError> {
    for line in read.lines() {
        if !is_line_copied(alloc, line)? {
            return Ok(false);
        }
    }
    for candidate in candidates.items() {
        if !is_candidate_copied(alloc, candidate)? {
            return Ok(false);
        }
    }
    let names = package_names(alloc, &[read.lines()])?;
    let copy = copied_packages(alloc, read, &names)?;
    Ok(copy == *read && candidates.try_clone(alloc)? == *candidates)
}

/// Whether an answer and each of its rows equal their copies.
fn is_answer_copied(alloc: Global, answer: &Answer) -> Result<bool, AllocError> {
    for row in &answer.rows {
        if !is_row_copied(alloc, row)? {
            return Ok(false);
        }
    }
    Ok(answer.try_clone(alloc)? == *answer)
}

fn are_copied(alloc: Global, lines: &str, candidates: &str) -> Result<bool, AllocError> {
    let (read, candidates) = lists_of(alloc, lines, candidates)?;
    let answer = answer_of(alloc, &read, &candidates)?;
    Ok(are_lists_copied(alloc, &read, &candidates)? && is_answer_copied(alloc, &answer)?)
}

#[test]
fn copies_equal_what_they_are_of(rt: HostRuntime) -> Result<(), Fail> {
    let lines = "foo[b,a]>=1.0a1 ; os_name == 'x'\nbar @ ./c\nbaz>=0.dev1\n";
    assert!(rt; are_copied(rt.alloc(), lines, "foo 1.0.0\nfoo 2\nbaz 1\n")?);
    Ok(())
}

#[test]
fn requirements_are_made_of_their_lines(rt: HostRuntime) -> Result<(), Fail> {
    let lines = "foo[b,a]>=1.0a1 ; os_name == 'x'\nbar @ ./c\n";
    let (read, _) = lists_of(rt.alloc(), lines, "foo 1")?;
    let (again, _) = lists_of(rt.alloc(), lines, "foo 1")?;
    assert!(rt; Requirements::from_lines(read.into_lines()) == again);
    Ok(())
}
