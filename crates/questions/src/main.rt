#![tactic(auto)]
//! Answers the questions of `pep440_vectors`, `pep508_vectors` and `pep508_marker_vectors`, one a line. The
//! head of each of these crates lists its questions.
//!
//! The questions of a crate are in the file of its name; where there is no such file it is asked nothing.
//! `environments.txt` has the environments that questions on markers may name: a line each, its name, a tab
//! and its JSON value.

use pep508_url::Vars;
use std::{fs, io};

/// The variables that questions on requirements may refer to.
const PAIRS: [(&str, &str); 4] = [
    ("R", "/a"),
    ("HOST", "e.example"),
    ("EMPTY", ""),
    ("A_1", "${R}"),
];

fn main(rt: HostRuntime) -> io::Result<()> {
    on_versions(&rt)?;
    on_requirements(&rt)?;
    on_markers(&rt)
}

/// Prints each question on versions and specifiers with its answer.
fn on_versions(rt: &HostRuntime) -> io::Result<()> {
    let questions = text_of(rt, "pep440_vectors.jsonl")?;
    for question in questions.lines() {
        let answer = pep440_vectors::answer(rt.alloc(), question)?;
        println!(rt; "{question} {answer}")?;
    }
    Ok(())
}

/// Prints each question on names, URLs, requirements and tables with its answer.
fn on_requirements(rt: &HostRuntime) -> io::Result<()> {
    let questions = text_of(rt, "pep508_vectors.jsonl")?;
    if questions.is_empty() {
        return Ok(());
    }
    let vars = Vars::new(rt.alloc(), &PAIRS, "/")?;
    for question in questions.lines() {
        let answer = pep508_vectors::answer(rt.alloc(), &vars, question)?;
        println!(rt; "{question} {answer}")?;
    }
    Ok(())
}

/// Prints each question on markers with its answer.
fn on_markers(rt: &HostRuntime) -> io::Result<()> {
    let questions = text_of(rt, "pep508_marker_vectors.jsonl")?;
    if questions.is_empty() {
        return Ok(());
    }
    let environments = text_of(rt, "environments.txt")?;
    for question in questions.lines() {
        let answer = pep508_marker_vectors::answer(rt.alloc(), environments.as_str(), question)?;
        println!(rt; "{question} {answer}")?;
    }
    Ok(())
}

/// Returns the text of a file, which is empty where there is none.
fn text_of(rt: &HostRuntime, path: &str) -> io::Result<String> {
    match fs::read_to_string(rt, path) {
        Err(error) if error.kind() == io::ErrorKind::NotFound => Ok(String::new(rt.alloc())),
        read => read,
    }
}
