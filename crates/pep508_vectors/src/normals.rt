//! Answers on the normal text of a list.

ghost use Rattle.reqtable_requirements.specs.Asks.{AreOfNodes};

use pep508_tree::Interner;
use pep508_url::Vars;
use reqtable_normal::{NormalError, normal, normal_within};
use reqtable_requirements::Requirements;
use std::alloc::{AllocError, Global};
use std::fmt::Write;

/// Returns the normal text of a list, with a `/` for the end of each line, or why it has none; `most` is the
/// bound on the clauses of each marker, and no number where there is none. An invalid list is returned as
/// running out of memory, which no question has.
pub fn normal_text(
    alloc: Global,
    vars: &Vars,
    lines: &str,
    most: &str,
) -> Result<String, AllocError> {
    let mut interner = Interner::new(alloc);
    let Ok(read) = Requirements::parse(alloc, lines.as_bytes(), &mut interner, vars) else {
        return Err(AllocError);
    };
    match made(alloc, &read, &interner, most) {
        Ok(text) => joined(alloc, &text),
        Err(NormalError::Memory) => Err(AllocError),
        Err(error) => format!(in alloc; "{error}"),
    }
}

fn made(
    alloc: Global,
    read: &Requirements,
    interner: &Interner,
    most: &str,
) -> Result<String, NormalError>
    requires { AreOfNodes interner.now.nodes read.now }
{
    match most.parse::<usize>() {
        Ok(most) => normal_within(alloc, read, interner, most),
        Err(_) => normal(alloc, read, interner),
    }
}

fn joined(alloc: Global, text: &str) -> Result<String, AllocError> {
    let mut answer = String::new(alloc);
    for line in text.lines() {
        write!(answer, "{line}/")?;
    }
    Ok(answer)
}
