//! Answers on the texts and clauses of markers.

ghost use Rattle.pep508_tree.specs.Meaning.{IsTree};

use crate::reading::read;
use crate::stop::{Told, answered, put_or, said};
use pep508_marker::MarkerExpression;
use pep508_marker_display::{MarkerTreeText, has_more_clauses};
use pep508_tree::{Interner, MarkerTree};
use std::alloc::{AllocError, Global};
use std::fmt::Write;

/// Answers with the text of a marker's tree, read where another marker was read before.
pub fn text_after(
    alloc: Global,
    answer: &mut String,
    interner: &mut Interner,
    earlier: &str,
    text: &str,
) -> Told {
    read(alloc, answer, interner, earlier)?;
    text_in(alloc, answer, interner, text)
}

/// Answers with the text of a marker's tree.
pub fn text_in(alloc: Global, answer: &mut String, interner: &mut Interner, text: &str) -> Told {
    let tree = read(alloc, answer, interner, text)?;
    text_of(alloc, answer, interner, tree)
}

/// Answers with the text of a tree, `no text` where it has none.
pub fn text_of(alloc: Global, answer: &mut String, interner: &Interner, tree: MarkerTree) -> Told
    requires { IsTree interner.now.nodes tree }
{
    put_or(answer, tree.try_to_string(alloc, interner), "no text")
}

/// Answers with the extra that all clauses of a marker require.
pub fn top_extra(alloc: Global, answer: &mut String, interner: &mut Interner, text: &str) -> Told {
    let tree = read(alloc, answer, interner, text)?;
    put_or(answer, tree.top_level_extra(alloc, interner), "none")
}

/// Answers with the number of a marker's clauses before they are simplified; `many` where there are more
/// than 8.
pub fn clause_count(
    alloc: Global,
    answer: &mut String,
    interner: &mut Interner,
    text: &str,
) -> Told {
    let tree = read(alloc, answer, interner, text)?;
    for most in 0..9 {
        if !has_more_clauses(alloc, tree, interner, most)? {
            return answered(write!(answer, "{most}"));
        }
    }
    said(answer, "many")
}

/// Answers with the clauses of a marker, each in brackets.
pub fn clauses(alloc: Global, answer: &mut String, interner: &mut Interner, text: &str) -> Told {
    let tree = read(alloc, answer, interner, text)?;
    let clauses = tree.to_dnf(alloc, interner)?;
    answered(push_clauses(answer, &clauses))
}

fn push_clauses(answer: &mut String, clauses: &[Vec<MarkerExpression>]) -> Result<(), AllocError> {
    answer.push_str("clauses:")?;
    for clause in clauses.iter() {
        push_clause(answer, clause)?;
    }
    Ok(())
}

fn push_clause(answer: &mut String, clause: &[MarkerExpression]) -> Result<(), AllocError> {
    answer.push_str(" (")?;
    let mut mark = "";
    for term in clause.iter() {
        write!(answer, "{mark}{term}")?;
        mark = "; ";
    }
    answer.push(')')
}
