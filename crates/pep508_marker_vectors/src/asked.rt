//! Answers on the kinds of questions in markers.

use crate::reading::read;
use crate::stop::{Told, said};
use pep508_questions::{Asked, MarkerTreeQuestions};
use pep508_tree::Interner;
use std::alloc::Global;

/// Answers with the kinds of the questions of a marker's tree.
pub fn asked(alloc: Global, answer: &mut String, interner: &mut Interner, text: &str) -> Told {
    let tree = read(alloc, answer, interner, text)?;
    let asked = tree.asked(alloc, interner)?;
    said(answer, words(asked))
}

fn words(asked: Asked) -> &'static str {
    match (asked.single_quote, asked.deprecated_key, asked.other_bound) {
        (false, false, false) => "none",
        (true, false, false) => "quote",
        (false, true, false) => "old",
        (false, false, true) => "bound",
        (true, true, false) => "quote old",
        (true, false, true) => "quote bound",
        (false, true, true) => "old bound",
        (true, true, true) => "quote old bound",
    }
}
