//! The answers. Each is appended to one text, so that no function below owns one.

use crate::asked::asked as asked_of;
use crate::environment::environment;
use crate::evaluations::{anywhere, evaluated};
use crate::kept::keeps;
use crate::made::Call;
use crate::pairs::{one_key, pair};
use crate::question::{extras_from, text_at};
use crate::reading::{expression, marker, unwarned, unwarned_expression};
use crate::simplified::{present, within};
use crate::stop::{Stop, Told, said};
use crate::texts::{clause_count, clauses, text_after, text_in, top_extra};
use crate::views::view;
use crate::{comparisons, members, shown};
use pep508_tree::Interner;
use serde_json::Value;
use std::alloc::{AllocError, Global};

/// Returns the answer to a question; `no question` for another form.
pub fn answer(alloc: Global, environments: &str, question: &str) -> Result<String, AllocError> {
    let mut answer = String::new(alloc);
    told(alloc, &mut answer, environments, question)?;
    Ok(answer)
}

fn told(
    alloc: Global,
    answer: &mut String,
    environments: &str,
    question: &str,
) -> Result<(), AllocError> {
    match Value::from_str(alloc, question) {
        Ok(question) => on_markers(alloc, answer, environments, &question),
        Err(error) if error.is_memory() => Err(AllocError),
        Err(_) => answer.push_str("no question"),
    }
}

fn on_markers(
    alloc: Global,
    answer: &mut String,
    environments: &str,
    question: &Value,
) -> Result<(), AllocError> {
    let mut interner = Interner::new(alloc);
    match on_many(alloc, answer, &mut interner, environments, question) {
        Ok(()) | Err(Stop::Told) => Ok(()),
        Err(Stop::Memory) => Err(AllocError),
    }
}

/// Answers a question on more than texts alone, or one of another kind.
fn on_many(
    alloc: Global,
    answer: &mut String,
    interner: &mut Interner,
    environments: &str,
    question: &Value,
) -> Told {
    let text = text_at(question, 1);
    match text_at(question, 0) {
        "evaluate" | "collected" | "called" | "logged" | "silent" => {
            evaluated(alloc, answer, interner, environments, question)
        }
        "extras" => on_extras(alloc, answer, interner, question),
        "present" => on_present(alloc, answer, interner, question),
        "keeps" => on_kept(alloc, answer, interner, environments, question),
        "from value" => {
            let other = text_at(question, 2);
            shown::from_value(alloc, answer, interner, question.get(1), other)
        }
        "key of" => members::key(alloc, answer, environments, text, text_at(question, 2)),
        "member" => members::member(alloc, answer, environments, text, text_at(question, 2)),
        "with" => members::with(alloc, answer, environments, question),
        "built" => members::built(alloc, answer, question),
        _ => on_two(alloc, answer, interner, question),
    }
}

/// Answers a question on two texts.
fn on_two(alloc: Global, answer: &mut String, interner: &mut Interner, question: &Value) -> Told {
    let (asked, text, other) = (
        text_at(question, 0),
        text_at(question, 1),
        text_at(question, 2),
    );
    match asked {
        "same" | "disjoint" | "negation" => pair(alloc, answer, interner, asked, text, other),
        "one key" => one_key(alloc, answer, interner, text, other),
        "unwarned" => unwarned(alloc, answer, interner, text, other),
        "text after" => text_after(alloc, answer, interner, text, other),
        "order" => shown::order(alloc, answer, interner, text, other),
        "side" => comparisons::side(alloc, answer, text, other),
        "bounds" => comparisons::bounds(answer, text, other),
        "comparison" => {
            let value = text_at(question, 3);
            comparisons::comparison(alloc, answer, interner, text, other, value)
        }
        "simplified" | "complexified" => {
            let bounds = (text_at(question, 3), text_at(question, 4));
            within(alloc, answer, interner, asked, (text, other), bounds)
        }
        _ => on_one(alloc, answer, interner, asked, text),
    }
}

/// Answers a question on one text.
fn on_one(
    alloc: Global,
    answer: &mut String,
    interner: &mut Interner,
    asked: &str,
    text: &str,
) -> Told {
    match asked {
        "marker" => marker(alloc, answer, interner, text),
        "expression" => expression(alloc, answer, text),
        "unwarned expression" => unwarned_expression(alloc, answer, text),
        "view" => view(alloc, answer, interner, text),
        "text" => text_in(alloc, answer, interner, text),
        "top extra" => top_extra(alloc, answer, interner, text),
        "asked" => asked_of(alloc, answer, interner, text),
        "clauses" => clauses(alloc, answer, interner, text),
        "clause count" => clause_count(alloc, answer, interner, text),
        "print" => shown::print(alloc, answer, interner, text),
        "print in part" => shown::print_in_part(alloc, answer, interner, text),
        "value" => shown::value(alloc, answer, interner, text),
        "contents" => shown::contents(alloc, answer, interner, text),
        "operator" => comparisons::operator(alloc, answer, text),
        "key" => comparisons::key(alloc, answer, text),
        "version" => members::version(alloc, answer, text),
        "environment value" => members::environment_value(alloc, answer, text),
        _ => said(answer, "no question"),
    }
}

fn on_extras(
    alloc: Global,
    answer: &mut String,
    interner: &mut Interner,
    question: &Value,
) -> Told {
    let extras = extras_from(alloc, question, 2)?;
    anywhere(alloc, answer, interner, text_at(question, 1), &extras)
}

fn on_present(
    alloc: Global,
    answer: &mut String,
    interner: &mut Interner,
    question: &Value,
) -> Told {
    let extras = extras_from(alloc, question, 3)?;
    let (text, other) = (text_at(question, 1), text_at(question, 2));
    present(alloc, answer, interner, text, other, &extras)
}

fn on_kept(
    alloc: Global,
    answer: &mut String,
    interner: &mut Interner,
    environments: &str,
    question: &Value,
) -> Told {
    let call = Call {
        left: text_at(question, 1),
        right: text_at(question, 2),
        made: text_at(question, 3),
        given: text_at(question, 5),
        upper: text_at(question, 6),
    };
    let environment = environment(alloc, answer, environments, text_at(question, 4))?;
    keeps(alloc, answer, interner, &environment, &call)
}
