//! Whether markers hold in environments, with the warnings of their evaluation.

ghost use Rattle.pep508_tree.specs.Meaning.{IsTree};

use crate::environment::environment;
use crate::noted::Noted;
use crate::question::{extras_from, text_at};
use crate::reading::read;
use crate::stop::{Told, answered, both, said, truth};
use crate::warnings::{Warnings, push_warning};
use pep508_environment::MarkerEnvironment;
use pep508_evaluation::MarkerTreeEvaluation;
use pep508_marker::{ClosureReporter, MarkerWarningKind, Silent};
use pep508_name::ExtraName;
use pep508_tracing_reporter::TracingReporter;
use pep508_tree::{Interner, MarkerTree};
use serde_json::Value;
use std::alloc::{AllocError, Global};

/// The environment and extras for which a marker is evaluated.
#[derive(Drop)]
pub struct Place<'a> {
    pub environment: &'a MarkerEnvironment,
    pub extras: &'a [ExtraName],
}

/// Answers a question on a marker in an environment with extras, which are at the fourth place and after
/// it.
pub fn evaluated(
    alloc: Global,
    answer: &mut String,
    interner: &mut Interner,
    environments: &str,
    question: &Value,
) -> Told {
    let environment = environment(alloc, answer, environments, text_at(question, 2))?;
    evaluated_in(alloc, answer, interner, &environment, question)
}

fn evaluated_in(
    alloc: Global,
    answer: &mut String,
    interner: &mut Interner,
    environment: &MarkerEnvironment,
    question: &Value,
) -> Told {
    let extras = extras_from(alloc, question, 3)?;
    let place = Place {
        environment,
        extras: &extras,
    };
    evaluated_at(alloc, answer, interner, &place, question)
}

fn evaluated_at(
    alloc: Global,
    answer: &mut String,
    interner: &mut Interner,
    place: &Place,
    question: &Value,
) -> Told {
    let tree = read(alloc, answer, interner, text_at(question, 1))?;
    match text_at(question, 0) {
        "evaluate" => told(alloc, answer, interner, tree, place),
        "collected" => collected(alloc, answer, interner, tree, place),
        "called" => called(alloc, answer, interner, tree, place),
        "silent" => silent(alloc, answer, interner, tree, place),
        _ => logged(alloc, answer, interner, tree, place),
    }
}

/// Answers whether a marker holds, with the warnings that are reported to a reporter of this program's own.
fn told(
    alloc: Global,
    answer: &mut String,
    interner: &Interner,
    tree: MarkerTree,
    place: &Place,
) -> Told
    requires { IsTree interner.now.nodes tree }
{
    let mut warnings = Warnings::new(alloc);
    let (environment, extras) = (place.environment, place.extras);
    let holds = tree.evaluate_reporter(alloc, interner, environment, extras, &mut warnings)?;
    both(
        answer,
        one_answer(alloc, interner, tree, place, holds)?,
        &warnings.text,
    )
}

/// Returns the answer of each call, where all are the same.
fn one_answer(
    alloc: Global,
    interner: &Interner,
    tree: MarkerTree,
    place: &Place,
    holds: bool,
) -> Result<&'static str, AllocError>
    requires { IsTree interner.now.nodes tree }
{
    let (environment, extras) = (place.environment, place.extras);
    let alone = tree.evaluate(interner, environment, extras);
    let there = tree.evaluate_optional_environment(alloc, interner, Some(environment), extras)?;
    if holds == alone && holds == there {
        Ok(word(holds))
    } else {
        Ok("two answers")
    }
}

fn word(holds: bool) -> &'static str {
    if holds { "true" } else { "false" }
}

/// Answers whether a marker holds, with the warnings that are collected.
fn collected(
    alloc: Global,
    answer: &mut String,
    interner: &Interner,
    tree: MarkerTree,
    place: &Place,
) -> Told
    requires { IsTree interner.now.nodes tree }
{
    let (environment, extras) = (place.environment, place.extras);
    let (holds, warnings) = tree.evaluate_collect_warnings(alloc, interner, environment, extras)?;
    answered(listed(answer, holds, &warnings))
}

fn listed(
    answer: &mut String,
    holds: bool,
    warnings: &[(MarkerWarningKind, String)],
) -> Result<(), AllocError> {
    answer.push_str(word(holds))?;
    for (kind, warning) in warnings.iter() {
        push_warning(answer, *kind, warning)?;
    }
    Ok(())
}

/// Answers whether a marker holds, with the warnings that a closure is called with.
fn called(
    alloc: Global,
    answer: &mut String,
    interner: &Interner,
    tree: MarkerTree,
    place: &Place,
) -> Told
    requires { IsTree interner.now.nodes tree }
{
    let mut text = String::new(alloc);
    let holds = called_with(alloc, &mut text, interner, tree, place)?;
    both(answer, word(holds), &text)
}

fn called_with(
    alloc: Global,
    text: &mut String,
    interner: &Interner,
    tree: MarkerTree,
    place: &Place,
) -> Result<bool, AllocError>
    requires { IsTree interner.now.nodes tree }
{
    let mut reporter = ClosureReporter::new(|kind: MarkerWarningKind, warning: String| {
        push_warning(text, kind, warning.as_str())
    });
    let (environment, extras) = (place.environment, place.extras);
    tree.evaluate_reporter(alloc, interner, environment, extras, &mut reporter)
}

/// Answers whether a marker holds, with the records of a log that the warnings are passed to.
fn logged(
    alloc: Global,
    answer: &mut String,
    interner: &Interner,
    tree: MarkerTree,
    place: &Place,
) -> Told
    requires { IsTree interner.now.nodes tree }
{
    let log = Noted::new(alloc);
    let mut reporter = TracingReporter::new(&log);
    let (environment, extras) = (place.environment, place.extras);
    let holds = tree.evaluate_reporter(alloc, interner, environment, extras, &mut reporter)?;
    log.tell(answer, word(holds))
}

/// Answers whether a marker holds, with a reporter that wants no warning.
fn silent(
    alloc: Global,
    answer: &mut String,
    interner: &Interner,
    tree: MarkerTree,
    place: &Place,
) -> Told
    requires { IsTree interner.now.nodes tree }
{
    let (environment, extras) = (place.environment, place.extras);
    let holds = tree.evaluate_reporter(alloc, interner, environment, extras, &mut Silent)?;
    truth(answer, holds)
}

/// Answers whether some environment with just these extras makes a marker hold.
pub fn anywhere(
    alloc: Global,
    answer: &mut String,
    interner: &mut Interner,
    text: &str,
    extras: &[ExtraName],
) -> Told {
    let tree = read(alloc, answer, interner, text)?;
    let holds = tree.evaluate_extras(alloc, interner, extras)?;
    if holds != tree.evaluate_optional_environment(alloc, interner, None, extras)?
        || holds != tree.evaluate_extras_and_python_version(alloc, interner, extras, &[])?
    {
        return said(answer, "two answers");
    }
    truth(answer, holds)
}
