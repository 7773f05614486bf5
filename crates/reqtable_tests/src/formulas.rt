//! Markers, requirements and lists that are read without making trees.

use crate::tables::environment;
use pep440_version::Version;
use pep508_comparison_parser::parse_expression;
use pep508_environment::MarkerEnvironment;
use pep508_evaluation::MarkerTreeEvaluation;
use pep508_formula::{FormulaPart, MarkerFormula, Parts};
use pep508_formula_truth::holds_in;
use pep508_marker::{MarkerExpression, Silent};
use pep508_marker_parser::{parse_formula, tree_of};
use pep508_name::ExtraName;
use pep508_requirement::MarkedRequirement;
use pep508_tree::Interner;
use pep508_url::{Vars, VerbatimUrl};
use reqtable_answer::{Admission, answer_to, ask_of_marked};
use reqtable_candidates::Candidates;
use reqtable_requirements::laws::lines_that_were_read_are_of_the_nodes;
use reqtable_requirements::{MarkedLines, Requirements};
use std::alloc::{AllocError, Global};
use std::fmt::Write;
use std::test::Fail;

/// An extra. An invalid name is returned as running out of memory, which no test has; so are other texts
/// below.
fn extra(alloc: Global) -> Result<ExtraName, AllocError> {
    ExtraName::from_str(alloc, "a").or(Err(AllocError))
}

fn formula_of(alloc: Global, text: &str) -> Result<MarkerFormula, AllocError> {
    parse_formula::<VerbatimUrl, Silent>(alloc, text, &mut Silent).or(Err(AllocError))
}

fn holds_by_tree(
    alloc: Global,
    formula: &MarkerFormula,
    at: &MarkerEnvironment,
    extras: &[ExtraName],
) -> Result<bool, AllocError> {
    let mut interner = Interner::new(alloc);
    let tree = tree_of(alloc, &mut interner, formula)?;
    Ok(tree.evaluate(&interner, at, extras))
}

/// Whether a marker holds, by its formula and by the tree of that.
fn held(alloc: Global, text: &str) -> Result<(bool, bool), AllocError> {
    let at = environment(alloc)?;
    let extras = [extra(alloc)?];
    let formula = formula_of(alloc, text)?;
    let by_tree = holds_by_tree(alloc, &formula, &at, &extras)?;
    Ok((holds_in(alloc, &formula, &at, &extras)?, by_tree))
}

#[test]
fn a_formula_and_its_tree_hold_alike(rt: HostRuntime) -> Result<(), Fail> {
    for (text, wanted) in [
        (
            "sys_platform == 'linux' or sys_platform == 'x' and extra == 'b'",
            true,
        ),
        (
            "(sys_platform == 'linux' or sys_platform == 'x') and extra == 'b'",
            false,
        ),
        (
            "extra == 'a' and python_full_version >= '3.8' and extra != 'a'",
            false,
        ),
        ("'x' == 'y' and extra == 'b' or 'x' == 'y'", false),
        ("'x' == 'y'", true),
    ] {
        assert_eq!(rt; held(rt.alloc(), text)?, (wanted, wanted));
    }
    Ok(())
}

fn compared(alloc: Global, text: &str) -> Result<MarkerExpression, AllocError> {
    match parse_expression::<VerbatimUrl>(alloc, text) {
        Ok(Some(expression)) => Ok(expression),
        _ => Err(AllocError),
    }
}

/// `extra == 'a' and .. or extra == 'b'`, of which a comparison is left out.
fn built(alloc: Global) -> Result<MarkerFormula, AllocError> {
    let mut formula = MarkerFormula::new(alloc);
    formula.say(alloc, compared(alloc, "extra == 'a'")?)?;
    formula.leave_out()?;
    formula.and()?;
    formula.say(alloc, compared(alloc, "extra == 'b'")?)?;
    formula.or()?;
    Ok(formula)
}

fn push_part(text: &mut String, part: FormulaPart<'_>) -> Result<(), AllocError> {
    match part {
        FormulaPart::Says(expression) => write!(text, "{expression}, "),
        FormulaPart::LeftOut => text.push_str("nothing, "),
        FormulaPart::And => text.push_str("and, "),
        FormulaPart::Or => text.push_str("or"),
    }
}

fn shown(alloc: Global, formula: &MarkerFormula) -> Result<String, AllocError> {
    let mut text = String::new(alloc);
    let mut left: Parts<'_> = formula.parts();
    for _ in 0..u64::MAX {
        let Some((part, behind)) = left.split_first() else {
            break;
        };
        push_part(&mut text, part)?;
        left = behind;
    }
    Ok(text)
}

#[test]
fn a_formula_is_shown_in_postfix_order(rt: HostRuntime) -> Result<(), Fail> {
    let formula = built(rt.alloc())?;
    let text = shown(rt.alloc(), &formula)?;
    assert_eq!(rt;
        text.as_str(),
        "extra == 'a', nothing, and, extra == 'b', or"
    );
    Ok(())
}

fn marked(alloc: Global, vars: &Vars) -> Result<MarkedRequirement<VerbatimUrl>, AllocError> {
    let text = "foo>=1 ; sys_platform == 'linux' and extra == 'a'";
    MarkedRequirement::parse(alloc, vars, text, None).or(Err(AllocError))
}

fn is_meant(
    alloc: Global,
    read: &MarkedRequirement<VerbatimUrl>,
    extras: &[ExtraName],
) -> Result<bool, AllocError> {
    let at = environment(alloc)?;
    read.evaluate_markers(alloc, &at, extras)
}

fn is_meant_by_tree(
    alloc: Global,
    read: MarkedRequirement<VerbatimUrl>,
    extras: &[ExtraName],
) -> Result<bool, AllocError> {
    let mut interner = Interner::new(alloc);
    let made = read.with_tree(alloc, &mut interner)?;
    let at = environment(alloc)?;
    Ok(made.evaluate_markers(&interner, &at, extras))
}

#[test]
fn a_requirement_is_meant_with_and_without_a_tree(rt: HostRuntime) -> Result<(), Fail> {
    let alloc = rt.alloc();
    let vars = Vars::new(alloc, &[], "/w")?;
    let read = marked(alloc, &vars)?;
    let extras = [extra(alloc)?];
    assert!(rt; is_meant(alloc, &read, &extras)?);
    assert!(rt; !is_meant(alloc, &read, &[])?);
    assert!(rt; is_meant_by_tree(alloc, read, &extras)?);
    Ok(())
}

fn is_refused(alloc: Global, text: &str) -> Result<bool, AllocError> {
    let vars = Vars::new(alloc, &[], "/w")?;
    let read = MarkedRequirement::<VerbatimUrl>::parse_reporter(
        alloc,
        &vars,
        text,
        None,
        &mut Silent,
    );
    Ok(read.is_err())
}

#[test]
fn a_marker_that_is_none_is_refused_without_a_tree(rt: HostRuntime) -> Result<(), Fail> {
    assert!(rt; is_refused(rt.alloc(), "foo ; os_name")?);
    assert!(rt; !is_refused(rt.alloc(), "foo ; os_name == 'x'")?);
    Ok(())
}

const LINES: &str = "foo>=1.5 ; sys_platform == 'linux'\n\
    # bar alone is asked for elsewhere\n\
    bar ; sys_platform == 'win32' or extra == 'b'\n\
    foo[x] ; extra == 'a'\n\
    baz @ ./c\n";

/// The answer to the list that is read without trees.
fn marked_answer(
    alloc: Global,
    at: &MarkerEnvironment,
    extras: &[ExtraName],
    candidates: &Candidates,
) -> Result<String, AllocError> {
    let vars = Vars::new(alloc, &[], "/w")?;
    let lines = MarkedLines::parse(alloc, LINES.as_bytes(), &vars).or(Err(AllocError))?;
    let admission = Admission::new(|_: &Version, _: bool| true);
    let answer = lines.judge(alloc, at, extras, candidates, &admission)?;
    answer.text(alloc, candidates)
}

/// The answer to the list that is read with trees.
fn answer_by_trees(
    alloc: Global,
    at: &MarkerEnvironment,
    extras: &[ExtraName],
    candidates: &Candidates,
) -> Result<String, AllocError> {
    let vars = Vars::new(alloc, &[], "/w")?;
    let mut interner = Interner::new(alloc);
    lines_that_were_read_are_of_the_nodes();
    let Ok(lines) = Requirements::parse(alloc, LINES.as_bytes(), &mut interner, &vars) else {
        return Err(AllocError);
    };
    let admission = Admission::new(|_: &Version, _: bool| true);
    let answer = lines.judge(alloc, &interner, at, extras, candidates, &admission)?;
    answer.text(alloc, candidates)
}

/// The answers of both judges.
fn judged(alloc: Global, candidates: &str) -> Result<(String, String), AllocError> {
    let at = environment(alloc)?;
    let extras = [extra(alloc)?];
    let candidates = Candidates::parse(alloc, candidates.as_bytes()).or(Err(AllocError))?;
    let marked = marked_answer(alloc, &at, &extras, &candidates)?;
    let other = answer_by_trees(alloc, &at, &extras, &candidates)?;
    Ok((marked, other))
}

#[test]
fn both_judges_answer_alike(rt: HostRuntime) -> Result<(), Fail> {
    let (marked, with_trees) = judged(rt.alloc(), "foo 1.4\nfoo 2\nbar 1\nfoo 1.6\n")?;
    assert_eq!(rt; marked.as_str(), "baz direct\nfoo[x] 2\n");
    assert_eq!(rt; with_trees.as_str(), marked.as_str());
    Ok(())
}

/// The answer to all lines, whether they apply or not.
fn answered(alloc: Global, read: &MarkedLines) -> Result<String, AllocError> {
    let mut asks = Vec::new(alloc);
    for line in read.lines() {
        asks.push(ask_of_marked(&line.requirement))?;
    }
    let candidates = Candidates::parse(alloc, b"bar 1\nfoo 2\n").or(Err(AllocError))?;
    let admission = Admission::new(|_: &Version, _: bool| true);
    let answer = answer_to(alloc, &asks, &candidates, &admission)?;
    answer.text(alloc, &candidates)
}

fn push_numbers(text: &mut String, read: MarkedLines) -> Result<(), AllocError> {
    for line in read.into_lines() {
        write!(text, "{} ", line.number)?;
    }
    Ok(())
}

#[test]
fn lines_are_kept_with_their_numbers(rt: HostRuntime) -> Result<(), Fail> {
    let alloc = rt.alloc();
    let vars = Vars::new(alloc, &[], "/w")?;
    let read = MarkedLines::parse(alloc, LINES.as_bytes(), &vars).or(Err(AllocError))?;
    let mut text = answered(alloc, &read)?;
    push_numbers(&mut text, read)?;
    assert_eq!(rt; text.as_str(), "bar 1\nbaz direct\nfoo[x] 2\n1 3 4 5 ");
    Ok(())
}
