//! The judge: what a requirements text requires in an environment, and the answer to it.
//!
//! The judge is a method of the lines and works in two steps: which lines apply, by one evaluation of each
//! marker, and the answer to these. It is stated for all records that the lines stand for, so a caller who
//! read a text has the answer of that text.

ghost use Rattle.std.specs.Prelude.{◌≡◌, ◌<◌, List, length, map, All, IfOk, OnErr};
ghost use Rattle.std.specs.List.{AllZip};
ghost use Rattle.pep508_url.specs.Vars.{Variables};
ghost use Rattle.pep508_evaluation.specs.Valuations.{valuation_of};
ghost use Rattle.reqtable_answer.specs.Admission.{Admits, AnswersBy};
ghost use Rattle.reqtable_answer.specs.Answer.{IsAnswer};
ghost use Rattle.reqtable_answer.specs.Rows.{row_seen, IsTakenBelow};
ghost use Rattle.reqtable_answer.specs.Says.{SayAll, asks_seen, marked_seen, requirement_seen};
ghost use Rattle.reqtable_requirements.specs.Asks.{AreOfNodes, applying, applying_marked, asks_of};
ghost use Rattle.reqtable_requirements.specs.LineReading.{LineRecord};
ghost use Rattle.reqtable_requirements.specs.Requirements.{SaysLine, StandsFor};

use crate::{Line, MarkedLine, MarkedLines, Requirements};
use pep440_version::Version;
use pep508_environment::MarkerEnvironment;
use pep508_name::ExtraName;
use pep508_tree::Interner;
use reqtable_answer::{Admission, Answer, Ask, answer_to, ask_of, ask_of_marked};
use reqtable_candidates::Candidates;
use std::alloc::{AllocError, Global};

impl Requirements {
    /// The answer in an environment with extras: a row for each package that an applicable line requires.
    ///
    /// `interner` is the one that the lines were read with. Evaluates each line's marker once, and answers as
    /// `answer_to` does. Needs memory for a list of the applicable lines and for the answer.
    ///
    /// # Errors
    ///
    /// `AllocError` when memory runs out.
    pub fn judge<F: Fn(&Version, bool) -> bool>(
        &self,
        alloc: Global,
        interner: &Interner,
        environment: &MarkerEnvironment,
        extras: &[ExtraName],
        candidates: &Candidates,
        admission: &Admission<F>,
    ) -> Result<Answer, AllocError>
        requires trees { AreOfNodes interner.now.nodes self.now }
        requires callable { F.IsAlwaysCallable admission.now }
        ensures answered { IfOk result (λ answer.
            (vars : Variables) (said : List LineRecord) (admits : Admits) →
            AllZip (StandsFor vars interner.now.nodes) self.now said →
            AnswersBy (F.post admission.now) admits →
            IsAnswer admits (asks_of (valuation_of environment.now extras.now) said) candidates.now
            (map row_seen answer.rows.items)) }
        ensures places { IfOk result (λ answer.
            All (λ row. IsTakenBelow (length candidates.now) row.outcome) answer.rows.items) }
    {
        let asks = applying(alloc, self.lines(), interner, environment, extras)?;
        answer_to(alloc, &asks, candidates, admission)
    }
}

impl MarkedLines {
    /// The answer in an environment with extras: a row for each package that an applicable line requires.
    /// Equals the answer of `Requirements::judge` for the same text, and needs no tree.
    ///
    /// Evaluates each line's marker once, as `holds_in` does, and answers as `answer_to` does. Needs memory
    /// for a list of the applicable lines and for the answer.
    ///
    /// # Errors
    ///
    /// `AllocError` when memory runs out.
    pub fn judge<F: Fn(&Version, bool) -> bool>(
        &self,
        alloc: Global,
        environment: &MarkerEnvironment,
        extras: &[ExtraName],
        candidates: &Candidates,
        admission: &Admission<F>,
    ) -> Result<Answer, AllocError>
        requires { F.IsAlwaysCallable admission.now }
        ensures answered { IfOk result (λ answer.
            (vars : Variables) (said : List LineRecord) (admits : Admits) →
            AllZip (SaysLine vars) self.now said →
            AnswersBy (F.post admission.now) admits →
            IsAnswer admits (asks_of (valuation_of environment.now extras.now) said) candidates.now
            (map row_seen answer.rows.items)) }
        ensures places { IfOk result (λ answer.
            All (λ row. IsTakenBelow (length candidates.now) row.outcome) answer.rows.items) }
    {
        let asks = asks_in(alloc, self, environment, extras)?;
        answer_to(alloc, &asks, candidates, admission)
    }
}

/// What each line requires whose marker holds in the environment with the extras, in the order of the lines.
/// Evaluates each line's marker once, as `holds_in` does.
///
/// # Errors
///
/// `AllocError` when memory runs out, which no empty list needs.
pub fn asks_in<'a>(
    alloc: Global,
    lines: &'a MarkedLines,
    environment: &MarkerEnvironment,
    extras: &[ExtraName],
) -> Result<Vec<Ask<'a>>, AllocError>
    ensures said { IfOk result (λ asks. (vars : Variables) (said : List LineRecord) →
        AllZip (SaysLine vars) lines.now said →
        SayAll asks.items (asks_of (valuation_of environment.now extras.now) said)) }
    ensures grown { OnErr result (0 < length lines.now) }
{
    applying_marked(alloc, lines.lines(), environment, extras)
}

/// What each line requires whose marker holds in the environment with the extras, in the order of the lines.
fn applying<'a>(
    alloc: Global,
    lines: &'a [Line],
    interner: &Interner,
    environment: &MarkerEnvironment,
    extras: &[ExtraName],
) -> Result<Vec<Ask<'a>>, AllocError>
    requires { AreOfNodes interner.now.nodes lines.now }
    ensures { IfOk result (λ asks. asks_seen asks.items ≡ map requirement_seen
        (applying interner.now.nodes (valuation_of environment.now extras.now) lines.now)) }
{
    let mut asks = Vec::new(alloc);
    for line in lines {
        let requirement = &line.requirement;
        if requirement.evaluate_markers(interner, environment, extras) {
            asks.push(ask_of(requirement))?;
        }
    }
    Ok(asks)
}

/// What each line with a formula requires whose marker holds in the environment with the extras, in the order
/// of the lines.
fn applying_marked<'a>(
    alloc: Global,
    lines: &'a [MarkedLine],
    environment: &MarkerEnvironment,
    extras: &[ExtraName],
) -> Result<Vec<Ask<'a>>, AllocError>
    ensures asks { IfOk result (λ asks. asks_seen asks.items ≡ map marked_seen
        (applying_marked (valuation_of environment.now extras.now) lines.now)) }
    ensures grown { OnErr result (0 < length lines.now) }
{
    let mut asks = Vec::new(alloc);
    for line in lines {
        let requirement = &line.requirement;
        if requirement.evaluate_markers(alloc, environment, extras)? {
            asks.push(ask_of_marked(requirement))?;
        }
    }
    Ok(asks)
}
