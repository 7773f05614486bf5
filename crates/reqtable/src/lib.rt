#![tactic(auto)]
//! Judges requirement lists against candidate lists: for an environment, which packages are required and the
//! highest candidate that each may have. Also answers what lists mean on their own, without any environment.
//!
//! Lists are read once, and judged for any number of environments:
//!
//! ```text
//! let mut interner = Interner::new(alloc);
//! let requirements = Requirements::parse(alloc, requirements_text, &mut interner, &vars)?;
//! let candidates = Candidates::parse(alloc, candidates_text)?;
//! let admission = Admission::new(|_, _| true);
//! let answer = requirements.judge(alloc, &interner, &environment, &extras, &candidates, &admission)?;
//! let text = answer.text(alloc, &candidates)?;
//! ```
//!
//! Judging for a single environment needs no marker trees, which may be large:
//!
//! ```text
//! let lines = MarkedLines::parse(alloc, requirements_text, &vars)?;
//! let answer = lines.judge(alloc, &environment, &extras, &candidates, &admission)?;
//! ```
//!
//! Nor does it need a list of candidates, if they are judged while they are read:
//!
//! ```text
//! let selection = judge_text(alloc, &lines, &environment, &extras, candidates_text, &admission)?;
//! let text = selection.answer.text_among(alloc, &selection.candidates)?;
//! ```
//!
//! Without any environment, a list has one normal text and a list of the lines that contradict each other;
//! and two lists of one interner can be compared:
//!
//! ```text
//! let text = normal(alloc, &requirements, &interner)?;
//! for conflict in &conflicts(alloc, &requirements, &mut interner, 4096)? {
//!     println!(rt; "{}: {:?}", conflict.package, conflict.lines)?;
//! }
//! match same(alloc, &requirements, &others, &mut interner, 4096)? {
//!     Same::Yes => println!(rt; "the same")?,
//!     Same::No { package, tree } => {
//!         println!(rt; "{package} where {}", MarkerTreeRef::new(alloc, &interner, tree))?
//!     }
//! }
//! match covers(alloc, &lock, &requirements, &mut interner, 4096)? {
//!     Covers::Yes => println!(rt; "covered")?,
//!     Covers::No { package, lines, .. } => println!(rt; "{package}: {lines:?}")?,
//! }
//! ```
//!
//! What was found for a list can be kept for all lists that require the same, under its key:
//!
//! ```text
//! let key = key(alloc, &requirements, &mut interner, 4096, None)?;
//! ```
//!
//! A list can be restricted to the environments for which a marker holds, before it is compared:
//!
//! ```text
//! let condition = parse_formula(alloc, "python_full_version >= '3.9'", &mut Silent)?;
//! let requirements = assume(alloc, requirements, &mut interner, &condition)?;
//! ```
//!
//! For many environments a table is built from the requirements beforehand, which it consumes. Its answers
//! equal those of `Requirements::judge`:
//!
//! ```text
//! let mut table = Table::build(alloc, requirements, &mut interner, 4096)?;
//! let ordered = candidates.in_order(alloc)?;
//! let mut runs = table.runs(alloc, &ordered)?;
//! for environment in &environments {
//!     let answer = table.answer_among(alloc, &interner, environment, &extras, &mut runs, &admission)?;
//! }
//! ```
//!
//! `crates/reqtable_tests/src/again.rt` has this loop, and `crates/reqtable_list_tests/src/` callers on
//! lists, each with a proved contract.
//!
//! The crates below hold the code; this one re-exports what they offer, and the requirements of `pep508_rs`.

pub mod laws;

pub use pep508_rs;
pub use reqtable_answer::{
    Admission, Answer, Ask, AskSource, Outcome, Row, answer_to, ask_of, ask_of_marked,
};
pub use reqtable_assumption::assume;
pub use reqtable_candidates::{
    Candidate, CandidateFault, Candidates, CandidatesError, Ordered, Placed,
};
pub use reqtable_compare::{LineCause, Same, SameError, Side, same, same_within};
pub use reqtable_conflicts::{Conflict, conflicts, conflicts_within};
pub use reqtable_covers::{Covers, covers, covers_within};
pub use reqtable_key::key;
pub use reqtable_normal::{NormalCause, NormalError, normal, normal_within};
pub use reqtable_requirements::{Line, MarkedLine, MarkedLines, Requirements, RequirementsError};
pub use reqtable_streaming::{Selection, judge_text};
pub use reqtable_table::{Case, Runs, Table, TableError};
