#![tactic(auto)]
//! Requirements judged while candidates are read: no list of candidates is kept.
//!
//! Requirements are read first, so the packages that are required are known before the first candidate. Each
//! line of candidates is read, with every fault, and its candidate takes the place of its package's best one
//! so far if it is admitted, higher, and accepted. What is kept is one candidate per required package.
//!
//! ```text
//! let selection = judge_text(alloc, &lines, &environment, &extras, bytes, &admission)?;
//! let text = selection.answer.text_among(alloc, &selection.candidates)?;
//! ```

mod fronts;
mod hints;
pub mod laws;
mod naming;
mod offering;
mod plain_lines;
mod reading;
mod required;
mod selecting;
mod selection;
mod streaming;
mod words;

pub use selection::Selection;
pub use streaming::judge_text;
