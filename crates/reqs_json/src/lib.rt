#![tactic(auto)]
//! The answers and faults of the commands of `reqs`, as JSON objects on one line.
//!
//! JSON is written by `serde_json`, whose `Value` sorts an object's members by their keys' bytes: that order
//! is the documented one, and no code here quotes anything. Only what `matrix` has around and between the
//! rows of its environments is written without it, by `reqs_answers/src/frames.rt` and `reqs_rows`. An object
//! has all its keys; `null` is what it lacks.

mod answers;
mod faults;
mod format;
mod json_lines;
pub mod laws;
mod messages;

pub use answers::{answer_text, row_text};
pub use faults::{assumption_line, fault_line, memory_line, usage_line};
pub use format::Format;
pub use json_lines::{line_of, lines_value, numbers_value};
