#![tactic(auto)]
//! How the commands of `reqs` end, what they read and what they write: statuses, faults with their texts,
//! inputs, each read whole and then parsed, and answers, written whole.
//!
//! This is below the commands so that a change of one proves none of it again. It knows no table: the fault
//! of one is made where a table is. How a command ends is stated over lists of inputs, with what it may
//! answer and refuse as two relations, so that commands of one, two or three inputs share the words. Steps
//! that read no input are stated to have no reader's fault; a write fault comes only where the answer's
//! text was made.

mod bounds;
mod display;
mod environments;
mod fault;
mod input;
mod output;

pub use bounds::{Bounds, Excess};
pub use environments::read_environments;
pub use fault::{Input, JsonShape, RefusedCause, RefusedWord, RunFault, Status};
pub use input::{
    read_candidates, read_environment, read_extras, read_input, read_marked_lines,
    read_requirements, requirements_within,
};
pub use output::write_answer;
