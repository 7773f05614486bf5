#![tactic(auto)]
//! The commands of `reqs`. Each reads its inputs whole, and writes its answer once all of it is made. The
//! commands on lists alone are in `reqs_lists`, those on lists where a condition holds in `reqs_assuming`.
//!
//! Anything that reads bytes can be an input, and anything that writes them the output; `reqs_command` calls
//! them with files:
//!
//! ```text
//! let mut requirements = File::open(rt, "requirements.txt")?;
//! let mut environment = File::open(rt, "environment.json")?;
//! let mut candidates = File::open(rt, "candidates.txt")?;
//! let mut output = File::create(rt, "answer.txt")?;
//! let extras = ["socks"];
//! let status = check(
//!     alloc, &mut requirements, &mut environment, &mut candidates, &extras, &vars, Format::Text,
//!     &mut output,
//! )?;
//! ```

pub use pep508_url::Vars;
pub use reqs_answers::{check, check_strict, laws, matrix, matrix_strict, matrix_within};
pub use reqs_assuming::{
    REAL, Terms, assumed_condition, assumption_text, conflicts_where, covers_where, same_where,
};
pub use reqs_io_faults::{
    Bounds, Excess, Input, JsonShape, RefusedCause, RefusedWord, RunFault, Status,
};
pub use reqs_json::Format;
pub use reqs_lists::{
    conflicts, conflicts_strict, conflicts_within, covers, covers_within, normal, normal_within,
    same, same_within,
};
