#![tactic(auto)]
//! The answer to requirements on packages: for each package the highest candidate that is accepted.
//!
//! ```text
//! let answer = answer_to(alloc, &asks, &candidates, &Admission::new(|_, _| true))?;
//! let text = answer.text(alloc, &candidates)?;
//! ```

pub mod admission;
pub mod answer;
mod answering;
mod ask;
mod asking;
mod choosing;
mod extras;
mod grouping;
pub mod laws;
mod ranged;

pub use admission::Admission;
pub use answer::{Answer, Outcome, Row};
pub use answering::answer_to;
pub use ask::{Ask, AskSource, ask_of, ask_of_marked};
pub use asking::{all_take, is_direct, names_prerelease};
pub use choosing::Numbered;
pub use extras::{extras_of, united_extras};
pub use grouping::{Group, Groups, asks_by_package};
pub use ranged::range_of;
