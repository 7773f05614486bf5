//! Requirements of Python packages (PEP 508): a name, extras, specifiers or a URL, and a marker; and
//! requirements that a URL alone names.
#![tactic(auto)]

mod evaluating;
mod extra_list;
mod extra_marker;
pub mod laws;
mod marked_requirement;
mod reading_requirement;
mod remaining_text;
mod requirement;
mod unnamed;
mod unnamed_reading;
mod unnamed_url;
mod version_or_url;

pub use extra_list::Extras;
pub use marked_requirement::MarkedRequirement;
pub use pep508_name::RequirementOrigin;
pub use requirement::Requirement;
pub use unnamed::UnnamedRequirement;
pub use version_or_url::{VersionOrUrl, VersionOrUrlRef};
