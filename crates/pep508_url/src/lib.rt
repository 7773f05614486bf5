#![tactic(auto)]
//! URLs of requirements (PEP 508, "Grammar"): variables, schemes, paths, and the URL that keeps its text as
//! given.
//!
//! The model of a text and of a path in contracts is its bytes, and that of a URL the parts that the crate
//! `url` makes of it; which texts are URLs is that crate's decision, `parse_url`.

mod cuts;
pub mod laws;
mod path;
mod path_or_url;
mod reading_url;
mod requirement_url;
mod scheme;
mod splits;
mod url_error;
mod url_order;
mod vars;
mod verbatim_url;

pub use path::{normalize_absolute_path, normalize_url_path};
pub use path_or_url::{Place, place_of};
pub use requirement_url::{Pep508Url, UnnamedRequirementUrl};
pub use scheme::{Scheme, split_scheme};
pub use splits::{split_extras, strip_host};
pub use url_error::VerbatimUrlError;
pub use vars::{Vars, expand_env_vars};
pub use verbatim_url::VerbatimUrl;
