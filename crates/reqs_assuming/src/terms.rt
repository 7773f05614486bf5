//! The options of a command on lists with an assumed condition.

use pep508_formula::MarkerFormula;
use pep508_url::Vars;
use reqs_io_faults::Bounds;
use reqs_json::Format;

/// The options of a command on lists with an assumed condition.
#[derive(Clone, Copy)]
pub struct Terms<'a> {
    /// The environment variables, for URLs.
    pub vars: &'a Vars,
    /// Only environments and extras for which this holds count.
    pub condition: &'a MarkerFormula,
    pub format: Format,
    pub bounds: Bounds,
}
