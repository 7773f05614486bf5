//! The query of a table.

use pep508_environment::MarkerEnvironment;
use pep508_name::ExtraName;
use pep508_tree::Interner;
use reqs_json::Format;
use reqtable_candidates::Candidates;

/// What is the same for all environments: the interner of the markers, the extras, the candidates to select
/// from, and the format of the rows.
#[derive(Drop)]
pub struct Query<'a> {
    pub interner: &'a Interner,
    pub extras: &'a [ExtraName],
    pub candidates: &'a Candidates,
    pub format: Format,
}

/// An environment with extras, the interner of the markers, the candidates to select from, and the format of
/// the rows.
#[derive(Drop)]
pub(crate) struct Asked<'a> {
    pub(crate) interner: &'a Interner,
    pub(crate) environment: &'a MarkerEnvironment,
    pub(crate) extras: &'a [ExtraName],
    pub(crate) candidates: &'a Candidates,
    pub(crate) format: Format,
}
