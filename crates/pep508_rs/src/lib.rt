#![tactic(auto)]
//! Requirements of Python packages, as PEP 508 has them: names, extras, specifiers, URLs and markers.
//!
//! Marker trees are kept in an interner, which is passed to reading and to queries:
//!
//! ```text
//! let mut interner = Interner::new(alloc);
//! let vars = Vars::new(alloc, &[], "/")?;
//! let text = "requests[socks]>=2.8.1 ; python_version < '3.13'";
//! let wanted = Requirement::<VerbatimUrl>::from_str(alloc, &mut interner, &vars, text)?;
//! let applies = wanted.evaluate_markers(&interner, &environment, &[]);
//! ```
//!
//! A caller with one environment alone needs no tree:
//!
//! ```text
//! let wanted = MarkedRequirement::<VerbatimUrl>::parse(alloc, &vars, text, None)?;
//! let applies = wanted.evaluate_markers(alloc, &environment, &[])?;
//! ```
//!
//! `crates/reqtable_list_tests/src/twice.rt` has callers with proved contracts.
//!
//! This crate re-exports what the crates below it offer, and versions and specifiers as `pep440_rs`.

pub mod laws;

pub use pep440_rs;
pub use pep508_comparison_parser::{parse_expression, parse_expression_reporter};
pub use pep508_disjointness::MarkerTreeDisjointness;
pub use pep508_environment::{
    EnvironmentBuildError, EnvironmentError, EnvironmentMember, MarkerEnvironment,
    MarkerEnvironmentBuilder, StringVersion,
};
pub use pep508_error::{Pep508Error, Pep508ErrorSource};
pub use pep508_evaluation::MarkerTreeEvaluation;
pub use pep508_expression::MarkerTreeExpression;
pub use pep508_formula::{FormulaPart, MarkerFormula, Parts};
pub use pep508_formula_truth::holds_in;
pub use pep508_marker::{
    ClosureReporter, ExtraOperator, MarkerExpression, MarkerOperator, MarkerTextError, MarkerValue,
    MarkerValueExtra, MarkerValueString, MarkerValueVersion, MarkerWarningKind, Reporter, Silent,
};
pub use pep508_marker_display::{MarkerTreeText, has_more_clauses};
pub use pep508_marker_key::MarkerTreeKey;
pub use pep508_marker_parser::{MarkerTreeReading, parse_formula, tree_of};
pub use pep508_marker_serde::{MarkerTreeContents, MarkerTreeWithContents, ser};
pub use pep508_name::{ExtraName, InvalidNameError, PackageName, RequirementOrigin};
pub use pep508_questions::{Asked, MarkerTreeQuestions};
pub use pep508_requirement::{
    Extras, MarkedRequirement, Requirement, UnnamedRequirement, VersionOrUrl, VersionOrUrlRef,
};
pub use pep508_requirement_ref::{RequirementRef, UnnamedRequirementRef};
pub use pep508_simplification::MarkerTreeSimplification;
pub use pep508_tracing_reporter::TracingReporter;
pub use pep508_tree::{Interner, MarkerTree};
pub use pep508_tree_ref::MarkerTreeRef;
pub use pep508_url::{
    Pep508Url, Scheme, UnnamedRequirementUrl, Vars, VerbatimUrl, VerbatimUrlError, expand_env_vars,
    normalize_absolute_path, normalize_url_path, split_extras, split_scheme, strip_host,
};
pub use pep508_view::{
    ContainsMarkerTree, Edge, Edges, ExtraMarkerTree, InMarkerTree, MarkerExtra, MarkerTreeKind,
    MarkerTreeView, OccurrenceMarkerTree, StringMarkerTree, TextEdges, VersionMarkerTree,
};
