//! Marker trees that are simplified by known properties of environments: the range of Python's versions,
//! and extras that are present (PEP 508, "Environment Markers").
#![tactic(auto)]

mod bounds;
mod complexified;
mod extras_walk;
mod named;
mod narrowed;
mod root_copy;
mod simplification;
mod within;

pub use simplification::MarkerTreeSimplification;
