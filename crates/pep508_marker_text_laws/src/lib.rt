#![tactic(auto)]
//! The text of a marker tree (PEP 508, "Environment Markers"): definitions and laws.
//!
//! One meaning has one text by a property of diagrams (`HasShortVersions`) and not by how they were made:
//! canonical diagrams of one meaning are one up to the spelling of equal versions, and each tree's diagram
//! has the property.

pub mod laws;
