#![tactic(auto)]
//! Views of marker trees (PEP 508, "Environment Markers"), which are read one variable at a time:
//! `MarkerTreeView::kind` returns the variable, and a view leads from each of its edges, an interval of
//! versions or texts or one of two truths, to a subtree. The model of a view in contracts is the node at
//! the tree's root.
//!
//! The crate is apart from `pep508_tree` so that this one keeps its size. Views are plain structs without a
//! model, which a `Copy` type that borrows cannot have; functions over their fields say what they show
//! (`specs/Views.antt`, `specs/ReadOff.antt`). They compare by the trees that they are views of: comparing
//! all that they borrow would say the same for one interner, and cost the length of the boundaries.

mod edge;
mod edges;
mod extra_view;
mod kind;
pub mod laws;
mod occurrence_view;
mod text_view;
mod version_view;

pub use edge::Edge;
pub use edges::{Edges, TextEdges};
pub use extra_view::{ExtraMarkerTree, MarkerExtra};
pub use kind::{MarkerTreeKind, MarkerTreeView};
pub use occurrence_view::{ContainsMarkerTree, InMarkerTree, OccurrenceMarkerTree};
pub use text_view::StringMarkerTree;
pub use version_view::VersionMarkerTree;
