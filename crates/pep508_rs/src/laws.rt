//! The laws of requirements and markers, re-exported from the crates below under the name of what they are
//! about.

pub use pep508_comparison::laws as comparisons;
pub use pep508_diagram::laws as diagrams;
pub use pep508_evaluation::laws as evaluations;
pub use pep508_marker::laws as reporters;
pub use pep508_marker_key::laws as marker_keys;
pub use pep508_marker_parser::laws as markers_read;
pub use pep508_marker_text_laws::laws as marker_texts;
pub use pep508_name::laws as names;
pub use pep508_questions::laws as questions;
pub use pep508_reading_back::laws as reading_back;
pub use pep508_requirement::laws as requirements;
pub use pep508_requirement_ref::laws as printed_requirements;
pub use pep508_requirement_text::laws as fronts;
pub use pep508_tree_laws as trees;
pub use pep508_tree_ref::laws as printed_trees;
pub use pep508_url::laws as urls;
pub use pep508_view::laws as views;
