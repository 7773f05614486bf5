//! An edge between two neighbouring endpoints of a node.

use pep508_tree::MarkerTree;
use std::ops::Bound;

/// The subtree between two bounds of a variable, which are borrowed values: `&Version` or `&str`.
#[derive(Clone, Copy)]
pub struct Edge<B> {
    pub lower: Bound<B>,
    pub upper: Bound<B>,
    pub tree: MarkerTree,
}
