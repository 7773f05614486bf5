//! The result of asking whether a list covers another.

use pep508_name::PackageName;
use pep508_tree::MarkerTree;

/// Whether a list covers another, and if not, where it doesn't.
#[derive(Debug, Drop)]
pub enum Covers {
    /// The list requires whatever the other one does, in every environment, with any extras.
    Yes,
    /// The list doesn't cover this package, the first by the bytes of its name, wherever the tree holds.
    /// There exactly these lines of the other list apply to the package, by their numbers.
    No {
        package: PackageName,
        tree: MarkerTree,
        lines: Vec<usize>,
    },
}
