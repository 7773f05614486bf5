//! The first steps of the calls on whole lists: the packages that lists name, their lines, and tables of some
//! of them.
#![tactic(auto)]

mod names;
mod packages;

pub use names::package_names;
pub use packages::{Groups, by_package, has_room, packages_table, packages_table_within};
