//! Conjunctions of many marker trees. Trees that test one key and nothing else become one node, in one pass
//! by halves over their endpoints; the others are joined two at a time.
//!
//! The crate is apart from `pep508_tree` because that one is near its greatest size.
#![tactic(auto)]

mod all;
mod borrowed_nodes;
mod borrowed_value;
mod meet;
mod owned;
mod variable_order;

pub use all::conjunction_of_all;
