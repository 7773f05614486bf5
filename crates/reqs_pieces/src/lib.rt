//! A text made of pieces that occur in it many times, and writing it.
#![tactic(auto)]

mod pieces;
mod waiting;

pub use pieces::Pieces;
