//! Tests of versions and their keys: what no contract says of them; and a caller that is proved.
#![tactic(auto)]

#[cfg(test)]
mod calling;
#[cfg(test)]
mod keys;
#[cfg(test)]
mod packed_forms;
