//! Tests of the public calls of interval sets: what no contract says of them.
#![tactic(auto)]

#[cfg(test)]
mod sets;
