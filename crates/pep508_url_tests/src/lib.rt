//! Tests of the public calls of URLs: what no contract says of them.
#![tactic(auto)]

#[cfg(test)]
mod urls;
