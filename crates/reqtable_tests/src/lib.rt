//! Tests of tables, of markers that are read without trees, and of the first pages of `pep440_rs`,
//! `pep508_rs` and `reqtable`: what no contract states of them, and callers that are proved from public
//! contracts and laws.
#![tactic(auto)]

#[cfg(test)]
mod again;
#[cfg(test)]
mod counting;
#[cfg(test)]
mod formulas;
#[cfg(test)]
mod pages;
#[cfg(test)]
mod tables;
