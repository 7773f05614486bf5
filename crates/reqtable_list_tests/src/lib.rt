//! Tests of lists of requirements and of candidates, and of types that are kept over several calls: what no
//! contract states of them, and callers that are proved from public contracts and laws.
#![tactic(auto)]

#[cfg(test)]
mod assumed;
#[cfg(test)]
mod copies;
#[cfg(test)]
mod covered;
#[cfg(test)]
mod keys;
#[cfg(test)]
mod lists;
#[cfg(test)]
mod twice;
#[cfg(test)]
mod versions;
