//! Tests of the commands on readers and writers of their own: what no contract states of them.
#![tactic(auto)]

#[cfg(test)]
mod commands;
#[cfg(test)]
mod ends;
#[cfg(test)]
mod faulty;
#[cfg(test)]
mod readers;
#[cfg(test)]
mod writers;
