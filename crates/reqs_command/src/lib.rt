#![tactic(auto)]
//! The command line of `reqs`: what its words request, which files are opened, and the exit status. The
//! program `reqs_cli` is a call of `run`.

mod command;
mod opened;
mod request;
mod source;
mod variables;
mod words;

pub use command::run;
