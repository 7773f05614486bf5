//! `reqs`: reads Python requirement lists, judges them and compares them.
#![tactic(auto)]

use std::process::ExitCode;

fn main(rt: HostRuntime) -> ExitCode {
    reqs_command::run(&rt)
}
