//! The six commands on inputs of their own, by the readers and the writer of tests.
//!
//! The answers are worked out from the rules of the commands (`docs/COMMANDS.md`).

use crate::faulty::{Inlet, Manner, Outlet};
use pep508_url::Vars;
use reqs_answers::{check, matrix};
use reqs_io_faults::{RunFault, Status};
use reqs_json::Format;
use reqs_lists::{conflicts, covers, normal, same};
use std::alloc::{AllocError, Global};

#[derive(Clone, Copy, Debug, PartialEq, Eq)]
pub(crate) enum Command {
    Check,
    Matrix,
    Same,
    Covers,
    Conflicts,
    Normal,
}

/// Each command.
pub(crate) const COMMANDS: [Command; 6] = [
    Command::Check,
    Command::Matrix,
    Command::Same,
    Command::Covers,
    Command::Conflicts,
    Command::Normal,
];

/// Each input of each command, by its place from 1.
pub(crate) const INPUTS: [(Command, usize); 12] = [
    (Command::Check, 1),
    (Command::Check, 2),
    (Command::Check, 3),
    (Command::Matrix, 1),
    (Command::Matrix, 2),
    (Command::Matrix, 3),
    (Command::Same, 1),
    (Command::Same, 2),
    (Command::Covers, 1),
    (Command::Covers, 2),
    (Command::Conflicts, 1),
    (Command::Normal, 1),
];

/// The texts of the inputs, in their order; those that a command doesn't have are empty.
pub(crate) type Given = (&'static str, &'static str, &'static str);

/// The environment of CPython 3.11.4 on Linux.
pub(crate) const ENVIRONMENT: &str = r##"{
    "implementation_name": "cpython", "implementation_version": "3.11.4", "os_name": "posix",
    "platform_machine": "x86_64", "platform_python_implementation": "CPython",
    "platform_release": "5.4", "platform_system": "Linux", "platform_version": "#1",
    "python_full_version": "3.11.4", "python_version": "3.11", "sys_platform": "linux"
}"##;

const ENVIRONMENTS: &str = r##"[{
    "implementation_name": "cpython", "implementation_version": "3.11.4", "os_name": "posix",
    "platform_machine": "x86_64", "platform_python_implementation": "CPython",
    "platform_release": "5.4", "platform_system": "Linux", "platform_version": "#1",
    "python_full_version": "3.11.4", "python_version": "3.11", "sys_platform": "linux"
}, {
    "implementation_name": "cpython", "implementation_version": "3.12.1", "os_name": "posix",
    "platform_machine": "x86_64", "platform_python_implementation": "CPython",
    "platform_release": "5.4", "platform_system": "Linux", "platform_version": "#1",
    "python_full_version": "3.12.1", "python_version": "3.12", "sys_platform": "linux"
}]"##;

/// The inputs of a command.
pub(crate) fn texts(command: Command) -> Given {
    match command {
        Command::Check => ("foo[b,a]>=1\nfoo[c]<2\n", ENVIRONMENT, "foo 1.5\nfoo 2.0\n"),
        Command::Matrix => (
            "foo ; python_version in '3.9 3.10 3.11'\n",
            ENVIRONMENTS,
            "foo 1.0\n",
        ),
        Command::Same => ("foo==1.*\n", "foo==1.0.*\n", ""),
        Command::Covers => ("foo==1.2 ; os_name == 'nt'\n", "foo>=1\nfoo<2\n", ""),
        Command::Conflicts => ("foo>=2\nfoo<1 ; os_name == 'a'\n", "", ""),
        Command::Normal => (
            "Foo_Bar [b , a] < 2.0 , >= 1.16 ; python_version >= \"3.8\"\n",
            "",
            "",
        ),
    }
}

/// Inputs for which the text of the answer is empty; `same` and `covers` have none.
pub(crate) fn texts_of_nothing(command: Command) -> Given {
    match command {
        Command::Check => ("", ENVIRONMENT, "foo 1.0\n"),
        Command::Matrix => ("foo\n", "[]", ""),
        Command::Normal => ("# nothing\n", "", ""),
        _ => ("foo\n", "", ""),
    }
}

/// The answer of a command to its inputs.
pub(crate) fn answer(command: Command, format: Format) -> &'static str {
    match format {
        Format::Text => match command {
            Command::Check => "foo[a,b,c] 1.5\n",
            Command::Matrix => "env 1\nfoo 1.0\nenv 2\n",
            Command::Same => "no\nfoo\nall environments\n",
            Command::Covers => "no\nfoo\nos_name != 'nt'\n1,2\n",
            Command::Conflicts => "foo 1,2\n",
            Command::Normal => "foo-bar[b,a]>=1.16,<2.0 ; python_full_version >= '3.8'\n",
        },
        Format::Json => object(command),
    }
}

fn object(command: Command) -> &'static str {
    match command {
        Command::Check => {
            "{\"packages\":[{\"extras\":[\"a\",\"b\",\"c\"],\"name\":\"foo\",\"outcome\":\"version\",\
            \"version\":\"1.5\"}]}\n"
        }
        Command::Matrix => {
            "{\"environments\":[{\"number\":1,\"packages\":[{\"extras\":[],\"name\":\"foo\",\
            \"outcome\":\"version\",\"version\":\"1.0\"}]},{\"number\":2,\"packages\":[]}]}\n"
        }
        Command::Same => "{\"marker\":null,\"package\":\"foo\",\"same\":false}\n",
        Command::Covers => {
            "{\"covers\":false,\"lines\":[1,2],\"marker\":\"os_name != 'nt'\",\"package\":\"foo\"}\n"
        }
        Command::Conflicts => {
            "{\"conflicts\":[{\"lines\":[1,2],\"package\":\"foo\",\"prerelease\":false}]}\n"
        }
        Command::Normal => {
            "{\"requirements\":[\"foo-bar[b,a]>=1.16,<2.0 ; python_full_version >= '3.8'\"]}\n"
        }
    }
}

/// The place after a command's inputs.
pub(crate) fn behind(command: Command) -> usize {
    match command {
        Command::Check | Command::Matrix => 4,
        Command::Same | Command::Covers => 3,
        Command::Conflicts | Command::Normal => 2,
    }
}

/// The exit status of a command on its inputs.
pub(crate) fn status(command: Command) -> u8 {
    match command {
        Command::Same | Command::Covers => 1,
        _ => 0,
    }
}

/// The readers of a command's inputs; those of inputs that it doesn't have are never called.
#[derive(Drop)]
pub(crate) struct Inlets {
    pub(crate) first: Inlet<'static>,
    pub(crate) second: Inlet<'static>,
    pub(crate) third: Inlet<'static>,
}

impl Inlets {
    /// Of these texts, of which the one at a place is given in this manner; the place 0 has none.
    pub(crate) fn new((first, second, third): Given, place: usize, manner: Manner) -> Inlets {
        Inlets {
            first: Inlet::new(first.as_bytes(), manner_at(1, place, manner)),
            second: Inlet::new(second.as_bytes(), manner_at(2, place, manner)),
            third: Inlet::new(third.as_bytes(), manner_at(3, place, manner)),
        }
    }

    /// The calls of all readers after they failed or ended.
    pub(crate) fn late_calls(&self) -> u64 {
        let (first, second, third) = (&self.first, &self.second, &self.third);
        first
            .asked_late
            .saturating_add(second.asked_late)
            .saturating_add(third.asked_late)
    }
}

fn manner_at(place: usize, wanted: usize, manner: Manner) -> Manner {
    if place == wanted {
        manner
    } else {
        Manner::Ends
    }
}

/// Runs a command.
pub(crate) fn run(
    alloc: Global,
    command: Command,
    format: Format,
    inlets: &mut Inlets,
    output: &mut Outlet,
) -> Result<Status, RunFault> {
    let vars = Vars::new(alloc, &[], "/")?;
    match command {
        Command::Check | Command::Matrix => judged(alloc, command, format, &vars, inlets, output),
        Command::Same => {
            let (left, right) = (&mut inlets.first, &mut inlets.second);
            same(alloc, left, right, &vars, 4096, format, output)
        }
        Command::Covers => {
            let (lock, requirements) = (&mut inlets.first, &mut inlets.second);
            covers(alloc, lock, requirements, &vars, 4096, format, output)
        }
        Command::Conflicts => { conflicts(alloc, &mut inlets.first, &vars, 4096, format, output) }
        Command::Normal => normal(alloc, &mut inlets.first, &vars, format, output),
    }
}

/// Runs a command that has three inputs.
fn judged(
    alloc: Global,
    command: Command,
    format: Format,
    vars: &Vars,
    inlets: &mut Inlets,
    output: &mut Outlet,
) -> Result<Status, RunFault> {
    let (first, second, third) = (&mut inlets.first, &mut inlets.second, &mut inlets.third);
    if command == Command::Matrix {
        matrix(alloc, first, second, third, &[], vars, 4096, format, output)
    } else {
        check(alloc, first, second, third, &[], vars, format, output)
    }
}

/// The text of a command's end: its status, or the message for its fault.
pub(crate) fn ended(alloc: Global, how: Result<Status, RunFault>) -> Result<String, AllocError> {
    match how {
        Ok(status) => {
            let code = status.code();
            format!(in alloc; "status {code}")
        }
        Err(fault) => {
            let status = fault.status();
            let text = fault.text(alloc, &["FIRST", "SECOND", "THIRD"])?;
            format!(in alloc; "status {status}, {text}")
        }
    }
}

/// Empty where what came of a run is as it is wanted, and otherwise both.
pub(crate) fn difference(alloc: Global, found: &str, wanted: &str) -> Result<String, AllocError> {
    if found == wanted {
        Ok(String::new(alloc))
    } else {
        format!(in alloc; "{found}, where {wanted} is wanted\n")
    }
}
