//! Bounds on what a command makes, and what there is more of than a bound allows.
//!
//! All bounds that are passed are one variant of `RunFault`, so that what reads no bound has one case for
//! them.

ghost use Rattle.std.specs.Prelude.{◌≡◌, map, IfOk, string_bytes};
ghost use Rattle.reqs_io_faults.specs.Ends.{of_input};
ghost use Rattle.reqs_io_faults.specs.FaultText.{excess_text, excess_words};

use crate::fault::{Input, at, at_line};
use pep508_name::PackageName;
use std::alloc::{AllocError, Global};
use std::error::Error;
use std::fmt;

/// The most that a command may make of each, above which it is refused.
#[derive(Clone, Copy, Debug, PartialEq, Eq)]
pub struct Bounds {
    /// Nodes of marker trees, of all lines of the lists and of what is made to compare them.
    pub nodes: usize,
    /// Clauses in a marker that is written: comparisons joined by `and`, between `or`s.
    pub clauses: usize,
    /// Cases of all packages of a list together.
    pub cases: u64,
}

impl Bounds {
    /// The greatest numbers, which nothing passes that has room in memory.
    pub fn none() -> Bounds
        ensures { result ≡ record { nodes = usize.MAX; clauses = usize.MAX; cases = u64.MAX } }
    {
        Bounds {
            nodes: usize::MAX,
            clauses: usize::MAX,
            cases: u64::MAX,
        }
    }
}

/// What there is more of than a bound allows. Lines are numbered from 1.
#[derive(Debug, Drop)]
pub enum Excess {
    /// After the tree of this line's marker there are more than `most` nodes.
    NodesAt {
        input: Input,
        number: usize,
        most: usize,
    },
    /// There are more than `most` nodes once lists are compared or a table is made.
    Nodes {
        most: usize,
    },
    /// The marker of this line has more than `most` clauses.
    ClausesAt {
        input: Input,
        number: usize,
        most: usize,
    },
    /// The marker of this package's difference has more than `most` clauses.
    ClausesFor {
        package: PackageName,
        most: usize,
    },
    /// The packages of a list together have more than `most` cases.
    Cases {
        input: Input,
        most: u64,
    },
}

impl fmt::Display for Excess {
    ghost use Rattle.std.specs.Prelude.{Some};

    ghost output = { λ excess. Some (excess_words excess) };

    fn fmt<W: fmt::Write>(&self, f: &mut fmt::Formatter<W>) -> fmt::Result {
        match self {
            Excess::NodesAt { most, .. } => write!(f, "more than {most} nodes"),
            Excess::Nodes { most } => write!(f, "more than {most} nodes"),
            Excess::ClausesAt { most, .. } => write!(f, "more than {most} clauses"),
            Excess::ClausesFor { package, most } => {
                write!(f, "more than {most} clauses for {package}")
            }
            Excess::Cases { most, .. } => write!(f, "more than {most} cases in all"),
        }
    }
}

impl Error for Excess {}

impl Excess {
    /// The message, with the path of the input and the number of the line if there are any.
    pub(crate) fn text(&self, alloc: Global, paths: &[&str]) -> Result<String, AllocError>
        ensures { IfOk result (λ text.
            string_bytes text ≡ excess_text (of_input (map (λ p. p.now) paths.now)) self.now) }
    {
        let words = self.to_string(alloc)?;
        match self {
            Excess::NodesAt { input, number, .. } => {
                at_line(alloc, input.path(paths), *number, words.as_str())
            }
            Excess::ClausesAt { input, number, .. } => {
                at_line(alloc, input.path(paths), *number, words.as_str())
            }
            Excess::Cases { input, .. } => at(alloc, input.path(paths), words.as_str()),
            Excess::Nodes { .. } => Ok(words),
            Excess::ClausesFor { .. } => Ok(words),
        }
    }
}
