//! The lines of a text, as a table needs them.

ghost use Rattle.std.specs.Prelude.{◌≡◌};
ghost use Rattle.reqtable_groups.specs.Given.{named_by};

use pep440_specifier_list::VersionSpecifiers;
use pep508_name::{ExtraName, PackageName};
use pep508_requirement::{Requirement, VersionOrUrl};
use pep508_tree::MarkerTree;
use reqtable_requirements::Line;
use std::alloc::Global;

/// A line with the parts that a table needs, without its name and URL.
#[derive(Drop)]
pub struct Given {
    /// The line's number in its text.
    pub number: usize,
    pub extras: Vec<ExtraName>,
    pub marker: MarkerTree,
    pub is_url: bool,
    /// The specifiers; none if the line accepts any version or requires a URL.
    pub specifiers: VersionSpecifiers,
}

/// A line with the name of its package.
#[derive(Drop)]
pub(crate) struct NamedGiven {
    pub(crate) name: PackageName,
    pub(crate) given: Given,
}

/// A line without its URL, with the name of its package. Allocates no memory.
pub(crate) fn given_of(alloc: Global, line: Line) -> NamedGiven
    ensures { result ≡ named_by line }
{
    let Line {
        number,
        requirement,
    } = line;
    let Requirement {
        name,
        extras,
        version_or_url,
        marker,
        ..
    } = requirement;
    let (is_url, specifiers) = match version_or_url {
        Some(VersionOrUrl::VersionSpecifier(list)) => (false, list),
        Some(VersionOrUrl::Url(_url)) => (true, VersionSpecifiers::empty(alloc)),
        None => (false, VersionSpecifiers::empty(alloc)),
    };
    let given = Given {
        number,
        extras,
        marker,
        is_url,
        specifiers,
    };
    NamedGiven { name, given }
}
